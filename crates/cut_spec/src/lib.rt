// Messages cut into packets: what a message is, and the definitions and laws of its cut. The code that cuts is the
// crate cut.
#![tactic(auto)]

use header::{AtomicEth, Reth};

// The longest message.
pub const MESSAGE_LIMIT: usize = 1048576;

// What the packets of a connection have in common.
#[derive(Clone, Copy)]
pub struct Connection {
    pub service: u8,
    pub pmtu: usize,
    pub pkey: u16,
    pub dest: u32,
}

// Memory of the other side that a request names.
#[derive(Clone, Copy)]
pub struct Target {
    pub address: u64,
    pub key: u32,
}

// What a message asks for. SENDs and WRITEs, and they alone, have bytes, which are lent beside this, and
// may have an immediate.
#[derive(Clone, Copy)]
pub enum Request {
    Send,
    SendImmediate(u32),
    Write(Target),
    WriteImmediate(Target, u32),
    Read(Reth),
    CmpSwap(AtomicEth),
    FetchAdd(Target, u64),
}
