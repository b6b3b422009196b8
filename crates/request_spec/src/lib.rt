// The request checks of a responder. Here their types; the definitions stand in specs/, their laws in proofs/.
#![tactic(auto)]

use sequence::Psn;

// How many bytes an atomic names; their address is a multiple of it.
pub const ATOMIC_LENGTH: usize = 8;

// The request checks, in the order in which they are made: of a request that is refused, the first that fails.
#[derive(Clone, Copy, Debug, PartialEq, Eq)]
pub enum RequestCheck {
    Sequence,
    Function,
    Pad,
    DmaLength,
    Entry,
    // The entry's row is out of range, so no call wrote it.
    EntryOutside,
    Key,
    Lengths,
}

// What the headers after the BTH say, each number 0 and each flag false where no header has it; swap is also FetchAdd's
// addend. A flag and no Option: decide::decision promises what comes of every packet, also with a value beside a false one.
#[derive(Clone, Copy, Default)]
pub struct Operands {
    pub address: u64,
    pub key: u32,
    pub length: usize,
    pub swap: u64,
    pub compare: u64,
    pub immediate: bool,
    pub value: u32,
}

// A request packet as numbers: the kind and place of its opcode, AckReq, PadCnt and PSN, where its payload starts, how
// many bytes stand there, pad included, and the operands.
#[derive(Clone, Copy)]
pub struct Packet {
    pub kind: u8,
    pub place: u8,
    pub ackreq: bool,
    pub pad: usize,
    pub psn: Psn,
    pub start: usize,
    pub body: usize,
    pub operands: Operands,
}
