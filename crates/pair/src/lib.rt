// The queue pair: its numbers, its answers, and what its host's calls are to do. The calls themselves are the crate
// host_calls.
#![tactic(auto)]

mod answer;

ghost use Rattle.std.specs.Prelude.{◌≡◌};
ghost use Rattle.pair.specs.Pair.{no_message};

use sequence::{Msn, Psn};
use table::Ring;

// States of a pair. Numbers and no enum, as the kinds and services below: calls take a pair with any numbers and refuse
// those that no call makes (pair_unsound).
pub const INIT: u8 = 0;

pub const READY: u8 = 1;

pub const ERROR: u8 = 2;

// The kind of an open message where none is open; else it is opcode::SEND or opcode::WRITE.
pub const CLOSED: u8 = 255;

// Bytes of lent memory, and of a DMA length, at most.
pub const LIMIT: usize = 1048576;

// The greatest timer code.
pub const TIMER_LIMIT: u8 = 31;

// What set-up is given, and reset brings back: numbers of the connection, the functions that are enabled, and the
// length of the memory that will be lent. The timer code goes into not-ready NAKs. Here and in the pair large fields
// stand before small ones: gaps between fields would be copied with them.
#[derive(Clone, Copy, Default)]
pub struct Setup {
    pub pmtu: usize,
    pub memory: usize,
    pub ours: u32,
    pub theirs: u32,
    pub start: Psn,
    pub pkey: u16,
    pub service: u8,
    pub timer: u8,
    pub send: bool,
    pub write: bool,
    pub read: bool,
    pub atomic: bool,
}

// An open message, of several packets: its kind, the bytes stored so far, and a WRITE's address, key and
// DMA length as its First gave them.
#[derive(Clone, Copy)]
pub struct OpenMessage {
    pub kind: u8,
    pub stored: usize,
    pub address: u64,
    pub key: u32,
    pub length: usize,
}

// A READ that is being answered: how many responses are still to send, the bytes of memory that it reads, the PSN of
// its first response, and the MSN that all of them carry.
#[derive(Clone, Copy, Default)]
pub struct ReadAnswer {
    pub remaining: usize,
    pub offset: usize,
    pub length: usize,
    pub psn: Psn,
    pub msn: Msn,
}

// The pair's numbers. Its tables (regions, entries, saved atomics) are lent beside it; the rings say which rows of the
// last two are in use. An open SEND holds the entry at the head of its ring.
#[derive(Clone, Copy)]
pub struct Pair {
    pub setup: Setup,
    pub message: OpenMessage,
    pub entries: Ring,
    pub read: ReadAnswer,
    pub saved: Ring,
    pub expected: Psn,
    pub msn: Msn,
    pub state: u8,
    pub nakmark: bool,
}

// What a call answers; u8::from gives the rules' number of each.
#[derive(Clone, Copy, Debug, PartialEq, Eq)]
pub enum Status {
    Executed,
    Acknowledged,
    ReadAccepted,
    AtomicExecuted,
    DuplicateAnswered,
    Dropped,
    Abandoned,
    SequenceNak,
    InvalidRequestNak,
    AccessNak,
    NotReadyNak,
    ReadUnfinished,
    TableFull,
    OutOfRange,
    OutputShort,
    WrongState,
    NoSuchKey,
    KeyInUse,
    BadNumber,
}

// What a host call leaves: its answer, and the pair to go on with. No Result: a refusal hands the pair back too
// (set_up, reset_to, made_ready, posted).
#[derive(Clone, Copy)]
pub struct HostOutcome {
    pub status: Status,
    pub pair: Pair,
}

// No message is open.
pub fn no_message() -> OpenMessage
    ensures { result ≡ no_message }
{
    OpenMessage {
        kind: CLOSED,
        stored: 0,
        address: 0,
        key: 0,
        length: 0,
    }
}
