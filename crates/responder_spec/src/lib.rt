// What a responder does, as definitions in specs/; their laws are the crates .._laws. Here the types.
#![tactic(auto)]

use pair::{OpenMessage, Pair, Status};
use sequence::{Msn, Psn};

// The report to the host of a message that took a receive entry: the entry's number, the message's bytes, and the
// immediate if there is one. Where nothing completes, every number is 0 and every flag false. Flags and no Options: it is
// part of a Decision, of which apply::pair_after promises what each leaves, also one with numbers beside a false flag.
#[derive(Clone, Copy, Default)]
pub struct Completion {
    pub some: bool,
    pub number: u64,
    pub length: usize,
    pub immediate: bool,
    pub value: u32,
}

// What is done to memory: nothing, the packet's payload is stored, or an atomic is run. Numbers, since apply::change and
// apply::keep promise what comes of every number.
pub const NOTHING: u8 = 0;

pub const STORE: u8 = 1;

pub const FETCH_ADD: u8 = 2;

pub const CMP_SWAP: u8 = 3;

// Here and in a pair large fields come before small ones, so that there are no gaps to copy.

// What happens to memory: the act, and where; the payload's start and size in the packet, or an atomic's operands.
#[derive(Clone, Copy, Default)]
pub struct Change {
    pub at: usize,
    pub start: usize,
    pub size: usize,
    pub swap: u64,
    pub compare: u64,
    pub act: u8,
}

// How an executed packet moves the pair on: the message that is open afterwards, how many PSNs are taken, whether a
// message ends, and the completion.
#[derive(Clone, Copy)]
pub struct Progress {
    pub message: OpenMessage,
    pub completion: Completion,
    pub psns: usize,
    pub ends: bool,
}

// No packet is sent. A number like the kinds: of every other kind, too, acknowledge::write_ack promises what it writes.
pub const NO_PACKET: u8 = 255;

// What is sent: an ACK or NAK, an Atomic Acknowledge, the responses of a READ, or nothing. Its kind, PSN, syndrome and
// MSN; an atomic's value; where in memory a READ reads, how many bytes, and how many of its responses are left. The PSN
// of a READ is that of its first response.
#[derive(Clone, Copy, Default)]
pub struct Reply {
    pub value: u64,
    pub offset: usize,
    pub length: usize,
    pub remaining: usize,
    pub psn: Psn,
    pub msn: Msn,
    pub kind: u8,
    pub syndrome: u8,
}

// What a packet leads to, before anything is done: the answer, and what becomes of memory, of the pair and of the
// output. The MSN of the reply and the value that an atomic finds are known when it is done.
#[derive(Clone, Copy)]
pub struct Decision {
    pub progress: Progress,
    pub reply: Reply,
    pub change: Change,
    pub status: Status,
}

// What inbound and next response leave: the answer, the pair to go on with, a completion, and how many bytes of output
// were written.
#[derive(Clone, Copy)]
pub struct Outcome {
    pub status: Status,
    pub pair: Pair,
    pub completion: Completion,
    pub outgoing: usize,
}
