// Packet headers as values, and the tests of service and P_Key. The definitions of reading and writing them, and the
// proof that each undoes the other, stand in specs/ and proofs/; the code in decode and encode.
#![tactic(auto)]

ghost use Rattle.std.specs.Prelude.{◌≡◌};
ghost use Rattle.header.specs.Read.{other_service, check_number};
ghost use Rattle.header.specs.Check.{pkeys_match};
ghost use Rattle.header.specs.Refusal.{refusal_number};

use sequence::{Msn, Psn};

// How many queue pair numbers there are.
pub const QPN_SPACE: u32 = 16777216;

// The top bit of a P_Key: a full member's.
pub const PKEY_TOP: u16 = 32768;

// Bytes of the longest packet.
pub const PACKET_LIMIT: usize = 4128;

// The number of the answer, also to C, to a packet whose header does not read: a quiet drop.
pub const QUIET_DROP: u8 = 5;

// The numbers of the refusals.
pub const OUT_OF_RANGE: u8 = 34;

pub const OUTPUT_SHORT: u8 = 35;

pub const BAD_NUMBER: u8 = 39;

// Base transport header.
#[derive(Clone, Copy, Default)]
pub struct Bth {
    pub opcode: u8,
    pub se: bool,
    pub migreq: bool,
    pub pad: u8,
    pub tver: u8,
    pub pkey: u16,
    pub reserved8: u8,
    pub dest: u32,
    pub ackreq: bool,
    pub reserved7: u8,
    pub psn: Psn,
}

// RDMA extended transport header.
#[derive(Clone, Copy)]
pub struct Reth {
    pub address: u64,
    pub key: u32,
    pub length: u32,
}

// Atomic extended transport header; swap is also FetchAdd's addend.
#[derive(Clone, Copy)]
pub struct AtomicEth {
    pub address: u64,
    pub key: u32,
    pub swap: u64,
    pub compare: u64,
}

// Acknowledge extended transport header.
#[derive(Clone, Copy)]
pub struct Aeth {
    pub syndrome: u8,
    pub msn: Msn,
}

// The headers after the BTH, in wire order, as one value: an absent header has no field to hold junk.
#[derive(Clone, Copy)]
pub enum Extension {
    Bare,
    Remote(Reth),
    RemoteImmediate(Reth, u32),
    Immediate(u32),
    Atomic(AtomicEth),
    Acknowledge(Aeth),
    AtomicAcknowledge(Aeth, u64),
}

#[derive(Clone, Copy)]
pub struct Header {
    pub bth: Bth,
    pub extension: Extension,
}

// Why a packet is dropped: the header check that failed, in their order.
#[derive(Clone, Copy, Debug, PartialEq, Eq)]
pub enum Reason {
    Length,
    Version,
    Number,
    Key,
    Service,
    Response,
    Unserved,
    Short,
    NotReady,
}

// The check's number.
impl From<Reason> for u8 {
    ghost from_gives = { λ reason n. n ≡ check_number reason };

    fn from(reason: Reason) -> u8
        ensures { result ≡ check_number reason }
    {
        match reason {
            Reason::Length => 1,
            Reason::Version => 2,
            Reason::Number => 3,
            Reason::Key => 4,
            Reason::Service => 5,
            Reason::Response => 6,
            Reason::Unserved => 7,
            Reason::Short => 8,
            Reason::NotReady => 9,
        }
    }
}

// Why a call that writes or counts is refused. A header is a BadNumber where there is no such header, OutputShort where
// the output is too short for it.
#[derive(Clone, Copy, Debug, PartialEq, Eq)]
pub enum Refusal {
    OutOfRange,
    OutputShort,
    BadNumber,
}

impl From<Refusal> for u8 {
    ghost from_gives = { λ refusal number. number ≡ refusal_number refusal };

    fn from(refusal: Refusal) -> u8
        ensures { result ≡ refusal_number refusal }
    {
        match refusal {
            Refusal::OutOfRange => OUT_OF_RANGE,
            Refusal::OutputShort => OUTPUT_SHORT,
            Refusal::BadNumber => BAD_NUMBER,
        }
    }
}

// Whether service bits are neither RC's nor UC's.
#[tactic(auto, unfolding(crate::specs::Read::other_service))]
pub fn other_service(service: u8) -> bool
    ensures { result ≡ other_service service }
{
    opcode::UC < service
}

// Whether two P_Keys match, so that their owners may talk.
#[tactic(auto, unfolding(crate::specs::Check::pkeys_match, crate::specs::Check::full_member))]
pub fn pkeys_match(theirs: u16, ours: u16) -> bool
    ensures { result ≡ pkeys_match theirs ours }
{
    theirs % PKEY_TOP == ours % PKEY_TOP
        && theirs % PKEY_TOP != 0
        && (PKEY_TOP <= theirs || PKEY_TOP <= ours)
}
