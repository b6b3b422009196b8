// What an opcode says of its packet: kind of request or response, place in the message, the headers
// after the BTH, and the length of all headers.
#![tactic(auto)]

ghost use Rattle.std.specs.Prelude.{◌≡◌, ◌*◌, ◌/◌, ◌%◌, ◌^◌, ◌≤◌, ◌<◌, true, false, cond, eqb, ltb};
ghost use Rattle.opcode.specs.Kind as Kind;
ghost use Rattle.opcode.specs.Service as Service;
ghost use Rattle.opcode.specs.Place.{starts, ends};
ghost use Rattle.opcode.specs.Opcode.{per_service, kind_of, place_in, place_of, send_write_follows, follows_of, length_of, low_class, reserved_class, uc_has, class_of};

// How many opcodes a service has: those of the low five bits.
pub const PER_SERVICE: u8 = 32;

// Services, kinds, places and the headers that follow are numbers and no enums: calls take every number and promise what
// comes of it (decode::admit, decide::decision, starts), the opcode is of the wire, and the headers are a digit of the
// table below and a word of the C interface.
//
// Services, the opcode's bits 7 to 5.
pub const RC: u8 = 0;

pub const UC: u8 = 1;

// Kinds: each by the first opcode that has it, in the low five bits.
pub const SEND: u8 = 0;

pub const WRITE: u8 = 6;

pub const READ: u8 = 12;

pub const READ_RESPONSE: u8 = 13;

pub const ACKNOWLEDGE: u8 = 17;

pub const ATOMIC_ACKNOWLEDGE: u8 = 18;

pub const CMP_SWAP: u8 = 19;

pub const FETCH_ADD: u8 = 20;

pub const RESERVED: u8 = 21;

// Places in the message: with no immediate, a SEND's or a WRITE's opcode is kind plus place.
pub const FIRST: u8 = 0;

pub const MIDDLE: u8 = 1;

pub const LAST: u8 = 2;

pub const ONLY: u8 = 4;

// Opcodes, in the low five bits, where kind and place alone do not say which headers follow.
const SEND_LAST_IMMEDIATE: u8 = 3;

const SEND_ONLY_IMMEDIATE: u8 = 5;

const WRITE_FIRST: u8 = 6;

const WRITE_LAST_IMMEDIATE: u8 = 9;

const WRITE_ONLY: u8 = 10;

const WRITE_ONLY_IMMEDIATE: u8 = 11;

const READ_RESPONSE_FIRST: u8 = 13;

const READ_RESPONSE_MIDDLE: u8 = 14;

const READ_RESPONSE_LAST: u8 = 15;

pub const READ_RESPONSE_ONLY: u8 = 16;

// The headers that follow the BTH.
pub const NONE: u8 = 0;

pub const RETH: u8 = 1;

pub const RETH_IMMEDIATE: u8 = 2;

pub const IMMEDIATE: u8 = 3;

pub const ATOMIC_ETH: u8 = 4;

pub const AETH: u8 = 5;

pub const AETH_ATOMIC_ACK: u8 = 6;

// Bytes of each header.
pub const BTH_LENGTH: usize = 12;

const RETH_LENGTH: usize = 16;

const IMMEDIATE_LENGTH: usize = 4;

const ATOMIC_ETH_LENGTH: usize = 28;

const AETH_LENGTH: usize = 4;

const ATOMIC_ACK_ETH_LENGTH: usize = 8;

// Bytes of the BTH with the headers that follow it.
pub const WITH_RETH: usize = BTH_LENGTH + RETH_LENGTH;

pub const WITH_RETH_IMMEDIATE: usize = WITH_RETH + IMMEDIATE_LENGTH;

pub const WITH_IMMEDIATE: usize = BTH_LENGTH + IMMEDIATE_LENGTH;

pub const WITH_ATOMIC_ETH: usize = BTH_LENGTH + ATOMIC_ETH_LENGTH;

pub const WITH_AETH: usize = BTH_LENGTH + AETH_LENGTH;

pub const WITH_AETH_ATOMIC_ACK: usize = WITH_AETH + ATOMIC_ACK_ETH_LENGTH;

#[derive(Clone, Copy)]
pub struct OpcodeClass {
    pub kind: u8,
    pub place: u8,
    pub follows: u8,
    pub length: usize,
}

// The class by cases, which nothing calls since the table below: taking these functions away is a change of its own.
fn kind_of(low: u8) -> u8
    ensures { result ≡ kind_of low }
{
    if low < WRITE {
        return SEND;
    }
    if low < READ {
        return WRITE;
    }
    if low == READ {
        return READ;
    }
    if low < ACKNOWLEDGE {
        return READ_RESPONSE;
    }
    if low == ACKNOWLEDGE {
        return ACKNOWLEDGE;
    }
    if low == ATOMIC_ACKNOWLEDGE {
        return ATOMIC_ACKNOWLEDGE;
    }
    if low == CMP_SWAP {
        return CMP_SWAP;
    }
    if low == FETCH_ADD {
        return FETCH_ADD;
    }
    RESERVED
}

// The place of a SEND's opcode, or of a WRITE's counted from its First.
fn place_in(n: u8) -> u8
    ensures { result ≡ place_in n }
{
    if n == FIRST {
        return FIRST;
    }
    if n == MIDDLE {
        return MIDDLE;
    }
    if n < ONLY {
        return LAST;
    }
    ONLY
}

fn place_of(low: u8) -> u8
    ensures { result ≡ place_of low }
{
    if low < WRITE {
        return place_in(low);
    }
    if low < READ {
        return place_in(low - WRITE);
    }
    if low == READ_RESPONSE_FIRST {
        return FIRST;
    }
    if low == READ_RESPONSE_MIDDLE {
        return MIDDLE;
    }
    if low == READ_RESPONSE_LAST {
        return LAST;
    }
    ONLY
}

// Whether a packet at this place begins its message.
#[tactic(auto, unfolding(crate::specs::Place::starts))]
pub fn starts(place: u8) -> bool
    ensures { result ≡ starts place }
{
    place == FIRST || place == ONLY
}

// Whether it ends it.
pub fn ends(place: u8) -> bool
    ensures { result ≡ ends place }
{
    LAST <= place
}

fn send_write_follows(low: u8) -> u8
    ensures { result ≡ send_write_follows low }
{
    if low == SEND_LAST_IMMEDIATE {
        return IMMEDIATE;
    }
    if low == SEND_ONLY_IMMEDIATE {
        return IMMEDIATE;
    }
    if low == WRITE_FIRST {
        return RETH;
    }
    if low == WRITE_LAST_IMMEDIATE {
        return IMMEDIATE;
    }
    if low == WRITE_ONLY {
        return RETH;
    }
    if low == WRITE_ONLY_IMMEDIATE {
        return RETH_IMMEDIATE;
    }
    NONE
}

fn follows_of(low: u8) -> u8
    ensures { result ≡ follows_of low }
{
    if low < READ {
        return send_write_follows(low);
    }
    if low == READ {
        return RETH;
    }
    if low == READ_RESPONSE_FIRST {
        return AETH;
    }
    if low == READ_RESPONSE_LAST {
        return AETH;
    }
    if low == READ_RESPONSE_ONLY {
        return AETH;
    }
    if low == ACKNOWLEDGE {
        return AETH;
    }
    if low == ATOMIC_ACKNOWLEDGE {
        return AETH_ATOMIC_ACK;
    }
    if low == CMP_SWAP {
        return ATOMIC_ETH;
    }
    if low == FETCH_ADD {
        return ATOMIC_ETH;
    }
    NONE
}

// The length of the BTH and the headers that follow it.
fn length_of(follows: u8) -> usize
    ensures { result ≡ length_of follows }
{
    if follows == RETH {
        return WITH_RETH;
    }
    if follows == RETH_IMMEDIATE {
        return WITH_RETH_IMMEDIATE;
    }
    if follows == IMMEDIATE {
        return WITH_IMMEDIATE;
    }
    if follows == ATOMIC_ETH {
        return WITH_ATOMIC_ETH;
    }
    if follows == AETH {
        return WITH_AETH;
    }
    if follows == AETH_ATOMIC_ACK {
        return WITH_AETH_ATOMIC_ACK;
    }
    BTH_LENGTH
}

fn low_class(low: u8) -> OpcodeClass
    ensures { result ≡ low_class low }
{
    let kind = kind_of(low);
    let place = place_of(low);
    let follows = follows_of(low);
    let length = length_of(follows);
    OpcodeClass {
        kind,
        place,
        follows,
        length,
    }
}

// The table of classes, indexed by the opcode's low five bits. It is one number a column, with an octal digit for each row:
// the last digit is that of opcode 0. From right to left stand the SENDs, the WRITEs, READ, the READ responses, and one
// each for Acknowledge, Atomic Acknowledge, CmpSwap and FetchAdd, 20. Left of these all is 0, and that is the row of the
// reserved opcodes, 21 to 31. An array would be stored to the stack where it is named, for every packet.
//
// How many opcodes of its kind come before it: the kind is the opcode less that.
const KINDS: u64 = 0o0_0_0_0_3210_0_543210_543210;

// How far its place is below ONLY.
const PLACE: u64 = 0o0_0_0_0_0234_0_002234_002234;

// The headers that follow.
const AFTER: u64 = 0o4_4_6_5_5505_1_213001_303000;

// How many words of 4 bytes these have.
const WORDS: u64 = 0o7_7_3_1_1101_4_541004_101000;

// The row of an opcode; reserved ones share one.
fn row_of(low: u8) -> u8
    ensures value { result ≡ cond (ltb low Kind.reserved) low Kind.reserved }
    ensures upper_bound { result ≤ Kind.reserved }
{
    low.min(RESERVED)
}

fn digit(column: u64, row: u8) -> u8
    requires { row ≤ Kind.reserved }
    ensures { result ≡ column / 2 ^ (3 * row) % 8 }
{
    ((column >> (3 * row)) % 8) as u8
}

// The class that the row says. 32 and 8 are added, and taken off by the remainder, so that no digit makes a difference
// negative.
fn table_class(low: u8) -> OpcodeClass
    requires { low < per_service }
    ensures { result ≡ low_class low }
{
    let row = row_of(low);
    let before = digit(KINDS, row);
    let below = digit(PLACE, row);
    let follows = digit(AFTER, row);
    let words = digit(WORDS, row);
    OpcodeClass {
        kind: (row + PER_SERVICE - before) % PER_SERVICE,
        place: (ONLY + 8 - below) % 8,
        follows,
        length: BTH_LENGTH + words as usize * 4,
    }
}

fn reserved_class() -> OpcodeClass
    ensures { result ≡ reserved_class }
{
    OpcodeClass {
        kind: RESERVED,
        place: ONLY,
        follows: NONE,
        length: BTH_LENGTH,
    }
}

// Whether UC has the opcode with these low five bits.
pub fn uc_has(low: u8) -> bool
    ensures { result ≡ uc_has low }
{
    low < READ
}

// Whether a service has the opcode with these low five bits.
fn served(service: u8, low: u8) -> bool
    ensures { result ≡ cond (eqb service Service.rc) true (cond (eqb service Service.uc) (uc_has low) false) }
{
    service == RC || service == UC && uc_has(low)
}

// The class of an opcode: the one function that knows what opcodes mean. table_class stands in it once, so that the
// compiler inlines it where packets come in.
pub fn class(opcode: u8) -> OpcodeClass
    ensures { result ≡ class_of opcode }
{
    let low = opcode % PER_SERVICE;
    if served(opcode / PER_SERVICE, low) {
        table_class(low)
    } else {
        reserved_class()
    }
}
