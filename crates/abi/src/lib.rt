// A pair and a header as words of 64 bits, the form in which other languages lend and get them.
#![tactic(auto)]

mod fields;

ghost use Rattle.std.specs.Prelude.{◌≡◌};
ghost use Rattle.abi_spec.specs.Pair.{numbers_stray, flags_stray, heads_stray, fields_stray, strays, timer_said, setup_said, message_of, read_of, said_by, pair_words};

pub use fields::{bth_from, bth_words, extension_from, extension_words};
use pair::{OpenMessage, Pair, ReadAnswer, Setup};
use sequence::{Msn, Psn};
use table::Ring;

// How many words a pair has.
pub const PAIR: usize = 30;

// Ranges of words: numbers of 24 bits, R_Keys and numbers of 32, P_Keys of 16, bytes, rows of the rings, timer codes.
const SPACE: u64 = 1 << 24;

const KEYS: u64 = 1 << 32;

const PKEYS: u64 = 1 << 16;

const BYTE: u64 = 1 << 8;

const ENTRIES: u64 = table::ENTRIES as u64;

const SAVED: u64 = table::SAVED as u64;

const TIMER_LIMIT: u64 = pair::TIMER_LIMIT as u64;

const TIMERS: u64 = TIMER_LIMIT + 1;

// A timer code that no set-up accepts; the pair that is said is refused for it (timer_said).
const NO_TIMER: u8 = 255;

// Whether a number of 24 bits is over its range.
#[tactic(auto, unfolding(abi_spec::specs::Pair::numbers_stray))]
fn numbers_stray(ours: u64, theirs: u64, start: u64, expected: u64, msn: u64) -> bool
    ensures { result ≡ numbers_stray ours theirs start expected msn }
{
    SPACE <= ours || SPACE <= theirs || SPACE <= start || SPACE <= expected || SPACE <= msn
}

// Whether the service or a flag is neither 0 nor 1.
#[tactic(auto, unfolding(abi_spec::specs::Pair::flags_stray))]
fn flags_stray(service: u64, send: u64, write: u64, read: u64, atomic: u64, nakmark: u64) -> bool
    ensures { result ≡ flags_stray service send write read atomic nakmark }
{
    1 < service || 1 < send || 1 < write || 1 < read || 1 < atomic || 1 < nakmark
}

// Whether a ring does not begin in one of its rows.
#[tactic(auto, unfolding(abi_spec::specs::Pair::heads_stray))]
fn heads_stray(entries: u64, saved: u64) -> bool
    ensures { result ≡ heads_stray entries saved }
{
    ENTRIES <= entries || SAVED <= saved
}

// Whether one of the others is over its range.
#[tactic(auto, unfolding(abi_spec::specs::Pair::fields_stray))]
fn fields_stray(pkey: u64, timer: u64, kind: u64, key: u64, psn: u64, msn: u64, state: u64) -> bool
    ensures { result ≡ fields_stray pkey timer kind key psn msn state }
{
    PKEYS <= pkey
        || TIMER_LIMIT < timer
        || BYTE <= kind
        || KEYS <= key
        || KEYS <= psn
        || KEYS <= msn
        || BYTE <= state
}

// Whether words are out of range. Each function above takes numbers that are read already: the compiler makes one OR of
// each range of them, as no read of these depends on a test.
#[tactic(auto, unfolding(abi_spec::specs::Pair::strays, abi_spec::specs::Pair::other_length))]
pub fn strays(w: &[u64]) -> bool
    ensures { result ≡ strays w.now }
{
    let Some(w) = w.as_array::<PAIR>() else {
        return true;
    };
    numbers_stray(w[2], w[3], w[4], w[26], w[27])
        || flags_stray(w[6], w[8], w[9], w[10], w[11], w[29])
        || heads_stray(w[17], w[24])
        || fields_stray(w[5], w[7], w[12], w[15], w[22], w[23], w[28])
}

// The timer code; words out of range have none that a set-up accepts.
#[tactic(auto, unfolding(abi_spec::specs::Pair::timer_said))]
fn timer_said(stray: bool, timer: u64) -> u8
    ensures { result ≡ timer_said stray timer }
{
    if stray {
        NO_TIMER
    } else {
        (timer % TIMERS) as u8
    }
}

#[tactic(auto, unfolding(abi_spec::specs::Pair::setup_said, abi_spec::specs::Words::flag))]
fn setup_said(stray: bool, w: &[u64; PAIR]) -> Setup
    ensures { result ≡ setup_said stray w.now }
{
    Setup {
        pmtu: w[0] as usize,
        memory: w[1] as usize,
        ours: (w[2] % SPACE) as u32,
        theirs: (w[3] % SPACE) as u32,
        start: Psn((w[4] % SPACE) as u32),
        pkey: (w[5] % PKEYS) as u16,
        service: (w[6] % 2) as u8,
        timer: timer_said(stray, w[7]),
        send: w[8] != 0,
        write: w[9] != 0,
        read: w[10] != 0,
        atomic: w[11] != 0,
    }
}

#[tactic(auto, unfolding(abi_spec::specs::Pair::message_of))]
fn message_of(w: &[u64; PAIR]) -> OpenMessage
    ensures { result ≡ message_of w.now }
{
    OpenMessage {
        kind: (w[12] % BYTE) as u8,
        stored: w[13] as usize,
        address: w[14],
        key: (w[15] % KEYS) as u32,
        length: w[16] as usize,
    }
}

#[tactic(auto, unfolding(abi_spec::specs::Pair::read_of))]
fn read_of(w: &[u64; PAIR]) -> ReadAnswer
    ensures { result ≡ read_of w.now }
{
    ReadAnswer {
        remaining: w[19] as usize,
        offset: w[20] as usize,
        length: w[21] as usize,
        psn: Psn((w[22] % KEYS) as u32),
        msn: Msn((w[23] % KEYS) as u32),
    }
}

// The pair that words say, each modulo its range; the blank pair where they are too few. Whether they are out of range
// is found first: with that test in it, this function would be too long to be inlined.
#[tactic(auto, unfolding(abi_spec::specs::Pair::said_by))]
pub fn pair_said(stray: bool, w: &[u64]) -> Pair
    ensures { result ≡ said_by stray w.now }
{
    let Some(w) = w.first_chunk::<PAIR>() else {
        return host_calls::blank();
    };
    Pair {
        setup: setup_said(stray, w),
        message: message_of(w),
        entries: Ring {
            head: (w[17] % ENTRIES) as usize,
            count: w[18] as usize,
        },
        read: read_of(w),
        saved: Ring {
            head: (w[24] % SAVED) as usize,
            count: w[25] as usize,
        },
        expected: Psn((w[26] % SPACE) as u32),
        msn: Msn((w[27] % SPACE) as u32),
        state: (w[28] % BYTE) as u8,
        nakmark: w[29] != 0,
    }
}

// The words of a pair. No From: the trait and the types are of other crates.
#[tactic(auto, unfolding(abi_spec::specs::Pair::pair_words))]
pub fn pair_words(q: Pair) -> [u64; PAIR]
    ensures { result ≡ pair_words q }
{
    [
        q.setup.pmtu as u64,
        q.setup.memory as u64,
        q.setup.ours as u64,
        q.setup.theirs as u64,
        q.setup.start.0 as u64,
        q.setup.pkey as u64,
        q.setup.service as u64,
        q.setup.timer as u64,
        q.setup.send as u64,
        q.setup.write as u64,
        q.setup.read as u64,
        q.setup.atomic as u64,
        q.message.kind as u64,
        q.message.stored as u64,
        q.message.address,
        q.message.key as u64,
        q.message.length as u64,
        q.entries.head as u64,
        q.entries.count as u64,
        q.read.remaining as u64,
        q.read.offset as u64,
        q.read.length as u64,
        q.read.psn.0 as u64,
        q.read.msn.0 as u64,
        q.saved.head as u64,
        q.saved.count as u64,
        q.expected.0 as u64,
        q.msn.0 as u64,
        q.state as u64,
        q.nakmark as u64,
    ]
}
