// Pairs with a number out of its range, which no call makes.
ghost use Rattle.std.specs.Prelude.{◌≡◌, ◌||◌};
ghost use Rattle.host_calls.specs.Halves.{numbers_unsound, work_unsound};
ghost use Rattle.pair.specs.Sound.{setup_unfit, setup_unsound, ring_unsound, send_unsound, message_unsound, read_unsound, counters_unsound, pair_unsound};

use pair::{Pair, Setup};
use sequence::{Msn, Psn};

// Whether a number of the set-up is bad.
#[tactic(auto, unfolding(pair::specs::Sound::setup_unfit))]
pub fn setup_unfit(setup: Setup) -> bool
    ensures { result ≡ setup_unfit setup }
{
    pmtu::pmtu_unfit(setup.pmtu)
        || header::other_service(setup.service)
        || header::QPN_SPACE <= setup.ours
        || header::QPN_SPACE <= setup.theirs
        || Psn::SPACE <= setup.start.0
        || setup.pkey % header::PKEY_TOP == 0
        || pair::TIMER_LIMIT < setup.timer
}

// Whether no set-up accepts these numbers.
#[tactic(auto, unfolding(pair::specs::Sound::setup_unsound))]
pub fn setup_unsound(setup: Setup) -> bool
    ensures { result ≡ setup_unsound setup }
{
    setup_unfit(setup) || pair::LIMIT < setup.memory
}

// A ring has no more rows than its table.
#[tactic(auto, unfolding(pair::specs::Sound::ring_unsound))]
fn ring_unsound(capacity: usize, head: usize, count: usize) -> bool
    ensures { result ≡ ring_unsound capacity head count }
{
    capacity <= head || capacity < count
}

// An open SEND holds an entry, and has stored no more than memory can have.
#[tactic(auto, unfolding(pair::specs::Sound::send_unsound, pair::specs::Sound::no_entry))]
fn send_unsound(stored: usize, entries: usize) -> bool
    ensures { result ≡ send_unsound stored entries }
{
    entries == 0 || pair::LIMIT < stored
}

// An open WRITE has bytes to come, within the limit, and its next byte has an address.
#[tactic(auto, unfolding(pair::specs::Sound::message_unsound, pair::specs::Sound::write_unsound))]
fn message_unsound(kind: u8, stored: usize, address: u64, length: usize, entries: usize) -> bool
    ensures { result ≡ message_unsound kind stored address length entries }
{
    match kind {
        pair::CLOSED => false,
        opcode::SEND => send_unsound(stored, entries),
        opcode::WRITE => {
            length <= stored || pair::LIMIT < length || table::past_top(address, stored as u64)
        }
        _ => true,
    }
}

// A read answer has no more responses to send than there are, lies in memory, and has numbers of 24 bits.
#[tactic(auto, unfolding(pair::specs::Sound::read_unsound))]
fn read_unsound(
    remaining: usize,
    offset: usize,
    length: usize,
    psn: Psn,
    msn: Msn,
    pmtu: usize,
    memory: usize,
) -> bool
    ensures { result ≡ read_unsound remaining offset length psn.0 msn.0 pmtu memory }
{
    remaining != 0
        && (pmtu::count(length, pmtu) < remaining
            || table::outside(offset as u64, length as u64, memory as u64)
            || Psn::SPACE <= psn.0
            || Msn::SPACE <= msn.0)
}

// The state is one of three, PSN and MSN have 24 bits.
#[tactic(auto, unfolding(pair::specs::Sound::counters_unsound))]
fn counters_unsound(state: u8, expected: Psn, msn: Msn) -> bool
    ensures { result ≡ counters_unsound state expected.0 msn.0 }
{
    pair::ERROR < state || Psn::SPACE <= expected.0 || Msn::SPACE <= msn.0
}

// Whether a number that a pair always has is out of its range: of its set-up, state, counters and rings. The calls for
// each packet make these tests and the next by two calls: as one function they are too long to be inlined, and the
// pair would go through memory for every packet.
#[tactic(auto, unfolding(crate::specs::Halves::numbers_unsound))]
pub fn numbers_unsound(pair: Pair) -> bool
    ensures { result ≡ numbers_unsound pair }
{
    setup_unsound(pair.setup)
        || counters_unsound(pair.state, pair.expected, pair.msn)
        || ring_unsound(table::ENTRIES, pair.entries.head, pair.entries.count)
        || ring_unsound(table::SAVED, pair.saved.head, pair.saved.count)
}

// Whether some number is, given whether one of those is: one of the open message or of the READ being answered.
#[tactic(auto, unfolding(crate::specs::Halves::work_unsound))]
pub fn work_unsound(numbers: bool, pair: Pair) -> bool
    ensures { result ≡ (numbers || work_unsound pair) }
{
    numbers
        || message_unsound(
            pair.message.kind,
            pair.message.stored,
            pair.message.address,
            pair.message.length,
            pair.entries.count,
        )
        || read_unsound(
            pair.read.remaining,
            pair.read.offset,
            pair.read.length,
            pair.read.psn,
            pair.read.msn,
            pair.setup.pmtu,
            pair.setup.memory,
        )
}

// Whether some number of the pair is out of its range.
#[tactic(auto, using(crate::proofs::Halves::halves))]
pub fn unsound(pair: Pair) -> bool
    ensures { result ≡ pair_unsound pair }
{
    let numbers = numbers_unsound(pair);
    work_unsound(numbers, pair)
}
