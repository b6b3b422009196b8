// The calls of the host.
#![tactic(auto)]

pub mod sound;

ghost use Rattle.std.specs.Prelude.{◌≡◌};
ghost use Rattle.pair.specs.Pair.{fresh_pair, blank_pair};
ghost use Rattle.pair.specs.Host.{outcome, set_up, set_up_regions, reset_to, reset_regions, made_ready, add_status, add_regions, remove_status, remove_regions, posted, post_entries};

use pair::{HostOutcome, Pair, ReadAnswer, Setup, Status};
use sequence::Msn;
use sound::{setup_unfit, setup_unsound, unsound};
use table::{Entry, Region, Ring};

// A pair as set-up and reset leave it.
#[tactic(auto, unfolding(pair::specs::Pair::fresh_pair))]
fn fresh(setup: Setup) -> Pair
    ensures { result ≡ fresh_pair setup }
{
    Pair {
        setup,
        state: pair::INIT,
        expected: setup.start,
        msn: Msn::default(),
        nakmark: false,
        message: pair::no_message(),
        entries: Ring::default(),
        read: ReadAnswer::default(),
        saved: Ring::default(),
    }
}

// What a refused set-up gives instead of a pair: every call that takes a pair refuses it.
#[tactic(auto, unfolding(pair::specs::Pair::blank_pair, pair::specs::Pair::fresh_pair))]
pub fn blank() -> Pair
    ensures { result ≡ blank_pair }
{
    Pair {
        state: pair::ERROR,
        ..fresh(Setup::default())
    }
}

fn outcome(status: Status, pair: Pair) -> HostOutcome
    ensures { result ≡ outcome status pair }
{
    HostOutcome { status, pair }
}

// Takes the numbers of a new pair, and empties its tables.
#[tactic(auto, unfolding(pair::specs::Host::set_up, pair::specs::Host::set_up_regions, pair::specs::Host::set_up_status, pair::specs::Answer::executed, pair::specs::Answer::status_number))]
pub fn set_up(setup: Setup, regions: &mut [[u64; 7]; table::REGIONS]) -> HostOutcome
    ensures value { result ≡ set_up setup }
    ensures regions_after { regions.new ≡ set_up_regions setup regions.old }
{
    if setup_unfit(setup) {
        return outcome(Status::BadNumber, blank());
    }
    if pair::LIMIT < setup.memory {
        return outcome(Status::OutOfRange, blank());
    }
    *regions = [[0; 7]; table::REGIONS];
    outcome(Status::Executed, fresh(setup))
}

// Starts afresh with the numbers of the set-up and empty tables.
#[tactic(auto, unfolding(pair::specs::Host::reset_to, pair::specs::Host::reset_regions, pair::specs::Host::reset_status, pair::specs::Answer::executed, pair::specs::Answer::status_number))]
pub fn reset(pair: Pair, regions: &mut [[u64; 7]; table::REGIONS]) -> HostOutcome
    ensures value { result ≡ reset_to pair }
    ensures regions_after { regions.new ≡ reset_regions pair regions.old }
{
    let setup = pair.setup;
    if setup_unsound(setup) {
        return outcome(Status::OutOfRange, pair);
    }
    *regions = [[0; 7]; table::REGIONS];
    outcome(Status::Executed, fresh(setup))
}

// The pair takes packets from now on.
#[tactic(auto, unfolding(pair::specs::Host::made_ready, pair::specs::Host::ready_status, pair::specs::Answer::executed, pair::specs::Answer::status_number))]
pub fn make_ready(pair: Pair) -> HostOutcome
    ensures { result ≡ made_ready pair }
{
    if pair.state != pair::INIT {
        return outcome(Status::WrongState, pair);
    }
    if unsound(pair) {
        return outcome(Status::OutOfRange, pair);
    }
    let next = Pair {
        state: pair::READY,
        ..pair
    };
    outcome(Status::Executed, next)
}

// Lets peers name a part of memory by a key.
pub fn add_region(pair: Pair, regions: &mut [[u64; 7]; table::REGIONS], region: Region) -> Status
    ensures value { result ≡ add_status pair regions.old region }
    ensures regions_after { regions.new ≡ add_regions pair regions.old region }
{
    if pair.state == pair::ERROR {
        return Status::WrongState;
    }
    if unsound(pair) {
        return Status::OutOfRange;
    }
    let off = table::region_outside(
        region.address,
        region.length,
        region.offset,
        pair.setup.memory as u64,
    );
    if off {
        return Status::OutOfRange;
    }
    if table::key_row(regions, u64::from(region.key)).is_some() {
        return Status::KeyInUse;
    }
    let Some(free) = table::free_row(regions) else {
        return Status::TableFull;
    };
    regions[free] = table::region_row(region);
    Status::Executed
}

// Takes a key back.
pub fn remove_region(regions: &mut [[u64; 7]; table::REGIONS], key: u32) -> Status
    ensures value { result ≡ remove_status regions.old key }
    ensures regions_after { regions.new ≡ remove_regions regions.old key }
{
    let Some(at) = table::key_row(regions, u64::from(key)) else {
        return Status::NoSuchKey;
    };
    regions[at] = [0; 7];
    Status::Executed
}

// Gives memory for a message that a peer will send.
#[tactic(auto, using(crate::proofs::Halves::halves), unfolding(pair::specs::Host::posted, pair::specs::Host::post_entries, pair::specs::Host::post_status, pair::specs::Answer::executed, pair::specs::Answer::status_number))]
pub fn post_entry(pair: Pair, entries: &mut [[u64; 3]; table::ENTRIES], entry: Entry) -> HostOutcome
    ensures value { result ≡ posted pair entry }
    ensures entries_after { entries.new ≡ post_entries pair entries.old entry }
{
    if pair.state == pair::ERROR {
        return outcome(Status::WrongState, pair);
    }
    let numbers = sound::numbers_unsound(pair);
    if sound::work_unsound(numbers, pair) {
        return outcome(Status::OutOfRange, pair);
    }
    if table::outside(entry.offset, entry.length, pair.setup.memory as u64) {
        return outcome(Status::OutOfRange, pair);
    }
    let head = pair.entries.head;
    let count = pair.entries.count;
    if table::ENTRIES <= count {
        return outcome(Status::TableFull, pair);
    }
    let at = table::entry_slot(head, count);
    let row = table::entry_row(entry);
    entries[at] = row;
    let next = Pair {
        entries: Ring {
            head,
            count: count + 1,
        },
        ..pair
    };
    outcome(Status::Executed, next)
}
