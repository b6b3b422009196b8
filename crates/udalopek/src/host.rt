// The calls of a host, on words that are lent. C lends a pair as a pointer and a length: a call that reads the pair makes
// the array of it once, and passes that on.
ghost use Rattle.std.specs.Prelude.{◌≡◌, cond};
ghost use Rattle.table.specs.declared.Region.{Region};
ghost use Rattle.table.specs.declared.Entry.{Entry};
ghost use Rattle.pair.specs.declared.Setup.{Setup};
ghost use Rattle.pair.specs.Answer.{status_number, executed};
ghost use Rattle.abi_spec.specs.Pair.{pair_words};
ghost use Rattle.udalopek_spec.specs.Host.{set_up_number, set_up_words, set_up_table, reset_number, reset_words, reset_table, ready_number, ready_words, add_number, add_table, remove_number, remove_table, post_number, post_words, post_table};

use crate::left;
use crate::words::said;
use pair::{HostOutcome, Setup};
use sequence::Psn;
use table::{Entry, Region};

// Writes the pair of a call that is done over its words, and answers the call's number.
#[tactic(auto, unfolding(pair::specs::Answer::executed))]
fn leave(words: &mut [u64; abi::PAIR], left: HostOutcome) -> u8
    ensures value { result ≡ status_number left.status }
    ensures words_after { words.new ≡ cond (executed left.status) (pair_words left.pair) words.old }
{
    let number = u8::from(left.status);
    if number == 0 {
        *words = abi::pair_words(left.pair);
    }
    number
}

// Takes the numbers of a new pair, whatever the words and the table had.
#[tactic(auto, unfolding(udalopek_spec::specs::Host::set_up_number, udalopek_spec::specs::Host::set_up_words, udalopek_spec::specs::Host::set_up_table, abi_spec::specs::Pair::other_length))]
#[unsafe(no_mangle)]
pub extern "C" fn udalopek_set_up(
    pair: &mut [u64],
    regions: &mut [[u64; 7]; table::REGIONS],
    service: u8,
    pmtu: usize,
    ours: u32,
    theirs: u32,
    pkey: u16,
    start: u32,
    timer: u8,
    send: bool,
    write: bool,
    read: bool,
    atomic: bool,
    memory: usize,
) -> u8
    ensures { let s : Setup = record { pmtu = pmtu; memory = memory; ours = ours; theirs = theirs; start = record { 0 = start }; pkey = pkey; service = service; timer = timer; send = send; write = write; read = read; atomic = atomic } in (result ≡ set_up_number pair.old s) × (pair.new ≡ set_up_words pair.old s) × (regions.new ≡ set_up_table pair.old regions.old s) }
{
    let Some(words) = pair.as_mut_array() else {
        return header::OUT_OF_RANGE;
    };
    let setup = Setup {
        pmtu,
        memory,
        ours,
        theirs,
        start: Psn(start),
        pkey,
        service,
        timer,
        send,
        write,
        read,
        atomic,
    };
    leave(words, host_calls::set_up(setup, regions))
}

// Starts afresh with the numbers of the set-up.
#[tactic(auto, unfolding(udalopek_spec::specs::Host::reset_number, udalopek_spec::specs::Host::reset_words, udalopek_spec::specs::Host::reset_table, abi_spec::specs::Pair::strays, abi_spec::specs::Pair::other_length))]
#[unsafe(no_mangle)]
pub extern "C" fn udalopek_reset(pair: &mut [u64], regions: &mut [[u64; 7]; table::REGIONS]) -> u8
    ensures value { result ≡ reset_number pair.old }
    ensures pair_after { pair.new ≡ reset_words pair.old }
    ensures regions_after { regions.new ≡ reset_table pair.old regions.old }
{
    let Some(words) = pair.as_mut_array() else {
        return header::OUT_OF_RANGE;
    };
    leave(words, host_calls::reset(said(words), regions))
}

// The pair takes packets from now on.
#[tactic(auto, unfolding(udalopek_spec::specs::Host::ready_number, udalopek_spec::specs::Host::ready_words, abi_spec::specs::Pair::strays, abi_spec::specs::Pair::other_length))]
#[unsafe(no_mangle)]
pub extern "C" fn udalopek_make_ready(pair: &mut [u64]) -> u8
    ensures value { result ≡ ready_number pair.old }
    ensures pair_after { pair.new ≡ ready_words pair.old }
{
    let Some(words) = pair.as_mut_array() else {
        return header::OUT_OF_RANGE;
    };
    leave(words, host_calls::make_ready(said(words)))
}

// Lets peers name a part of memory by a key.
#[tactic(auto, unfolding(udalopek_spec::specs::Host::add_number, udalopek_spec::specs::Host::add_table, abi_spec::specs::Pair::other_length))]
#[unsafe(no_mangle)]
pub extern "C" fn udalopek_add_region(
    pair: &[u64],
    regions: &mut [[u64; 7]; table::REGIONS],
    key: u32,
    address: u64,
    length: u64,
    offset: u64,
    write: bool,
    read: bool,
    atomic: bool,
) -> u8
    ensures { let r : Region = record { key = key; address = address; length = length; offset = offset; write = write; read = read; atomic = atomic } in (result ≡ add_number pair.now regions.old r) × (regions.new ≡ add_table pair.now regions.old r) }
{
    let Some(words) = pair.as_array() else {
        return header::OUT_OF_RANGE;
    };
    let region = Region {
        key,
        address,
        length,
        offset,
        write,
        read,
        atomic,
    };
    u8::from(host_calls::add_region(said(words), regions, region))
}

// Takes a key back.
#[tactic(auto, unfolding(udalopek_spec::specs::Host::remove_number, udalopek_spec::specs::Host::remove_table, abi_spec::specs::Pair::other_length))]
#[unsafe(no_mangle)]
pub extern "C" fn udalopek_remove_region(
    pair: &[u64],
    regions: &mut [[u64; 7]; table::REGIONS],
    key: u32,
) -> u8
    ensures value { result ≡ remove_number pair.now regions.old key }
    ensures regions_after { regions.new ≡ remove_table pair.now regions.old key }
{
    if pair.len() != abi::PAIR {
        return header::OUT_OF_RANGE;
    }
    u8::from(host_calls::remove_region(regions, key))
}

// Gives memory for a message that a peer will send.
#[tactic(auto, unfolding(udalopek_spec::specs::Host::post_number, udalopek_spec::specs::Host::post_words, udalopek_spec::specs::Host::post_table, abi_spec::specs::Pair::strays, abi_spec::specs::Pair::other_length))]
#[unsafe(no_mangle)]
pub extern "C" fn udalopek_post_entry(
    pair: &mut [u64],
    entries: &mut [[u64; 3]; table::ENTRIES],
    number: u64,
    offset: u64,
    length: u64,
) -> u8
    ensures { let e : Entry = record { number = number; offset = offset; length = length } in (result ≡ post_number pair.old e) × (pair.new ≡ post_words pair.old e) × (entries.new ≡ post_table pair.old entries.old e) }
{
    let Some(words) = pair.as_mut_array() else {
        return header::OUT_OF_RANGE;
    };
    let entry = Entry {
        number,
        offset,
        length,
    };
    let posted = host_calls::post_entry(said(words), entries, entry);
    let number = u8::from(posted.status);
    if number == 0 {
        left::put_entries(words, posted.pair.entries);
    }
    number
}
