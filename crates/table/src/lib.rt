// The tables of a pair, lent as rows of numbers: regions, receive entries, saved atomics.
#![tactic(auto)]

ghost use Rattle.std.specs.Prelude.{◌≡◌, ◌+◌, ◌%◌, ◌^◌, ◌<◌, ◌≤◌, [], slice_index_or};
ghost use Rattle.table.specs.View.{region_of, ring_from, newest, newest_saved, saved_ring, saved_rows};
ghost use Rattle.table.specs.Table.{entry_capacity, slot, entry_slot, saved_slot, memory_offset, key_row, free_row, row_found, region_row, entry_row, outside, past_top, region_outside};

use sequence::Psn;

// How many rows each table has.
pub const REGIONS: usize = 16;

pub const ENTRIES: usize = 16;

pub const SAVED: usize = 16;

// Columns of a region's row; a right is 1 or 0. Rows are arrays of numbers and no structs: the C interface lends them.
pub const REGION_KEY: usize = 0;

pub const REGION_ADDRESS: usize = 1;

pub const REGION_LENGTH: usize = 2;

pub const REGION_OFFSET: usize = 3;

pub const REGION_WRITE: usize = 4;

pub const REGION_READ: usize = 5;

pub const REGION_ATOMIC: usize = 6;

// Columns of an entry's row.
pub const ENTRY_NUMBER: usize = 0;

pub const ENTRY_OFFSET: usize = 1;

pub const ENTRY_LENGTH: usize = 2;

// Columns of a saved atomic's row.
const SAVED_PSN: usize = 0;

const SAVED_VALUE: usize = 1;

// Memory that peers may name by a key.
// A row of length 0 is empty.
#[derive(Clone, Copy)]
pub struct Region {
    pub key: u32,
    pub address: u64,
    pub length: u64,
    pub offset: u64,
    pub write: bool,
    pub read: bool,
    pub atomic: bool,
}

// Memory for one message, under a number of the host's choice.
#[derive(Clone, Copy)]
pub struct Entry {
    pub number: u64,
    pub offset: u64,
    pub length: u64,
}

// The tables, lent to be read.
#[derive(Clone, Copy)]
pub struct Tables<'a> {
    pub regions: &'a [[u64; 7]; REGIONS],
    pub entries: &'a [[u64; 3]; ENTRIES],
    pub saved: &'a [[u64; 2]; SAVED],
}

// Which rows are in use: count of them, from row head on, after the last the first. Indices and no slices, since the
// table is the host's (the C interface, fixed memory).
#[derive(Clone, Copy, Default)]
pub struct Ring {
    pub head: usize,
    pub count: usize,
}

// Whether length bytes from offset on do not all lie in memory.
#[tactic(auto, unfolding(crate::specs::Table::outside))]
pub fn outside(offset: u64, length: u64, memory: u64) -> bool
    ensures { result ≡ outside offset length memory }
{
    memory < offset || memory - offset < length
}

// Whether address plus length is 2^64 or more.
pub fn past_top(address: u64, length: u64) -> bool
    ensures { result ≡ past_top address length }
{
    u64::MAX - address < length
}

// Whether there can be no such region.
#[tactic(auto, unfolding(crate::specs::Table::region_outside))]
pub fn region_outside(address: u64, length: u64, offset: u64, memory: u64) -> bool
    ensures { result ≡ region_outside address length offset memory }
{
    length == 0 || outside(offset, length, memory) || past_top(address, length)
}

// A region's row, and an entry's. No From: into() would not say at the call that an array of numbers is a row.
#[tactic(auto, unfolding(crate::specs::Table::region_row))]
pub fn region_row(r: Region) -> [u64; 7]
    ensures { result ≡ region_row r }
{
    [
        u64::from(r.key),
        r.address,
        r.length,
        r.offset,
        u64::from(r.write),
        u64::from(r.read),
        u64::from(r.atomic),
    ]
}

#[tactic(auto, unfolding(crate::specs::Table::entry_row))]
pub fn entry_row(e: Entry) -> [u64; 3]
    ensures { result ≡ entry_row e }
{
    [e.number, e.offset, e.length]
}

// The first row of a key; an empty row has none.
pub fn key_row(regions: &[[u64; 7]; REGIONS], key: u64) -> Option<usize>
    ensures { result ≡ row_found (key_row key regions.now) }
{
    regions
        .iter()
        .position(|row| row[REGION_LENGTH] != 0 && row[REGION_KEY] == key)
}

// The first empty row.
pub fn free_row(regions: &[[u64; 7]; REGIONS]) -> Option<usize>
    ensures { result ≡ row_found (free_row regions.now) }
{
    regions.iter().position(|row| row[REGION_LENGTH] == 0)
}

// The row of a key's region; an empty row, which has no right and no bytes, where no region has the key (region_of).
pub fn region_of(regions: &[[u64; 7]; REGIONS], key: u32) -> [u64; 7]
    ensures { result ≡ region_of key regions.now }
{
    match key_row(regions, u64::from(key)) {
        Some(i) => regions[i],
        None => [0; 7],
    }
}

// Where in memory the bytes at an address of a region lie, for as many as are needed; by its remainder, so that nothing
// is asked of the row. Bytes that a region holds lie below 2^64.
#[tactic(auto, unfolding(crate::specs::Table::memory_offset))]
pub fn memory_offset(region: [u64; 7], address: u64, needed: usize) -> usize
    ensures { result ≡ memory_offset region address needed % 2 ^ 64 }
{
    if needed == 0 {
        return 0;
    }
    let skip = address.saturating_sub(region[REGION_ADDRESS]);
    region[REGION_OFFSET].wrapping_add(skip) as usize
}

// The first entry of a ring.
pub fn entry_at(entries: &[[u64; 3]; ENTRIES], head: usize) -> [u64; 3]
    ensures { result ≡ slice_index_or entries.now (entry_slot head 0) [] }
{
    let at = entry_slot(head, 0);
    entries[at]
}

// The row of position i past the head of a ring of N rows: after the last row comes the first.
fn slot<const N: usize>(head: usize, i: usize) -> usize
    requires some { 0 < N }
    requires index_fits { N + N ≤ 2 ^ 64 }
    ensures value { result ≡ slot N head i }
    ensures upper_bound { result < N }
{
    (head % N + i % N) % N
}

// The row of position i among the entries. The slot of any N asks what no public function may (0 < N).
#[tactic(auto, unfolding(crate::specs::Table::entry_slot))]
pub fn entry_slot(head: usize, i: usize) -> usize
    ensures value { result ≡ entry_slot head i }
    ensures upper_bound { result < entry_capacity }
{
    slot::<ENTRIES>(head, i)
}

// The ring with one atomic more: the seventeenth replaces the oldest.
#[tactic(auto, unfolding(crate::specs::View::saved_ring, crate::specs::Table::saved_slot))]
pub fn saved_ring(ring: Ring) -> Ring
    ensures { result ≡ saved_ring ring }
{
    let count = ring.count;
    if count < SAVED {
        return Ring {
            head: ring.head,
            count: count + 1,
        };
    }
    let head = slot::<SAVED>(ring.head, 1);
    Ring { head, count }
}

// Saves the value that an atomic answered, behind those that the ring has; saved_ring gives the ring to go on with.
#[tactic(auto, unfolding(crate::specs::View::saved_rows, crate::specs::Table::saved_slot))]
pub fn save(saved: &mut [[u64; 2]; SAVED], ring: Ring, psn: Psn, value: u64)
    ensures { saved.new ≡ saved_rows saved.old ring psn.0 value }
{
    let at = slot::<SAVED>(ring.head, ring.count);
    let row = [u64::from(psn.0), value];
    saved[at] = row;
}

// What the atomic saved last under this PSN answered.
#[tactic(auto, unfolding(crate::specs::View::newest_saved))]
pub fn newest(saved: &[[u64; 2]; SAVED], ring: Ring, psn: Psn) -> Option<u64>
    ensures { result ≡ newest_saved psn.0 saved.now ring }
{
    if SAVED < ring.count {
        return None;
    }
    newest_of(saved, ring.head, ring.count, u64::from(psn.0))
}

// Of the first n rows of a ring, looking at the last first.
fn newest_of(saved: &[[u64; 2]; SAVED], head: usize, n: usize, psn: u64) -> Option<u64>
    ensures { result ≡ newest psn (ring_from saved_slot saved.now head 0 n) }
{
    for i in (0..n).rev() {
        let row = saved[slot::<SAVED>(head, i)];
        if row[SAVED_PSN] == psn {
            return Some(row[SAVED_VALUE]);
        }
    }
    None
}
