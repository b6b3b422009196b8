// Bytes cut at the PMTU: how many pieces, and each piece's place and part. Requests and READ responses
// are cut alike, so this is about numbers alone.
#![tactic(auto)]

ghost use Rattle.std.specs.Prelude.{◌≡◌, not};
ghost use Rattle.pmtu.specs.Pieces.{pmtu_fits, pieces, place_at, part_at};

// A part of the bytes, from start up to, and without, end. The library's Range is not Copy.
#[derive(Clone, Copy)]
pub struct Range {
    pub start: usize,
    pub end: usize,
}

// Whether there is no such PMTU.
#[tactic(auto, unfolding(crate::specs::Pieces::pmtu_fits))]
pub fn pmtu_unfit(pmtu: usize) -> bool
    ensures { result ≡ not (pmtu_fits pmtu) }
{
    !matches!(pmtu, 256 | 512 | 1024 | 2048 | 4096)
}

// How many pieces n bytes make; without a PMTU it is one.
#[tactic(auto, unfolding(crate::specs::Pieces::pieces))]
pub fn count(n: usize, pmtu: usize) -> usize
    ensures { result ≡ pieces n pmtu }
{
    if pmtu == 0 {
        return 1;
    }
    n.div_ceil(pmtu).max(1)
}

// The place of piece i of count.
#[tactic(auto, unfolding(crate::specs::Pieces::place_at))]
pub fn place(count: usize, i: usize) -> u8
    ensures { result ≡ place_at count i }
{
    if count == 1 {
        return opcode::ONLY;
    }
    if i == 0 {
        return opcode::FIRST;
    }
    if count.saturating_sub(i) == 1 {
        return opcode::LAST;
    }
    opcode::MIDDLE
}

// Where piece i of n bytes stands; past the last one, an empty part at the end, and without a PMTU at the start.
#[tactic(auto, unfolding(crate::specs::Pieces::part_at))]
pub fn part(n: usize, pmtu: usize, i: usize) -> Range
    ensures { result ≡ part_at n pmtu i }
{
    let start = i.saturating_mul(pmtu).min(n);
    let end = start.saturating_add(pmtu).min(n);
    Range { start, end }
}
