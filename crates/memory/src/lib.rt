// Leaves on lent bytes.
#![tactic(auto)]

ghost use Rattle.std.specs.Prelude.{◌≡◌};
ghost use Rattle.memory.specs.Memory.{store};
ghost use Rattle.memory.specs.Word.{word_at, store_word, fetch_added, swapped};

// Copies payload into mem from index at on, where it fits; else nothing changes.
pub fn store(mem: &mut [u8], at: usize, payload: &[u8])
    ensures { mem.new ≡ store mem.old at payload.now }
{
    if mem.len() < at {
        return;
    }
    if mem.len() - at < payload.len() {
        return;
    }
    let end = at + payload.len();
    mem[at..end].copy_from_slice(payload);
}

// The 8 bytes from index at on as one number, low byte first; 0 where they do not lie in mem.
pub fn read_word(mem: &[u8], at: usize) -> u64
    ensures { result ≡ word_at mem.now at }
{
    if mem.len() < at {
        return 0;
    }
    let Some(word) = mem[at..].first_chunk::<8>() else {
        return 0;
    };
    u64::from_le_bytes(*word)
}

// Stores x in the 8 bytes from index at on, low byte first, where they lie in mem; else nothing changes.
#[tactic(auto, unfolding(crate::specs::Word::store_word, crate::specs::Word::low_bytes))]
pub fn write_word(mem: &mut [u8], at: usize, x: u64)
    ensures { mem.new ≡ store_word mem.old at x }
{
    store(mem, at, &x.to_le_bytes());
}

// Adds x to the word at index at, starting again from 0 at 2^64, and answers the word before.
#[tactic(auto, unfolding(crate::specs::Word::fetch_added))]
pub fn fetch_add(mem: &mut [u8], at: usize, x: u64) -> u64
    ensures value { result ≡ word_at mem.old at }
    ensures mem_after { mem.new ≡ fetch_added mem.old at x }
{
    let old = read_word(mem, at);
    let sum = old.wrapping_add(x);
    write_word(mem, at, sum);
    old
}

// Stores swap where the word at index at equals compare, and answers the word before.
#[tactic(auto, unfolding(crate::specs::Word::swapped))]
pub fn cmp_swap(mem: &mut [u8], at: usize, compare: u64, swap: u64) -> u64
    ensures value { result ≡ word_at mem.old at }
    ensures mem_after { mem.new ≡ swapped mem.old at compare swap }
{
    let old = read_word(mem, at);
    if old != compare {
        return old;
    }
    write_word(mem, at, swap);
    old
}
