// What a decision does: to memory, to the saved atomics and to the pair. The definitions stand in the crate
// responder_spec.
#![tactic(auto)]

mod state;

ghost use Rattle.std.specs.Prelude.{◌≡◌, cond, take, drop};
ghost use Rattle.memory.specs.Memory.{store};
ghost use Rattle.table.specs.View.{saved_rows};
ghost use Rattle.responder_spec.specs.Apply.{memory_by, value_by, acts_atomic};

use responder_spec::Change;
use sequence::Psn;
pub use state::pair_after;
use table::Ring;

// Stores size bytes of the packet from start on, as far as it has them, in memory from at on.
fn store_part(mem: &mut [u8], at: usize, packet: &[u8], start: usize, size: usize)
    ensures { mem.new ≡ store mem.old at (take size (drop start packet.now)) }
{
    let from = start.min(packet.len());
    let n = size.min(packet.len() - from);
    memory::store(mem, at, &packet[from..from + n]);
}

// Changes memory, and answers the value that is sent: the word that an atomic finds, else the one given.
#[tactic(auto, unfolding(responder_spec::specs::Apply::memory_by, responder_spec::specs::Apply::acts_atomic, responder_spec::specs::Apply::value_by))]
pub fn change(mem: &mut [u8], packet: &[u8], c: Change, value: u64) -> u64
    ensures value { result ≡ value_by c value mem.old }
    ensures mem_after { mem.new ≡ memory_by c mem.old packet.now }
{
    if c.act == responder_spec::STORE {
        store_part(mem, c.at, packet, c.start, c.size);
        return value;
    }
    if c.act == responder_spec::FETCH_ADD {
        return memory::fetch_add(mem, c.at, c.swap);
    }
    if c.act == responder_spec::CMP_SWAP {
        return memory::cmp_swap(mem, c.at, c.compare, c.swap);
    }
    value
}

// Whether an act is that of an atomic; an opcode's kind is another number (duplicate::is_atomic).
#[tactic(auto, unfolding(responder_spec::specs::Apply::acts_atomic))]
pub fn acts_atomic(act: u8) -> bool
    ensures { result ≡ acts_atomic act }
{
    matches!(act, responder_spec::FETCH_ADD | responder_spec::CMP_SWAP)
}

// Saves the value that an atomic answered.
pub fn keep(saved: &mut [[u64; 2]; table::SAVED], ring: Ring, act: u8, psn: Psn, value: u64)
    ensures { saved.new ≡ cond (acts_atomic act) (saved_rows saved.old ring psn.0 value) saved.old }
{
    if acts_atomic(act) {
        table::save(saved, ring, psn, value);
    }
}
