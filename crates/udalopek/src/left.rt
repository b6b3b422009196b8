// What a decision leaves, written into the words of a pair in place: only those that its answer can change.
ghost use Rattle.std.specs.Prelude.{◌≡◌};
ghost use Rattle.pair.specs.Answer.{status_number};
ghost use Rattle.udalopek_spec.specs.Left.{counters_put, message_put, entries_put, read_put, saved_put, state_put, executed_put, put_by_number};

use pair::{OpenMessage, Pair, ReadAnswer, Status};
use responder_spec::Decision;
use sequence::{Msn, Psn};
use table::Ring;

#[tactic(auto, unfolding(udalopek_spec::specs::Left::counters_put, abi_spec::specs::Pair::other_length))]
fn put_counters(w: &mut [u64; abi::PAIR], expected: Psn, msn: Msn)
    ensures { w.new ≡ counters_put w.old expected msn }
{
    w[26] = expected.0 as u64;
    w[27] = msn.0 as u64;
    w[29] = 0;
}

#[tactic(auto, unfolding(udalopek_spec::specs::Left::message_put, abi_spec::specs::Pair::other_length))]
fn put_message(w: &mut [u64; abi::PAIR], m: OpenMessage)
    ensures { w.new ≡ message_put w.old m }
{
    w[12] = m.kind as u64;
    w[13] = m.stored as u64;
    w[14] = m.address;
    w[15] = m.key as u64;
    w[16] = m.length as u64;
}

#[tactic(auto, unfolding(udalopek_spec::specs::Left::entries_put, abi_spec::specs::Pair::other_length))]
pub(crate) fn put_entries(w: &mut [u64; abi::PAIR], r: Ring)
    ensures { w.new ≡ entries_put w.old r }
{
    w[17] = r.head as u64;
    w[18] = r.count as u64;
}

#[tactic(auto, unfolding(udalopek_spec::specs::Left::read_put, abi_spec::specs::Pair::other_length))]
pub(crate) fn put_read(w: &mut [u64; abi::PAIR], a: ReadAnswer)
    ensures { w.new ≡ read_put w.old a }
{
    w[19] = a.remaining as u64;
    w[20] = a.offset as u64;
    w[21] = a.length as u64;
    w[22] = a.psn.0 as u64;
    w[23] = a.msn.0 as u64;
}

#[tactic(auto, unfolding(udalopek_spec::specs::Left::saved_put, abi_spec::specs::Pair::other_length))]
fn put_saved(w: &mut [u64; abi::PAIR], r: Ring)
    ensures { w.new ≡ saved_put w.old r }
{
    w[24] = r.head as u64;
    w[25] = r.count as u64;
}

#[tactic(auto, unfolding(udalopek_spec::specs::Left::state_put, abi_spec::specs::Pair::other_length))]
fn put_state(w: &mut [u64; abi::PAIR], state: u8, nakmark: bool)
    ensures { w.new ≡ state_put w.old state nakmark }
{
    w[28] = state as u64;
    w[29] = nakmark as u64;
}

#[tactic(auto, unfolding(udalopek_spec::specs::Left::executed_put, udalopek_spec::specs::Left::entries_put_if, udalopek_spec::specs::Left::read_put_if, udalopek_spec::specs::Left::saved_put_if))]
fn put_executed(w: &mut [u64; abi::PAIR], next: Pair, d: Decision)
    ensures { w.new ≡ executed_put w.old next d }
{
    put_counters(w, next.expected, next.msn);
    put_message(w, next.message);
    if d.progress.completion.some {
        put_entries(w, next.entries);
    }
    if d.reply.remaining != 0 {
        put_read(w, next.read);
    }
    if apply::acts_atomic(d.change.act) {
        put_saved(w, next.saved);
    }
}

// Writes the pair that a decision leaves, by its answer: executed, a duplicate that may begin a READ's answer, an
// abandoned message, a NAK.
#[tactic(auto, unfolding(udalopek_spec::specs::Left::put_by_number, udalopek_spec::specs::Left::read_put_if, pair::specs::Answer::status_number))]
pub(crate) fn put_left(w: &mut [u64; abi::PAIR], next: Pair, d: Decision)
    ensures { w.new ≡ put_by_number w.old next d (status_number d.status) }
{
    match d.status {
        Status::Executed | Status::Acknowledged | Status::ReadAccepted | Status::AtomicExecuted =>
            put_executed(w, next, d),
        Status::DuplicateAnswered => {
            if d.reply.remaining != 0 {
                put_read(w, next.read);
            }
        }
        Status::Abandoned => put_message(w, next.message),
        Status::SequenceNak | Status::InvalidRequestNak | Status::AccessNak | Status::NotReadyNak =>
            put_state(w, next.state, next.nakmark),
        _ => {}
    }
}
