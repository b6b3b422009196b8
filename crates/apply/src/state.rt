// The pair that a decision leaves.
ghost use Rattle.std.specs.Prelude.{◌≡◌};
ghost use Rattle.responder_spec.specs.Apply.{entries_by, saved_ring_by, msn_by, read_answer_by, executed_pair, closing, pair_by};

use crate::acts_atomic;
use pair::{Pair, ReadAnswer, Status};
use responder_spec::{Decision, Reply};
use sequence::Msn;
use table::Ring;

// The ring without its first entry, where a message completes.
#[tactic(auto, unfolding(responder_spec::specs::Apply::entries_by, responder_spec::specs::Apply::ring_taken))]
fn entries_by(completes: bool, ring: Ring) -> Ring
    ensures { result ≡ entries_by completes ring }
{
    if completes {
        let head = table::entry_slot(ring.head, 1);
        let count = ring.count.saturating_sub(1);
        return Ring { head, count };
    }
    ring
}

#[tactic(auto, unfolding(responder_spec::specs::Apply::saved_ring_by))]
fn saved_ring_by(ring: Ring, act: u8) -> Ring
    ensures { result ≡ saved_ring_by ring act }
{
    if acts_atomic(act) {
        return table::saved_ring(ring);
    }
    ring
}

#[tactic(auto, unfolding(responder_spec::specs::Apply::msn_by))]
fn msn_by(ends: bool, msn: Msn) -> Msn
    ensures { result ≡ msn_by ends msn }
{
    if ends {
        return msn.next();
    }
    msn
}

// The READ that is being answered afterwards.
#[tactic(auto, unfolding(responder_spec::specs::Apply::read_answer_by))]
fn read_answer_by(reply: Reply, old: ReadAnswer, msn: Msn) -> ReadAnswer
    ensures { result ≡ read_answer_by reply old msn }
{
    if reply.remaining == 0 {
        return old;
    }
    ReadAnswer {
        remaining: reply.remaining,
        offset: reply.offset,
        length: reply.length,
        psn: reply.psn,
        msn,
    }
}

#[tactic(auto, unfolding(responder_spec::specs::Apply::executed_pair))]
fn executed_pair(pair: Pair, d: Decision) -> Pair
    ensures { result ≡ executed_pair pair d }
{
    let progress = d.progress;
    let msn = msn_by(progress.ends, pair.msn);
    Pair {
        message: progress.message,
        entries: entries_by(progress.completion.some, pair.entries),
        read: read_answer_by(d.reply, pair.read, msn),
        saved: saved_ring_by(pair.saved, d.change.act),
        expected: pair.expected.after(progress.psns),
        msn,
        nakmark: false,
        ..pair
    }
}

// The same pair with no message open. It is built anew: with an assignment to the message alone the compiled code keeps
// the pair in memory, and every packet takes some 40 ns longer.
fn closing(pair: Pair) -> Pair
    ensures { result ≡ closing pair }
{
    let setup = pair.setup;
    let message = pair::no_message();
    let entries = pair.entries;
    let read = pair.read;
    let saved = pair.saved;
    let expected = pair.expected;
    let msn = pair.msn;
    Pair {
        setup,
        message,
        entries,
        read,
        saved,
        expected,
        msn,
        state: pair.state,
        nakmark: pair.nakmark,
    }
}

// By the answer.
pub fn pair_after(pair: Pair, d: Decision) -> Pair
    ensures { result ≡ pair_by pair d }
{
    match d.status {
        Status::Executed | Status::Acknowledged | Status::ReadAccepted | Status::AtomicExecuted =>
            executed_pair(pair, d),
        Status::DuplicateAnswered => {
            let read = read_answer_by(d.reply, pair.read, pair.msn);
            Pair { read, ..pair }
        }
        Status::SequenceNak | Status::NotReadyNak => Pair {
            nakmark: true,
            ..pair
        },
        Status::InvalidRequestNak | Status::AccessNak => Pair {
            state: pair::ERROR,
            ..pair
        },
        Status::Abandoned => closing(pair),
        _ => pair,
    }
}
