// The two calls of a responder: a packet comes in, and the next response of a READ goes out. The definitions stand
// in the crate responder_spec.
#![tactic(auto)]

mod refuse;
mod response;

ghost use Rattle.std.specs.Prelude.{◌≡◌};
ghost use Rattle.responder_spec.specs.Arrival.{arriving};
ghost use Rattle.responder_spec.specs.Inbound.{Leaves};
ghost use Rattle.responder_spec.specs.Decide.{decision};
ghost use Rattle.responder.specs.Unchanged.{unchanged, outcome_with};

use pair::{Pair, Status};
use responder_spec::{Decision, Outcome};
pub use response::next_response;
use table::Tables;

// An answer with which nothing changes, completes or is sent.
pub(crate) fn unchanged(status: Status, pair: Pair) -> Outcome
    ensures { result ≡ unchanged status pair }
{
    Outcome {
        status,
        pair,
        completion: reply::no_completion(),
        outgoing: 0,
    }
}

// The report of a decision to the caller, with the pair that it left and the bytes that are sent.
fn outcome_with(pair: Pair, d: Decision, outgoing: usize) -> Outcome
    ensures { result ≡ outcome_with pair d outgoing }
{
    Outcome {
        status: d.status,
        pair,
        completion: d.progress.completion,
        outgoing,
    }
}

// The decision on a packet: refused before it is looked at, dropped by a header check, or by the rules of the pair's
// service. It changes nothing yet. What it leaves is stored in a pair by value here, and in lent words by the crate
// udalopek.
pub fn decided(pair: Pair, tables: Tables, mem: &[u8], packet: &[u8], out: &[u8]) -> Decision
    ensures { result ≡ decision (arriving pair tables.entry.regions.now tables.entry.entries.now tables.entry.saved.now mem.now packet.now out.now) }
{
    if let Err(status) = refuse::refusal(pair, mem.len(), out.len()) {
        return reply::no_reply(status);
    }
    let found = decode::admit(
        packet,
        pair.setup.service,
        pair.setup.ours,
        pair.setup.pkey,
        pair.state == pair::READY,
    );
    let Ok(p) = found else {
        return reply::no_reply(Status::Dropped);
    };
    decide::decision(pair, tables, p)
}

// Takes a packet: the decision, and what it does to memory, saved atomics, pair and output. The tables stay apart, since
// saved is written; udalopek_inbound has the same steps on words in place.
pub fn inbound(
    pair: Pair,
    regions: &[[u64; 7]; table::REGIONS],
    entries: &[[u64; 3]; table::ENTRIES],
    saved: &mut [[u64; 2]; table::SAVED],
    mem: &mut [u8],
    packet: &[u8],
    out: &mut [u8],
) -> Outcome
    ensures { Leaves (arriving pair regions.now entries.now saved.old mem.old packet.now out.old) result saved.new mem.new out.new }
{
    let tables = Tables {
        regions,
        entries,
        saved,
    };
    let d = decided(pair, tables, mem, packet, out);
    let value = apply::change(mem, packet, d.change, d.reply.value);
    apply::keep(saved, pair.saved, d.change.act, d.reply.psn, value);
    let next = apply::pair_after(pair, d);
    let reply = acknowledge::reply_with(d.reply, next.msn, value);
    let outgoing = acknowledge::write_ack(out, pair.setup, reply);
    outcome_with(next, d, outgoing)
}
