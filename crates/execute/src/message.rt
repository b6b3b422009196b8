// A packet of a SEND or WRITE, executed.
ghost use Rattle.std.specs.Prelude.{◌≡◌, cond, ◌+◌, ◌<◌, ◌^◌};
ghost use Rattle.opcode.specs.Place.{ends};
ghost use Rattle.request_spec.specs.Verdict.{payload_size};
ghost use Rattle.pair.specs.Pair.{no_message};
ghost use Rattle.responder_spec.specs.Decide.{completes, completion_of, target_offset, store_payload};
ghost use Rattle.execute.specs.Fits.{TargetFits};

use pair::{OpenMessage, Status};
use request_spec::Packet;
use responder_spec::{Change, Completion, Decision, Progress};

#[tactic(auto, unfolding(responder_spec::specs::Decide::completes, request_spec::specs::Verdict::uses_entry))]
fn completes(kind: u8, place: u8, immediate: bool) -> bool
    ensures { result ≡ completes kind place immediate }
{
    opcode::ends(place) && request_checks::uses_entry(kind, immediate)
}

// The completion after a packet with which so many bytes are stored: a SEND's are counted, a WRITE names its DMA length.
#[tactic(auto, unfolding(responder_spec::specs::Decide::completion_of))]
fn completion_of(p: Packet, m: OpenMessage, stored: usize, number: u64) -> Completion
    ensures { stored ≡ m.stored + payload_size p → result ≡ completion_of p m number }
{
    if !completes(p.kind, p.place, p.operands.immediate) {
        return reply::no_completion();
    }
    let length = if p.kind == opcode::SEND {
        stored
    } else {
        m.length
    };
    Completion {
        some: true,
        number,
        length,
        immediate: p.operands.immediate,
        value: p.operands.value,
    }
}

// The message after a packet of it with which so many bytes are stored.
fn message_after(place: u8, m: OpenMessage, stored: usize) -> OpenMessage
    ensures { result ≡ cond (ends place) no_message (record m { stored = stored }) }
{
    if opcode::ends(place) {
        pair::no_message()
    } else {
        OpenMessage { stored, ..m }
    }
}

// Where the next bytes of a message go.
#[tactic(auto, unfolding(responder_spec::specs::Decide::target_offset, request_spec::specs::Verdict::bytes_to_come, table::specs::Table::memory_offset))]
fn target_offset(kind: u8, m: OpenMessage, entry: [u64; 3], region: [u64; 7]) -> usize
    requires { TargetFits kind m entry region }
    ensures { result ≡ target_offset kind m entry region }
{
    let stored = m.stored as u64;
    if kind == opcode::SEND {
        return (entry[table::ENTRY_OFFSET] + stored) as usize;
    }
    let needed = m.length.saturating_sub(m.stored);
    if needed == 0 {
        return 0;
    }
    table::memory_offset(region, m.address + stored, needed)
}

// The payload is stored; whether it is acknowledged and how many PSNs are taken, the service says.
#[tactic(auto, unfolding(responder_spec::specs::Decide::store_payload, responder_spec::specs::Decide::message_after, request_spec::specs::Verdict::payload_size))]
pub(crate) fn store_payload(
    p: Packet,
    asked: bool,
    psns: usize,
    m: OpenMessage,
    entry: [u64; 3],
    region: [u64; 7],
) -> Decision
    requires p_bound { m.stored + payload_size p < 2 ^ 64 }
    requires target_fits { TargetFits p.kind m entry region }
    ensures { result ≡ store_payload asked psns p m entry region }
{
    let size = p.body.saturating_sub(p.pad);
    let stored = m.stored + size;
    let (status, kind) = if asked {
        (Status::Acknowledged, opcode::ACKNOWLEDGE)
    } else {
        (Status::Executed, responder_spec::NO_PACKET)
    };
    Decision {
        status,
        change: Change {
            act: responder_spec::STORE,
            at: target_offset(p.kind, m, entry, region),
            start: p.start,
            size,
            ..Change::default()
        },
        progress: Progress {
            message: message_after(p.place, m, stored),
            psns,
            ends: opcode::ends(p.place),
            completion: completion_of(p, m, stored, entry[table::ENTRY_NUMBER]),
        },
        reply: reply::sending(kind, p.psn, reply::ACK, 0),
    }
}
