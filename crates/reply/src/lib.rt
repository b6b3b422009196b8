// Replies, and decisions that execute nothing. The definitions stand in the crate responder_spec.
#![tactic(auto)]

ghost use Rattle.std.specs.Prelude.{◌≡◌};
ghost use Rattle.responder_spec.specs.Reply.{sending, read_reply, read_begun};
ghost use Rattle.responder_spec.specs.Decide.{no_completion, no_change, reply_only, no_reply, acknowledging, ahead_decision};

use pair::{ReadAnswer, Status};
use responder_spec::{Change, Completion, Decision, Progress, Reply};
use sequence::Psn;

// Syndromes, bytes of the wire: acknowledging sends any. A not-ready NAK's is that plus the timer code.
pub const ACK: u8 = 0x1f;

pub const NOT_READY: u8 = 0x20;

pub const SEQUENCE: u8 = 0x60;

pub const INVALID_REQUEST: u8 = 0x61;

pub const ACCESS: u8 = 0x62;

// Nothing completes.
pub fn no_completion() -> Completion
    ensures { result ≡ no_completion }
{
    Completion::default()
}

// One packet of this kind, or none.
pub fn sending(kind: u8, psn: Psn, syndrome: u8, value: u64) -> Reply
    ensures { result ≡ sending kind psn syndrome value }
{
    Reply {
        kind,
        psn,
        syndrome,
        value,
        ..Reply::default()
    }
}

// The responses of a READ that is being answered.
pub fn read_reply(a: ReadAnswer) -> Reply
    ensures { result ≡ read_reply a }
{
    Reply {
        kind: opcode::READ_RESPONSE,
        psn: a.psn,
        syndrome: ACK,
        msn: a.msn,
        offset: a.offset,
        length: a.length,
        remaining: a.remaining,
        ..Reply::default()
    }
}

// The responses of a READ that begins to be answered.
pub fn read_begun(offset: usize, length: usize, remaining: usize, psn: Psn) -> Reply
    ensures { result ≡ read_begun offset length remaining psn }
{
    read_reply(ReadAnswer {
        remaining,
        offset,
        length,
        psn,
        ..ReadAnswer::default()
    })
}

// Memory stays.
pub fn no_change() -> Change
    ensures { result ≡ no_change }
{
    Change {
        act: responder_spec::NOTHING,
        ..Change::default()
    }
}

// The answer, and what is sent; nothing is executed.
pub fn reply_only(status: Status, reply: Reply) -> Decision
    ensures { result ≡ reply_only status reply }
{
    Decision {
        status,
        change: no_change(),
        progress: Progress {
            message: pair::no_message(),
            psns: 0,
            ends: false,
            completion: no_completion(),
        },
        reply,
    }
}

// Nothing is sent.
#[tactic(auto, unfolding(responder_spec::specs::Decide::no_reply))]
pub fn no_reply(status: Status) -> Decision
    ensures { result ≡ no_reply status }
{
    reply_only(status, sending(responder_spec::NO_PACKET, Psn(0), 0, 0))
}

// An ACK or a NAK is sent.
#[tactic(auto, unfolding(responder_spec::specs::Decide::acknowledging))]
pub fn acknowledging(status: Status, psn: Psn, syndrome: u8) -> Decision
    ensures { result ≡ acknowledging status psn syndrome }
{
    reply_only(status, sending(opcode::ACKNOWLEDGE, psn, syndrome, 0))
}

// Ahead: a sequence NAK the first time, nothing while the NAK mark stands.
#[tactic(auto, unfolding(responder_spec::specs::Decide::ahead_decision))]
pub fn ahead(nakmark: bool, expected: Psn) -> Decision
    ensures { result ≡ ahead_decision nakmark expected }
{
    if nakmark {
        no_reply(Status::Dropped)
    } else {
        acknowledging(Status::SequenceNak, expected, SEQUENCE)
    }
}
