// The rules of UC.
ghost use Rattle.std.specs.Prelude.{◌≡◌, cond};
ghost use Rattle.request_spec.specs.RequestCheck.{check_number};
ghost use Rattle.responder_spec.specs.Decide.{orphaned, strays, closed_by, abandoning};

use pair::{OpenMessage, Status};
use request_spec::{Packet, RequestCheck};
use responder_spec::Decision;
use sequence::Psn;

// Whether a Middle or Last comes while no message is open.
#[tactic(auto, unfolding(responder_spec::specs::Decide::orphaned))]
fn orphaned(place: u8, opened: u8) -> bool
    ensures { result ≡ orphaned place opened }
{
    !opcode::starts(place) && opened == pair::CLOSED
}

// Whether a Middle or Last does not go on with the open message, by its number or its kind.
#[tactic(auto, unfolding(responder_spec::specs::Decide::strays))]
fn strays(p: Packet, expected: Psn, opened: u8) -> bool
    ensures { result ≡ strays p expected opened }
{
    !opcode::starts(p.place) && (p.psn.distance(expected) != 0 || opened != p.kind)
}

// On Err the answer to a Middle or Last that has lost its message.
pub(crate) fn lost(p: Packet, expected: Psn, opened: u8) -> Result<(), Status>
    ensures { result ≡ cond (orphaned p.place opened) (Err Status.Dropped) (cond (strays p expected opened) (Err Status.Abandoned) (Ok tt)) }
{
    if orphaned(p.place, opened) {
        return Err(Status::Dropped);
    }
    if strays(p, expected, opened) {
        return Err(Status::Abandoned);
    }
    Ok(())
}

// What is open when the packet is checked: one that begins a message has closed the one before.
#[tactic(auto, unfolding(responder_spec::specs::Decide::closed_by))]
pub(crate) fn closed_by(place: u8, opened: OpenMessage) -> OpenMessage
    ensures { result ≡ closed_by place opened }
{
    if opcode::starts(place) {
        pair::no_message()
    } else {
        opened
    }
}

// This check failed while this kind of message was open.
#[tactic(auto, unfolding(responder_spec::specs::Decide::abandoning, request_spec::specs::Verdict::check_answer))]
pub(crate) fn abandoning(check: RequestCheck, opened: u8) -> Decision
    ensures { result ≡ abandoning (check_number check) opened }
{
    let status = match check {
        RequestCheck::EntryOutside => Status::OutOfRange,
        _ if opened == pair::CLOSED => Status::Dropped,
        _ => Status::Abandoned,
    };
    reply::no_reply(status)
}
