// Refusals of both calls, before they do anything.
ghost use Rattle.std.specs.Prelude.{◌≡◌};
ghost use Rattle.responder_spec.specs.Decide.{reads_full, inbound_refusal, unless_executed};
ghost use Rattle.responder_spec.specs.Response.{next_status};

use pair::{Pair, Status};

// Whether a READ is still being answered.
#[tactic(auto, unfolding(responder_spec::specs::Decide::reads_full))]
fn reads_full(pair: Pair) -> bool
    ensures { result ≡ reads_full pair }
{
    pair.read.remaining != 0
}

// On Err the refusal of the inbound call. It and the next response each make the tests of memory and pair: a function of
// both is not inlined, and a SEND takes 23 ns longer, a retransmitted one 15.
#[tactic(auto, using(host_calls::proofs::Halves::halves), unfolding(responder_spec::specs::Decide::inbound_refusal, responder_spec::specs::Decide::unless_executed, pair::specs::Answer::executed, pair::specs::Answer::status_number))]
pub(crate) fn refusal(pair: Pair, memory: usize, room: usize) -> Result<(), Status>
    ensures { result ≡ unless_executed (inbound_refusal pair memory room) }
{
    if room < opcode::WITH_AETH_ATOMIC_ACK {
        return Err(Status::OutputShort);
    }
    if memory != pair.setup.memory {
        return Err(Status::OutOfRange);
    }
    let numbers = host_calls::sound::numbers_unsound(pair);
    if host_calls::sound::work_unsound(numbers, pair) {
        return Err(Status::OutOfRange);
    }
    if reads_full(pair) {
        return Err(Status::ReadUnfinished);
    }
    Ok(())
}

// On Err the refusal of the next response.
#[tactic(auto, using(host_calls::proofs::Halves::halves), unfolding(responder_spec::specs::Response::next_status, responder_spec::specs::Decide::unless_executed, pair::specs::Answer::executed, pair::specs::Answer::status_number))]
pub(crate) fn next_refusal(pair: Pair, memory: usize, room: usize) -> Result<(), Status>
    ensures { result ≡ unless_executed (next_status pair memory room) }
{
    if pair.read.remaining == 0 {
        return Err(Status::WrongState);
    }
    if acknowledge::no_room(room, pair.setup.pmtu) {
        return Err(Status::OutputShort);
    }
    if memory != pair.setup.memory {
        return Err(Status::OutOfRange);
    }
    let numbers = host_calls::sound::numbers_unsound(pair);
    if host_calls::sound::work_unsound(numbers, pair) {
        return Err(Status::OutOfRange);
    }
    Ok(())
}
