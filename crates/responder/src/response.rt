// The responses of a READ, one a call.
ghost use Rattle.std.specs.Prelude.{◌≡◌};
ghost use Rattle.responder_spec.specs.Apply.{with};
ghost use Rattle.responder_spec.specs.Response.{one_fewer, next_response, next_out};
ghost use Rattle.responder.specs.Unchanged.{responded};

use crate::{refuse, unchanged};
use pair::{Pair, ReadAnswer, Status};
use responder_spec::Outcome;

// Writes the next response of the READ that is being answered, from memory as it is now.
pub fn next_response(pair: Pair, mem: &[u8], out: &mut [u8]) -> Outcome
    ensures value { result ≡ next_response pair mem.now out.old }
    ensures out_after { out.new ≡ next_out pair mem.now out.old }
{
    if let Err(status) = refuse::next_refusal(pair, mem.len(), out.len()) {
        return unchanged(status, pair);
    }
    let outgoing = acknowledge::write(out, pair.setup, reply::read_reply(pair.read), mem);
    responded(one_fewer(pair), outgoing)
}

// The pair with one response fewer to send.
fn one_fewer(pair: Pair) -> Pair
    ensures { result ≡ with pair pair.state pair.nakmark (one_fewer pair.read) }
{
    Pair {
        read: ReadAnswer {
            remaining: pair.read.remaining.saturating_sub(1),
            ..pair.read
        },
        ..pair
    }
}

// Executed, and so many bytes sent.
fn responded(pair: Pair, outgoing: usize) -> Outcome
    ensures { result ≡ responded pair outgoing }
{
    Outcome {
        outgoing,
        ..unchanged(Status::Executed, pair)
    }
}
