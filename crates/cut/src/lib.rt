// Messages cut into packets: one call writes one packet, straight from the lent message.
#![tactic(auto)]

mod shape;

ghost use Rattle.std.specs.Prelude.{◌≡◌, Ok, length};
ghost use Rattle.header.specs.Write.{answer_number};
ghost use Rattle.cut_spec.specs.Message.{carries, carried_length, message_length, check_length, length_refusal, packets_answer, responses_answer};
ghost use Rattle.cut_spec.specs.Next.{next_refusal, next_answer};
ghost use Rattle.cut_spec.specs.Cut.{unserved, cut_unfit, check_cut, header_at, cut_answer, cut_written, cut_out};

use cut_spec::{Connection, Request};
use header::{Header, Refusal};
use sequence::Psn;

// Whether the packets carry the message's bytes.
#[tactic(auto, unfolding(cut_spec::specs::Message::carries))]
fn carries(request: Request) -> bool
    ensures { result ≡ carries request }
{
    match request {
        Request::Send
        | Request::SendImmediate(_)
        | Request::Write(_)
        | Request::WriteImmediate(_, _) => true,
        Request::Read(_) | Request::CmpSwap(_) | Request::FetchAdd(_, _) => false,
    }
}

// How many of n lent bytes the packets carry.
#[tactic(auto, unfolding(cut_spec::specs::Message::carried_length))]
fn carried_length(request: Request, n: usize) -> usize
    ensures { result ≡ carried_length request n }
{
    if carries(request) { n } else { 0 }
}

// The length of the message whose bytes are n, if it has bytes.
#[tactic(auto, unfolding(cut_spec::specs::Message::message_length))]
fn message_length(request: Request, n: usize) -> usize
    ensures { result ≡ message_length request n }
{
    match request {
        Request::Send
        | Request::SendImmediate(_)
        | Request::Write(_)
        | Request::WriteImmediate(_, _) => n,
        Request::Read(a) => a.length as usize,
        Request::CmpSwap(_) | Request::FetchAdd(_, _) => 0,
    }
}

// Which refusal a length gets at a PMTU, if any.
fn check_length(n: usize, pmtu: usize) -> Result<(), Refusal>
    ensures { result ≡ check_length n pmtu }
{
    if pmtu::pmtu_unfit(pmtu) {
        return Err(Refusal::BadNumber);
    }
    if cut_spec::MESSAGE_LIMIT < n {
        return Err(Refusal::OutOfRange);
    }
    Ok(())
}

// How many packets a message has; n is the length of its bytes, if it has bytes.
pub fn packets(request: Request, n: usize, pmtu: usize) -> Result<usize, Refusal>
    ensures value { result ≡ packets_answer request n pmtu }
    ensures result_value { answer_number result ≡ length_refusal (message_length request n) pmtu }
{
    let whole = message_length(request, n);
    check_length(whole, pmtu)?;
    let carried = carried_length(request, n);
    Ok(pmtu::count(carried, pmtu))
}

// How many responses a READ of n bytes has.
pub fn responses(n: usize, pmtu: usize) -> Result<usize, Refusal>
    ensures value { result ≡ responses_answer n pmtu }
    ensures result_value { answer_number result ≡ length_refusal n pmtu }
{
    check_length(n, pmtu)?;
    Ok(pmtu::count(n, pmtu))
}

// The PSN of the message after this one, whose first packet has the PSN first.
pub fn next_psn(request: Request, n: usize, pmtu: usize, first: Psn) -> Result<Psn, Refusal>
    ensures value { result ≡ next_answer request n pmtu first }
    ensures result_value { answer_number result ≡ next_refusal (message_length request n) pmtu first.0 }
{
    if Psn::SPACE <= first.0 {
        return Err(Refusal::BadNumber);
    }
    let whole = message_length(request, n);
    check_length(whole, pmtu)?;
    let count = pmtu::count(whole, pmtu);
    Ok(first.after(count))
}

// Whether the service lacks the request: UC has those alone that carry bytes.
#[tactic(auto, unfolding(cut_spec::specs::Cut::unserved))]
fn unserved(carrying: bool, service: u8) -> bool
    ensures { result ≡ unserved carrying service }
{
    !carrying && service == opcode::UC
}

// Whether there is no such PMTU or service, a number is over 24 bits, or the service lacks the request.
#[tactic(auto, unfolding(cut_spec::specs::Cut::cut_unfit))]
fn unfit(connection: Connection, carrying: bool, first: Psn) -> bool
    ensures { result ≡ cut_unfit connection carrying first.0 }
{
    pmtu::pmtu_unfit(connection.pmtu)
        || header::other_service(connection.service)
        || header::QPN_SPACE <= connection.dest
        || Psn::SPACE <= first.0
        || unserved(carrying, connection.service)
}

// Which refusal the cut gets before its output is looked at, if any. The arguments stay apart here and below: they are
// those of cut, and of the definitions.
fn check_cut(
    connection: Connection,
    request: Request,
    n: usize,
    first: Psn,
    index: usize,
) -> Result<(), Refusal>
    ensures { result ≡ check_cut connection request n first.0 index }
{
    let carrying = carries(request);
    if unfit(connection, carrying, first) {
        return Err(Refusal::BadNumber);
    }
    let whole = message_length(request, n);
    if cut_spec::MESSAGE_LIMIT < whole {
        return Err(Refusal::OutOfRange);
    }
    let carried = carried_length(request, n);
    let count = pmtu::count(carried, connection.pmtu);
    if count <= index {
        return Err(Refusal::OutOfRange);
    }
    Ok(())
}

// The headers of packet index, of a message that is not refused.
fn header_at(connection: Connection, request: Request, n: usize, first: Psn, index: usize) -> Header
    requires { check_cut connection request n first.0 index ≡ Ok tt }
    ensures { result ≡ header_at connection request n first index }
{
    let bytes = carried_length(request, n);
    let count = pmtu::count(bytes, connection.pmtu);
    let place = pmtu::place(count, index);
    let part = pmtu::part(bytes, connection.pmtu, index);
    let low = shape::low_for(request, place);
    let bth = shape::bth_at(connection, low, first, index, count, part.end - part.start);
    let whole = message_length(request, n);
    let extension = shape::extension_for(request, whole as u32, place);
    Header { bth, extension }
}

// Writes packet index of the message, whose first packet has the PSN first, at the start of the output.
// Only SENDs and WRITEs look at message.
pub fn cut(
    connection: Connection,
    request: Request,
    message: &[u8],
    first: Psn,
    index: usize,
    out: &mut [u8],
) -> Result<usize, Refusal>
    ensures value { result ≡ cut_written connection request message.now first index (length out.old) }
    ensures result_value { answer_number result ≡ cut_answer connection request message.now first index (length out.old) }
    ensures out_after { out.new ≡ cut_out connection request message.now first index out.old }
{
    check_cut(connection, request, message.len(), first, index)?;
    let h = header_at(connection, request, message.len(), first, index);
    let carried = carried_length(request, message.len());
    let part = pmtu::part(carried, connection.pmtu, index);
    packet::write(h, &message[part.start..part.end], out)
}
