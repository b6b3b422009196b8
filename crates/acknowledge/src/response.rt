// The responses of a READ.
ghost use Rattle.std.specs.Prelude.{◌≡◌, cond, ◌+◌, ◌≤◌, ltb, length};
ghost use Rattle.header.specs.Write.{header_bytes};
ghost use Rattle.responder_spec.specs.Reply.{ack_length, index_of, response_opcode, response_header, response_bytes, over};
ghost use Rattle.acknowledge.specs.Sendable.{unsendable_response};

use crate::{reply_bth, write_bth_aeth};
use pair::Setup;
use responder_spec::Reply;

// Whether an output has no room for the longest response; no sum is made, so that none wraps.
pub fn no_room(room: usize, pmtu: usize) -> bool
    ensures { result ≡ ltb room (ack_length + pmtu) }
{
    room < opcode::WITH_AETH || room - opcode::WITH_AETH < pmtu
}

// Whether there is no such response, or no room for it.
#[tactic(auto, unfolding(crate::specs::Sendable::unsendable_response))]
fn unsendable_response(s: Setup, r: Reply, memory: usize, room: usize) -> bool
    ensures { result ≡ unsendable_response s r memory room }
{
    pmtu::pmtu_unfit(s.pmtu)
        || no_room(room, s.pmtu)
        || memory < r.offset
        || memory - r.offset < r.length
}

// Which response is next.
fn index_of(r: Reply, pmtu: usize) -> usize
    ensures { result ≡ index_of r pmtu }
{
    let count = pmtu::count(r.length, pmtu);
    count.saturating_sub(r.remaining)
}

fn response_opcode(place: u8) -> u8
    requires { place ≤ 4 }
    ensures { result ≡ response_opcode place }
{
    if place == opcode::ONLY {
        return opcode::READ_RESPONSE_ONLY;
    }
    opcode::READ_RESPONSE + place
}

// The headers of response i, which carries n bytes, with an AETH on all but Middles; answers how long they are.
fn write_headers(out: &mut [u8], s: Setup, r: Reply, i: usize, n: usize) -> usize
    requires { ack_length ≤ length out.old }
    ensures value { result ≡ length (header_bytes (response_header s r i n)) }
    ensures out_after { out.new ≡ over (header_bytes (response_header s r i n)) out.old }
{
    let count = pmtu::count(r.length, s.pmtu);
    let place = pmtu::place(count, i);
    let low = response_opcode(place);
    let psn = r.psn.after(i);
    let padcnt = packet::pad(n);
    let bth = reply_bth(s, low, padcnt, psn);
    if place == opcode::MIDDLE {
        let b = wire::bth_bytes(bth);
        memory::store(out, 0, &b);
        return opcode::BTH_LENGTH;
    }
    write_bth_aeth(out, bth, r);
    opcode::WITH_AETH
}

// Writes the next response, from memory as it is now, and answers how long it is: 0, with nothing written, where it
// cannot be sent.
pub(crate) fn write(out: &mut [u8], s: Setup, r: Reply, mem: &[u8]) -> usize
    ensures value { result ≡ cond (unsendable_response s r (length mem.now) (length out.old)) 0 (length (response_bytes s r mem.now (index_of r s.pmtu))) }
    ensures out_after { out.new ≡ cond (unsendable_response s r (length mem.now) (length out.old)) out.old (over (response_bytes s r mem.now (index_of r s.pmtu)) out.old) }
{
    if unsendable_response(s, r, mem.len(), out.len()) {
        return 0;
    }
    let i = index_of(r, s.pmtu);
    let part = pmtu::part(r.length, s.pmtu, i);
    let from = r.offset + part.start;
    let to = r.offset + part.end;
    let n = part.end - part.start;
    let headers = write_headers(out, s, r, i, n);
    packet::write_payload(out, headers, &mem[from..to]);
    let padcnt = packet::pad(n);
    headers + n + padcnt as usize
}
