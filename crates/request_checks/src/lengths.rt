// The check of lengths.
ghost use Rattle.std.specs.Prelude.{◌≡◌};
ghost use Rattle.request_spec.specs.Verdict.{size_off, total_off, bare_off, lengths_off};

use crate::carrying;
use pair::OpenMessage;
use request_spec::Packet;

// Whether a packet's bytes do not fill the PMTU before the end of a message, or at its end are none or too many.
#[tactic(auto, unfolding(request_spec::specs::Verdict::size_off))]
fn size_off(place: u8, pmtu: usize, size: usize) -> bool
    ensures { result ≡ size_off place pmtu size }
{
    if opcode::ends(place) {
        (place == opcode::LAST && size == 0) || pmtu < size
    } else {
        size != pmtu
    }
}

// Whether stored and size bytes are too many for a SEND's entry, of most, or not those that a WRITE of a length wants.
#[tactic(auto, unfolding(request_spec::specs::Verdict::total_off))]
fn total_off(kind: u8, place: u8, stored: usize, size: usize, length: usize, most: u64) -> bool
    ensures { result ≡ total_off kind place stored size length most }
{
    // A sum past the top is more than any of them.
    let Some(total) = stored.checked_add(size) else {
        return true;
    };
    if kind == opcode::SEND {
        most < total as u64
    } else if opcode::ends(place) {
        total != length
    } else {
        length <= total
    }
}

#[tactic(auto, unfolding(request_spec::specs::Verdict::bare_off))]
fn bare_off(kind: u8, body: usize, address: u64) -> bool
    ensures { result ≡ bare_off kind body address }
{
    body != 0 || (kind != opcode::READ && address % request_spec::ATOMIC_LENGTH as u64 != 0)
}

#[tactic(auto, unfolding(request_spec::specs::Verdict::lengths_off, request_spec::specs::Verdict::payload_size))]
pub(crate) fn lengths_off(p: Packet, pmtu: usize, m: OpenMessage, most: u64) -> bool
    ensures { result ≡ lengths_off p pmtu m most }
{
    if p.body < p.pad {
        return true;
    }
    if carrying(p.kind) {
        let size = p.body - p.pad;
        size_off(p.place, pmtu, size) || total_off(p.kind, p.place, m.stored, size, m.length, most)
    } else {
        bare_off(p.kind, p.body, m.address)
    }
}
