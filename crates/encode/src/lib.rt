// Headers written as bytes.
#![tactic(auto)]

ghost use Rattle.std.specs.Prelude.{◌≡◌, not, ◌+◌, ◌≤◌, length};
ghost use Rattle.memory.specs.Memory.{store};
ghost use Rattle.header.specs.Write.{bth_fits, follows_by, widths_fit, extension_fits, header_fits, extension_bytes, write_answer, written, answer_number, written_out};

use header::{Bth, Extension, Header, Refusal};
use sequence::{Msn, Psn};

// A field over its width, a TVer or a service that no header here has. What a field's own type bounds
// is not tested again.
#[tactic(auto, unfolding(header::specs::Write::bth_fits))]
fn bth_unfit(b: Bth) -> bool
    ensures { result ≡ not (bth_fits b) }
{
    header::other_service(b.opcode / opcode::PER_SERVICE)
        || 4 <= b.pad
        || b.tver != 0
        || header::QPN_SPACE <= b.dest
        || 128 <= b.reserved7
        || Psn::SPACE <= b.psn.0
}

// Which headers these are, as an opcode's class numbers them.
#[tactic(auto, unfolding(header::specs::Write::follows_by))]
fn follows_by(e: Extension) -> u8
    ensures { result ≡ follows_by e }
{
    match e {
        Extension::Bare => opcode::NONE,
        Extension::Remote(_) => opcode::RETH,
        Extension::RemoteImmediate(_, _) => opcode::RETH_IMMEDIATE,
        Extension::Immediate(_) => opcode::IMMEDIATE,
        Extension::Atomic(_) => opcode::ATOMIC_ETH,
        Extension::Acknowledge(_) => opcode::AETH,
        Extension::AtomicAcknowledge(_, _) => opcode::AETH_ATOMIC_ACK,
    }
}

// Whether a field is over its width. One as wide as its type never is: of these headers only the MSN can be.
fn widths_unfit(e: Extension) -> bool
    ensures { result ≡ not (widths_fit e) }
{
    match e {
        Extension::Acknowledge(a) | Extension::AtomicAcknowledge(a, _) => Msn::SPACE <= a.msn.0,
        Extension::Bare
        | Extension::Remote(_)
        | Extension::RemoteImmediate(_, _)
        | Extension::Immediate(_)
        | Extension::Atomic(_) => false,
    }
}

// Headers that are not those of the opcode's class, or a field of theirs over its width.
#[tactic(auto, unfolding(header::specs::Write::extension_fits))]
fn extension_unfit(follows: u8, e: Extension) -> bool
    ensures { result ≡ not (extension_fits follows e) }
{
    follows != follows_by(e) || widths_unfit(e)
}

// Whether there is no such header: a field over its width, or headers that are not those of the opcode.
#[tactic(auto, unfolding(header::specs::Write::header_fits))]
pub fn unfit(h: Header) -> bool
    ensures { result ≡ not (header_fits h) }
{
    bth_unfit(h.bth) || extension_unfit(opcode::class(h.bth.opcode).follows, h.extension)
}

// The headers after the BTH, into an output that has room for them.
#[tactic(auto, unfolding(header::specs::Write::extension_bytes))]
fn write_extension(out: &mut [u8], e: Extension)
    requires { 12 + length (extension_bytes e) ≤ length out.old }
    ensures { out.new ≡ store out.old 12 (extension_bytes e) }
{
    match e {
        Extension::Bare => memory::store(out, 12, &[]),
        Extension::Remote(r) => memory::store(out, 12, &wire::reth_bytes(r)),
        Extension::RemoteImmediate(r, i) => {
            memory::store(out, 12, &wire::reth_bytes(r));
            memory::store(out, 28, &wire::immediate_bytes(i))
        }
        Extension::Immediate(i) => memory::store(out, 12, &wire::immediate_bytes(i)),
        Extension::Atomic(a) => memory::store(out, 12, &wire::atomic_bytes(a)),
        Extension::Acknowledge(a) => memory::store(out, 12, &wire::aeth_bytes(a)),
        Extension::AtomicAcknowledge(a, v) => {
            memory::store(out, 12, &wire::aeth_bytes(a));
            memory::store(out, 16, &wire::value_bytes(v))
        }
    }
}

// Writes the header at the start of the output.
pub fn write(h: Header, out: &mut [u8]) -> Result<usize, Refusal>
    ensures value { result ≡ written h (length out.old) }
    ensures result_value { answer_number result ≡ write_answer h (length out.old) }
    ensures out_after { out.new ≡ written_out h out.old }
{
    if unfit(h) {
        return Err(Refusal::BadNumber);
    }
    let bth = h.bth;
    let class = opcode::class(bth.opcode);
    if out.len() < class.length {
        return Err(Refusal::OutputShort);
    }
    let b = wire::bth_bytes(bth);
    memory::store(out, 0, &b);
    let extension = h.extension;
    write_extension(out, extension);
    Ok(class.length)
}
