// One packet: its header's fields and what writing the header gives back, or why it is dropped.
ghost use Rattle.std.specs.Prelude.{◌≡◌, true, length, take};

use crate::fields;
use crate::words::{self, Size};
use header::{Extension, Header, Reason};
use std::io::{self, Write};

fn list_extension<W: Write>(out: &mut W, e: &Extension) -> io::Result<()> {
    match e {
        Extension::Bare => Ok(()),
        Extension::Remote(r) => fields::reth(out, r),
        Extension::RemoteImmediate(r, i) => {
            fields::reth(out, r)?;
            fields::immediate(out, *i)
        }
        Extension::Immediate(i) => fields::immediate(out, *i),
        Extension::Atomic(a) => fields::atomic_eth(out, a),
        Extension::Acknowledge(a) => fields::aeth(out, a),
        Extension::AtomicAcknowledge(a, v) => {
            fields::aeth(out, a)?;
            fields::atomic_ack_eth(out, *v)
        }
    }
}

// The bytes after the headers, the pad among them.
fn list_payload<W: Write>(out: &mut W, n: usize, pad: u8) -> io::Result<()> {
    write!(out, "  payload       {}", Size(n))?;
    if n < usize::from(pad) {
        writeln!(out, ", fewer than PadCnt {pad}")
    } else {
        writeln!(out, ", of which {pad} pad")
    }
}

// Whether as many bytes were written as the headers have, and the packet begins with them.
fn is_same(written: &[u8], headers: usize, p: &[u8]) -> bool
    ensures { result ≡ true → (length written.now ≡ headers) × (take headers p.now ≡ written.now) }
{
    written.len() == headers && p.starts_with(written)
}

fn list_written<W: Write>(out: &mut W, written: &[u8], headers: usize, p: &[u8]) -> io::Result<()> {
    if is_same(written, headers, p) {
        writeln!(out, "same")
    } else {
        writeln!(out, "DIFFERENT")
    }
}

// Writes the header to bytes again, and compares these with the packet's.
fn write_back<W: Write>(out: &mut W, h: Header, headers: usize, p: &[u8]) -> io::Result<()> {
    write!(out, "  written back  ")?;
    let mut written = [0u8; 40];
    match encode::write(h, &mut written) {
        Ok(n) => list_written(out, &written[..n], headers, p),
        Err(refusal) => writeln!(out, "refused {}", u8::from(refusal)),
    }
}

fn list_header<W: Write>(out: &mut W, h: Header, p: &[u8]) -> io::Result<()> {
    let headers = opcode::class(h.bth.opcode).length;
    fields::bth(out, &h.bth)?;
    list_extension(out, &h.extension)?;
    if let Some(n) = p.len().checked_sub(headers) {
        list_payload(out, n, h.bth.pad)?;
    }
    write_back(out, h, headers, p)
}

fn list_drop<W: Write>(out: &mut W, reason: Reason) -> io::Result<()> {
    let check = u8::from(reason);
    let words = words::check_words(reason);
    writeln!(out, "  dropped       check {check}: {words}")
}

// Lists a packet of any bytes.
pub(crate) fn list<W: Write>(out: &mut W, number: u64, p: &[u8]) -> io::Result<()> {
    writeln!(out, "packet {number}, {}", Size(p.len()))?;
    match decode::read(p) {
        Ok(h) => list_header(out, h, p),
        Err(reason) => list_drop(out, reason),
    }
}
