// Packets: a header, a payload and its pad, written in one pass into a lent output.
#![tactic(auto)]

ghost use Rattle.std.specs.Prelude.{◌≡◌, ◌≤◌, length, replicate};
ghost use Rattle.memory.specs.Memory.{store};
ghost use Rattle.header.specs.Write.{answer_number};
ghost use Rattle.packet.specs.Packet.{pad_of, payload_out, checked_size, packet_answer, packet_written, packet_out};

use header::{Header, Refusal};

// How many pad bytes stand behind a payload of n bytes.
pub fn pad(n: usize) -> u8
    ensures { result ≡ pad_of n }
{
    ((4 - n % 4) % 4) as u8
}

// How many bytes a packet has, by its numbers, or why it is refused. Each test comes before the sum that it keeps small.
fn checked_size(
    unfit: bool,
    padcnt: u8,
    headers: usize,
    n: usize,
    room: usize,
) -> Result<usize, Refusal>
    ensures { result ≡ checked_size unfit padcnt headers n room }
{
    if unfit {
        return Err(Refusal::BadNumber);
    }
    let own = pad(n);
    if padcnt != own {
        return Err(Refusal::BadNumber);
    }
    if header::PACKET_LIMIT < headers {
        return Err(Refusal::OutOfRange);
    }
    if header::PACKET_LIMIT < n {
        return Err(Refusal::OutOfRange);
    }
    let size = headers + (n + own as usize);
    if header::PACKET_LIMIT < size {
        return Err(Refusal::OutOfRange);
    }
    if room < size {
        return Err(Refusal::OutputShort);
    }
    Ok(size)
}

// Zero bytes behind the payload.
fn write_pad(out: &mut [u8], at: usize, padcnt: u8)
    requires { padcnt ≤ 3 }
    ensures { out.new ≡ store out.old at (replicate padcnt 0) }
{
    let zeros = [0u8; 3];
    let n = padcnt as usize;
    memory::store(out, at, &zeros[0..n]);
}

// A payload from index at on, and its pad behind it. A payload that does not fit is not written, nor its pad; a pad that
// does not fit is left off.
pub fn write_payload(out: &mut [u8], at: usize, payload: &[u8])
    ensures { out.new ≡ payload_out out.old at payload.now }
{
    if out.len() < at {
        return;
    }
    if out.len() - at < payload.len() {
        return;
    }
    memory::store(out, at, payload);
    let own = pad(payload.len());
    write_pad(out, at + payload.len(), own);
}

// Writes the packet of a header and a payload at the start of the output.
pub fn write(h: Header, payload: &[u8], out: &mut [u8]) -> Result<usize, Refusal>
    ensures value { result ≡ packet_written h (length payload.now) (length out.old) }
    ensures result_value { answer_number result ≡ packet_answer h (length payload.now) (length out.old) }
    ensures out_after { out.new ≡ packet_out h payload.now out.old }
{
    let none = encode::unfit(h);
    let bth = h.bth;
    let class = opcode::class(bth.opcode);
    let size = checked_size(none, bth.pad, class.length, payload.len(), out.len())?;
    let headers = encode::write(h, out).unwrap();
    write_payload(out, headers, payload);
    Ok(size)
}
