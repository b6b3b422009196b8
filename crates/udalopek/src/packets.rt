// The calls of a responder, on words that are lent.
ghost use Rattle.std.specs.Prelude.{◌≡◌};
ghost use Rattle.udalopek_spec.specs.Packets.{lent, returned, inbound_returned, report_words, next_number, next_words, next_output, next_report};

use crate::left;
use crate::words::said;
use responder_spec::Completion;
use table::Tables;

// The report to the host: bytes to send, and the completion.
#[tactic(auto, unfolding(udalopek_spec::specs::Packets::report_words))]
fn report_words(outgoing: usize, c: Completion) -> [u64; 6]
    ensures { result ≡ report_words outgoing c }
{
    let some = u64::from(c.some);
    let i = u64::from(c.immediate);
    let v = u64::from(c.value);
    [outgoing as u64, some, c.number, c.length as u64, i, v]
}

// Takes a packet: as responder::inbound, but that what is left goes into the words, in place. Everything that takes the
// pair is inlined here; a call with the pair would write it to memory for every packet.
#[tactic(auto, unfolding(udalopek_spec::specs::Packets::inbound_returned, abi_spec::specs::Pair::other_length))]
#[unsafe(no_mangle)]
pub extern "C" fn udalopek_inbound(
    pair: &mut [u64],
    regions: &[[u64; 7]; table::REGIONS],
    entries: &[[u64; 3]; table::ENTRIES],
    saved: &mut [[u64; 2]; table::SAVED],
    mem: &mut [u8],
    packet: &[u8],
    out: &mut [u8],
    report: &mut [u64; 6],
) -> u8
    ensures { returned result pair.new saved.new mem.new out.new report.new ≡ inbound_returned (lent pair.old regions.now entries.now saved.old mem.old packet.now out.old) }
{
    let Some(words) = pair.as_mut_array() else {
        *report = [0; 6];
        return header::OUT_OF_RANGE;
    };
    let q = said(words);
    let tables = Tables {
        regions,
        entries,
        saved,
    };
    let d = responder::decided(q, tables, mem, packet, out);
    let value = apply::change(mem, packet, d.change, d.reply.value);
    apply::keep(saved, q.saved, d.change.act, d.reply.psn, value);
    let next = apply::pair_after(q, d);
    let reply = acknowledge::reply_with(d.reply, next.msn, value);
    let outgoing = acknowledge::write_ack(out, q.setup, reply);
    *report = report_words(outgoing, d.progress.completion);
    left::put_left(words, next, d);
    u8::from(d.status)
}

// Writes the next response of a READ.
#[tactic(auto, unfolding(udalopek_spec::specs::Packets::next_number, udalopek_spec::specs::Packets::next_words, udalopek_spec::specs::Packets::next_output, udalopek_spec::specs::Packets::next_report, abi_spec::specs::Pair::strays, abi_spec::specs::Pair::other_length))]
#[unsafe(no_mangle)]
pub extern "C" fn udalopek_next_response(
    pair: &mut [u64],
    mem: &[u8],
    out: &mut [u8],
    report: &mut [u64; 1],
) -> u8
    ensures value { result ≡ next_number pair.old mem.now out.old }
    ensures pair_after { pair.new ≡ next_words pair.old mem.now out.old }
    ensures out_after { out.new ≡ next_output pair.old mem.now out.old }
    ensures report_after { report.new ≡ next_report pair.old mem.now out.old }
{
    let Some(words) = pair.as_mut_array() else {
        *report = [0; 1];
        return header::OUT_OF_RANGE;
    };
    let got = responder::next_response(said(words), mem, out);
    *report = [got.outgoing as u64];
    let number = u8::from(got.status);
    if number == 0 {
        left::put_read(words, got.pair.read);
    }
    number
}
