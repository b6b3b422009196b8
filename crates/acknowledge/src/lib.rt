// The packets that a responder sends: ACKs and NAKs, Atomic Acknowledges, READ responses. `write` writes any of them;
// inbound sends no READ response, and calls the part of it that writes the others. The definitions stand in the crate
// responder_spec. Output, set-up and reply stay three arguments: the first is written, and no fact is of all of them.
#![tactic(auto)]

mod response;

ghost use Rattle.std.specs.Prelude.{◌≡◌, cond, ◌||◌, ◌++◌, ◌≤◌, eqb, ltb, length};
ghost use Rattle.opcode.specs.Kind as Kind;
ghost use Rattle.header.specs.Bytes.{eight};
ghost use Rattle.header.specs.Write.{bth_bytes, aeth_bytes};
ghost use Rattle.memory.specs.Memory.{store};
ghost use Rattle.responder_spec.specs.Reply.{ack_length, atomic_ack_length, reply_bth, reply_aeth, ack_bytes, reply_bytes, over};
ghost use Rattle.responder_spec.specs.Inbound.{reply_with};
ghost use Rattle.acknowledge.specs.Sendable.{unsendable};

use header::{Aeth, Bth};
use pair::Setup;
use responder_spec::Reply;
pub use response::no_room;
use sequence::{Msn, Psn};

// The reply with the MSN after the packet, and the value answered.
pub fn reply_with(r: Reply, msn: Msn, value: u64) -> Reply
    ensures { result ≡ reply_with r msn value }
{
    Reply { msn, value, ..r }
}

// The BTH of a reply.
pub(crate) fn reply_bth(s: Setup, opcode: u8, pad: u8, psn: Psn) -> Bth
    ensures { result ≡ reply_bth s opcode pad psn }
{
    Bth {
        opcode,
        pad,
        pkey: s.pkey,
        dest: s.theirs,
        psn,
        ..Bth::default()
    }
}

// BTH and AETH, into an output that has room for them.
pub(crate) fn write_bth_aeth(out: &mut [u8], bth: Bth, r: Reply)
    requires { ack_length ≤ length out.old }
    ensures { out.new ≡ over (bth_bytes bth ++ aeth_bytes (reply_aeth r)) out.old }
{
    let b = wire::bth_bytes(bth);
    memory::store(out, 0, &b);
    let aeth = Aeth {
        syndrome: r.syndrome,
        msn: r.msn,
    };
    let a = wire::aeth_bytes(aeth);
    memory::store(out, opcode::BTH_LENGTH, &a);
}

// Whether a reply of this kind is an Acknowledge or an Atomic Acknowledge.
fn acknowledges(kind: u8) -> bool
    ensures { result ≡ (eqb kind Kind.acknowledge || eqb kind Kind.atomic_acknowledge) }
{
    kind == opcode::ACKNOWLEDGE || kind == opcode::ATOMIC_ACKNOWLEDGE
}

// The value of an Atomic Acknowledge, behind its AETH; answers how long the packet is.
fn write_value(out: &mut [u8], kind: u8, value: u64) -> usize
    ensures value { result ≡ cond (eqb kind Kind.atomic_acknowledge) atomic_ack_length ack_length }
    ensures out_after { out.new ≡ cond (eqb kind Kind.atomic_acknowledge) (store out.old ack_length (eight value)) out.old }
{
    if kind == opcode::ATOMIC_ACKNOWLEDGE {
        let v = wire::value_bytes(value);
        memory::store(out, opcode::WITH_AETH, &v);
        return opcode::WITH_AETH_ATOMIC_ACK;
    }
    opcode::WITH_AETH
}

// Writes an ACK, a NAK or an Atomic Acknowledge, and answers how long it is: 0, with nothing written, for any other reply
// and where there is no room for an Atomic Acknowledge. Inbound calls it directly: `write`, which has READ responses too,
// is not inlined there, and every packet took 10 ns longer. A count and no Option, as the report to C has it.
pub fn write_ack(out: &mut [u8], s: Setup, r: Reply) -> usize
    ensures value { result ≡ cond (ltb (length out.old) atomic_ack_length) 0 (length (ack_bytes s r)) }
    ensures out_after { out.new ≡ cond (ltb (length out.old) atomic_ack_length) out.old (over (ack_bytes s r) out.old) }
{
    if out.len() < opcode::WITH_AETH_ATOMIC_ACK {
        return 0;
    }
    if acknowledges(r.kind) {
        let bth = reply_bth(s, r.kind, 0, r.psn);
        write_bth_aeth(out, bth, r);
        return write_value(out, r.kind, r.value);
    }
    0
}

// Writes the packet of a reply, of a READ the next one, at the start of the output, and answers how long it is: 0, with
// nothing written, where it cannot be sent.
pub fn write(out: &mut [u8], s: Setup, r: Reply, mem: &[u8]) -> usize
    ensures value { result ≡ cond (unsendable s r (length mem.now) (length out.old)) 0 (length (reply_bytes s r mem.now)) }
    ensures out_after { out.new ≡ cond (unsendable s r (length mem.now) (length out.old)) out.old (over (reply_bytes s r mem.now) out.old) }
{
    if r.kind == opcode::READ_RESPONSE {
        return response::write(out, s, r, mem);
    }
    write_ack(out, s, r)
}
