// What the headers after the BTH say, as the numbers of a request.
ghost use Rattle.std.specs.Prelude.{◌≡◌, ◌≤◌, length};
ghost use Rattle.opcode.specs.Opcode.{length_of};
ghost use Rattle.header.specs.Read.{extension_of};
ghost use Rattle.request_spec.specs.Packet.{remote, alone, exchanging, operands_of};

use crate::field::be32;
use crate::{read_atomic, read_reth};
use header::{AtomicEth, Reth};
use request_spec::Operands;

fn remote(a: Reth, immediate: bool, value: u32) -> Operands
    ensures { result ≡ remote a immediate value }
{
    Operands {
        address: a.address,
        key: a.key,
        length: a.length as usize,
        immediate,
        value,
        ..Operands::default()
    }
}

fn alone(immediate: bool, value: u32) -> Operands
    ensures { result ≡ alone immediate value }
{
    Operands {
        immediate,
        value,
        ..Operands::default()
    }
}

// An atomic names 8 bytes.
fn exchanging(a: AtomicEth) -> Operands
    ensures { result ≡ exchanging a }
{
    Operands {
        address: a.address,
        key: a.key,
        length: request_spec::ATOMIC_LENGTH,
        swap: a.swap,
        compare: a.compare,
        ..Operands::default()
    }
}

// The operands of headers of the opcode's class, for which the packet is long enough; a response's say nothing.
#[tactic(auto, unfolding(request_spec::specs::Packet::operands_of, header::specs::Read::extension_of, opcode::specs::Opcode::length_of))]
pub(crate) fn operands_of(p: &[u8], follows: u8) -> Operands
    requires { length_of follows ≤ length p.now }
    ensures { result ≡ operands_of (extension_of follows p.now) }
{
    match follows {
        opcode::RETH => remote(read_reth(p), false, 0),
        opcode::RETH_IMMEDIATE => remote(read_reth(p), true, be32(p, 28)),
        opcode::IMMEDIATE => alone(true, be32(p, 12)),
        opcode::ATOMIC_ETH => exchanging(read_atomic(p)),
        _ => alone(false, 0),
    }
}
