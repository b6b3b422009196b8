// The bytes of each header, built as a value to be copied out once. A number over its field's width
// gives its low bits.
#![tactic(auto)]

ghost use Rattle.std.specs.Prelude.{◌≡◌};
ghost use Rattle.header.specs.Bytes.{four, eight};
ghost use Rattle.header.specs.Write.{bth_bytes, reth_bytes, atomic_bytes, aeth_bytes};

use header::{Aeth, AtomicEth, Bth, Reth};

#[tactic(auto, unfolding(header::specs::Write::bth_bytes))]
pub fn bth_bytes(b: Bth) -> [u8; 12]
    ensures { result ≡ bth_bytes b }
{
    let se = u8::from(b.se);
    let migreq = u8::from(b.migreq);
    let ackreq = u8::from(b.ackreq);
    let [k1, k0] = b.pkey.to_be_bytes();
    let [_, d2, d1, d0] = b.dest.to_be_bytes();
    let [_, n2, n1, n0] = b.psn.0.to_be_bytes();
    [
        b.opcode,
        se * 128 + migreq * 64 + b.pad % 4 * 16 + b.tver % 16,
        k1,
        k0,
        b.reserved8,
        d2,
        d1,
        d0,
        ackreq * 128 + b.reserved7 % 128,
        n2,
        n1,
        n0,
    ]
}

#[tactic(auto, unfolding(header::specs::Write::reth_bytes))]
pub fn reth_bytes(reth: Reth) -> [u8; 16]
    ensures { result ≡ reth_bytes reth }
{
    let mut bytes = [0; 16];
    bytes[..8].copy_from_slice(&reth.address.to_be_bytes());
    bytes[8..12].copy_from_slice(&reth.key.to_be_bytes());
    bytes[12..].copy_from_slice(&reth.length.to_be_bytes());
    bytes
}

pub fn immediate_bytes(i: u32) -> [u8; 4]
    ensures { result ≡ four i }
{
    i.to_be_bytes()
}

pub fn atomic_bytes(a: AtomicEth) -> [u8; 28]
    ensures { result ≡ atomic_bytes a }
{
    let mut bytes = [0; 28];
    bytes[..8].copy_from_slice(&a.address.to_be_bytes());
    bytes[8..12].copy_from_slice(&a.key.to_be_bytes());
    bytes[12..20].copy_from_slice(&a.swap.to_be_bytes());
    bytes[20..].copy_from_slice(&a.compare.to_be_bytes());
    bytes
}

#[tactic(auto, unfolding(header::specs::Write::aeth_bytes))]
pub fn aeth_bytes(a: Aeth) -> [u8; 4]
    ensures { result ≡ aeth_bytes a }
{
    let [_, m2, m1, m0] = a.msn.0.to_be_bytes();
    [a.syndrome, m2, m1, m0]
}

pub fn value_bytes(v: u64) -> [u8; 8]
    ensures { result ≡ eight v }
{
    v.to_be_bytes()
}
