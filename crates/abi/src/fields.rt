// A header as words: 11 of its BTH, and 10 of the headers that follow it. Functions and no From: the trait and the types
// are of other crates.
ghost use Rattle.std.specs.Prelude.{◌≡◌};
ghost use Rattle.abi_spec.specs.Fields.{bth_from, bth_words, reth_from, atomic_from, aeth_from, extension_from, remote_words, atomic_words, aeth_words, immediate_words, extension_words};

use crate::{BYTE, KEYS, PKEYS};
use header::{Aeth, AtomicEth, Bth, Extension, Reth};
use sequence::{Msn, Psn};

// The headers that follow the BTH, as words: numbers, as C has them.
const RETH: u64 = opcode::RETH as u64;

const RETH_IMMEDIATE: u64 = opcode::RETH_IMMEDIATE as u64;

const IMMEDIATE: u64 = opcode::IMMEDIATE as u64;

const ATOMIC_ETH: u64 = opcode::ATOMIC_ETH as u64;

const AETH: u64 = opcode::AETH as u64;

const AETH_ATOMIC_ACK: u64 = opcode::AETH_ATOMIC_ACK as u64;

// The BTH of its words, each cut to its field.
#[tactic(auto, unfolding(abi_spec::specs::Fields::bth_from, abi_spec::specs::Words::flag))]
pub fn bth_from(w: &[u64; 11]) -> Bth
    ensures { result ≡ bth_from w.now }
{
    Bth {
        opcode: (w[0] % BYTE) as u8,
        se: w[1] != 0,
        migreq: w[2] != 0,
        pad: (w[3] % BYTE) as u8,
        tver: (w[4] % BYTE) as u8,
        pkey: (w[5] % PKEYS) as u16,
        reserved8: (w[6] % BYTE) as u8,
        dest: (w[7] % KEYS) as u32,
        ackreq: w[8] != 0,
        reserved7: (w[9] % BYTE) as u8,
        psn: Psn((w[10] % KEYS) as u32),
    }
}

#[tactic(auto, unfolding(abi_spec::specs::Fields::bth_words))]
pub fn bth_words(b: Bth) -> [u64; 11]
    ensures { result ≡ bth_words b }
{
    [
        b.opcode as u64,
        b.se as u64,
        b.migreq as u64,
        b.pad as u64,
        b.tver as u64,
        b.pkey as u64,
        b.reserved8 as u64,
        b.dest as u64,
        b.ackreq as u64,
        b.reserved7 as u64,
        b.psn.0 as u64,
    ]
}

#[tactic(auto, unfolding(abi_spec::specs::Fields::reth_from))]
fn reth_from(w: &[u64; 10]) -> Reth
    ensures { result ≡ reth_from w.now }
{
    Reth {
        address: w[1],
        key: (w[2] % KEYS) as u32,
        length: (w[3] % KEYS) as u32,
    }
}

#[tactic(auto, unfolding(abi_spec::specs::Fields::aeth_from))]
fn aeth_from(w: &[u64; 10]) -> Aeth
    ensures { result ≡ aeth_from w.now }
{
    Aeth {
        syndrome: (w[6] % BYTE) as u8,
        msn: Msn((w[7] % KEYS) as u32),
    }
}

#[tactic(auto, unfolding(abi_spec::specs::Fields::atomic_from))]
fn atomic_from(w: &[u64; 10]) -> AtomicEth
    ensures { result ≡ atomic_from w.now }
{
    AtomicEth {
        address: w[1],
        key: (w[2] % KEYS) as u32,
        swap: w[4],
        compare: w[5],
    }
}

// The headers that the first word names, of the words that are theirs.
#[tactic(auto, unfolding(abi_spec::specs::Fields::extension_from))]
pub fn extension_from(w: &[u64; 10]) -> Extension
    ensures { result ≡ extension_from w.now }
{
    let immediate = (w[9] % KEYS) as u32;
    match w[0] {
        RETH => Extension::Remote(reth_from(w)),
        RETH_IMMEDIATE => Extension::RemoteImmediate(reth_from(w), immediate),
        IMMEDIATE => Extension::Immediate(immediate),
        ATOMIC_ETH => Extension::Atomic(atomic_from(w)),
        AETH => Extension::Acknowledge(aeth_from(w)),
        AETH_ATOMIC_ACK => Extension::AtomicAcknowledge(aeth_from(w), w[8]),
        _ => Extension::Bare,
    }
}

// Words of a RETH with an immediate, of an AtomicETH, and of an AETH with a value, under the number of their class: each
// written out in the order in which C has them.
#[tactic(auto, unfolding(abi_spec::specs::Fields::remote_words))]
fn remote_words(follows: u64, r: Reth, immediate: u32) -> [u64; 10]
    ensures { result ≡ remote_words follows r immediate }
{
    [
        follows,
        r.address,
        r.key as u64,
        r.length as u64,
        0,
        0,
        0,
        0,
        0,
        immediate as u64,
    ]
}

#[tactic(auto, unfolding(abi_spec::specs::Fields::atomic_words))]
fn atomic_words(a: AtomicEth) -> [u64; 10]
    ensures { result ≡ atomic_words a }
{
    [
        ATOMIC_ETH,
        a.address,
        a.key as u64,
        0,
        a.swap,
        a.compare,
        0,
        0,
        0,
        0,
    ]
}

#[tactic(auto, unfolding(abi_spec::specs::Fields::aeth_words))]
fn aeth_words(follows: u64, a: Aeth, value: u64) -> [u64; 10]
    ensures { result ≡ aeth_words follows a value }
{
    [
        follows,
        0,
        0,
        0,
        0,
        0,
        a.syndrome as u64,
        a.msn.0 as u64,
        value,
        0,
    ]
}

#[tactic(auto, unfolding(abi_spec::specs::Fields::immediate_words))]
fn immediate_words(immediate: u32) -> [u64; 10]
    ensures { result ≡ immediate_words immediate }
{
    [IMMEDIATE, 0, 0, 0, 0, 0, 0, 0, 0, immediate as u64]
}

// The words of the headers after the BTH: which these are, then every field of any of them, 0 where there is none.
#[tactic(auto, unfolding(abi_spec::specs::Fields::extension_words))]
pub fn extension_words(e: Extension) -> [u64; 10]
    ensures { result ≡ extension_words e }
{
    match e {
        Extension::Bare => [0; 10],
        Extension::Remote(r) => remote_words(RETH, r, 0),
        Extension::RemoteImmediate(r, i) => remote_words(RETH_IMMEDIATE, r, i),
        Extension::Immediate(i) => immediate_words(i),
        Extension::Atomic(a) => atomic_words(a),
        Extension::Acknowledge(a) => aeth_words(AETH, a, 0),
        Extension::AtomicAcknowledge(a, v) => aeth_words(AETH_ATOMIC_ACK, a, v),
    }
}
