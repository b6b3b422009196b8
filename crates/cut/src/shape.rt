// The shape of a request's packets: opcode and headers, by the packet's place in the message.
ghost use Rattle.std.specs.Prelude.{◌≡◌, ◌≤◌, ◌<◌};
ghost use Rattle.sequence.specs.Sequence.{space};
ghost use Rattle.opcode.specs.Kind as Kind;
ghost use Rattle.opcode.specs.Place as Place;
ghost use Rattle.opcode.specs.Service as Service;
ghost use Rattle.cut_spec.specs.Cut.{with_immediate, low_for, send_extension, reth_for, write_extension, write_end, write_immediate_extension, fetch_add_eth, extension_for, bth_at};

use cut_spec::{Connection, Request, Target};
use header::{AtomicEth, Bth, Extension, Reth};
use sequence::Psn;

fn with_immediate(place: u8) -> u8
    requires { place ≤ Place.only }
    ensures { result ≡ with_immediate place }
{
    if opcode::LAST <= place {
        return place + 1;
    }
    place
}

pub(crate) fn low_for(request: Request, place: u8) -> u8
    requires { place ≤ Place.only }
    ensures { result ≡ low_for request place }
{
    match request {
        Request::Send => place,
        Request::SendImmediate(_) => with_immediate(place),
        Request::Write(_) => opcode::WRITE + place,
        Request::WriteImmediate(_, _) => opcode::WRITE + with_immediate(place),
        Request::Read(_) => opcode::READ,
        Request::CmpSwap(_) => opcode::CMP_SWAP,
        Request::FetchAdd(_, _) => opcode::FETCH_ADD,
    }
}

fn reth_for(t: Target, n: u32) -> Reth
    ensures { result ≡ reth_for t n }
{
    Reth {
        address: t.address,
        key: t.key,
        length: n,
    }
}

fn send_extension(v: u32, place: u8) -> Extension
    ensures { result ≡ send_extension v place }
{
    if opcode::LAST <= place {
        return Extension::Immediate(v);
    }
    Extension::Bare
}

fn write_extension(t: Target, n: u32, place: u8) -> Extension
    ensures { result ≡ write_extension (reth_for t n) place }
{
    if opcode::starts(place) {
        let a = reth_for(t, n);
        return Extension::Remote(a);
    }
    Extension::Bare
}

// With the immediate where the message ends.
fn write_end(t: Target, n: u32, v: u32, begins: bool) -> Extension
    ensures { result ≡ write_end (reth_for t n) v begins }
{
    if begins {
        let a = reth_for(t, n);
        return Extension::RemoteImmediate(a, v);
    }
    Extension::Immediate(v)
}

fn write_immediate_extension(t: Target, n: u32, v: u32, place: u8) -> Extension
    ensures { result ≡ write_immediate_extension (reth_for t n) v place }
{
    if opcode::LAST <= place {
        let begins = opcode::starts(place);
        return write_end(t, n, v, begins);
    }
    write_extension(t, n, place)
}

fn fetch_add(t: Target, v: u64) -> AtomicEth
    ensures { result ≡ fetch_add_eth t v }
{
    AtomicEth {
        address: t.address,
        key: t.key,
        swap: v,
        compare: 0,
    }
}

pub(crate) fn extension_for(request: Request, n: u32, place: u8) -> Extension
    ensures { result ≡ extension_for request n place }
{
    match request {
        Request::Send => Extension::Bare,
        Request::SendImmediate(v) => send_extension(v, place),
        Request::Write(t) => write_extension(t, n, place),
        Request::WriteImmediate(t, v) => write_immediate_extension(t, n, v, place),
        Request::Read(a) => Extension::Remote(a),
        Request::CmpSwap(a) => Extension::Atomic(a),
        Request::FetchAdd(t, v) => {
            let a = fetch_add(t, v);
            Extension::Atomic(a)
        }
    }
}

#[tactic(auto, unfolding(cut_spec::specs::Cut::bth_at))]
pub(crate) fn bth_at(
    connection: Connection,
    low: u8,
    first: Psn,
    index: usize,
    count: usize,
    size: usize,
) -> Bth
    requires service_bound { connection.service ≤ Service.uc }
    requires low_bound { low ≤ Kind.fetch_add }
    requires index_lt_space { index < space }
    ensures { result ≡ bth_at connection low first index count size }
{
    let pad = packet::pad(size);
    let psn = first.after(index);
    Bth {
        opcode: connection.service * opcode::PER_SERVICE + low,
        pad,
        pkey: connection.pkey,
        dest: connection.dest,
        ackreq: index + 1 == count,
        psn,
        ..Bth::default()
    }
}
