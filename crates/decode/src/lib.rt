// Headers read from the bytes of a packet, with no copy of them.
#![tactic(auto)]

mod field;
mod operands;

ghost use Rattle.std.specs.Prelude.{◌≡◌, ◌+◌, ◌-◌, ◌≤◌, length};
ghost use Rattle.opcode.specs.Opcode.{length_of};
ghost use Rattle.opcode.specs.Length as Length;
ghost use Rattle.header.specs.Read.{bth_of, reth_of, atomic_of, aeth_of, extension_of, bad_length, read_reason, read_header, read_number, read_check, reason_number};
ghost use Rattle.header.specs.Check.{wrong_service, is_response, beyond_service, header_reason, admitted};
ghost use Rattle.request_spec.specs.Packet.{admission, admission_number};
ghost use Rattle.decode.specs.Reason.{bth_reason};

use field::{be16, be24, be32, be64};
use header::{Aeth, AtomicEth, Bth, Extension, Header, Reason, Reth};
use opcode::OpcodeClass;
use request_spec::{Operands, Packet};
use sequence::{Msn, Psn};

#[tactic(auto, unfolding(header::specs::Read::bth_of))]
fn read_bth(p: &[u8]) -> Bth
    requires { Length.bth ≤ length p.now }
    ensures { result ≡ bth_of p.now }
{
    let opcode = p[0];
    let flags = p[1];
    let pkey = be16(p, 2);
    let reserved8 = p[4];
    let dest = be24(p, 5);
    let ack = p[8];
    let psn = Psn(be24(p, 9));
    Bth {
        opcode,
        se: 128 <= flags,
        migreq: 64 <= flags % 128,
        pad: flags / 16 % 4,
        tver: flags % 16,
        pkey,
        reserved8,
        dest,
        ackreq: 128 <= ack,
        reserved7: ack % 128,
        psn,
    }
}

#[tactic(auto, unfolding(header::specs::Read::reth_of))]
fn read_reth(p: &[u8]) -> Reth
    requires { Length.bth + Length.reth ≤ length p.now }
    ensures { result ≡ reth_of p.now }
{
    Reth {
        address: be64(p, 12),
        key: be32(p, 20),
        length: be32(p, 24),
    }
}

#[tactic(auto, unfolding(header::specs::Read::atomic_of))]
fn read_atomic(p: &[u8]) -> AtomicEth
    requires { Length.bth + Length.atomic_eth ≤ length p.now }
    ensures { result ≡ atomic_of p.now }
{
    AtomicEth {
        address: be64(p, 12),
        key: be32(p, 20),
        swap: be64(p, 24),
        compare: be64(p, 32),
    }
}

#[tactic(auto, unfolding(header::specs::Read::aeth_of))]
fn read_aeth(p: &[u8]) -> Aeth
    requires { Length.bth + Length.aeth ≤ length p.now }
    ensures { result ≡ aeth_of p.now }
{
    Aeth {
        syndrome: p[12],
        msn: Msn(be24(p, 13)),
    }
}

// The headers after the BTH, of the opcode's class, for which the packet is long enough.
#[tactic(auto, unfolding(header::specs::Read::extension_of, opcode::specs::Opcode::length_of))]
fn read_extension(p: &[u8], follows: u8) -> Extension
    requires { length_of follows ≤ length p.now }
    ensures { result ≡ extension_of follows p.now }
{
    match follows {
        opcode::RETH => Extension::Remote(read_reth(p)),
        opcode::RETH_IMMEDIATE => Extension::RemoteImmediate(read_reth(p), be32(p, 28)),
        opcode::IMMEDIATE => Extension::Immediate(be32(p, 12)),
        opcode::ATOMIC_ETH => Extension::Atomic(read_atomic(p)),
        opcode::AETH => Extension::Acknowledge(read_aeth(p)),
        opcode::AETH_ATOMIC_ACK => Extension::AtomicAcknowledge(read_aeth(p), be64(p, 16)),
        _ => Extension::Bare,
    }
}

#[tactic(auto, unfolding(header::specs::Read::bad_length))]
fn bad_length(n: usize) -> bool
    ensures { result ≡ bad_length n }
{
    n < opcode::BTH_LENGTH || header::PACKET_LIMIT < n || n % 4 != 0
}

#[tactic(auto, unfolding(header::specs::Check::wrong_service))]
fn wrong_service(theirs: u8, ours: u8) -> bool
    ensures { result ≡ wrong_service theirs ours }
{
    header::other_service(theirs) || theirs != ours
}

#[tactic(auto, unfolding(header::specs::Check::is_response))]
fn is_response(low: u8) -> bool
    ensures { result ≡ is_response low }
{
    opcode::READ_RESPONSE <= low && low <= opcode::ATOMIC_ACKNOWLEDGE
}

#[tactic(auto, unfolding(header::specs::Check::beyond_service))]
fn beyond_service(service: u8, low: u8) -> bool
    ensures { result ≡ beyond_service service low }
{
    service == opcode::UC && !opcode::uc_has(low)
}

// The check behind that of the length that fails first. It stands in a function of its own because the compiler
// takes what comes after many early returns for rare, and does not inline it.
#[tactic(auto, unfolding(crate::specs::Reason::bth_reason))]
fn bth_reason(
    b: Bth,
    headers: usize,
    n: usize,
    service: u8,
    ours: u32,
    pkey: u16,
    ready: bool,
) -> Result<(), Reason>
    ensures { result ≡ bth_reason service ours pkey ready b headers n }
{
    if b.tver != 0 {
        return Err(Reason::Version);
    }
    if b.dest != ours {
        return Err(Reason::Number);
    }
    if !header::pkeys_match(b.pkey, pkey) {
        return Err(Reason::Key);
    }
    if wrong_service(b.opcode / opcode::PER_SERVICE, service) {
        return Err(Reason::Service);
    }
    if is_response(b.opcode % opcode::PER_SERVICE) {
        return Err(Reason::Response);
    }
    if beyond_service(service, b.opcode % opcode::PER_SERVICE) {
        return Err(Reason::Unserved);
    }
    if n < headers {
        return Err(Reason::Short);
    }
    if !ready {
        return Err(Reason::NotReady);
    }
    Ok(())
}

// The packet of n bytes that has this BTH and these operands, as numbers, by the class of its opcode.
fn packet_of(b: Bth, class: OpcodeClass, operands: Operands, n: usize) -> Packet
    ensures { result ≡ record { kind = class.kind; place = class.place; ackreq = b.ackreq; pad = b.pad; psn = b.psn; start = class.length; body = n - class.length; operands = operands } }
{
    let psn = b.psn;
    let body = n.saturating_sub(class.length);
    Packet {
        kind: class.kind,
        place: class.place,
        ackreq: b.ackreq,
        pad: usize::from(b.pad),
        psn,
        start: class.length,
        body,
        operands,
    }
}

// The packet, if its header passes all header checks of a queue pair with these numbers, or the check that failed
// first. No header is made: its fields go straight into the numbers of the packet. Numbers of the pair and no pair, so that
// a new field of it changes no proof here.
#[tactic(auto, using(crate::proofs::Room::rooms))]
pub fn admit(p: &[u8], service: u8, ours: u32, pkey: u16, ready: bool) -> Result<Packet, Reason>
    ensures value { result ≡ admission (admitted service ours pkey ready p.now) (length p.now) }
    ensures result_value { admission_number result ≡ reason_number (header_reason service ours pkey ready p.now) }
{
    if bad_length(p.len()) {
        return Err(Reason::Length);
    }
    let b = read_bth(p);
    let class = opcode::class(b.opcode);
    bth_reason(b, class.length, p.len(), service, ours, pkey, ready)?;
    let operands = operands::operands_of(p, class.follows);
    Ok(packet_of(b, class, operands, p.len()))
}

// The header of a packet of any bytes, or the check that failed first: Length, Version, Service or Short, the four that
// need no pair.
#[tactic(auto, using(crate::proofs::Room::rooms))]
pub fn read(p: &[u8]) -> Result<Header, Reason>
    ensures value { result ≡ read_header p.now }
    ensures result_value { read_number result ≡ reason_number (read_reason p.now) }
    ensures result_value_2 { read_check result ≡ read_reason p.now }
{
    if bad_length(p.len()) {
        return Err(Reason::Length);
    }
    let bth = read_bth(p);
    if bth.tver != 0 {
        return Err(Reason::Version);
    }
    if header::other_service(bth.opcode / opcode::PER_SERVICE) {
        return Err(Reason::Service);
    }
    let class = opcode::class(bth.opcode);
    if p.len() < class.length {
        return Err(Reason::Short);
    }
    let extension = read_extension(p, class.follows);
    Ok(Header { bth, extension })
}
