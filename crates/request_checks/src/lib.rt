// The request checks of a responder: tests on numbers, each naming the failing case, and the first check that fails. The
// definitions and their laws stand in the crate request_spec.
#![tactic(auto)]

mod key;
mod lengths;
mod place;

ghost use Rattle.std.specs.Prelude.{◌≡◌, cond};
ghost use Rattle.request_spec.specs.RequestCheck as Check;
ghost use Rattle.request_spec.specs.RequestCheck.{found_number};
ghost use Rattle.request_spec.specs.Verdict.{carrying, single, fragment, not_enabled, over_limit, current, key_fails, lengths_off, request_check_of, expected_check_of};

pub use key::key_fails;
use pair::{OpenMessage, Setup};
pub use place::uses_entry;
use request_spec::{Packet, RequestCheck};

// Whether the kind is one of the two that carry bytes.
#[tactic(auto, unfolding(request_spec::specs::Verdict::carrying))]
pub fn carrying(kind: u8) -> bool
    ensures { result ≡ carrying kind }
{
    kind < opcode::READ
}

// Whether the function is switched off, or there is none.
#[tactic(auto, unfolding(request_spec::specs::Verdict::not_enabled))]
pub fn not_enabled(s: Setup, kind: u8) -> bool
    ensures { result ≡ not_enabled s kind }
{
    match kind {
        opcode::SEND => !s.send,
        opcode::WRITE => !s.write,
        opcode::READ => !s.read,
        opcode::CMP_SWAP | opcode::FETCH_ADD => !s.atomic,
        _ => true,
    }
}

#[tactic(auto, unfolding(request_spec::specs::Verdict::over_limit))]
pub fn over_limit(length: usize) -> bool
    ensures { result ≡ over_limit length }
{
    pair::LIMIT < length
}

// The message that a packet is of, as it is before the packet.
#[tactic(auto, unfolding(request_spec::specs::Verdict::current))]
pub fn current(opened: OpenMessage, p: Packet) -> OpenMessage
    ensures { result ≡ current opened p }
{
    if opcode::starts(p.place) {
        OpenMessage {
            kind: p.kind,
            stored: 0,
            address: p.operands.address,
            key: p.operands.key,
            length: p.operands.length,
        }
    } else {
        opened
    }
}

// Whether a message of this kind is one packet.
#[tactic(auto, unfolding(request_spec::specs::Verdict::single))]
fn single(kind: u8) -> bool
    ensures { result ≡ single kind }
{
    matches!(kind, opcode::READ | opcode::CMP_SWAP | opcode::FETCH_ADD)
}

// Whether the packet is a Middle or Last of such a message, as no header says.
#[tactic(auto, unfolding(request_spec::specs::Verdict::fragment))]
pub fn fragment(p: Packet) -> bool
    ensures { result ≡ fragment p }
{
    single(p.kind) && !opcode::starts(p.place)
}

// The last two checks, of the key and of the lengths. In one function with those before them, the compiler does not
// inline the lengths, and a packet takes some 50 instructions more.
fn bytes_check(
    p: Packet,
    m: OpenMessage,
    s: Setup,
    region: [u64; 7],
    most: u64,
) -> Result<(), RequestCheck>
    ensures { found_number result ≡ cond (key_fails s.memory p.kind m region) Check.key (cond (lengths_off p s.pmtu m most) Check.lengths Check.none) }
{
    if key_fails(s.memory, p.kind, m, region) {
        return Err(RequestCheck::Key);
    }
    if lengths::lengths_off(p, s.pmtu, m, most) {
        return Err(RequestCheck::Lengths);
    }
    Ok(())
}

// The checks but that of the sequence. Apart from that one, so that the compiler inlines all of them.
fn request_check(
    p: Packet,
    m: OpenMessage,
    opened: u8,
    s: Setup,
    count: usize,
    region: [u64; 7],
    entry: [u64; 3],
) -> Result<(), RequestCheck>
    ensures { found_number result ≡ request_check_of s opened m p count entry region }
{
    if not_enabled(s, p.kind) {
        return Err(RequestCheck::Function);
    }
    if place::pad_early(p.place, p.pad) {
        return Err(RequestCheck::Pad);
    }
    if over_limit(p.operands.length) {
        return Err(RequestCheck::DmaLength);
    }
    if place::none_waiting(p.kind, p.place, p.operands.immediate, opened, count) {
        return Err(RequestCheck::Entry);
    }
    if place::entry_outside(p.kind, p.operands.immediate, entry, s.memory) {
        return Err(RequestCheck::EntryOutside);
    }
    bytes_check(p, m, s, region, entry[table::ENTRY_LENGTH])
}

// The request checks, for a packet of the message m: on Err the first that fails. Two rows and a count stay arguments:
// only one call has them, and a struct of them would be made there and taken apart here.
pub fn expected_check(
    s: Setup,
    opened: u8,
    m: OpenMessage,
    p: Packet,
    count: usize,
    entry: [u64; 3],
    region: [u64; 7],
) -> Result<(), RequestCheck>
    ensures { found_number result ≡ expected_check_of s opened m p count entry region }
{
    if place::out_of_sequence(opened, p.kind, p.place) {
        return Err(RequestCheck::Sequence);
    }
    request_check(p, m, opened, s, count, region, entry)
}
