// What a duplicate is answered with. The definitions stand in the crate responder_spec.
#![tactic(auto)]

ghost use Rattle.std.specs.Prelude.{◌≡◌, false, cond};
ghost use Rattle.opcode.specs.Kind as Kind;
ghost use Rattle.table.specs.View.{newest_saved};
ghost use Rattle.request_spec.specs.Verdict.{current, fragment};
ghost use Rattle.responder_spec.specs.Decide.{no_reply, psn_before, duplicate_read_fails, duplicate_read, duplicate_atomic, is_atomic, duplicate_decision, region_for};

use pair::{OpenMessage, Pair, Setup, Status};
use request_spec::Packet;
use responder_spec::Decision;
use sequence::Psn;

#[tactic(auto, unfolding(responder_spec::specs::Decide::psn_before))]
fn psn_before(psn: Psn) -> Psn
    ensures { result ≡ psn_before psn }
{
    psn.after(Psn::LAST.0 as usize)
}

// Whether a duplicate READ is not answered.
#[tactic(auto, unfolding(responder_spec::specs::Decide::duplicate_read_fails))]
fn duplicate_read_fails(
    p: Packet,
    s: Setup,
    m: OpenMessage,
    expected: Psn,
    region: [u64; 7],
) -> bool
    ensures { result ≡ duplicate_read_fails p s m expected region }
{
    request_checks::not_enabled(s, opcode::READ)
        || request_checks::over_limit(m.length)
        || p.body != 0
        || p.pad != 0
        || request_checks::key_fails(s.memory, opcode::READ, m, region)
        || (expected.distance(p.psn) as usize) < pmtu::count(m.length, s.pmtu)
}

#[tactic(auto, using(crate::proofs::Keys::answered_offset), unfolding(responder_spec::specs::Decide::duplicate_read))]
fn duplicate_read(p: Packet, s: Setup, m: OpenMessage, expected: Psn, region: [u64; 7]) -> Decision
    requires { m.stored ≡ 0 }
    ensures { result ≡ duplicate_read p s m expected region }
{
    if duplicate_read_fails(p, s, m, expected, region) {
        return reply::no_reply(Status::Dropped);
    }
    let at = table::memory_offset(region, m.address, m.length);
    let count = pmtu::count(m.length, s.pmtu);
    reply::reply_only(
        Status::DuplicateAnswered,
        reply::read_begun(at, m.length, count, p.psn),
    )
}

#[tactic(auto, unfolding(responder_spec::specs::Decide::no_reply))]
fn duplicate_atomic(saved: Option<u64>, psn: Psn) -> Decision
    ensures { result ≡ duplicate_atomic saved psn }
{
    match saved {
        Some(v) => {
            let answer = reply::sending(opcode::ATOMIC_ACKNOWLEDGE, psn, reply::ACK, v);
            reply::reply_only(Status::DuplicateAnswered, answer)
        }
        None => reply::no_reply(Status::Dropped),
    }
}

#[tactic(auto, unfolding(responder_spec::specs::Decide::is_atomic))]
fn is_atomic(kind: u8) -> bool
    ensures { result ≡ is_atomic kind }
{
    matches!(kind, opcode::CMP_SWAP | opcode::FETCH_ADD)
}

// A READ, by the region of its key.
#[tactic(auto, using(request_checks::proofs::Keys::none_stored_yet), unfolding(responder_spec::specs::Decide::region_for, request_spec::specs::Verdict::single))]
fn read(p: Packet, pair: Pair, regions: &[[u64; 7]; table::REGIONS]) -> Decision
    requires p_value { fragment p ≡ false }
    requires kind_value { p.kind ≡ Kind.read }
    ensures { result ≡ duplicate_read p pair.setup (current pair.message p) pair.expected (region_for p.kind (current pair.message p).key regions.now) }
{
    let m = request_checks::current(pair.message, p);
    let region = table::region_of(regions, m.key);
    duplicate_read(p, pair.setup, m, pair.expected, region)
}

// By the kind of the duplicate. Only a READ's key is looked up, and only an atomic's value. What no header says is the
// caller's mistake. It reads two of the three tables, and takes no Tables.
#[tactic(auto, unfolding(responder_spec::specs::Decide::duplicate_decision))]
pub fn answer(
    pair: Pair,
    regions: &[[u64; 7]; table::REGIONS],
    saved: &[[u64; 2]; table::SAVED],
    p: Packet,
) -> Decision
    ensures { result ≡ cond (fragment p) (no_reply Status.OutOfRange) (duplicate_decision p pair.setup pair.expected (current pair.message p) (region_for p.kind (current pair.message p).key regions.now) (newest_saved p.psn.0 saved.now pair.saved)) }
{
    if request_checks::fragment(p) {
        return reply::no_reply(Status::OutOfRange);
    }
    if request_checks::carrying(p.kind) {
        let psn = psn_before(pair.expected);
        return reply::acknowledging(Status::DuplicateAnswered, psn, reply::ACK);
    }
    if p.kind == opcode::READ {
        return read(p, pair, regions);
    }
    if is_atomic(p.kind) {
        return duplicate_atomic(table::newest(saved, pair.saved, p.psn), p.psn);
    }
    reply::no_reply(Status::Dropped)
}
