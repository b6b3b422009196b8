// What a request leads to that is not a duplicate: it is executed, or a check refuses it. A decision, which changes
// nothing yet, by the rules of either service. The definitions stand in the crate responder_spec.
#![tactic(auto)]

mod message;
mod single;
mod uc;

ghost use Rattle.std.specs.Prelude.{◌≡◌, false, cond, ◌+◌, ◌≤◌};
ghost use Rattle.sequence.specs.Sequence.{distance};
ghost use Rattle.pair.specs.Sound.{timer_limit};
ghost use Rattle.request_spec.specs.RequestCheck.{check_number};
ghost use Rattle.request_spec.specs.Verdict.{current};
ghost use Rattle.responder_spec.specs.Decide.{no_reply, failed, execute, orphaned, strays, closed_by, abandoning, uc_execute, region_for, head_entry};
ghost use Rattle.execute.specs.Fits.{Executable, unformed};
ghost use Rattle.execute.specs.Either.{either};

use pair::{OpenMessage, Pair, Status};
use request_spec::{Packet, RequestCheck};
use responder_spec::Decision;
use sequence::Psn;

// Refused by a check, with its answer: a NAK, or the caller's mistake.
#[tactic(auto, unfolding(responder_spec::specs::Decide::failed, request_spec::specs::Verdict::check_answer))]
fn failed(check: RequestCheck, psn: Psn, timer: u8) -> Decision
    requires { timer ≤ timer_limit }
    ensures { result ≡ failed (check_number check) psn timer }
{
    match check {
        RequestCheck::Entry => {
            reply::acknowledging(Status::NotReadyNak, psn, reply::NOT_READY + timer)
        }
        RequestCheck::Key => reply::acknowledging(Status::AccessNak, psn, reply::ACCESS),
        RequestCheck::EntryOutside => reply::no_reply(Status::OutOfRange),
        RequestCheck::Sequence
        | RequestCheck::Function
        | RequestCheck::Pad
        | RequestCheck::DmaLength
        | RequestCheck::Lengths => {
            reply::acknowledging(Status::InvalidRequestNak, psn, reply::INVALID_REQUEST)
        }
    }
}

// Refused by a check: a NAK on RC, the message abandoned on UC.
fn refused(uc: bool, check: RequestCheck, opened: u8, psn: Psn, timer: u8) -> Decision
    requires { timer ≤ timer_limit }
    ensures { result ≡ cond uc (abandoning (check_number check) opened) (failed (check_number check) psn timer) }
{
    if uc {
        uc::abandoning(check, opened)
    } else {
        failed(check, psn, timer)
    }
}

// Whether an executed packet is acknowledged: on UC none is.
fn asks(uc: bool, ackreq: bool) -> bool
    ensures { result ≡ cond uc false ackreq }
{
    !uc && ackreq
}

// How many PSNs a packet takes: on UC those passed over, too.
fn psns(uc: bool, psn: Psn, expected: Psn) -> usize
    ensures { result ≡ cond uc (1 + distance psn.0 expected.0) 1 }
{
    if uc {
        1 + psn.distance(expected) as usize
    } else {
        1
    }
}

// By the kind of a packet that passed every check, of the message m. UC has no READs and atomics: none comes so far. Packet,
// message, entry and region stay apart here, in message and in single: definitions and bounds speak of each alone.
#[tactic(auto, unfolding(responder_spec::specs::Decide::execute, responder_spec::specs::Decide::uc_execute))]
fn execute(
    uc: bool,
    p: Packet,
    expected: Psn,
    m: OpenMessage,
    opened: OpenMessage,
    entry: [u64; 3],
    region: [u64; 7],
    pmtu: usize,
) -> Decision
    requires { Executable p m entry region }
    ensures { result ≡ cond uc (uc_execute p expected m entry region) (execute p m opened entry region pmtu) }
{
    if request_checks::carrying(p.kind) {
        let asked = asks(uc, p.ackreq);
        let taken = psns(uc, p.psn, expected);
        return message::store_payload(p, asked, taken, m, entry, region);
    }
    if uc {
        return reply::no_reply(Status::Dropped);
    }
    if p.kind == opcode::READ {
        return single::accept_read(p, m, opened, region, pmtu);
    }
    single::run_atomic(p, m, opened, region)
}

// The row of the key's region; a SEND has no key.
#[tactic(auto, unfolding(responder_spec::specs::Decide::region_for))]
fn key_region(regions: &[[u64; 7]; table::REGIONS], kind: u8, key: u32) -> [u64; 7]
    ensures { result ≡ region_for kind key regions.now }
{
    if kind == opcode::SEND {
        [0; 7]
    } else {
        table::region_of(regions, key)
    }
}

// Whether there is no such packet or pair: a fragment, as no header says, or a timer code that no set-up accepts.
#[tactic(auto, unfolding(crate::specs::Fits::unformed))]
pub fn unformed(p: Packet, timer: u8) -> bool
    ensures { result ≡ unformed p timer }
{
    request_checks::fragment(p) || pair::TIMER_LIMIT < timer
}

// On Err the answer to a Middle or Last of UC that has lost its message.
fn lost(uc: bool, p: Packet, expected: Psn, opened: u8) -> Result<(), Status>
    ensures { result ≡ cond uc (cond (orphaned p.place opened) (Err Status.Dropped) (cond (strays p expected opened) (Err Status.Abandoned) (Ok tt))) (Ok tt) }
{
    if uc {
        uc::lost(p, expected, opened)
    } else {
        Ok(())
    }
}

// The kind of the message that is open when a packet is checked.
fn open_kind(uc: bool, place: u8, opened: OpenMessage) -> u8
    ensures { result ≡ cond uc (closed_by place opened).kind opened.kind }
{
    if uc {
        uc::closed_by(place, opened).kind
    } else {
        opened.kind
    }
}

// A packet whose PSN is the expected one, as on UC every PSN is: the request checks, then it is executed. Both services
// pass here, by a flag and not by a type of each, so that the checks and the executing stand once in the compiled code;
// apart, a SEND takes some 15 ns longer. It reads two of the three tables, and takes no Tables.
pub fn decision(
    uc: bool,
    pair: Pair,
    regions: &[[u64; 7]; table::REGIONS],
    entries: &[[u64; 3]; table::ENTRIES],
    p: Packet,
) -> Decision
    ensures { result ≡ cond (unformed p pair.setup.timer) (no_reply Status.OutOfRange) (either uc p pair.setup pair.expected pair.message pair.entries.count (head_entry pair entries.now) (region_for p.kind (current pair.message p).key regions.now)) }
{
    let setup = pair.setup;
    if unformed(p, setup.timer) {
        return reply::no_reply(Status::OutOfRange);
    }
    let opened = pair.message;
    if let Err(status) = lost(uc, p, pair.expected, opened.kind) {
        return reply::no_reply(status);
    }
    let m = request_checks::current(opened, p);
    let entry = table::entry_at(entries, pair.entries.head);
    let region = key_region(regions, p.kind, m.key);
    let kind = open_kind(uc, p.place, opened);
    let count = pair.entries.count;
    match request_checks::expected_check(setup, kind, m, p, count, entry, region) {
        Ok(()) => execute(uc, p, pair.expected, m, opened, entry, region, setup.pmtu),
        Err(check) => refused(uc, check, opened.kind, p.psn, setup.timer),
    }
}
