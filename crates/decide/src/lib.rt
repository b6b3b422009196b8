// What a request leads to: a decision, which changes nothing yet, by the rules of the pair's service. The definitions
// stand in the crate responder_spec.
#![tactic(auto)]

ghost use Rattle.std.specs.Prelude.{◌≡◌, cond, eqb};
ghost use Rattle.sequence.specs.Sequence.{psn_class};
ghost use Rattle.opcode.specs.Service as Service;
ghost use Rattle.execute.specs.Fits.{unformed};
ghost use Rattle.responder_spec.specs.Decide.{no_reply, packet_decision};

use pair::{Pair, Status};
use request_spec::Packet;
use responder_spec::Decision;
use sequence::{Class, Psn};
use table::Tables;

fn unreliable(service: u8) -> bool
    ensures { result ≡ eqb service Service.uc }
{
    service == opcode::UC
}

// The class of a packet's number; UC takes every number as the expected one.
fn class_of(uc: bool, psn: Psn, expected: Psn) -> Class
    ensures { result ≡ cond uc Class.Expected (psn_class psn.0 expected.0) }
{
    if uc {
        return Class::Expected;
    }
    psn.class(expected)
}

// The decision on a packet whose header passes the header checks; what no header and no set-up says is the caller's
// mistake.
pub fn decision(pair: Pair, tables: Tables, p: Packet) -> Decision
    ensures { result ≡ cond (unformed p pair.setup.timer) (no_reply Status.OutOfRange) (packet_decision (record { pair = pair; regions = tables.entry.regions.now; entries = tables.entry.entries.now; saved = tables.entry.saved.now }) p) }
{
    let none = execute::unformed(p, pair.setup.timer);
    let uc = unreliable(pair.setup.service);
    if none {
        return reply::no_reply(Status::OutOfRange);
    }
    let class = class_of(uc, p.psn, pair.expected);
    match class {
        Class::Expected => execute::decision(uc, pair, tables.regions, tables.entries, p),
        Class::Ahead => reply::ahead(pair.nakmark, pair.expected),
        Class::Duplicate => duplicate::answer(pair, tables.regions, tables.saved, p),
    }
}
