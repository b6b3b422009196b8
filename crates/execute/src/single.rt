// READs and atomics, executed: messages of one packet.
ghost use Rattle.std.specs.Prelude.{◌≡◌, cond, eqb};
ghost use Rattle.opcode.specs.Kind as Kind;
ghost use Rattle.responder_spec.specs.Act as Act;
ghost use Rattle.responder_spec.specs.Decide.{whole_message, run_atomic, accept_read};
ghost use Rattle.execute.specs.Fits.{OffsetFits};

use pair::{OpenMessage, Status};
use request_spec::Packet;
use responder_spec::{Change, Decision, Progress};

fn atomic_act(kind: u8) -> u8
    ensures { result ≡ cond (eqb kind Kind.fetch_add) Act.fetch_add Act.cmp_swap }
{
    if kind == opcode::FETCH_ADD {
        responder_spec::FETCH_ADD
    } else {
        responder_spec::CMP_SWAP
    }
}

// A message of one packet ends with it.
fn whole_message(opened: OpenMessage, psns: usize) -> Progress
    ensures { result ≡ whole_message opened psns }
{
    Progress {
        message: opened,
        psns,
        ends: true,
        completion: reply::no_completion(),
    }
}

// An atomic is run, and its old value sent.
#[tactic(auto, unfolding(responder_spec::specs::Decide::run_atomic))]
pub(crate) fn run_atomic(
    p: Packet,
    m: OpenMessage,
    opened: OpenMessage,
    region: [u64; 7],
) -> Decision
    requires { OffsetFits region m.address m.length }
    ensures { result ≡ run_atomic p m opened region }
{
    Decision {
        status: Status::AtomicExecuted,
        change: Change {
            act: atomic_act(p.kind),
            at: table::memory_offset(region, m.address, m.length),
            swap: p.operands.swap,
            compare: p.operands.compare,
            ..Change::default()
        },
        progress: whole_message(opened, 1),
        reply: reply::sending(opcode::ATOMIC_ACKNOWLEDGE, p.psn, reply::ACK, 0),
    }
}

// A READ is accepted, and begins to be answered.
#[tactic(auto, unfolding(responder_spec::specs::Decide::accept_read))]
pub(crate) fn accept_read(
    p: Packet,
    m: OpenMessage,
    opened: OpenMessage,
    region: [u64; 7],
    pmtu: usize,
) -> Decision
    requires { OffsetFits region m.address m.length }
    ensures { result ≡ accept_read p m opened region pmtu }
{
    let at = table::memory_offset(region, m.address, m.length);
    let count = pmtu::count(m.length, pmtu);
    Decision {
        status: Status::ReadAccepted,
        change: reply::no_change(),
        progress: whole_message(opened, count),
        reply: reply::read_begun(at, m.length, count, p.psn),
    }
}
