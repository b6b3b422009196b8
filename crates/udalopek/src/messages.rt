// A message cut into packets, one a call.
ghost use Rattle.std.specs.Prelude.{◌≡◌, ◌<◌, ◌≤◌, MatchOption};
ghost use Rattle.sequence.specs.declared.Psn.{Psn};
ghost use Rattle.cut_spec.specs.declared.Connection.{Connection};
ghost use Rattle.udalopek_spec.specs.RequestKind.{fetch_add};
ghost use Rattle.udalopek_spec.specs.Cutting.{request_of, following_psn, cut_report, cut_number, cut_output, cut_words};

use crate::headers::{bytes_written, refusal_number};
use cut_spec::{Connection, Request, Target};
use header::{AtomicEth, Refusal, Reth};
use sequence::Psn;

// The kinds of request that a caller names: numbers, as C names them.
const SEND: u8 = 0;

const SEND_IMMEDIATE: u8 = 1;

const WRITE: u8 = 2;

const WRITE_IMMEDIATE: u8 = 3;

const READ: u8 = 4;

const CMP_SWAP: u8 = 5;

const FETCH_ADD: u8 = 6;

// The request of a kind, from the numbers that it has, where there is such a kind.
#[tactic(auto, unfolding(udalopek_spec::specs::Cutting::request_of))]
fn request_of(
    kind: u8,
    address: u64,
    key: u32,
    length: u32,
    swap: u64,
    compare: u64,
    immediate: u32,
) -> Option<Request>
    ensures { MatchOption result (fetch_add < kind) (λ r. (kind ≤ fetch_add) × (r ≡ request_of kind address key length swap compare immediate)) }
{
    let target = Target { address, key };
    let request = match kind {
        SEND => Request::Send,
        SEND_IMMEDIATE => Request::SendImmediate(immediate),
        WRITE => Request::Write(target),
        WRITE_IMMEDIATE => Request::WriteImmediate(target, immediate),
        READ => Request::Read(Reth {
            address,
            key,
            length,
        }),
        CMP_SWAP => Request::CmpSwap(AtomicEth {
            address,
            key,
            swap,
            compare,
        }),
        FETCH_ADD => Request::FetchAdd(target, swap),
        _ => return None,
    };
    Some(request)
}

fn following_psn(next: Result<Psn, Refusal>) -> u64
    ensures { result ≡ following_psn next }
{
    match next {
        Ok(psn) => u64::from(psn.0),
        Err(_) => 0,
    }
}

// The report of a cut, all 0 if it is refused.
fn cut_report(number: u8, n: u64, psn: u64) -> [u64; 2]
    ensures { result ≡ cut_report number n psn }
{
    if number != 0 {
        return [0; 2];
    }
    [n, psn]
}

// Writes packet index of a message.
#[unsafe(no_mangle)]
pub extern "C" fn udalopek_cut(
    service: u8,
    pmtu: usize,
    pkey: u16,
    dest: u32,
    psn: u32,
    index: usize,
    kind: u8,
    address: u64,
    key: u32,
    length: u32,
    swap: u64,
    compare: u64,
    immediate: u32,
    message: &[u8],
    out: &mut [u8],
    report: &mut [u64; 2],
) -> u8
    ensures { let c : Connection = record { service = service; pmtu = pmtu; pkey = pkey; dest = dest } in let r = request_of kind address key length swap compare immediate in let first : Psn = record { 0 = psn } in (result ≡ cut_number kind c r message.now first index out.old) × (out.new ≡ cut_output kind c r message.now first index out.old) × (report.new ≡ cut_words kind c r message.now first index out.old) }
{
    let Some(request) = request_of(kind, address, key, length, swap, compare, immediate) else {
        *report = [0; 2];
        return header::BAD_NUMBER;
    };
    let connection = Connection {
        service,
        pmtu,
        pkey,
        dest,
    };
    let first = Psn(psn);
    let next = cut::next_psn(request, message.len(), pmtu, first);
    let answer = cut::cut(connection, request, message, first, index, out);
    let number = refusal_number(answer);
    let n = bytes_written(answer);
    *report = cut_report(number, n, following_psn(next));
    number
}
