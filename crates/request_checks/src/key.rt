// The check of an R_Key: its region holds the bytes still to come, with the right.
ghost use Rattle.std.specs.Prelude.{◌≡◌};
ghost use Rattle.request_spec.specs.Verdict.{right_of, lacks, key_fails};

use pair::OpenMessage;

#[tactic(auto, unfolding(request_spec::specs::Verdict::right_of))]
fn right_of(kind: u8, region: [u64; 7]) -> u64
    ensures { result ≡ right_of kind region }
{
    match kind {
        opcode::WRITE => region[table::REGION_WRITE],
        opcode::READ => region[table::REGION_READ],
        _ => region[table::REGION_ATOMIC],
    }
}

// A region with no end below the top is none that the host could add, and bytes with none lie in no region.
#[tactic(auto, unfolding(request_spec::specs::Verdict::lacks, table::specs::Table::past_top))]
fn lacks(region: [u64; 7], right: u64, memory: usize, address: u64, n: u64) -> bool
    ensures { result ≡ lacks region right memory address n }
{
    let start = region[table::REGION_ADDRESS];
    let length = region[table::REGION_LENGTH];
    let (Some(top), Some(end)) = (start.checked_add(length), address.checked_add(n)) else {
        return true;
    };
    right == 0
        || table::outside(region[table::REGION_OFFSET], length, memory as u64)
        || address < start
        || top < end
}

// A SEND has no key, and no bytes need none. Bytes from an address past the top lie in no region.
#[tactic(auto, using(crate::proofs::Keys::lacks_past), unfolding(request_spec::specs::Verdict::key_fails, request_spec::specs::Verdict::key_lacking, request_spec::specs::Verdict::bytes_to_come))]
pub fn key_fails(memory: usize, kind: u8, m: OpenMessage, region: [u64; 7]) -> bool
    ensures { result ≡ key_fails memory kind m region }
{
    let needed = m.length.saturating_sub(m.stored);
    if kind == opcode::SEND || needed == 0 {
        return false;
    }
    let Some(next) = m.address.checked_add(m.stored as u64) else {
        return true;
    };
    lacks(region, right_of(kind, region), memory, next, needed as u64)
}
