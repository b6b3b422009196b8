// The checks of a packet's place in its message, its pad and its receive entry.
ghost use Rattle.std.specs.Prelude.{◌≡◌};
ghost use Rattle.request_spec.specs.Verdict.{out_of_sequence, pad_early, needs_entry, entries_waiting, none_waiting, uses_entry, entry_outside};

#[tactic(auto, unfolding(request_spec::specs::Verdict::out_of_sequence))]
pub(crate) fn out_of_sequence(opened: u8, kind: u8, place: u8) -> bool
    ensures { result ≡ out_of_sequence opened kind place }
{
    if opcode::starts(place) {
        opened != pair::CLOSED
    } else {
        opened != kind
    }
}

#[tactic(auto, unfolding(request_spec::specs::Verdict::pad_early))]
pub(crate) fn pad_early(place: u8, pad: usize) -> bool
    ensures { result ≡ pad_early place pad }
{
    !opcode::ends(place) && pad != 0
}

#[tactic(auto, unfolding(request_spec::specs::Verdict::needs_entry))]
fn needs_entry(kind: u8, place: u8, immediate: bool) -> bool
    ensures { result ≡ needs_entry kind place immediate }
{
    if kind == opcode::SEND {
        opcode::starts(place)
    } else {
        immediate
    }
}

// Of the entries those that wait: an open SEND holds one.
#[tactic(auto, unfolding(request_spec::specs::Verdict::entries_waiting))]
fn entries_waiting(opened: u8, count: usize) -> usize
    ensures { result ≡ entries_waiting opened count }
{
    if opened == opcode::SEND {
        count.saturating_sub(1)
    } else {
        count
    }
}

#[tactic(auto, unfolding(request_spec::specs::Verdict::none_waiting))]
pub(crate) fn none_waiting(kind: u8, place: u8, immediate: bool, opened: u8, count: usize) -> bool
    ensures { result ≡ none_waiting kind place immediate opened count }
{
    needs_entry(kind, place, immediate) && entries_waiting(opened, count) == 0
}

// Whether a packet uses the entry at the head: a SEND's, or one with an immediate.
#[tactic(auto, unfolding(request_spec::specs::Verdict::uses_entry))]
pub fn uses_entry(kind: u8, immediate: bool) -> bool
    ensures { result ≡ uses_entry kind immediate }
{
    kind == opcode::SEND || immediate
}

#[tactic(auto, unfolding(request_spec::specs::Verdict::entry_outside))]
pub(crate) fn entry_outside(kind: u8, immediate: bool, entry: [u64; 3], memory: usize) -> bool
    ensures { result ≡ entry_outside kind immediate entry memory }
{
    uses_entry(kind, immediate)
        && table::outside(
            entry[table::ENTRY_OFFSET],
            entry[table::ENTRY_LENGTH],
            memory as u64,
        )
}
