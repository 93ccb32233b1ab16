//! The searches in an arena's table.
ghost use Rattle.std.specs.Prelude.{◌≡◌, ℕ, List, length, slice_index_or, MatchOption};
ghost use Rattle.std.specs.List.{AllByRecursion};
ghost use Rattle.ep_base.specs.Objects.Arena as kept;
ghost use Rattle.tlv_arena.specs.StoreState.{objects_in, IsAbsent, IsAt, IsLowest, InBlock, Done};

use crate::slot::Slot;

/// The index of the object with this serial.
pub(crate) fn index_of(slots: &[Slot], serial: u64) -> Option<usize>
    ensures { MatchOption result (IsAbsent serial slots.now) (λ i. IsAt serial i slots.now) }
{
    for (i, slot) in slots.iter().enumerate() {
        if slot.serial == serial {
            return Some(i);
        }
    }
    None
}

/// The serial of the first object of this group and tag.
pub(crate) fn serial_of(slots: &[Slot], group: u16, tag: u32) -> Option<u64>
    ensures { (bytes : List ℕ) → result ≡ kept.serial_of group tag (objects_in bytes slots.now) }
{
    for slot in slots {
        if slot.group == group && slot.tag == tag {
            return Some(slot.serial);
        }
    }
    None
}

/// The index of the lowest slot with bytes that lies at `to` or above.
pub(crate) fn lowest(slots: &[Slot], to: usize) -> Option<usize>
    requires { AllByRecursion (InBlock 65536) slots.now }
    ensures { MatchOption result (AllByRecursion (Done to) slots.now) (λ i. IsLowest to i slots.now) }
{
    let mut best = slots.len();
    let mut least = 65537;
    for (i, slot) in slots.iter().enumerate() {
        if to <= slot.place && 0 < slot.len && slot.place < least {
            best = i;
            least = slot.place;
        }
    }
    if best < slots.len() { Some(best) } else { None }
}
