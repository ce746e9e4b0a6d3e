//! Slots are numbered through the whole table.
ghost use Rattle.std.specs.Prelude.{◌≡◌, ◌↔◌, true};
ghost use Rattle.std.specs.List.{AllByRecursion};
ghost use Rattle.c_slots.specs.Slots.{are_numbered_from, first_number, IsSlot};
ghost use Rattle.c_tree.specs.Forms.{AreSlots};

use c_tree::{Slot, TableBase};

fn are_numbered_from(first: u32, slots: &[Slot]) -> bool
    ensures { result ≡ are_numbered_from first slots.now }
{
    let mut number = u64::from(first);
    for slot in slots {
        if u64::from(slot.number) != number {
            return false;
        }
        number += 1;
    }
    true
}

fn first_number(base: TableBase, slots: &[Slot]) -> u32
    ensures { result ≡ first_number base slots.now }
{
    match (base, slots) {
        (TableBase::Class(_), [slot, ..]) => slot.number,
        _ => 0,
    }
}

/// Whether the slots' numbers rise by one: from 0 where the table has no base, else from wherever the base's end.
pub fn are_slots(base: TableBase, slots: &[Slot]) -> bool
    ensures { AllByRecursion IsSlot slots.now → (result ≡ true) ↔ AreSlots base slots.now }
{
    are_numbered_from(first_number(base, slots), slots)
}
