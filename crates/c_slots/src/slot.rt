//! Slots of method tables.
ghost use Rattle.std.specs.Prelude.{◌≡◌, ◌++◌, ◌∷◌, [], List, IfOk};
ghost use Rattle.std.specs.List.{flat_map, AllByRecursion};
ghost use Rattle.c_input.specs.Reads.{Finds, ReadsEvery};
ghost use Rattle.c_slots.specs.Slots.{head_tokens, slot_tokens, Closes, IsHead, IsSlot, ReadsSlots};

use c_input::{Input, Piece};
use c_operand::{result_type, types};
use c_tree::{CResult, Slot};
use cy_base::OutOfMemory;
use sqlite_items::Items;
use std::alloc::Global;

// `R (*m0)`
#[derive(Clone, Copy)]
struct SlotHead {
    result: CResult,
    number: u32,
}

fn head(input: &mut Input) -> Option<SlotHead>
    ensures some { Finds IsHead head_tokens input.old result input.new }
    ensures every { ReadsEvery IsHead head_tokens input.old result }
{
    let result = result_type(input)?;
    if !input.fixed(&[Piece::Sign(b"("), Piece::Sign(b"*")]) {
        return None;
    }
    let number = input.lettered(b"m")?;
    if input.fixed(&[Piece::Sign(b")")]) {
        Some(SlotHead { result, number })
    } else {
        None
    }
}

// `R (*m0)(T, ..);`
fn slot(alloc: Global, input: &mut Input) -> Result<Option<Slot>, OutOfMemory>
    ensures some { IfOk result (λ found. Finds IsSlot slot_tokens input.old found input.new) }
    ensures every { IfOk result (λ found. ReadsEvery IsSlot slot_tokens input.old found) }
{
    let Some(head) = head(input) else {
        return Ok(None);
    };
    let Some(parameters) = types(alloc, input)? else {
        return Ok(None);
    };
    if !input.fixed(&[Piece::Sign(b";")]) {
        return Ok(None);
    }
    Ok(Some(Slot {
        result: head.result,
        number: head.number,
        parameters,
    }))
}

/// Reads slots, up to `}`.
pub fn slots(alloc: Global, input: &mut Input) -> Result<Option<Items<Slot>>, OutOfMemory>
    ensures some { IfOk result (λ found. Finds (λ all. AllByRecursion IsSlot all) (flat_map slot_tokens) input.old found input.new) }
    ensures every { IfOk result (λ found. ReadsSlots input.old found) }
{
    let mut slots = Vec::new(alloc);
    while !input.sees(Piece::Sign(b"}"), 0) {
        let Some(next) = slot(alloc, input)? else {
            return Ok(None);
        };
        slots.push(next)?;
    }
    Ok(Some(Items::from_vec(slots)))
}
