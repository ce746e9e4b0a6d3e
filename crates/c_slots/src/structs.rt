//! Structs of method tables.
ghost use Rattle.std.specs.Prelude.{IfOk};
ghost use Rattle.c_input.specs.Reads.{Finds, ReadsEvery};
ghost use Rattle.c_slots.specs.Slots.{opened_tokens, table_struct_tokens, IsOpened, IsTableStruct};

use crate::base::table_base;
use crate::numbering::are_slots;
use crate::slot::slots;
use c_input::{Input, Piece};
use c_tree::{Numbered, Slot, TableBase};
use cy_base::OutOfMemory;
use sqlite_items::Items;
use std::alloc::Global;

/// The struct of a method table: its class, what it begins with, and its slots.
#[derive(Drop)]
pub struct TableStruct {
    pub class: Numbered,
    pub base: TableBase,
    pub slots: Items<Slot>,
}

// `struct cyc_vt_0_1 { BASE`
#[derive(Clone, Copy)]
struct Opened {
    class: Numbered,
    base: TableBase,
}

fn start(input: &mut Input) -> Option<Opened>
    ensures some { Finds IsOpened opened_tokens input.old result input.new }
    ensures every { ReadsEvery IsOpened opened_tokens input.old result }
{
    if !input.fixed(&[Piece::Word(b"struct")]) {
        return None;
    }
    let class = input.numbered(b"cyc_vt_")?;
    if !input.fixed(&[Piece::Sign(b"{")]) {
        return None;
    }
    let base = table_base(input)?;
    Some(Opened { class, base })
}

/// Reads `struct cyc_vt_0_1 { BASE R (*m0)(T, ..); .. };`.
pub fn table_struct(alloc: Global, input: &mut Input) -> Result<Option<TableStruct>, OutOfMemory>
    ensures some { IfOk result (λ found. Finds IsTableStruct table_struct_tokens input.old found input.new) }
    ensures every { IfOk result (λ found. ReadsEvery IsTableStruct table_struct_tokens input.old found) }
{
    let Some(start) = start(input) else {
        return Ok(None);
    };
    let Some(slots) = slots(alloc, input)? else {
        return Ok(None);
    };
    if !input.fixed(&[Piece::Sign(b"}"), Piece::Sign(b";")]) {
        return Ok(None);
    }
    if are_slots(start.base, slots.as_slice()) {
        Ok(Some(TableStruct {
            class: start.class,
            base: start.base,
            slots,
        }))
    } else {
        Ok(None)
    }
}
