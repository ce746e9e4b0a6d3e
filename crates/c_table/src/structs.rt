//! Structs of instances.
ghost use Rattle.std.specs.Prelude.{◌≡◌, ◌++◌, List, Some, IfOk, length};
ghost use Rattle.c_tree.specs.Forms.{IsNumber};
ghost use Rattle.c_input.specs.Reads.{Finds, ReadsEvery};
ghost use Rattle.c_table.specs.Tables.{fields_tokens, item_tokens, IsInstanceStruct};

use crate::parts::{base, field};
use c_input::{Input, Piece};
use c_tree::{CItem, CType};
use cy_base::OutOfMemory;
use sqlite_items::Items;
use std::alloc::Global;

// Reads the fields of a struct, numbered from 0, and the end of the struct.
fn fields(alloc: Global, input: &mut Input) -> Result<Option<Items<CType>>, OutOfMemory>
    ensures some { IfOk result (λ found. Finds (λ kinds. IsNumber (length kinds)) fields_tokens input.old found input.new) }
    ensures every { IfOk result (λ found. ReadsEvery (λ kinds. IsNumber (length kinds)) fields_tokens input.old found) }
{
    let mut kinds = Items::new(alloc);
    let mut number: u32 = 0;
    while !input.fixed(&[Piece::Sign(b"}"), Piece::Sign(b";")]) {
        let Some(kind) = field(number, input) else {
            return Ok(None);
        };
        let Some(next) = number.checked_add(1) else {
            return Ok(None);
        };
        kinds.push(kind)?;
        number = next;
    }
    Ok(Some(kinds))
}

/// Reads the struct of an instance.
pub fn instance_struct(alloc: Global, input: &mut Input) -> Result<Option<CItem>, OutOfMemory>
    ensures some { IfOk result (λ found. Finds IsInstanceStruct item_tokens input.old found input.new) }
    ensures every { IfOk result (λ found. ReadsEvery IsInstanceStruct item_tokens input.old found) }
{
    if !input.fixed(&[Piece::Word(b"struct")]) {
        return Ok(None);
    }
    let Some(class) = input.numbered(b"cyc_o_") else {
        return Ok(None);
    };
    if !input.fixed(&[Piece::Sign(b"{")]) {
        return Ok(None);
    }
    let Some(base) = base(input) else {
        return Ok(None);
    };
    match fields(alloc, input)? {
        Some(kinds) => Ok(Some(CItem::InstanceStruct(class, base, kinds))),
        None => Ok(None),
    }
}
