//! Method tables.
ghost use Rattle.std.specs.Prelude.{◌≡◌, ◌↔◌, suc, length, true, IfOk};
ghost use Rattle.c_input.specs.Reads.{Finds, ReadsEvery};
ghost use Rattle.c_slots.specs.Tables.{method_table_tokens, table_head_tokens, value_tokens, IsMethodTable, IsTableHead, IsValue, ReadsBraces};

use crate::functions::{functions_behind, layers};
use c_input::{Input, Piece};
use c_token::Bytes;
use c_tree::{FunctionName, Numbered, StructTable};
use cy_base::OutOfMemory;
use sqlite_items::Items;
use std::alloc::Global;

// The class of the struct, and that of the table.
#[derive(Clone, Copy)]
struct TableHead {
    first: Numbered,
    second: Numbered,
}

// `const struct cyc_vt_0_1 cyc_t_0_1 =`
fn head(input: &mut Input) -> Option<TableHead>
    ensures some { Finds IsTableHead table_head_tokens input.old result input.new }
    ensures every { ReadsEvery IsTableHead table_head_tokens input.old result }
{
    if !input.fixed(&[Piece::Word(b"const"), Piece::Word(b"struct")]) {
        return None;
    }
    let first = input.numbered(b"cyc_vt_")?;
    let second = input.numbered(b"cyc_t_")?;
    if input.fixed(&[Piece::Sign(b"=")]) {
        Some(TableHead { first, second })
    } else {
        None
    }
}

// How many braces stand here, which are taken.
fn braces(input: &mut Input) -> usize
    ensures { ReadsBraces input.old result input.new }
{
    let limit = input.len();
    let mut count = 0;
    while count < limit && input.fixed(&[Piece::Sign(b"{")]) {
        count += 1;
    }
    count
}

// What stands behind the braces.
#[derive(Drop)]
struct TableValue {
    name: Bytes,
    inner: Items<FunctionName>,
    outer: Items<Items<FunctionName>>,
}

fn value(alloc: Global, input: &mut Input) -> Result<Option<TableValue>, OutOfMemory>
    ensures some { IfOk result (λ found. Finds IsValue value_tokens input.old found input.new) }
    ensures every { IfOk result (λ found. ReadsEvery IsValue value_tokens input.old found) }
{
    let Some(name) = input.string(alloc)? else {
        return Ok(None);
    };
    let Some(inner) = functions_behind(alloc, input)? else {
        return Ok(None);
    };
    let Some(outer) = layers(alloc, input)? else {
        return Ok(None);
    };
    if input.fixed(&[Piece::Sign(b"}"), Piece::Sign(b";")]) {
        Ok(Some(TableValue { name, inner, outer }))
    } else {
        Ok(None)
    }
}

// Whether the head names one class, and a brace stands for each table.
fn fits(head: TableHead, count: usize, value: &TableValue) -> bool
    ensures { (result ≡ true) ↔ ((head.first ≡ head.second) × (count ≡ suc (length value.now.outer))) }
{
    head.first == head.second && count > 0 && value.outer.len() == count - 1
}

/// Reads `const struct cyc_vt_0_1 cyc_t_0_1 = { .. };`.
pub fn method_table(alloc: Global, input: &mut Input) -> Result<Option<StructTable>, OutOfMemory>
    ensures some { IfOk result (λ found. Finds IsMethodTable method_table_tokens input.old found input.new) }
    ensures every { IfOk result (λ found. ReadsEvery IsMethodTable method_table_tokens input.old found) }
{
    let Some(head) = head(input) else {
        return Ok(None);
    };
    let count = braces(input);
    let Some(value) = value(alloc, input)? else {
        return Ok(None);
    };
    if !fits(head, count, &value) {
        return Ok(None);
    }
    Ok(Some(StructTable {
        class: head.first,
        name: value.name,
        inner: value.inner,
        outer: value.outer,
    }))
}
