//! Tables of methods and properties, and the definition of a module.
ghost use Rattle.std.specs.Prelude.{◌≡◌, ◌++◌, List, Some, IfOk};
ghost use Rattle.std.specs.List.{flat_map, AllByRecursion};
ghost use Rattle.c_tree.specs.Forms.{IsProperty};
ghost use Rattle.c_input.specs.Reads.{Finds, ReadsEvery, Takes};
ghost use Rattle.c_table.specs.Parts.{method_tokens, property_tokens, IsMethod};
ghost use Rattle.c_table.specs.Tables.{item_tokens, methods_end, properties_end, AreMethods, AreProperties, IsDefinition};

use crate::parts::table;
use crate::rows::{method, property};
use c_input::{Input, Piece};
use c_tree::{CItem, MethodRow, PropertyRow};
use cy_base::OutOfMemory;
use sqlite_items::Items;
use std::alloc::Global;

// Takes the row of NULLs that ends a table of methods, and the end of the table.
fn methods_end(input: &mut Input) -> bool
    ensures { Takes methods_end input.old result input.new }
{
    input.fixed(&[
        Piece::Sign(b"{"),
        Piece::Word(b"NULL"),
        Piece::Sign(b","),
        Piece::Word(b"NULL"),
        Piece::Sign(b","),
        Piece::Word(b"0"),
        Piece::Sign(b","),
        Piece::Word(b"NULL"),
        Piece::Sign(b"}"),
        Piece::Sign(b"}"),
        Piece::Sign(b";"),
    ])
}

// Reads the rows of a table of methods, and the end of the table.
fn method_rows(alloc: Global, input: &mut Input) -> Result<Option<Items<MethodRow>>, OutOfMemory>
    ensures some { IfOk result (λ found. Finds (λ rows. AllByRecursion IsMethod rows) (λ rows. flat_map method_tokens rows ++ methods_end) input.old found input.new) }
    ensures every { IfOk result (λ found. ReadsEvery (λ rows. AllByRecursion IsMethod rows) (λ rows. flat_map method_tokens rows ++ methods_end) input.old found) }
{
    let mut rows = Items::new(alloc);
    while !methods_end(input) {
        let Some(row) = method(alloc, input)? else {
            return Ok(None);
        };
        rows.push(row)?;
    }
    Ok(Some(rows))
}

/// Reads a table of methods, without the `static` before it.
pub fn methods(
    alloc: Global,
    is_static: bool,
    input: &mut Input,
) -> Result<Option<CItem>, OutOfMemory>
    ensures some { IfOk result (λ found. Finds (AreMethods is_static) item_tokens input.old found input.new) }
    ensures every { IfOk result (λ found. ReadsEvery (AreMethods is_static) item_tokens input.old found) }
{
    if !input.fixed(&[Piece::Word(b"PyMethodDef")]) {
        return Ok(None);
    }
    let Some(name) = table(input) else {
        return Ok(None);
    };
    if !input.fixed(&[
        Piece::Sign(b"["),
        Piece::Sign(b"]"),
        Piece::Sign(b"="),
        Piece::Sign(b"{"),
    ]) {
        return Ok(None);
    }
    match method_rows(alloc, input)? {
        Some(rows) => Ok(Some(CItem::Methods(is_static, name, rows))),
        None => Ok(None),
    }
}

// Takes the row of NULLs that ends a table of properties, and the end of the table.
fn properties_end(input: &mut Input) -> bool
    ensures { Takes properties_end input.old result input.new }
{
    input.fixed(&[
        Piece::Sign(b"{"),
        Piece::Word(b"NULL"),
        Piece::Sign(b","),
        Piece::Word(b"NULL"),
        Piece::Sign(b","),
        Piece::Word(b"NULL"),
        Piece::Sign(b","),
        Piece::Word(b"NULL"),
        Piece::Sign(b","),
        Piece::Word(b"NULL"),
        Piece::Sign(b"}"),
        Piece::Sign(b"}"),
        Piece::Sign(b";"),
    ])
}

// Reads the rows of a table of properties, and the end of the table.
fn property_rows(
    alloc: Global,
    input: &mut Input,
) -> Result<Option<Items<PropertyRow>>, OutOfMemory>
    ensures some { IfOk result (λ found. Finds (λ rows. AllByRecursion IsProperty rows) (λ rows. flat_map property_tokens rows ++ properties_end) input.old found input.new) }
    ensures every { IfOk result (λ found. ReadsEvery (λ rows. AllByRecursion IsProperty rows) (λ rows. flat_map property_tokens rows ++ properties_end) input.old found) }
{
    let mut rows = Items::new(alloc);
    while !properties_end(input) {
        let Some(row) = property(alloc, input)? else {
            return Ok(None);
        };
        rows.push(row)?;
    }
    Ok(Some(rows))
}

/// Reads a table of properties, without the `static` before it.
pub fn properties(
    alloc: Global,
    is_static: bool,
    input: &mut Input,
) -> Result<Option<CItem>, OutOfMemory>
    ensures some { IfOk result (λ found. Finds (AreProperties is_static) item_tokens input.old found input.new) }
    ensures every { IfOk result (λ found. ReadsEvery (AreProperties is_static) item_tokens input.old found) }
{
    if !input.fixed(&[Piece::Word(b"PyGetSetDef")]) {
        return Ok(None);
    }
    let Some(class) = input.numbered(b"cyc_gs_") else {
        return Ok(None);
    };
    if !input.fixed(&[
        Piece::Sign(b"["),
        Piece::Sign(b"]"),
        Piece::Sign(b"="),
        Piece::Sign(b"{"),
    ]) {
        return Ok(None);
    }
    match property_rows(alloc, input)? {
        Some(rows) => Ok(Some(CItem::Properties(is_static, class, rows))),
        None => Ok(None),
    }
}
