//! Rows of tables of methods and properties.
ghost use Rattle.std.specs.Prelude.{◌≡◌, ◌++◌, ◌∷◌, [], List, Some, IfOk};
ghost use Rattle.c_token.specs.CTokens.{CToken};
ghost use Rattle.c_tree.specs.Forms.{IsFieldNumber, IsProperty, IsSetter};
ghost use Rattle.c_input.specs.Reads.{Finds, ReadsEvery, Takes};
ghost use Rattle.c_table.specs.Parts.{accessor_tokens, function_cast, method_end, method_tokens, property_end, property_tokens, setter_tokens, IsMethod};

use crate::parts::of_field;
use c_input::{Input, Piece};
use c_tree::{FieldNumber, MethodRow, PropertyRow};
use cy_base::OutOfMemory;
use std::alloc::Global;

// Takes the comma and the cast to a function of Python between a method's name and its wrapper.
fn cast(input: &mut Input) -> bool
    ensures { Takes function_cast input.old result input.new }
{
    input.fixed(&[
        Piece::Sign(b","),
        Piece::Sign(b"("),
        Piece::Word(b"PyCFunction"),
        Piece::Sign(b")"),
        Piece::Sign(b"("),
        Piece::Word(b"void"),
        Piece::Sign(b"("),
        Piece::Sign(b"*"),
        Piece::Sign(b")"),
        Piece::Sign(b"("),
        Piece::Word(b"void"),
        Piece::Sign(b")"),
        Piece::Sign(b")"),
    ])
}

// Takes what a row of a method has behind its wrapper.
fn method_end(input: &mut Input) -> bool
    ensures { Takes method_end input.old result input.new }
{
    input.fixed(&[
        Piece::Sign(b","),
        Piece::Word(b"METH_FASTCALL"),
        Piece::Sign(b","),
        Piece::Word(b"NULL"),
        Piece::Sign(b"}"),
        Piece::Sign(b","),
    ])
}

/// Reads a row of a table of methods, with the comma after it.
pub fn method(alloc: Global, input: &mut Input) -> Result<Option<MethodRow>, OutOfMemory>
    ensures some { IfOk result (λ found. Finds IsMethod method_tokens input.old found input.new) }
    ensures every { IfOk result (λ found. ReadsEvery IsMethod method_tokens input.old found) }
{
    if !input.fixed(&[Piece::Sign(b"{")]) {
        return Ok(None);
    }
    let Some(name) = input.string(alloc)? else {
        return Ok(None);
    };
    if !cast(input) {
        return Ok(None);
    }
    let Some(wrapper) = input.numbered(b"cyc_w_") else {
        return Ok(None);
    };
    if method_end(input) {
        Ok(Some(MethodRow { name, wrapper }))
    } else {
        Ok(None)
    }
}

// Reads a setter, or `NULL` where there is none.
fn setter(input: &mut Input) -> Option<Option<FieldNumber>>
    ensures some { Finds IsSetter setter_tokens input.old result input.new }
    ensures every { ReadsEvery IsSetter setter_tokens input.old result }
{
    if input.fixed(&[Piece::Word(b"NULL")]) {
        return Some(None);
    }
    let field = of_field(b"cyc_set_", input)?;
    Some(Some(field))
}

// Takes what a row of a property has behind its setter.
fn property_end(input: &mut Input) -> bool
    ensures { Takes property_end input.old result input.new }
{
    input.fixed(&[
        Piece::Sign(b","),
        Piece::Word(b"NULL"),
        Piece::Sign(b","),
        Piece::Word(b"NULL"),
        Piece::Sign(b"}"),
        Piece::Sign(b","),
    ])
}

// Reads the getter and the setter of a property, and the end of its row.
fn accessors(input: &mut Input) -> Option<(FieldNumber, Option<FieldNumber>)>
    ensures some { Finds (λ r. IsFieldNumber r.0 × IsSetter r.1) (λ r. accessor_tokens r.0 r.1) input.old result input.new }
    ensures every { ReadsEvery (λ r. IsFieldNumber r.0 × IsSetter r.1) (λ r. accessor_tokens r.0 r.1) input.old result }
{
    let getter = of_field(b"cyc_get_", input)?;
    if !input.fixed(&[Piece::Sign(b",")]) {
        return None;
    }
    let setter = setter(input)?;
    if property_end(input) {
        Some((getter, setter))
    } else {
        None
    }
}

/// Reads a row of a table of properties, with the comma after it.
pub fn property(alloc: Global, input: &mut Input) -> Result<Option<PropertyRow>, OutOfMemory>
    ensures some { IfOk result (λ found. Finds IsProperty property_tokens input.old found input.new) }
    ensures every { IfOk result (λ found. ReadsEvery IsProperty property_tokens input.old found) }
{
    if !input.fixed(&[Piece::Sign(b"{")]) {
        return Ok(None);
    }
    let Some(name) = input.string(alloc)? else {
        return Ok(None);
    };
    if !input.fixed(&[Piece::Sign(b",")]) {
        return Ok(None);
    }
    let Some((getter, setter)) = accessors(input) else {
        return Ok(None);
    };
    Ok(Some(PropertyRow {
        name,
        getter,
        setter,
    }))
}
