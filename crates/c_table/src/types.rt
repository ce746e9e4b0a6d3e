//! Type objects.
ghost use Rattle.std.specs.Prelude.{◌≡◌, ◌≢◌, ◌++◌, List, Option, Some, IfOk, codes};
ghost use Rattle.c_token.specs.CTokens.{CToken};
ghost use Rattle.c_tree.specs.declared.name.Numbered.{Numbered as NumberedValue};
ghost use Rattle.c_tree.specs.Forms.{IsMember, IsNumbered, IsString};
ghost use Rattle.c_input.specs.Reads.{Finds, ReadsEvery};
ghost use Rattle.c_table.specs.declared.kinds.Functions.{Functions as FunctionsValue};
ghost use Rattle.c_table.specs.Parts.{assigned, assigned_address, member_tokens};
ghost use Rattle.c_table.specs.Tables.{functions_of, functions_tokens, item_tokens, named_tokens, sized_tokens, tables_of, tables_tokens, AreFunctions, AreTables, IsTypeObject, Lacks};

use crate::kinds::{Functions, Tables};
use crate::members::member;
use c_input::{Input, Piece};
use c_token::Bytes;
use c_tree::{CItem, Numbered, TypeObject};
use cy_base::OutOfMemory;
use std::alloc::Global;

// Reads a type object up to its name.
fn named(alloc: Global, input: &mut Input) -> Result<Option<(Numbered, Bytes)>, OutOfMemory>
    ensures some { IfOk result (λ found. Finds (λ r. IsNumbered r.0 × IsString r.1) (λ r. named_tokens r.0 r.1) input.old found input.new) }
    ensures every { IfOk result (λ found. ReadsEvery (λ r. IsNumbered r.0 × IsString r.1) (λ r. named_tokens r.0 r.1) input.old found) }
{
    if !input.fixed(&[Piece::Word(b"PyTypeObject")]) {
        return Ok(None);
    }
    let Some(class) = input.numbered(b"cyc_ty_") else {
        return Ok(None);
    };
    if !input.fixed(&[
        Piece::Sign(b"="),
        Piece::Sign(b"{"),
        Piece::Word(b"PyVarObject_HEAD_INIT"),
        Piece::Sign(b"("),
        Piece::Word(b"NULL"),
        Piece::Sign(b","),
        Piece::Word(b"0"),
        Piece::Sign(b")"),
        Piece::Sign(b"."),
        Piece::Word(b"tp_name"),
        Piece::Sign(b"="),
    ]) {
        return Ok(None);
    }
    match input.string(alloc)? {
        Some(name) => Ok(Some((class, name))),
        None => Ok(None),
    }
}

// Reads the size and the flags.
fn sized(input: &mut Input) -> Option<Numbered>
    ensures some { Finds IsNumbered sized_tokens input.old result input.new }
    ensures every { ReadsEvery IsNumbered sized_tokens input.old result }
{
    if !input.fixed(&[
        Piece::Sign(b","),
        Piece::Sign(b"."),
        Piece::Word(b"tp_basicsize"),
        Piece::Sign(b"="),
        Piece::Word(b"sizeof"),
        Piece::Sign(b"("),
        Piece::Word(b"struct"),
    ]) {
        return None;
    }
    let size = input.numbered(b"cyc_o_")?;
    if input.fixed(&[
        Piece::Sign(b")"),
        Piece::Sign(b","),
        Piece::Sign(b"."),
        Piece::Word(b"tp_flags"),
        Piece::Sign(b"="),
        Piece::Word(b"Py_TPFLAGS_DEFAULT"),
        Piece::Sign(b"|"),
        Piece::Word(b"Py_TPFLAGS_BASETYPE"),
    ]) {
        Some(size)
    } else {
        None
    }
}

// Reads a member that names a function or an array, where it is there.
fn value(name: &'static [u8], letters: &[u8], input: &mut Input) -> Option<Option<Numbered>>
    ensures some { Finds IsMember (member_tokens (assigned name.now) letters.now) input.old result input.new }
    ensures every { (m : Option NumberedValue) (rest : List CToken) → IsMember m → Lacks name.now rest → input.old ≡ member_tokens (assigned name.now) letters.now m ++ rest → result ≡ Some m }
{
    let before = [
        Piece::Sign(b","),
        Piece::Sign(b"."),
        Piece::Word(name),
        Piece::Sign(b"="),
    ];
    member(&before, letters, input)
}

// Reads a member that has an address, where it is there.
fn address(name: &'static [u8], letters: &[u8], input: &mut Input) -> Option<Option<Numbered>>
    ensures some { Finds IsMember (member_tokens (assigned_address name.now) letters.now) input.old result input.new }
    ensures every { (m : Option NumberedValue) (rest : List CToken) → IsMember m → Lacks name.now rest → input.old ≡ member_tokens (assigned_address name.now) letters.now m ++ rest → result ≡ Some m }
{
    let before = [
        Piece::Sign(b","),
        Piece::Sign(b"."),
        Piece::Word(name),
        Piece::Sign(b"="),
        Piece::Sign(b"&"),
    ];
    member(&before, letters, input)
}

// Reads the base and the functions, where no member of these names follows.
fn functions(input: &mut Input) -> Option<Functions>
    ensures some { Finds AreFunctions functions_tokens input.old result input.new }
    ensures every { (f : FunctionsValue) (rest : List CToken) → AreFunctions f → Lacks (codes "tp_base") rest → Lacks (codes "tp_new") rest → Lacks (codes "tp_init") rest → Lacks (codes "tp_dealloc") rest → input.old ≡ functions_tokens f ++ rest → result ≡ Some f }
{
    let base = address(b"tp_base", b"cyc_ty_", input)?;
    let new = value(b"tp_new", b"cyc_new_", input)?;
    let init = value(b"tp_init", b"cyc_init_", input)?;
    let dealloc = value(b"tp_dealloc", b"cyc_dealloc_", input)?;
    Some(Functions {
        base,
        new,
        init,
        dealloc,
    })
}

// Reads the tables and the end of the braces.
fn tables(input: &mut Input) -> Option<Tables>
    ensures some { Finds AreTables tables_tokens input.old result input.new }
    ensures every { ReadsEvery AreTables tables_tokens input.old result }
{
    let methods = value(b"tp_methods", b"cyc_ms_", input)?;
    let properties = value(b"tp_getset", b"cyc_gs_", input)?;
    let sequence = address(b"tp_as_sequence", b"cyc_sq_", input)?;
    let mapping = address(b"tp_as_mapping", b"cyc_mp_", input)?;
    if input.fixed(&[Piece::Sign(b"}"), Piece::Sign(b";")]) {
        Some(Tables {
            methods,
            properties,
            sequence,
            mapping,
        })
    } else {
        None
    }
}

// The type object of these parts.
fn assembled(
    class: Numbered,
    name: Bytes,
    size: Numbered,
    functions: Functions,
    tables: Tables,
) -> TypeObject
    ensures named { (result.class ≡ class) × (result.name ≡ name) × (result.size ≡ size) }
    ensures functions { functions_of result ≡ functions }
    ensures tables { tables_of result ≡ tables }
{
    TypeObject {
        class,
        name,
        size,
        base: functions.base,
        new: functions.new,
        init: functions.init,
        dealloc: functions.dealloc,
        methods: tables.methods,
        properties: tables.properties,
        sequence: tables.sequence,
        mapping: tables.mapping,
    }
}

/// Reads a type object, without the `static` before it.
pub fn type_object(
    alloc: Global,
    is_static: bool,
    input: &mut Input,
) -> Result<Option<CItem>, OutOfMemory>
    ensures some { IfOk result (λ found. Finds (IsTypeObject is_static) item_tokens input.old found input.new) }
    ensures every { IfOk result (λ found. ReadsEvery (IsTypeObject is_static) item_tokens input.old found) }
{
    let Some((class, name)) = named(alloc, input)? else {
        return Ok(None);
    };
    let Some(size) = sized(input) else {
        return Ok(None);
    };
    let Some(functions) = functions(input) else {
        return Ok(None);
    };
    let Some(tables) = tables(input) else {
        return Ok(None);
    };
    let read = assembled(class, name, size, functions, tables);
    Ok(Some(CItem::Type(is_static, read)))
}
