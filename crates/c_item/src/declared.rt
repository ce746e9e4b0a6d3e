//! Items that are no functions.
ghost use Rattle.std.specs.Prelude.{◌≡◌, ◌++◌, List, Some, IfOk};
ghost use Rattle.c_token.specs.CTokens.{CToken};
ghost use Rattle.c_tree.specs.declared.item.CItem.{CItem as ItemTree};
ghost use Rattle.c_table.specs.Tables.{item_tokens};
ghost use Rattle.c_input.specs.Reads.{Finds, ReadsEvery};
ghost use Rattle.c_item.specs.Kinds.{declared_tokens, opening_of, plain_tokens, slot_struct_tokens, slot_table_tokens, IsDeclared, IsPlain, IsSlotStruct, IsSlotTable, IsTable};

use crate::fixed::fixed_item;
use crate::kinds::{Opening, Plain, Table};
use crate::typed::{extern_type, typed};
use c_input::Input;
use c_slots::{method_table, table_struct};
use c_table::{definition, instance_struct, mapping, methods, properties, sequence, type_object};
use c_tree::CItem;
use cy_base::OutOfMemory;
use std::alloc::Global;

// Reads a struct of a method table.
fn slot_struct(alloc: Global, input: &mut Input) -> Result<Option<CItem>, OutOfMemory>
    ensures some { IfOk result (λ found. Finds IsSlotStruct slot_struct_tokens input.old found input.new) }
    ensures every { IfOk result (λ found. ReadsEvery IsSlotStruct slot_struct_tokens input.old found) }
{
    match table_struct(alloc, input)? {
        Some(read) => Ok(Some(CItem::TableStruct(read.class, read.base, read.slots))),
        None => Ok(None),
    }
}

// Reads a method table.
fn slot_table(alloc: Global, input: &mut Input) -> Result<Option<CItem>, OutOfMemory>
    ensures some { IfOk result (λ found. Finds IsSlotTable slot_table_tokens input.old found input.new) }
    ensures every { IfOk result (λ found. ReadsEvery IsSlotTable slot_table_tokens input.old found) }
{
    match method_table(alloc, input)? {
        Some(read) => Ok(Some(CItem::Table(read))),
        None => Ok(None),
    }
}

// Reads an item of this kind that has no `static` before it.
fn plain(alloc: Global, kind: Plain, input: &mut Input) -> Result<Option<CItem>, OutOfMemory>
    ensures some { IfOk result (λ found. Finds IsPlain plain_tokens input.old found input.new) }
    ensures every { IfOk result (λ found. (t : ItemTree) (rest : List CToken) → IsPlain t → opening_of t ≡ Opening.Plain kind → input.old ≡ plain_tokens t ++ rest → found ≡ Some t) }
{
    match kind {
        Plain::Fixed => Ok(fixed_item(input)),
        Plain::Instance => instance_struct(alloc, input),
        Plain::TableStruct => slot_struct(alloc, input),
        Plain::MethodTable => slot_table(alloc, input),
        Plain::Extern => Ok(extern_type(input)),
    }
}

// Reads a table of the API of this kind, without the `static` before it.
fn table(
    alloc: Global,
    kind: Table,
    is_static: bool,
    input: &mut Input,
) -> Result<Option<CItem>, OutOfMemory>
    ensures some { IfOk result (λ found. Finds (IsTable is_static) item_tokens input.old found input.new) }
    ensures every { IfOk result (λ found. (t : ItemTree) (rest : List CToken) → IsTable is_static t → opening_of t ≡ Opening.Table kind → input.old ≡ item_tokens t ++ rest → found ≡ Some t) }
{
    match kind {
        Table::Methods => methods(alloc, is_static, input),
        Table::Properties => properties(alloc, is_static, input),
        Table::Sequence => Ok(sequence(is_static, input)),
        Table::Mapping => Ok(mapping(is_static, input)),
        Table::TypeObject => type_object(alloc, is_static, input),
        Table::Definition => definition(alloc, is_static, input),
    }
}

/// Reads an item that is no function, without the `static` before it.
pub fn declared(
    alloc: Global,
    opening: Opening,
    is_static: bool,
    input: &mut Input,
) -> Result<Option<CItem>, OutOfMemory>
    ensures some { IfOk result (λ found. Finds (IsDeclared is_static) declared_tokens input.old found input.new) }
    ensures every { IfOk result (λ found. (t : ItemTree) (rest : List CToken) → IsDeclared is_static t → opening_of t ≡ opening → input.old ≡ declared_tokens t ++ rest → found ≡ Some t) }
{
    match opening {
        Opening::Plain(_) if is_static => Ok(None),
        Opening::Plain(kind) => plain(alloc, kind, input),
        Opening::Table(kind) => table(alloc, kind, is_static, input),
        Opening::Typed => typed(alloc, is_static, input),
    }
}
