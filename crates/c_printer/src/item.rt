//! Items, and files.
ghost use Rattle.std.specs.Prelude.{◌≡◌, ◌++◌, ◌∷◌, [], IfOk, true};
ghost use Rattle.std.specs.List.{flat_map, AllByRecursion};
ghost use Rattle.c_token.specs.CTokens.{Word, c_tokens, sign, word};
ghost use Rattle.c_tree.specs.Names.{name_token, place_name, text};
ghost use Rattle.c_tree.specs.Values.{result_spelling, type_spelling};
ghost use Rattle.c_tree.specs.Forms.{IsFile, IsFunctionName, IsItem};
ghost use Rattle.c_tree.specs.Items.{function_token, item_spelling, types_spelling};
ghost use Rattle.c_tree.specs.Reading.{c_reading};

use crate::fixed::{format_test, root_struct, view_type};
use crate::function::function_item;
use crate::head::types;
use crate::mark::{Put, line};
use crate::name::{function, numbered, place};
use crate::structs::{instance_struct, table, table_struct};
use crate::tables::{method_table, module_definition, property_table};
use crate::types::{mapping_table, sequence_table, type_object};
use crate::value::{given, kind};
use c_tree::{CFile, CItem, CResult, CType, FunctionName, Numbered, Place};
use c_writer::Writer;
use cy_base::OutOfMemory;
use std::alloc::Global;

fn prototype(out: Writer, what: CResult, f: &FunctionName, all: &[CType]) -> Put
    requires { IsFunctionName f.now }
    ensures { IfOk result (λ new. new ≡ out ++ (result_spelling what ++ (function_token f.now ∷ (types_spelling all.now ++ text ";")))) }
{
    let out = function(given(out, what)?, f)?;
    types(out, all)?.text(b";")
}

fn static_prototype(out: Writer, it: CType, f: &FunctionName, all: &[CType]) -> Put
    requires { IsFunctionName f.now }
    ensures { IfOk result (λ new. new ≡ out ++ (word "static" ∷ (type_spelling it ++ (function_token f.now ∷ (types_spelling all.now ++ text ";"))))) }
{
    let out = function(kind(out.word(b"static", b"")?, it)?, f)?;
    types(out, all)?.text(b";")
}

fn extern_type(out: Writer, n: Numbered) -> Put
    ensures { IfOk result (λ new. new ≡ out ++ (text "extern PyTypeObject" ++ (name_token "cyc_ty_" n ∷ text ";"))) }
{
    numbered(out.text(b"extern PyTypeObject")?, b"cyc_ty_", n)?.text(b";")
}

fn static_place(out: Writer, it: CType, x: Place) -> Put
    ensures { IfOk result (λ new. new ≡ out ++ (word "static" ∷ (type_spelling it ++ (Word (place_name x) ∷ text ";")))) }
{
    let out = kind(out.word(b"static", b"")?, it)?;
    place(out, x)?.text(b";")
}

#[tactic(auto, unfolding(c_tree::specs::Items::item_spelling, c_token::specs::CTokens::c_tokens, c_token::specs::CTokens::tokens_from))]
fn define_clean(out: Writer) -> Put
    ensures { IfOk result (λ new. new ≡ out ++ item_spelling CItem.DefineClean) }
{
    out.directive(b"#define PY_SSIZE_T_CLEAN\n")
}

#[tactic(auto, unfolding(c_tree::specs::Items::item_spelling, c_token::specs::CTokens::c_tokens, c_token::specs::CTokens::tokens_from))]
fn include_python(out: Writer) -> Put
    ensures { IfOk result (λ new. new ≡ out ++ item_spelling CItem.IncludePython) }
{
    out.directive(b"#include <Python.h>\n")
}

#[tactic(auto, unfolding(c_tree::specs::Items::item_spelling, c_token::specs::CTokens::c_tokens, c_token::specs::CTokens::tokens_from))]
fn include_set(out: Writer) -> Put
    ensures { IfOk result (λ new. new ≡ out ++ item_spelling CItem.IncludeSet) }
{
    out.directive(b"#include \"cyc_set.h\"\n")
}

#[tactic(auto, unfolding(c_tree::specs::Items::item_spelling, c_tree::specs::Forms::IsItem))]
fn item(out: Writer, it: &CItem) -> Put
    requires { IsItem it.now }
    ensures { IfOk result (λ new. new ≡ out ++ item_spelling it.now) }
{
    match it {
        CItem::DefineClean => define_clean(out),
        CItem::IncludePython => include_python(out),
        CItem::IncludeSet => include_set(out),
        CItem::ViewType => view_type(out),
        CItem::RootStruct => root_struct(out),
        CItem::FormatTest => format_test(out),
        CItem::InstanceStruct(n, base, all) => instance_struct(out, *n, *base, all.as_slice()),
        CItem::TableStruct(n, base, all) => table_struct(out, *n, *base, all.as_slice()),
        CItem::Table(it) => table(out, it),
        CItem::Prototype(what, f, all) => prototype(out, *what, f, all.as_slice()),
        CItem::StaticPrototype(it, f, all) => static_prototype(out, *it, f, all.as_slice()),
        CItem::ExternType(n) => extern_type(out, *n),
        CItem::Static(it, x) => static_place(out, *it, *x),
        CItem::Methods(is_static, name, rows) => method_table(
            out,
            *is_static,
            *name,
            rows.as_slice(),
        ),
        CItem::Properties(is_static, n, rows) => property_table(
            out,
            *is_static,
            *n,
            rows.as_slice(),
        ),
        CItem::Sequence(is_static, n, a, b) => sequence_table(out, *is_static, *n, *a, *b),
        CItem::Mapping(is_static, n, a, b) => mapping_table(out, *is_static, *n, *a, *b),
        CItem::Type(is_static, it) => type_object(out, *is_static, it),
        CItem::ModuleDefinition(is_static, name) => module_definition(
            out,
            *is_static,
            name.as_slice(),
        ),
        CItem::Function(f) => function_item(out, f),
    }
}

fn next_item(out: Writer, it: &CItem) -> Put
    requires { IsItem it.now }
    ensures { IfOk result (λ new. new ≡ out ++ item_spelling it.now) }
{
    item(line(out)?, it)
}

fn items(out: Writer, all: &[CItem]) -> Put
    requires { AllByRecursion IsItem all.now }
    ensures { IfOk result (λ new. new ≡ out ++ flat_map item_spelling all.now) }
{
    let mut out = out;
    for it in all {
        out = next_item(out, it)?;
    }
    Ok(out)
}

fn written(alloc: Global, file: &CFile) -> Result<Vec<u8>, OutOfMemory>
    requires { AllByRecursion IsItem file.now.items }
    ensures { IfOk result (λ bytes. c_tokens bytes.items ≡ flat_map item_spelling file.now.items) }
{
    let out = items(Writer::new(alloc), file.items.as_slice())?;
    Ok(out.fresh()?.finish())
}

/// The text of a file of the profile. Its tokens are those of the items, one after the other, and it reads back as the
/// file, whole (ISO/IEC 9899:2011 6.4, 6.9). Want of memory is answered where the text doesn't fit.
pub fn print(alloc: Global, file: &CFile) -> Result<Vec<u8>, OutOfMemory>
    requires { IsFile file.now }
    ensures tokens { IfOk result (λ bytes. c_tokens bytes.items ≡ flat_map item_spelling file.now.items) }
    ensures read_back { IfOk result (λ bytes. c_reading bytes.items file.now.items true) }
{
    written(alloc, file)
}
