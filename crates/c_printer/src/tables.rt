//! Tables of the Python/C API.
ghost use Rattle.std.specs.Prelude.{◌≡◌, ◌++◌, ◌∷◌, [], codes, decimal, Some, None, IfOk};
ghost use Rattle.std.specs.List.{flat_map, AllByRecursion};
ghost use Rattle.c_token.specs.CTokens.{Word, sign, word};
ghost use Rattle.c_tree.specs.Names.{listed, methods_name, name_token, of_field, text};
ghost use Rattle.c_tree.specs.Values.{string};
ghost use Rattle.c_tree.specs.Items.{member, members, method_spelling, property_spelling, setter_or_null, static_or, type_members};
ghost use Rattle.c_printer.specs.Rows.{row_tokens};

use crate::mark::{Put, blank, comma, indent, open_brace};
use crate::name::{getter, methods, numbered, setter};
use c_tree::{FieldNumber, MethodRow, Numbered, PropertyRow, TableName, TypeObject};
use c_writer::Writer;

pub(crate) fn static_word(out: Writer, is_static: bool) -> Put
    ensures { IfOk result (λ new. new ≡ out ++ static_or is_static []) }
{
    if is_static {
        return out.word(b"static", b"");
    }
    Ok(out)
}

fn method_row(out: Writer, row: &MethodRow) -> Put
    ensures { IfOk result (λ new. new ≡ out ++ method_spelling row.now) }
{
    let out = open_brace(indent(out)?)?.string(row.name.as_slice())?;
    let out = numbered(
        out.text(b", (PyCFunction)(void (*)(void))")?,
        b"cyc_w_",
        row.wrapper,
    )?;
    out.text(b", METH_FASTCALL, NULL},")
}

fn method_rows(out: Writer, all: &[MethodRow]) -> Put
    ensures { IfOk result (λ new. new ≡ out ++ flat_map method_spelling all.now) }
{
    let mut out = out;
    for row in all {
        out = method_row(out, row)?;
    }
    Ok(out)
}

fn setter_or_none(out: Writer, it: Option<FieldNumber>) -> Put
    ensures { IfOk result (λ new. new ≡ out ++ setter_or_null it) }
{
    match it {
        None => out.text(b"NULL"),
        Some(n) => setter(out, n),
    }
}

fn property_row(out: Writer, row: &PropertyRow) -> Put
    ensures { IfOk result (λ new. new ≡ out ++ row_tokens row.now) }
{
    let out = comma(open_brace(indent(out)?)?.string(row.name.as_slice())?)?;
    let out = setter_or_none(comma(getter(out, row.getter)?)?, row.setter)?;
    out.text(b", NULL, NULL},")
}

fn property_rows(out: Writer, all: &[PropertyRow]) -> Put
    ensures { IfOk result (λ new. new ≡ out ++ flat_map row_tokens all.now) }
{
    let mut out = out;
    for row in all {
        out = property_row(out, row)?;
    }
    Ok(out)
}

#[tactic(auto, unfolding(c_token::specs::CTokens::c_tokens, c_token::specs::CTokens::tokens_from))]
fn last_method(out: Writer) -> Put
    ensures { IfOk result (λ new. new ≡ out ++ text "{NULL, NULL, 0, NULL} };") }
{
    out.text(b"{NULL, NULL, 0, NULL}\n};")
}

#[tactic(auto, unfolding(c_token::specs::CTokens::c_tokens, c_token::specs::CTokens::tokens_from))]
fn last_property(out: Writer) -> Put
    ensures { IfOk result (λ new. new ≡ out ++ text "{NULL, NULL, NULL, NULL, NULL} };") }
{
    out.text(b"{NULL, NULL, NULL, NULL, NULL}\n};")
}

pub(crate) fn method_table(out: Writer, is_static: bool, name: TableName, rows: &[MethodRow]) -> Put
    ensures { IfOk result (λ new. new ≡ out ++ (static_or is_static [] ++ (word "PyMethodDef" ∷ Word (methods_name name) ∷ (text "[] = {" ++ (flat_map method_spelling rows.now ++ text "{NULL, NULL, 0, NULL} };"))))) }
{
    let out = static_word(out, is_static)?.word(b"PyMethodDef", b"")?;
    let out = method_rows(methods(out, name)?.text(b"[] = {")?, rows)?;
    last_method(indent(out)?)
}

pub(crate) fn property_table(out: Writer, is_static: bool, n: Numbered, rows: &[PropertyRow]) -> Put
    ensures { IfOk result (λ new. new ≡ out ++ (static_or is_static [] ++ (word "PyGetSetDef" ∷ name_token "cyc_gs_" n ∷ (text "[] = {" ++ (flat_map property_spelling rows.now ++ text "{NULL, NULL, NULL, NULL, NULL} };"))))) }
{
    let out = static_word(out, is_static)?.word(b"PyGetSetDef", b"")?;
    let out = property_rows(numbered(out, b"cyc_gs_", n)?.text(b"[] = {")?, rows)?;
    last_property(indent(out)?)
}

pub(crate) fn module_definition(out: Writer, is_static: bool, name: &[u8]) -> Put
    ensures { IfOk result (λ new. new ≡ out ++ (static_or is_static [] ++ (text "struct PyModuleDef cyc_def = { PyModuleDef_HEAD_INIT," ++ (string name.now ∷ text ", NULL, -1, cyc_md };")))) }
{
    let out = static_word(out, is_static)?.text(
        b"struct PyModuleDef cyc_def = { PyModuleDef_HEAD_INIT,",
    )?;
    blank(out)?.string(name)?.text(b", NULL, -1, cyc_md };")
}
