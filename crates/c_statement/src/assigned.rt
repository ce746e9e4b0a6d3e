//! Statements that assign to a variable, calls without a destination, and what frees an object.
ghost use Rattle.std.specs.Prelude.{◌≡◌, IfOk};
ghost use Rattle.c_tree.specs.Forms.{IsStatement};
ghost use Rattle.c_input.specs.Reads.{Finds, ReadsEvery};
ghost use Rattle.c_statement.specs.Sources.{put};
ghost use Rattle.c_statement.specs.Statements.{statement_tokens, IsStatementOf};
ghost use Rattle.c_statement.specs.declared.statement_kind.StatementKind.TheVariants as kinds;

use crate::calls::{call, method_call};
use crate::object_tests::{passed, same};
use crate::source::Source;
use crate::sources::source;
use c_input::{Input, Piece};
use c_tree::{CStmt, Variable};
use cy_base::OutOfMemory;
use std::alloc::Global;

fn put(x: Variable, source: Source) -> CStmt
    ensures { result ≡ put x source }
{
    match source {
        Source::Value(value) => CStmt::Assign(x, value),
        Source::Binary(first, between, second) => CStmt::Binary(x, first, between, second),
        Source::Invert(value) => CStmt::Invert(x, value),
        Source::Cast(kind, value) => CStmt::Cast(x, kind, value),
        Source::Call(call) => CStmt::Call(Some(x), call.callee, call.arguments),
        Source::Field(field) => CStmt::LoadField(x, field),
        Source::Method(call) => CStmt::CallMethod(
            Some(x),
            call.method.table,
            call.method.object,
            call.method.slot,
            call.arguments,
        ),
        Source::Native(object, wrapper) => CStmt::IsNative(x, object, wrapper),
        Source::HeapType(object) => CStmt::HasHeapType(x, object),
        Source::Number(object, number) => CStmt::ViewNumber(x, object, number),
        Source::Indirect(object) => CStmt::IsIndirect(x, object),
        Source::Format(object, letters) => CStmt::HasFormat(x, object, letters),
        Source::Memory(view) => CStmt::LoadMemory(x, view),
        Source::Extent(view, extent, dimension) => CStmt::LoadExtent(x, view, extent, dimension),
        Source::Element(place) => CStmt::LoadElement(x, place.kind, place.view, place.offset),
    }
}

/// Reads `x = ..;`.
pub fn assigned(alloc: Global, input: &mut Input) -> Result<Option<CStmt>, OutOfMemory>
    ensures some { IfOk result (λ found. Finds IsStatement statement_tokens input.old found input.new) }
    ensures every { IfOk result (λ found. ReadsEvery (IsStatementOf kinds.Assigned) statement_tokens input.old found) }
{
    let Some(x) = input.variable() else {
        return Ok(None);
    };
    if !input.fixed(&[Piece::Sign(b"=")]) {
        return Ok(None);
    }
    match source(alloc, input)? {
        Some(found) => Ok(Some(put(x, found))),
        None => Ok(None),
    }
}

/// Reads `F(k, ..);`.
pub fn bare_call(alloc: Global, input: &mut Input) -> Result<Option<CStmt>, OutOfMemory>
    ensures some { IfOk result (λ found. Finds IsStatement statement_tokens input.old found input.new) }
    ensures every { IfOk result (λ found. ReadsEvery (IsStatementOf kinds.Call) statement_tokens input.old found) }
{
    match call(alloc, input)? {
        Some(found) => Ok(Some(CStmt::Call(None, found.callee, found.arguments))),
        None => Ok(None),
    }
}

/// Reads `((const struct cyc_vt_0_1 *)((struct cyc_root *)y)->vt)->m2(k, ..);`.
pub fn bare_method(alloc: Global, input: &mut Input) -> Result<Option<CStmt>, OutOfMemory>
    ensures some { IfOk result (λ found. Finds IsStatement statement_tokens input.old found input.new) }
    ensures every { IfOk result (λ found. ReadsEvery (IsStatementOf kinds.Method) statement_tokens input.old found) }
{
    match method_call(alloc, input)? {
        Some(found) => Ok(Some(CStmt::CallMethod(
            None,
            found.method.table,
            found.method.object,
            found.method.slot,
            found.arguments,
        ))),
        None => Ok(None),
    }
}

/// Reads `Py_TYPE(x)->tp_free(x);`.
pub fn freed(input: &mut Input) -> Option<CStmt>
    ensures some { Finds IsStatement statement_tokens input.old result input.new }
    ensures every { ReadsEvery (IsStatementOf kinds.Free) statement_tokens input.old result }
{
    let object = passed(input, b"Py_TYPE")?;
    if !input.fixed(&[Piece::Sign(b"->")]) {
        return None;
    }
    let given = passed(input, b"tp_free")?;
    if !input.fixed(&[Piece::Sign(b";")]) {
        return None;
    }
    if same(object, given) {
        Some(CStmt::Free(object))
    } else {
        None
    }
}
