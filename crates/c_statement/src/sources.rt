//! Reads what stands behind `x =`, up to the `;`.
ghost use Rattle.std.specs.Prelude.{IfOk};
ghost use Rattle.c_input.specs.Reads.{Finds, ReadsEvery};
ghost use Rattle.c_statement.specs.Sources.{source_tokens, IsSource, IsSourceOf};
ghost use Rattle.c_statement.specs.declared.source_kind.SourceKind.TheVariants as kinds;

use crate::buffers::{buffer, format};
use crate::calls::{call, method_call};
use crate::object_tests::{heap_type, native};
use crate::operands::{cast, inverted, operands};
use crate::places::{element_read, place};
use crate::source::Source;
use crate::source_kind::{SourceKind, source_kind};
use c_input::Input;
use cy_base::OutOfMemory;
use std::alloc::Global;

fn called(alloc: Global, input: &mut Input) -> Result<Option<Source>, OutOfMemory>
    ensures some { IfOk result (λ found. Finds IsSource source_tokens input.old found input.new) }
    ensures every { IfOk result (λ found. ReadsEvery (IsSourceOf kinds.Call) source_tokens input.old found) }
{
    match call(alloc, input)? {
        Some(found) => Ok(Some(Source::Call(found))),
        None => Ok(None),
    }
}

fn method_called(alloc: Global, input: &mut Input) -> Result<Option<Source>, OutOfMemory>
    ensures some { IfOk result (λ found. Finds IsSource source_tokens input.old found input.new) }
    ensures every { IfOk result (λ found. ReadsEvery (IsSourceOf kinds.Method) source_tokens input.old found) }
{
    match method_call(alloc, input)? {
        Some(found) => Ok(Some(Source::Method(found))),
        None => Ok(None),
    }
}

/// Reads what stands behind `x =`, with the `;`.
pub fn source(alloc: Global, input: &mut Input) -> Result<Option<Source>, OutOfMemory>
    ensures some { IfOk result (λ found. Finds IsSource source_tokens input.old found input.new) }
    ensures every { IfOk result (λ found. ReadsEvery IsSource source_tokens input.old found) }
{
    match source_kind(input) {
        SourceKind::Operand => Ok(operands(input)),
        SourceKind::Invert => Ok(inverted(input)),
        SourceKind::Cast => Ok(cast(input)),
        SourceKind::Call => called(alloc, input),
        SourceKind::Place => Ok(place(input)),
        SourceKind::Method => method_called(alloc, input),
        SourceKind::Native => Ok(native(input)),
        SourceKind::HeapType => Ok(heap_type(input)),
        SourceKind::Buffer => Ok(buffer(input)),
        SourceKind::Format => format(alloc, input),
        SourceKind::Element => Ok(element_read(input)),
    }
}
