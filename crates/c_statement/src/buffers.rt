//! Sources that memory views tell (Python/C API manual, "Buffer Protocol").
ghost use Rattle.std.specs.Prelude.{IfOk};
ghost use Rattle.c_input.specs.Reads.{Finds, ReadsEvery};
ghost use Rattle.c_statement.specs.Sources.{source_tokens, IsSource, IsSourceOf};
ghost use Rattle.c_statement.specs.declared.source_kind.SourceKind.TheVariants as kinds;

use crate::source::Source;
use c_input::{Input, Piece};
use c_place::{buffer_of, view_number};
use cy_base::OutOfMemory;
use std::alloc::Global;

/// Reads `PyMemoryView_GET_BUFFER(y)->ndim;` or `PyMemoryView_GET_BUFFER(y)->suboffsets != NULL;`.
pub fn buffer(input: &mut Input) -> Option<Source>
    ensures some { Finds IsSource source_tokens input.old result input.new }
    ensures every { ReadsEvery (IsSourceOf kinds.Buffer) source_tokens input.old result }
{
    let object = buffer_of(input)?;
    if input.fixed(&[
        Piece::Word(b"suboffsets"),
        Piece::Sign(b"!="),
        Piece::Word(b"NULL"),
        Piece::Sign(b";"),
    ]) {
        return Some(Source::Indirect(object));
    }
    let number = view_number(input)?;
    if input.fixed(&[Piece::Sign(b";")]) {
        Some(Source::Number(object, number))
    } else {
        None
    }
}

/// Reads `cyc_fmt(PyMemoryView_GET_BUFFER(y)->format, "lqn");`.
pub fn format(alloc: Global, input: &mut Input) -> Result<Option<Source>, OutOfMemory>
    ensures some { IfOk result (λ found. Finds IsSource source_tokens input.old found input.new) }
    ensures every { IfOk result (λ found. ReadsEvery (IsSourceOf kinds.Format) source_tokens input.old found) }
{
    if !input.fixed(&[Piece::Word(b"cyc_fmt"), Piece::Sign(b"(")]) {
        return Ok(None);
    }
    let Some(object) = buffer_of(input) else {
        return Ok(None);
    };
    if !input.fixed(&[Piece::Word(b"format"), Piece::Sign(b",")]) {
        return Ok(None);
    }
    let Some(letters) = input.string(alloc)? else {
        return Ok(None);
    };
    if input.fixed(&[Piece::Sign(b")"), Piece::Sign(b";")]) {
        Ok(Some(Source::Format(object, letters)))
    } else {
        Ok(None)
    }
}
