//! Sources that are operands, or made of them.
ghost use Rattle.std.specs.Prelude.{◌≡◌, ◌++◌};
ghost use Rattle.c_tree.specs.Forms.{IsValue};
ghost use Rattle.c_input.specs.Reads.{Finds, ReadsEvery};
ghost use Rattle.c_statement.specs.Sources.{cast_of, ended_tokens, source_tokens, IsSource, IsSourceOf};
ghost use Rattle.c_statement.specs.declared.source_kind.SourceKind.TheVariants as kinds;

use crate::source::Source;
use c_input::{Input, Piece, kind};
use c_operand::{operator, value};
use c_tree::{CType, CValue};

/// Reads an operand, with the `;` behind it.
pub fn ended(input: &mut Input) -> Option<CValue>
    ensures some { Finds IsValue ended_tokens input.old result input.new }
    ensures every { ReadsEvery IsValue ended_tokens input.old result }
{
    let found = value(input)?;
    if input.fixed(&[Piece::Sign(b";")]) {
        Some(found)
    } else {
        None
    }
}

/// Reads `k;` or `k + k;`.
pub fn operands(input: &mut Input) -> Option<Source>
    ensures some { Finds IsSource source_tokens input.old result input.new }
    ensures every { ReadsEvery (IsSourceOf kinds.Operand) source_tokens input.old result }
{
    let first = value(input)?;
    if input.fixed(&[Piece::Sign(b";")]) {
        return Some(Source::Value(first));
    }
    let between = operator(input)?;
    let second = ended(input)?;
    Some(Source::Binary(first, between, second))
}

/// Reads `~k;`.
pub fn inverted(input: &mut Input) -> Option<Source>
    ensures some { Finds IsSource source_tokens input.old result input.new }
    ensures every { ReadsEvery (IsSourceOf kinds.Invert) source_tokens input.old result }
{
    if !input.fixed(&[Piece::Sign(b"~")]) {
        return None;
    }
    let found = ended(input)?;
    Some(Source::Invert(found))
}

// The cast of an operand. The address of a type object as an object is an operand, and no cast.
fn as_type(kind: CType, value: CValue) -> Option<Source>
    ensures { result ≡ cast_of kind value }
{
    match (kind, value) {
        (CType::Object, CValue::TypeAddress(_)) => None,
        _ => Some(Source::Cast(kind, value)),
    }
}

/// Reads `(T)k;`.
pub fn cast(input: &mut Input) -> Option<Source>
    ensures some { Finds IsSource source_tokens input.old result input.new }
    ensures every { ReadsEvery (IsSourceOf kinds.Cast) source_tokens input.old result }
{
    if !input.fixed(&[Piece::Sign(b"(")]) {
        return None;
    }
    let to = kind(input)?;
    if !input.fixed(&[Piece::Sign(b")")]) {
        return None;
    }
    let found = ended(input)?;
    as_type(to, found)
}
