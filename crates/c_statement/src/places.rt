//! Sources that are places: fields, views' memory and numbers, elements.
ghost use Rattle.c_input.specs.Reads.{Finds, ReadsEvery};
ghost use Rattle.c_statement.specs.Sources.{source_tokens, told_tokens, IsSource, IsSourceOf, IsToldOf};
ghost use Rattle.c_statement.specs.declared.source_kind.SourceKind.TheVariants as kinds;

use crate::source::Source;
use c_input::{Input, Piece};
use c_place::{element, extent, view};
use c_tree::ViewPlace;

// Behind a view: `.mv;`, `.n[0];` or `.s[0];`
fn told_of(view: ViewPlace, input: &mut Input) -> Option<Source>
    ensures some { Finds (IsToldOf view) told_tokens input.old result input.new }
    ensures every { ReadsEvery (IsToldOf view) told_tokens input.old result }
{
    if !input.fixed(&[Piece::Sign(b".")]) {
        return None;
    }
    if input.fixed(&[Piece::Word(b"mv"), Piece::Sign(b";")]) {
        return Some(Source::Memory(view));
    }
    let extent = extent(input)?;
    let dimension = input.index()?;
    if input.fixed(&[Piece::Sign(b";")]) {
        Some(Source::Extent(view, extent, dimension))
    } else {
        None
    }
}

/// Reads `((struct cyc_o_0_1 *)y)->f2;`, `v.mv;`, `v.n[0];` or `v.s[0];`.
pub fn place(input: &mut Input) -> Option<Source>
    ensures some { Finds IsSource source_tokens input.old result input.new }
    ensures every { ReadsEvery (IsSourceOf kinds.Place) source_tokens input.old result }
{
    let place = view(input)?;
    if !input.fixed(&[Piece::Sign(b";")]) {
        return told_of(place, input);
    }
    match place {
        ViewPlace::Field(field) => Some(Source::Field(field)),
        ViewPlace::Variable(_) => None,
    }
}

/// Reads `*(T *)(v.buf + y);`.
pub fn element_read(input: &mut Input) -> Option<Source>
    ensures some { Finds IsSource source_tokens input.old result input.new }
    ensures every { ReadsEvery (IsSourceOf kinds.Element) source_tokens input.old result }
{
    let place = element(input)?;
    if input.fixed(&[Piece::Sign(b";")]) {
        Some(Source::Element(place))
    } else {
        None
    }
}
