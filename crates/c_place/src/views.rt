//! Where views are, and which of their numbers is meant.
ghost use Rattle.std.specs.Prelude.{◌∷◌, [], ⊤};
ghost use Rattle.c_tree.specs.Forms.{IsView};
ghost use Rattle.c_tree.specs.Statements.{extent_name, view};
ghost use Rattle.c_input.specs.Reads.{Finds, ReadsEvery};

use crate::fields::field;
use c_input::{Input, Piece};
use c_tree::{Extent, ViewPlace};

/// Reads a view: a variable, or a field.
#[tactic(auto, using(crate::proofs::Fixed::field_spelled))]
pub fn view(input: &mut Input) -> Option<ViewPlace>
    ensures some { Finds IsView view input.old result input.new }
    ensures every { ReadsEvery IsView view input.old result }
{
    if input.sees(Piece::Sign(b"("), 0) {
        let place = field(input)?;
        return Some(ViewPlace::Field(place));
    }
    let variable = input.variable()?;
    Some(ViewPlace::Variable(variable))
}

/// Reads `n`, the lengths of a view's dimensions, or `s`, its strides.
pub fn extent(input: &mut Input) -> Option<Extent>
    ensures some { Finds (λ _. ⊤) (λ e. extent_name e ∷ []) input.old result input.new }
    ensures every { ReadsEvery (λ _. ⊤) (λ e. extent_name e ∷ []) input.old result }
{
    if input.fixed(&[Piece::Word(b"n")]) {
        return Some(Extent::Length);
    }
    if input.fixed(&[Piece::Word(b"s")]) {
        return Some(Extent::Stride);
    }
    None
}
