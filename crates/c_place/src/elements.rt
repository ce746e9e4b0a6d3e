//! Elements of memory views.
ghost use Rattle.std.specs.Prelude.{◌∷◌, ◌++◌, [], List};
ghost use Rattle.c_input.specs.Reads.{Finds, ReadsEvery};
ghost use Rattle.c_place.specs.Places.{element_spelling, element_tokens, IsElement};

use c_input::{Input, Piece, kind};
use c_tree::{CType, Variable};

/// An element: its type, the variable with the view, and the variable that tells how many bytes it stands behind the
/// view's first.
#[derive(Clone, Copy, Debug, PartialEq, Eq)]
pub struct ElementPlace {
    pub kind: CType,
    pub view: Variable,
    pub offset: Variable,
}

fn told(input: &mut Input) -> Option<ElementPlace>
    ensures some { Finds IsElement element_tokens input.old result input.new }
    ensures every { ReadsEvery IsElement element_tokens input.old result }
{
    if !input.fixed(&[Piece::Sign(b"*"), Piece::Sign(b"(")]) {
        return None;
    }
    let kind = kind(input)?;
    if !input.fixed(&[Piece::Sign(b"*"), Piece::Sign(b")"), Piece::Sign(b"(")]) {
        return None;
    }
    let view = input.variable()?;
    if !input.fixed(&[Piece::Sign(b"."), Piece::Word(b"buf"), Piece::Sign(b"+")]) {
        return None;
    }
    let offset = input.variable()?;
    if input.fixed(&[Piece::Sign(b")")]) {
        Some(ElementPlace { kind, view, offset })
    } else {
        None
    }
}

/// Reads `*(T *)(v.buf + y)`.
#[tactic(auto, using(crate::proofs::Fixed::element_spelled))]
pub fn element(input: &mut Input) -> Option<ElementPlace>
    ensures some { Finds IsElement element_spelling input.old result input.new }
    ensures every { ReadsEvery IsElement element_spelling input.old result }
{
    told(input)
}
