//! Literals with their signs.
ghost use Rattle.std.specs.Prelude.{◌≡◌, ◌∷◌, ◌++◌, [], List, Some};
ghost use Rattle.c_tree.specs.Forms.{IsLiteral};
ghost use Rattle.c_tree.specs.Values.{literal_spelling};
ghost use Rattle.c_input.specs.Literals.{behind_minus, IsNegative};
ghost use Rattle.c_input.specs.Reads.{Finds, ReadsEvery};

use crate::input::Input;
use crate::literals::{negative, plain};
use crate::piece::Piece;
use c_tree::Literal;

/// Reads a literal.
#[tactic(auto, using(crate::proofs::Sides::negative_spelled, crate::proofs::Sides::sides))]
pub fn literal(input: &mut Input) -> Option<Literal>
    ensures some { Finds IsLiteral literal_spelling input.old result input.new }
    ensures every { ReadsEvery IsLiteral literal_spelling input.old result }
{
    if input.fixed(&[Piece::Sign(b"("), Piece::Sign(b"-")]) {
        return negative(input);
    }
    let word = input.word()?;
    plain(word)
}
