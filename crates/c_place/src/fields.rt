//! Fields of instances.
ghost use Rattle.c_tree.specs.Forms.{IsFieldPlace};
ghost use Rattle.c_tree.specs.Statements.{field};
ghost use Rattle.c_input.specs.Reads.{Finds, ReadsEvery};
ghost use Rattle.c_place.specs.Places.{field_tokens};

use c_input::{Input, Piece};
use c_tree::FieldPlace;

fn told(input: &mut Input) -> Option<FieldPlace>
    ensures some { Finds IsFieldPlace field_tokens input.old result input.new }
    ensures every { ReadsEvery IsFieldPlace field_tokens input.old result }
{
    if !input.fixed(&[Piece::Sign(b"("), Piece::Sign(b"("), Piece::Word(b"struct")]) {
        return None;
    }
    let class = input.numbered(b"cyc_o_")?;
    if !input.fixed(&[Piece::Sign(b"*"), Piece::Sign(b")")]) {
        return None;
    }
    let object = input.variable()?;
    if !input.fixed(&[Piece::Sign(b")"), Piece::Sign(b"->")]) {
        return None;
    }
    let field = input.lettered(b"f")?;
    Some(FieldPlace {
        object,
        class,
        field,
    })
}

/// Reads `((struct cyc_o_0_1 *)y)->f2`.
#[tactic(auto, using(crate::proofs::Fixed::field_spelled))]
pub fn field(input: &mut Input) -> Option<FieldPlace>
    ensures some { Finds IsFieldPlace field input.old result input.new }
    ensures every { ReadsEvery IsFieldPlace field input.old result }
{
    told(input)
}
