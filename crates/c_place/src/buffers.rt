//! What memory views tell (Python/C API manual, "Buffer Protocol").
ghost use Rattle.std.specs.Prelude.{◌∷◌, [], List};
ghost use Rattle.c_tree.specs.Forms.{IsVariable, IsViewNumber};
ghost use Rattle.c_tree.specs.Statements.{buffer_of, number_spelling};
ghost use Rattle.c_input.specs.Reads.{Finds, ReadsEvery};
ghost use Rattle.c_place.specs.Places.{buffer_tokens, number_tokens};

use c_input::{Input, Piece};
use c_tree::{Variable, ViewNumber};

fn told_buffer(input: &mut Input) -> Option<Variable>
    ensures some { Finds IsVariable buffer_tokens input.old result input.new }
    ensures every { ReadsEvery IsVariable buffer_tokens input.old result }
{
    if !input.fixed(&[Piece::Word(b"PyMemoryView_GET_BUFFER"), Piece::Sign(b"(")]) {
        return None;
    }
    let object = input.variable()?;
    if input.fixed(&[Piece::Sign(b")"), Piece::Sign(b"->")]) {
        Some(object)
    } else {
        None
    }
}

fn told_number(input: &mut Input) -> Option<ViewNumber>
    ensures some { Finds IsViewNumber number_tokens input.old result input.new }
    ensures every { ReadsEvery IsViewNumber number_tokens input.old result }
{
    if input.fixed(&[Piece::Word(b"ndim")]) {
        return Some(ViewNumber::Dimensions);
    }
    if input.fixed(&[Piece::Word(b"itemsize")]) {
        return Some(ViewNumber::ItemSize);
    }
    if input.fixed(&[Piece::Word(b"readonly")]) {
        return Some(ViewNumber::Readonly);
    }
    if input.fixed(&[Piece::Word(b"shape")]) {
        let dimension = input.index()?;
        return Some(ViewNumber::Shape(dimension));
    }
    if !input.fixed(&[Piece::Word(b"strides")]) {
        return None;
    }
    let dimension = input.index()?;
    Some(ViewNumber::Stride(dimension))
}

/// Reads `PyMemoryView_GET_BUFFER(y)->`.
#[tactic(auto, using(crate::proofs::Fixed::buffer_spelled))]
pub fn buffer_of(input: &mut Input) -> Option<Variable>
    ensures some { Finds IsVariable buffer_of input.old result input.new }
    ensures every { ReadsEvery IsVariable buffer_of input.old result }
{
    told_buffer(input)
}

/// Reads which number a memory view tells.
#[tactic(auto, using(crate::proofs::Fixed::number_spelled))]
pub fn view_number(input: &mut Input) -> Option<ViewNumber>
    ensures some { Finds IsViewNumber number_spelling input.old result input.new }
    ensures every { ReadsEvery IsViewNumber number_spelling input.old result }
{
    told_number(input)
}
