//! Operands.
ghost use Rattle.std.specs.Prelude.{◌≡◌, ◌≢◌, ◌++◌, List, Some, slice_get};
ghost use Rattle.c_token.specs.CTokens.{CToken, sign};
ghost use Rattle.c_tree.specs.declared.value.CValue.{CValue as ValueTree};
ghost use Rattle.c_tree.specs.Forms.{IsValue};
ghost use Rattle.c_tree.specs.Values.{value_spelling};
ghost use Rattle.c_input.specs.Reads.{Finds, ReadsEvery};
ghost use Rattle.c_operand.specs.Values.{IsBracketed, IsWorded};

use crate::objects::{begins_number, object};
use c_input::{Input, Piece, address, class_object, literal, stored};
use c_tree::CValue;

// An operand in brackets: behind `(`, `-` begins a literal.
fn bracketed(input: &mut Input) -> Option<CValue>
    ensures some { Finds IsValue value_spelling input.old result input.new }
    ensures every { ReadsEvery IsBracketed value_spelling input.old result }
{
    if input.sees(Piece::Sign(b"-"), 1) {
        let found = literal(input)?;
        return Some(CValue::Literal(found));
    }
    class_object(input)
}

// An operand that begins with a word.
fn worded(input: &mut Input) -> Option<CValue>
    ensures some { Finds IsValue value_spelling input.old result input.new }
    ensures every { (v : ValueTree) (rest : List CToken) → IsWorded v → slice_get rest 0 ≢ Some (sign "[") → input.old ≡ value_spelling v ++ rest → result ≡ Some v }
{
    let word = input.next_word()?;
    if begins_number(word) {
        let found = literal(input)?;
        return Some(CValue::Literal(found));
    }
    if let Some(found) = object(word) {
        input.word()?;
        return Some(found);
    }
    stored(input)
}

/// Reads an operand: where `[` stands behind `args`, it is an element of it.
pub fn value(input: &mut Input) -> Option<CValue>
    ensures some { Finds IsValue value_spelling input.old result input.new }
    ensures every { (v : ValueTree) (rest : List CToken) → IsValue v → slice_get rest 0 ≢ Some (sign "[") → input.old ≡ value_spelling v ++ rest → result ≡ Some v }
{
    if input.sees(Piece::Sign(b"&"), 0) {
        return address(input);
    }
    if input.sees(Piece::Sign(b"("), 0) {
        return bracketed(input);
    }
    worded(input)
}
