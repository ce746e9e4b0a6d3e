//! Operators between two operands.
ghost use Rattle.std.specs.Prelude.{◌≡◌, ◌∷◌, [], ⊤};
ghost use Rattle.c_tree.specs.Statements.{op_spelling};
ghost use Rattle.c_input.specs.Reads.{Reads, ReadsEvery};
ghost use Rattle.c_operand.specs.Operators.{IsArithmetic, IsBitwise, IsComparison};

use c_input::{Input, Piece};
use c_tree::BinaryOp;

// `+`, `-`, `*`, `/` or `%`.
fn arithmetic(input: &mut Input) -> Option<BinaryOp>
    ensures some { Reads IsArithmetic (λ o. op_spelling o ∷ []) input.old result input.new }
    ensures every { ReadsEvery IsArithmetic (λ o. op_spelling o ∷ []) input.old result }
{
    if input.fixed(&[Piece::Sign(b"+")]) {
        return Some(BinaryOp::Add);
    }
    if input.fixed(&[Piece::Sign(b"-")]) {
        return Some(BinaryOp::Subtract);
    }
    if input.fixed(&[Piece::Sign(b"*")]) {
        return Some(BinaryOp::Multiply);
    }
    if input.fixed(&[Piece::Sign(b"/")]) {
        return Some(BinaryOp::Divide);
    }
    if input.fixed(&[Piece::Sign(b"%")]) {
        return Some(BinaryOp::Remainder);
    }
    None
}

// `&`, `|`, `^`, `<<` or `>>`.
fn bitwise(input: &mut Input) -> Option<BinaryOp>
    ensures some { Reads IsBitwise (λ o. op_spelling o ∷ []) input.old result input.new }
    ensures every { ReadsEvery IsBitwise (λ o. op_spelling o ∷ []) input.old result }
{
    if input.fixed(&[Piece::Sign(b"&")]) {
        return Some(BinaryOp::BitAnd);
    }
    if input.fixed(&[Piece::Sign(b"|")]) {
        return Some(BinaryOp::BitOr);
    }
    if input.fixed(&[Piece::Sign(b"^")]) {
        return Some(BinaryOp::BitXor);
    }
    if input.fixed(&[Piece::Sign(b"<<")]) {
        return Some(BinaryOp::ShiftLeft);
    }
    if input.fixed(&[Piece::Sign(b">>")]) {
        return Some(BinaryOp::ShiftRight);
    }
    None
}

// `<`, `<=`, `==`, `!=`, `>` or `>=`.
fn comparison(input: &mut Input) -> Option<BinaryOp>
    ensures some { Reads IsComparison (λ o. op_spelling o ∷ []) input.old result input.new }
    ensures every { ReadsEvery IsComparison (λ o. op_spelling o ∷ []) input.old result }
{
    if input.fixed(&[Piece::Sign(b"<")]) {
        return Some(BinaryOp::Less);
    }
    if input.fixed(&[Piece::Sign(b"<=")]) {
        return Some(BinaryOp::LessEqual);
    }
    if input.fixed(&[Piece::Sign(b"==")]) {
        return Some(BinaryOp::Equal);
    }
    if input.fixed(&[Piece::Sign(b"!=")]) {
        return Some(BinaryOp::NotEqual);
    }
    if input.fixed(&[Piece::Sign(b">")]) {
        return Some(BinaryOp::Greater);
    }
    if input.fixed(&[Piece::Sign(b">=")]) {
        return Some(BinaryOp::GreaterEqual);
    }
    None
}

/// Reads an operator between two operands.
#[tactic(auto, using(crate::proofs::Signs::same_op, crate::proofs::Signs::sorts))]
pub fn operator(input: &mut Input) -> Option<BinaryOp>
    ensures some { Reads (λ _. ⊤) (λ o. op_spelling o ∷ []) input.old result input.new }
    ensures every { ReadsEvery (λ _. ⊤) (λ o. op_spelling o ∷ []) input.old result }
{
    if let Some(found) = arithmetic(input) {
        return Some(found);
    }
    if let Some(found) = bitwise(input) {
        return Some(found);
    }
    comparison(input)
}
