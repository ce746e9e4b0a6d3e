//! Operands that name an object of the file by its address.
ghost use Rattle.c_input.specs.Addresses.{IsAddress, IsClassObject};
ghost use Rattle.c_input.specs.Reads.{Finds, ReadsEvery};
ghost use Rattle.c_tree.specs.Values.{value_spelling};

use crate::input::Input;
use crate::piece::Piece;
use c_tree::CValue;

/// Reads `&cyc_def` or `&cyc_ty_0_1`.
#[tactic(auto, using(crate::proofs::Fixed::definition_spelled))]
pub fn address(input: &mut Input) -> Option<CValue>
    ensures some { Finds IsAddress value_spelling input.old result input.new }
    ensures every { ReadsEvery IsAddress value_spelling input.old result }
{
    if !input.fixed(&[Piece::Sign(b"&")]) {
        return None;
    }
    if input.fixed(&[Piece::Word(b"cyc_def")]) {
        return Some(CValue::Definition);
    }
    let class = input.numbered(b"cyc_ty_")?;
    Some(CValue::TypeAddress(class))
}

/// Reads `(PyObject *)&cyc_ty_0_1`.
#[tactic(auto, using(crate::proofs::Fixed::cast_spelled))]
pub fn class_object(input: &mut Input) -> Option<CValue>
    ensures some { Finds IsClassObject value_spelling input.old result input.new }
    ensures every { ReadsEvery IsClassObject value_spelling input.old result }
{
    if !input.fixed(&[
        Piece::Sign(b"("),
        Piece::Word(b"PyObject"),
        Piece::Sign(b"*"),
        Piece::Sign(b")"),
        Piece::Sign(b"&"),
    ]) {
        return None;
    }
    let class = input.numbered(b"cyc_ty_")?;
    Some(CValue::ClassObject(class))
}
