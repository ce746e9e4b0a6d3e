//! Method tables of instances, and the methods in them.
ghost use Rattle.std.specs.Prelude.{◌∷◌, [], List};
ghost use Rattle.c_tree.specs.Forms.{IsVariable};
ghost use Rattle.c_tree.specs.Statements.{table_of};
ghost use Rattle.c_input.specs.Reads.{Finds, ReadsEvery};
ghost use Rattle.c_place.specs.Places.{method_spelling, method_tokens, table_tokens, IsMethod};

use c_input::{Input, Piece};
use c_tree::{Numbered, Variable};

/// A method of an instance: the table that its class has, the variable with the instance, and the slot in the table.
#[derive(Clone, Copy, Debug, PartialEq, Eq)]
pub struct Method {
    pub table: Numbered,
    pub object: Variable,
    pub slot: u32,
}

fn told_table(input: &mut Input) -> Option<Variable>
    ensures some { Finds IsVariable table_tokens input.old result input.new }
    ensures every { ReadsEvery IsVariable table_tokens input.old result }
{
    if !input.fixed(&[
        Piece::Sign(b"("),
        Piece::Sign(b"("),
        Piece::Word(b"struct"),
        Piece::Word(b"cyc_root"),
        Piece::Sign(b"*"),
        Piece::Sign(b")"),
    ]) {
        return None;
    }
    let object = input.variable()?;
    if input.fixed(&[Piece::Sign(b")"), Piece::Sign(b"->"), Piece::Word(b"vt")]) {
        Some(object)
    } else {
        None
    }
}

fn told_method(input: &mut Input) -> Option<Method>
    ensures some { Finds IsMethod method_tokens input.old result input.new }
    ensures every { ReadsEvery IsMethod method_tokens input.old result }
{
    if !input.fixed(&[
        Piece::Sign(b"("),
        Piece::Sign(b"("),
        Piece::Word(b"const"),
        Piece::Word(b"struct"),
    ]) {
        return None;
    }
    let table = input.numbered(b"cyc_vt_")?;
    if !input.fixed(&[Piece::Sign(b"*"), Piece::Sign(b")")]) {
        return None;
    }
    let object = told_table(input)?;
    if !input.fixed(&[Piece::Sign(b")"), Piece::Sign(b"->")]) {
        return None;
    }
    let slot = input.lettered(b"m")?;
    Some(Method {
        table,
        object,
        slot,
    })
}

/// Reads `((struct cyc_root *)y)->vt`.
#[tactic(auto, using(crate::proofs::Fixed::table_spelled))]
pub fn table_of(input: &mut Input) -> Option<Variable>
    ensures some { Finds IsVariable table_of input.old result input.new }
    ensures every { ReadsEvery IsVariable table_of input.old result }
{
    told_table(input)
}

/// Reads `((const struct cyc_vt_0_1 *)((struct cyc_root *)y)->vt)->m2`.
#[tactic(auto, using(crate::proofs::Fixed::method_spelled))]
pub fn method_of(input: &mut Input) -> Option<Method>
    ensures some { Finds IsMethod method_spelling input.old result input.new }
    ensures every { ReadsEvery IsMethod method_spelling input.old result }
{
    told_method(input)
}
