//! The grammar of expressions with its limits, what reads it, and their laws.
#![tactic(auto)]

mod laws;

pub use laws::{expressions_are_read, expressions_have_one_answer, expressions_spell_one_tree};

/// The levels of the grammar at which an expression stands inside another (Python language reference, 6).
#[derive(Clone, Copy, Debug, PartialEq, Eq)]
pub enum Level {
    /// a whole expression: inside brackets, and behind `else`
    Expr,
    /// the operand of `not`
    Not,
    /// the operand of `-`, `+`, `~` or a cast
    Unary,
    /// an atom with what stands behind it
    Postfix,
}

/// What stands behind a first `long` in the spelling of a number type.
#[derive(Clone, Copy, Debug, PartialEq, Eq)]
pub enum Longs {
    Bare,
    Int,
    Long,
    LongInt,
}
