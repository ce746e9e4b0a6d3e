//! Statements that leave the line of statements: `goto`, with a test or without, and `return`.
ghost use Rattle.c_tree.specs.Forms.{IsNumber, IsStatement};
ghost use Rattle.c_input.specs.Reads.{Finds, ReadsEvery};
ghost use Rattle.c_statement.specs.Statements.{comparison_tokens, statement_tokens, target_tokens, IsComparison, IsStatementOf};
ghost use Rattle.c_statement.specs.declared.statement_kind.StatementKind.TheVariants as kinds;

use crate::operands::ended;
use c_input::{Input, Piece};
use c_operand::{operator, value};
use c_tree::{CStmt, CTest};

// `goto L0;`
fn target(input: &mut Input) -> Option<u32>
    ensures some { Finds IsNumber target_tokens input.old result input.new }
    ensures every { ReadsEvery IsNumber target_tokens input.old result }
{
    if !input.fixed(&[Piece::Word(b"goto")]) {
        return None;
    }
    let label = input.lettered(b"L")?;
    if input.fixed(&[Piece::Sign(b";")]) {
        Some(label)
    } else {
        None
    }
}

// `k == k)`
fn comparison(input: &mut Input) -> Option<CTest>
    ensures some { Finds IsComparison comparison_tokens input.old result input.new }
    ensures every { ReadsEvery IsComparison comparison_tokens input.old result }
{
    let first = value(input)?;
    let between = operator(input)?;
    let second = value(input)?;
    if input.fixed(&[Piece::Sign(b")")]) {
        Some(CTest::Compare(first, between, second))
    } else {
        None
    }
}

/// Reads `if (k == k) goto L0;`, `if (PyErr_Occurred()) goto L0;` or `goto L0;`.
pub fn jump(input: &mut Input) -> Option<CStmt>
    ensures some { Finds IsStatement statement_tokens input.old result input.new }
    ensures every { ReadsEvery (IsStatementOf kinds.Goto) statement_tokens input.old result }
{
    if !input.fixed(&[Piece::Word(b"if"), Piece::Sign(b"(")]) {
        let label = target(input)?;
        return Some(CStmt::Goto(CTest::Always, label));
    }
    if input.fixed(&[
        Piece::Word(b"PyErr_Occurred"),
        Piece::Sign(b"("),
        Piece::Sign(b")"),
        Piece::Sign(b")"),
    ]) {
        let label = target(input)?;
        return Some(CStmt::Goto(CTest::ErrorSet, label));
    }
    let test = comparison(input)?;
    let label = target(input)?;
    Some(CStmt::Goto(test, label))
}

/// Reads `return;` or `return k;`.
pub fn returned(input: &mut Input) -> Option<CStmt>
    ensures some { Finds IsStatement statement_tokens input.old result input.new }
    ensures every { ReadsEvery (IsStatementOf kinds.Return) statement_tokens input.old result }
{
    if !input.fixed(&[Piece::Word(b"return")]) {
        return None;
    }
    if input.fixed(&[Piece::Sign(b";")]) {
        return Some(CStmt::Return(None));
    }
    let given = ended(input)?;
    Some(CStmt::Return(Some(given)))
}
