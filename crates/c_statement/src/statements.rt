//! Statements.
ghost use Rattle.std.specs.Prelude.{IfOk};
ghost use Rattle.c_tree.specs.Forms.{IsStatement};
ghost use Rattle.c_tree.specs.Statements.{statement_spelling};
ghost use Rattle.c_input.specs.Reads.{Finds, ReadsEvery};
ghost use Rattle.c_statement.specs.Statements.{statement_tokens};

use crate::assigned::{assigned, bare_call, bare_method, freed};
use crate::jumps::{jump, returned};
use crate::statement_kind::{StatementKind, statement_kind};
use crate::written::{element_written, place_written, table_written};
use c_input::Input;
use c_tree::CStmt;
use cy_base::OutOfMemory;
use std::alloc::Global;

fn told(alloc: Global, input: &mut Input) -> Result<Option<CStmt>, OutOfMemory>
    ensures some { IfOk result (λ found. Finds IsStatement statement_tokens input.old found input.new) }
    ensures every { IfOk result (λ found. ReadsEvery IsStatement statement_tokens input.old found) }
{
    match statement_kind(input) {
        StatementKind::Goto => Ok(jump(input)),
        StatementKind::Return => Ok(returned(input)),
        StatementKind::Element => Ok(element_written(input)),
        StatementKind::Method => bare_method(alloc, input),
        StatementKind::Table => Ok(table_written(input)),
        StatementKind::Place => Ok(place_written(input)),
        StatementKind::Assigned => assigned(alloc, input),
        StatementKind::Free => Ok(freed(input)),
        StatementKind::Call => bare_call(alloc, input),
    }
}

/// Reads a statement, with the `;` that it ends in.
pub fn statement(alloc: Global, input: &mut Input) -> Result<Option<CStmt>, OutOfMemory>
    ensures some { IfOk result (λ found. Finds IsStatement statement_spelling input.old found input.new) }
    ensures every { IfOk result (λ found. ReadsEvery IsStatement statement_spelling input.old found) }
{
    told(alloc, input)
}
