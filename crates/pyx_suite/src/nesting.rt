//! What reads statements, where so many things may be opened.
ghost use Rattle.std.specs.Prelude.{◌≡◌, ◌≢◌};
ghost use Rattle.decl_grammar.specs.Reading as spec;
ghost use Rattle.token_input.specs.Reads.{Reads};

use crate::suites::Suites;
use cy_tree::{Stmt, Suite};
use pyx_stmt::StmtSet;
use sqlite_items::Items;
use std::alloc::Global;
use token_input::{Halt, Input};

// Reads the statements of an indented suite, which is one of the things that may be opened; it goes no deeper than `room`.
#[tactic(auto, unfolding(decl_grammar::specs::Reading::read_inside, forms::specs::Readers::refuse))]
fn inside(alloc: Global, input: &mut Input<'_>, room: usize) -> Result<Items<Stmt>, Halt>
    ensures { Reads (spec.read_inside room input.old) result input.new }
{
    if room == 0 {
        return Err(Halt::no_room(input.sees(StmtSet::BeginsStmt)));
    }
    let suites = Suites {
        alloc,
        room: room - 1,
        inner: inside,
    };
    suites.stmts(input)
}

/// Reads a statement, where so many things may be opened: brackets, indented suites, prefix operators and casts with
/// their operands, and `else` arms of conditionals.
pub fn statement(alloc: Global, input: &mut Input<'_>, room: usize) -> Result<Stmt, Halt>
    ensures { Reads (spec.read_stmt_at room input.old) result input.new }
{
    let suites = Suites {
        alloc,
        room,
        inner: inside,
    };
    suites.stmt(input)
}

/// Reads a colon and a suite, where so many things may be opened.
pub fn body(alloc: Global, input: &mut Input<'_>, room: usize) -> Result<Suite, Halt>
    ensures { Reads (spec.read_body_at room input.old) result input.new }
{
    let suites = Suites {
        alloc,
        room,
        inner: inside,
    };
    suites.body(input)
}
