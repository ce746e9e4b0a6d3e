//! One walk over statements, with what is around them.
ghost use Rattle.std.specs.Prelude.{◌≡◌};
ghost use Rattle.control_rules.specs.Walk.{ArmsNoted, HandlersNoted, MaybeNoted, StmtNoted, StmtsNoted, SuiteNoted};

use crate::around::Around;
use crate::leaf::{judge_handler, judge_line};
use cy_base::{FileId, Refusal};
use cy_tree::{Arm, Handler, Stmt, Suite};
use sqlite_items::Boxed;

type Least = Option<Refusal>;

#[cycle(walk)]
pub(crate) fn judge_suite(file: FileId, around: Around, suite: &Suite, least: Least) -> Least
    ensures { SuiteNoted file around suite.now least result }
{
    match suite {
        Suite::Inline(line) => judge_line(file, around, line, least),
        Suite::Block(stmts) => judge_stmts(file, around, stmts.as_slice(), least),
    }
}

#[cycle(walk)]
fn judge_maybe(file: FileId, around: Around, other: &Option<Boxed<Suite>>, least: Least) -> Least
    ensures { MaybeNoted file around other.now least result }
{
    match other {
        Some(suite) => judge_suite(file, around, suite.get(), least),
        None => least,
    }
}

#[cycle(walk)]
fn judge_stmts(file: FileId, around: Around, stmts: &[Stmt], least: Least) -> Least
    ensures { StmtsNoted file around stmts.now least result }
{
    let mut least = least;
    for stmt in stmts {
        least = judge_stmt(file, around, stmt, least);
    }
    least
}

#[cycle(walk)]
fn judge_arms(file: FileId, around: Around, arms: &[Arm], least: Least) -> Least
    ensures { ArmsNoted file around arms.now least result }
{
    let mut least = least;
    for arm in arms {
        least = judge_suite(file, around, arm.body.get(), least);
    }
    least
}

#[cycle(walk)]
fn judge_handlers(file: FileId, around: Around, handlers: &[Handler], least: Least) -> Least
    ensures { HandlersNoted file around handlers.now least result }
{
    let mut least = least;
    for (index, handler) in handlers.iter().enumerate() {
        let is_last = index + 1 == handlers.len();
        least = judge_handler(file, is_last, handler, least);
        least = judge_suite(file, around.handling(), handler.body.get(), least);
    }
    least
}

/// Judges a statement with all inside it.
#[cycle(walk)]
pub(crate) fn judge_stmt(file: FileId, around: Around, stmt: &Stmt, least: Least) -> Least
    ensures { StmtNoted file around stmt.now least result }
{
    let inner = around.compound();
    match stmt {
        Stmt::Simples(line) => judge_line(file, around, line, least),
        Stmt::IfNode(_, arms, other) => {
            let least = judge_arms(file, inner, arms.as_slice(), least);
            judge_maybe(file, inner, other, least)
        }
        Stmt::WhileNode(_, _, body, other) => {
            let least = judge_suite(file, around.looping(), body.get(), least);
            judge_maybe(file, inner, other, least)
        }
        Stmt::ForNode(_, _, _, body, other) => {
            let least = judge_suite(file, around.looping(), body.get(), least);
            judge_maybe(file, inner, other, least)
        }
        Stmt::Try(_, body, handlers, other, last) => {
            let least = judge_suite(file, inner, body.get(), least);
            let least = judge_handlers(file, inner, handlers.as_slice(), least);
            let least = judge_maybe(file, inner, other, least);
            judge_maybe(file, inner, last, least)
        }
        Stmt::With(_, _, body) => judge_suite(file, inner, body.get(), least),
    }
}
