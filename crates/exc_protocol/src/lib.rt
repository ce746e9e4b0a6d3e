//! Exception clauses: what a call that fails answers, and how its caller sees it.
#![tactic(auto)]

ghost use Rattle.std.specs.Prelude.{◌≡◌, Bool};
ghost use Rattle.cy_tree.specs.Clauses.{clause_of, clause_row, default_clause};
ghost use Rattle.exc_protocol.specs.Answers.{CanAnswer, CanHave, IsCallable, exit_of, is_failed, says};

use cy_num::wrap;
use cy_tree::{Clause, Signature, Ty};

#[cfg(test)]
mod tests;

/// What a call answers: NULL, an object, nothing, or a number. The project's own.
#[derive(Clone, Copy, Debug, PartialEq, Eq)]
pub enum CResult {
    Null,
    Object,
    Nothing,
    Number(i128),
}

/// Whether a call is taken as failed: always, never, or where an exception is set. The project's own.
#[derive(Clone, Copy, Debug, PartialEq, Eq)]
pub enum Test {
    Failed,
    Fine,
    AskError,
}

/// What a callee that fails answers. `ReportNumber` and `ReportNothing` answer 0 and nothing, once the exception
/// was reported and dropped. The project's own.
#[derive(Clone, Copy, Debug, PartialEq, Eq)]
pub enum Exit {
    Null,
    Number(i128),
    Nothing,
    ReportNumber,
    ReportNothing,
}

fn default_clause(gives: Ty) -> Clause
    ensures { result ≡ default_clause gives }
{
    match gives {
        Ty::Num(kind) => Clause::MaybeValue(wrap(kind, -1)),
        Ty::Bint => Clause::MaybeValue(1),
        Ty::Void => Clause::Star,
        _ => Clause::Null,
    }
}

/// The clause of a function, with its default where none is written (Cython documentation, "Error return values").
pub fn protocol(s: &Signature) -> Clause
    requires { IsCallable s.now.result s.now.clause }
    ensures { result ≡ clause_of s.now.result s.now.clause }
{
    match (s.clause, s.result) {
        (None, result) => default_clause(result),
        (Some(_), Ty::Object) => Clause::Null,
        (Some(_), Ty::Class(_)) => Clause::Null,
        (Some(clause), _) => clause,
    }
}

/// How the caller of a function with this clause takes an answer.
pub fn caller_test(c: Clause, answered: CResult) -> Test
    requires { CanAnswer c answered }
    ensures { (set : Bool) → says result set ≡ is_failed (clause_row c).caller answered set }
{
    match (c, answered) {
        (Clause::Null, CResult::Null) => Test::Failed,
        (Clause::Value(value), CResult::Number(number)) if number == value => Test::Failed,
        (Clause::MaybeValue(value), CResult::Number(number)) if number == value => Test::AskError,
        (Clause::Star, _) => Test::AskError,
        _ => Test::Fine,
    }
}

/// What a callee with this clause and result type answers where it fails.
pub fn callee_exit(c: Clause, gives: Ty) -> Exit
    requires { CanHave c gives }
    ensures { result ≡ exit_of (clause_row c).callee gives }
{
    match (c, gives) {
        (Clause::Null, _) => Exit::Null,
        (Clause::Value(value), _) => Exit::Number(value),
        (Clause::MaybeValue(value), _) => Exit::Number(value),
        (Clause::Star, Ty::Void) => Exit::Nothing,
        (Clause::Star, _) => Exit::Number(0),
        (Clause::Noexcept, Ty::Void) => Exit::ReportNothing,
        (Clause::Noexcept, _) => Exit::ReportNumber,
    }
}
