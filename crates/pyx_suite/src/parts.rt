//! Parts of compound statements that hold no suite.
ghost use Rattle.std.specs.Prelude.{◌≡◌, ◌≢◌, ◌∷◌, [], IfOk};
ghost use Rattle.forms.specs.Readers.{read_both, read_one};
ghost use Rattle.token_class.specs.Sets.{of};
ghost use Rattle.expr_grammar.specs.Words as set;
ghost use Rattle.expr_grammar.specs.Reading as expr_spec;
ghost use Rattle.decl_grammar.specs.Words as words;
ghost use Rattle.decl_grammar.specs.Nodes as node;
ghost use Rattle.decl_grammar.specs.Reading as spec;
ghost use Rattle.token_input.specs.Reads.{Reads};

use cy_tree::{Expr, Ident, LockWord};
use pyx_stmt::{StmtSet, alias, expr};
use sqlite_items::Items;
use std::alloc::{AllocError, Global};
use token_class::TokenClass;
use token_input::{ExprSet, Halt, Input};

fn lock_of(class: TokenClass) -> LockWord
    ensures { result ≡ node.lock_of class }
{
    match class {
        TokenClass::Nogil => LockWord::Nogil,
        _ => LockWord::Gil,
    }
}

/// Reads `nogil` or `gil`.
#[tactic(auto, unfolding(forms::specs::Readers::read_one))]
pub(crate) fn lock_word(input: &mut Input<'_>) -> Result<LockWord, Halt>
    ensures { Reads (read_one (of words.is_lock) node.lock_word input.old) result input.new }
{
    let taken = input.expect(StmtSet::Lock)?;
    Ok(lock_of(taken.class))
}

#[tactic(auto, unfolding(decl_grammar::specs::Reading::read_caught, forms::specs::Readers::read_both))]
fn caught(alloc: Global, input: &mut Input<'_>, room: usize) -> Result<(Expr, Option<Ident>), Halt>
    ensures { Reads (spec.read_caught room (spec.read_inside room) input.old) result input.new }
{
    let kind = expr(alloc, input, room)?;
    let name = alias(alloc, input)?;
    Ok((kind, name))
}

/// Reads the type behind `except`, and the name behind `as`, if they stand there.
#[tactic(auto, unfolding(forms::specs::Readers::read_both, forms::specs::Readers::read_or, forms::specs::Readers::read_nothing))]
pub(crate) fn caught_if_any(
    alloc: Global,
    input: &mut Input<'_>,
    room: usize,
) -> Result<Option<(Expr, Option<Ident>)>, Halt>
    ensures { Reads (expr_spec.read_opt set.begins_expr (spec.read_caught room (spec.read_inside room)) input.old) result input.new }
{
    if !input.sees(ExprSet::BeginsExpr) {
        return Ok(None);
    }
    let caught = caught(alloc, input, room)?;
    Ok(Some(caught))
}

/// The type of a handler, and its name.
pub(crate) fn type_and_name(caught: Option<(Expr, Option<Ident>)>) -> (Option<Expr>, Option<Ident>)
    ensures { result ≡ (node.kind_of caught, node.name_of caught) }
{
    match caught {
        None => (None, None),
        Some((kind, name)) => (Some(kind), name),
    }
}
