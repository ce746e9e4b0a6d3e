//! Statements that begin with an expression.
ghost use Rattle.std.specs.Prelude.{◌≡◌, ◌≢◌, ◌∷◌, [], IfOk};
ghost use Rattle.forms.specs.Readers.{and_then, did, read_both, read_one, read_or, read_nothing, read_many};
ghost use Rattle.forms.specs.Lists.{second, itself};
ghost use Rattle.token_class.specs.Sets.{of};
ghost use Rattle.decl_grammar.specs.Words as words;
ghost use Rattle.decl_grammar.specs.Nodes as node;
ghost use Rattle.decl_grammar.specs.Reading as spec;
ghost use Rattle.token_input.specs.Reads.{Reads};
ghost use Rattle.pyx_stmt.specs.Assigned.{assigned};

use crate::exprs::{expr, expr_list};
use crate::sets::StmtSet;
use cy_tree::{AugOp, Expr, Simple};
use sqlite_items::Items;
use std::alloc::{AllocError, Global};
use token_class::TokenClass;
use token_input::{Halt, Input, Taken};

fn aug_op(class: TokenClass) -> AugOp
    ensures { result ≡ node.aug_of class }
{
    match class {
        TokenClass::PlusAssign => AugOp::Add,
        TokenClass::MinusAssign => AugOp::Subtract,
        TokenClass::StarAssign => AugOp::Multiply,
        TokenClass::SlashAssign => AugOp::Divide,
        TokenClass::FloorDivideAssign => AugOp::FloorDivide,
        TokenClass::PercentAssign => AugOp::Remainder,
        TokenClass::ShiftLeftAssign => AugOp::LeftShift,
        TokenClass::ShiftRightAssign => AugOp::RightShift,
        TokenClass::AmpersandAssign => AugOp::BitAnd,
        TokenClass::BarAssign => AugOp::BitOr,
        _ => AugOp::BitXor,
    }
}

#[tactic(auto, unfolding(forms::specs::Readers::read_both))]
fn augmented(
    alloc: Global,
    input: &mut Input<'_>,
    room: usize,
    target: Expr,
) -> Result<Simple, Halt>
    ensures { Reads (and_then (read_both node.augmented_node (read_one (of words.is_augop) itself) (spec.read_expr room) input.old) (λ f r. did (f target) r)) result input.new }
{
    let Taken { token, class } = input.expect(StmtSet::Augop)?;
    let (op, at) = (aug_op(class), token.span.start);
    let value = expr(alloc, input, room)?;
    Ok(Simple::Augmented(target, op, at, value))
}

#[tactic(auto, unfolding(decl_grammar::specs::Reading::read_assigned, forms::specs::Readers::read_both))]
fn next_assigned(alloc: Global, input: &mut Input<'_>, room: usize) -> Result<Expr, Halt>
    ensures { Reads (spec.read_assigned room input.old) result input.new }
{
    input.expect(StmtSet::Assign)?;
    expr_list(alloc, input, room)
}

// The value that was read last is a target where a further one stands behind it.
fn more_assigned(
    alloc: Global,
    input: &mut Input<'_>,
    room: usize,
    mut targets: Items<Expr>,
    mut value: Expr,
) -> Result<Simple, Halt>
    ensures { Reads (and_then (read_many (of words.is_assign) (spec.read_assigned room) input.old) (λ more r. did (assigned targets value more) r)) result input.new }
{
    for _turn in 0..input.len() {
        if !input.sees(StmtSet::Assign) {
            return Ok(Simple::Assign(targets, value));
        }
        targets.push(value)?;
        value = next_assigned(alloc, input, room)?;
    }
    Ok(Simple::Assign(targets, value))
}

fn one_target(alloc: Global, target: Expr) -> Result<Items<Expr>, AllocError>
    ensures { IfOk result (λ targets. targets ≡ target ∷ []) }
{
    let mut targets = Items::new(alloc);
    targets.push(target)?;
    Ok(targets)
}

#[tactic(auto, unfolding(forms::specs::Readers::read_both))]
fn assignment(
    alloc: Global,
    input: &mut Input<'_>,
    room: usize,
    target: Expr,
) -> Result<Simple, Halt>
    ensures { Reads (and_then (read_both node.assign_node (spec.read_assigned room) (read_many (of words.is_assign) (spec.read_assigned room)) input.old) (λ f r. did (f target) r)) result input.new }
{
    let targets = one_target(alloc, target)?;
    let value = next_assigned(alloc, input, room)?;
    more_assigned(alloc, input, room, targets, value)
}

#[tactic(auto, unfolding(decl_grammar::specs::Reading::read_change, forms::specs::Readers::read_or))]
fn change(alloc: Global, input: &mut Input<'_>, room: usize, target: Expr) -> Result<Simple, Halt>
    ensures { Reads (and_then (spec.read_change room input.old) (λ f r. did (f target) r)) result input.new }
{
    if input.sees(StmtSet::Augop) {
        return augmented(alloc, input, room, target);
    }
    assignment(alloc, input, room, target)
}

/// Reads an expression by itself, or with what is assigned to it.
#[tactic(auto, unfolding(decl_grammar::specs::Reading::read_expression_stmt, forms::specs::Readers::read_both, forms::specs::Readers::read_or, forms::specs::Readers::read_nothing))]
pub(crate) fn expression_stmt(
    alloc: Global,
    input: &mut Input<'_>,
    room: usize,
) -> Result<Simple, Halt>
    ensures { Reads (spec.read_expression_stmt room input.old) result input.new }
{
    let target = expr_list(alloc, input, room)?;
    if !input.sees(StmtSet::BeginsChange) {
        return Ok(Simple::Expression(target));
    }
    change(alloc, input, room, target)
}
