//! The nodes of the trees: what each production makes of its parts. With one operand a level is that operand.
ghost use Rattle.std.specs.Prelude.{◌≡◌, ◌++◌, IfOk};
ghost use Rattle.expr_grammar.specs.Nodes as node;

use cy_base::{OutOfMemory, Text};
use cy_tree::{
    Expr, Operand, Part, ShiftOp, ShiftOperand, SumOp, SumOperand, TermOp, TermOperand, UnaryOp,
};
use sqlite_items::{Boxed, Items};
use std::alloc::{AllocError, Global};
use token_class::TokenClass;

pub(crate) fn term_node(
    alloc: Global,
    at: u32,
    first: Expr,
    more: Items<TermOperand>,
) -> Result<Expr, AllocError>
    ensures { IfOk result (λ e. e ≡ node.term_node at (first, more)) }
{
    if more.is_empty() {
        return Ok(first);
    }
    Ok(Expr::Term(at, Boxed::new(alloc, first)?, more))
}

pub(crate) fn sum_node(
    alloc: Global,
    at: u32,
    first: Expr,
    more: Items<SumOperand>,
) -> Result<Expr, AllocError>
    ensures { IfOk result (λ e. e ≡ node.sum_node at (first, more)) }
{
    if more.is_empty() {
        return Ok(first);
    }
    Ok(Expr::Sum(at, Boxed::new(alloc, first)?, more))
}

pub(crate) fn shift_node(
    alloc: Global,
    at: u32,
    first: Expr,
    more: Items<ShiftOperand>,
) -> Result<Expr, AllocError>
    ensures { IfOk result (λ e. e ≡ node.shift_node at (first, more)) }
{
    if more.is_empty() {
        return Ok(first);
    }
    Ok(Expr::Shift(at, Boxed::new(alloc, first)?, more))
}

pub(crate) fn bit_and_node(
    alloc: Global,
    at: u32,
    first: Expr,
    more: Items<Operand>,
) -> Result<Expr, AllocError>
    ensures { IfOk result (λ e. e ≡ node.bit_and_node at (first, more)) }
{
    if more.is_empty() {
        return Ok(first);
    }
    Ok(Expr::BitAnd(at, Boxed::new(alloc, first)?, more))
}

pub(crate) fn bit_xor_node(
    alloc: Global,
    at: u32,
    first: Expr,
    more: Items<Operand>,
) -> Result<Expr, AllocError>
    ensures { IfOk result (λ e. e ≡ node.bit_xor_node at (first, more)) }
{
    if more.is_empty() {
        return Ok(first);
    }
    Ok(Expr::BitXor(at, Boxed::new(alloc, first)?, more))
}

pub(crate) fn bit_or_node(
    alloc: Global,
    at: u32,
    first: Expr,
    more: Items<Operand>,
) -> Result<Expr, AllocError>
    ensures { IfOk result (λ e. e ≡ node.bit_or_node at (first, more)) }
{
    if more.is_empty() {
        return Ok(first);
    }
    Ok(Expr::BitOr(at, Boxed::new(alloc, first)?, more))
}

pub(crate) fn conjunction_node(
    alloc: Global,
    at: u32,
    first: Expr,
    more: Items<Expr>,
) -> Result<Expr, AllocError>
    ensures { IfOk result (λ e. e ≡ node.and_node at (first, more)) }
{
    if more.is_empty() {
        return Ok(first);
    }
    let mut all = Items::new(alloc);
    all.push(first)?;
    all.append(more)?;
    Ok(Expr::And(at, all))
}

pub(crate) fn disjunction_node(
    alloc: Global,
    at: u32,
    first: Expr,
    more: Items<Expr>,
) -> Result<Expr, AllocError>
    ensures { IfOk result (λ e. e ≡ node.or_node at (first, more)) }
{
    if more.is_empty() {
        return Ok(first);
    }
    let mut all = Items::new(alloc);
    all.push(first)?;
    all.append(more)?;
    Ok(Expr::Or(at, all))
}

pub(crate) fn prefix_op(class: TokenClass) -> UnaryOp
    ensures { result ≡ node.prefix_of class }
{
    match class {
        TokenClass::Minus => UnaryOp::Negate,
        TokenClass::Plus => UnaryOp::Plus,
        _ => UnaryOp::Invert,
    }
}

pub(crate) fn term_op(class: TokenClass) -> TermOp
    ensures { result ≡ node.term_of class }
{
    match class {
        TokenClass::Star => TermOp::Multiply,
        TokenClass::Slash => TermOp::Divide,
        TokenClass::FloorDivide => TermOp::FloorDivide,
        _ => TermOp::Remainder,
    }
}

pub(crate) fn sum_op(class: TokenClass) -> SumOp
    ensures { result ≡ node.sum_of class }
{
    match class {
        TokenClass::Plus => SumOp::Add,
        _ => SumOp::Subtract,
    }
}

pub(crate) fn shift_op(class: TokenClass) -> ShiftOp
    ensures { result ≡ node.shift_of class }
{
    match class {
        TokenClass::ShiftLeft => ShiftOp::Left,
        _ => ShiftOp::Right,
    }
}

pub(crate) fn conditional(
    alloc: Global,
    at: u32,
    value: Expr,
    test: Expr,
    other: Expr,
) -> Result<Expr, AllocError>
    ensures { IfOk result (λ e. e ≡ Expr.Conditional at value test other) }
{
    let value = Boxed::new(alloc, value)?;
    let test = Boxed::new(alloc, test)?;
    Ok(Expr::Conditional(at, value, test, Boxed::new(alloc, other)?))
}

pub(crate) fn postfix_node(
    alloc: Global,
    at: u32,
    first: Expr,
    more: Items<Part>,
) -> Result<Expr, AllocError>
    ensures { IfOk result (λ e. e ≡ node.postfix_node at (first, more)) }
{
    if more.is_empty() {
        return Ok(first);
    }
    Ok(Expr::Postfix(at, Boxed::new(alloc, first)?, more))
}

// One expression in brackets, with no comma behind it, is that expression.
pub(crate) fn group_node(at: u32, mut all: Items<Expr>, comma: bool) -> Expr
    ensures { result ≡ node.group_node at (all, comma) }
{
    if all.len() == 1 && !comma {
        all.remove(0)
    } else {
        Expr::Tuple(at, all)
    }
}

pub(crate) fn joined_text(
    alloc: Global,
    first: Text,
    more: Items<Text>,
) -> Result<Text, OutOfMemory>
    ensures { IfOk result (λ text. text ≡ first ++ node.joined more) }
{
    let mut all = String::from_str(alloc, first.as_str())?;
    for text in more.as_slice() {
        all.push_str(text.as_str())?;
    }
    Ok(Text::from_string(all))
}
