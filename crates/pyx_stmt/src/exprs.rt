//! Expressions with commas between, and values behind `=`.
ghost use Rattle.std.specs.Prelude.{◌≡◌, ◌≢◌, ◌∷◌, [], IfOk};
ghost use Rattle.forms.specs.Readers.{read_both, read_one, read_many};
ghost use Rattle.forms.specs.Lists.{push, second, itself, read_trail};
ghost use Rattle.token_class.specs.Sets.{of};
ghost use Rattle.expr_grammar.specs.Words as set;
ghost use Rattle.expr_grammar.specs.Nodes as expr_node;
ghost use Rattle.expr_grammar.specs.Reading as expr_spec;
ghost use Rattle.decl_grammar.specs.Words as words;
ghost use Rattle.decl_grammar.specs.Nodes as node;
ghost use Rattle.decl_grammar.specs.Reading as spec;
ghost use Rattle.token_input.specs.Reads.{Reads};

use crate::sets::StmtSet;
use cy_tree::{Declared, Expr, Ident};
use expr_grammar::Level;
use pyx_parse::read;
use sqlite_items::Items;
use std::alloc::{AllocError, Global};
use token_input::{ExprSet, Halt, Input, joined};

/// Reads an expression, where so many things may be opened.
pub fn expr(alloc: Global, input: &mut Input<'_>, room: usize) -> Result<Expr, Halt>
    ensures { Reads (spec.read_expr room input.old) result input.new }
{
    read(alloc, input, room, Level::Expr)
}

/// Reads an atom and what stands behind it, where so many things may be opened.
pub fn target(alloc: Global, input: &mut Input<'_>, room: usize) -> Result<Expr, Halt>
    ensures { Reads (spec.read_target room input.old) result input.new }
{
    read(alloc, input, room, Level::Postfix)
}

// ---- expr {',' expr} [',']

fn more_exprs(
    alloc: Global,
    input: &mut Input<'_>,
    room: usize,
) -> Result<(Items<Expr>, bool), Halt>
    ensures { Reads (read_trail (of set.is_comma) (of set.begins_expr) (spec.read_expr room) input.old) result input.new }
{
    let mut found = Items::new(alloc);
    for _turn in 0..input.len() {
        if !input.flag(ExprSet::Comma) {
            return Ok((found, false));
        }
        if !input.sees(ExprSet::BeginsExpr) {
            return Ok((found, true));
        }
        let next = expr(alloc, input, room)?;
        found.push(next)?;
    }
    Ok((found, false))
}

fn row_node(
    alloc: Global,
    at: u32,
    first: Expr,
    more: Items<Expr>,
    comma: bool,
) -> Result<Expr, AllocError>
    ensures { IfOk result (λ e. e ≡ expr_node.group_node at (first ∷ more, comma)) }
{
    if more.is_empty() && !comma {
        return Ok(first);
    }
    Ok(Expr::Tuple(at, joined(alloc, first, more)?))
}

/// Reads expressions with commas between: a tuple where there is a comma.
#[tactic(auto, unfolding(decl_grammar::specs::Reading::read_exprs, forms::specs::Readers::read_both, forms::specs::Readers::read_placed))]
pub fn expr_list(alloc: Global, input: &mut Input<'_>, room: usize) -> Result<Expr, Halt>
    ensures { Reads (spec.read_exprs room input.old) result input.new }
{
    let at = input.at();
    let first = expr(alloc, input, room)?;
    let (more, comma) = more_exprs(alloc, input, room)?;
    Ok(row_node(alloc, at, first, more, comma)?)
}

// ---- ['=' expr] {',' NAME ['=' expr]}

#[tactic(auto, unfolding(decl_grammar::specs::Reading::read_value, forms::specs::Readers::read_both))]
fn value(alloc: Global, input: &mut Input<'_>, room: usize) -> Result<Expr, Halt>
    ensures { Reads (spec.read_value room input.old) result input.new }
{
    input.expect(StmtSet::Assign)?;
    expr(alloc, input, room)
}

/// Reads `= value`, if it stands there.
#[tactic(auto, unfolding(forms::specs::Readers::read_both, forms::specs::Readers::read_or, forms::specs::Readers::read_nothing))]
pub fn value_if_any(alloc: Global, input: &mut Input<'_>, room: usize) -> Result<Option<Expr>, Halt>
    ensures { Reads (expr_spec.read_opt words.is_assign (spec.read_value room) input.old) result input.new }
{
    if !input.sees(StmtSet::Assign) {
        return Ok(None);
    }
    let value = value(alloc, input, room)?;
    Ok(Some(value))
}

#[tactic(auto, unfolding(forms::specs::Readers::read_both))]
fn name_and_value(alloc: Global, input: &mut Input<'_>, room: usize) -> Result<Declared, Halt>
    ensures { Reads (read_both node.declared_node spec.read_name (expr_spec.read_opt words.is_assign (spec.read_value room)) input.old) result input.new }
{
    let name = input.ident(alloc, ExprSet::Name)?;
    let value = value_if_any(alloc, input, room)?;
    Ok(Declared { name, value })
}

#[tactic(auto, unfolding(decl_grammar::specs::Reading::read_declared, forms::specs::Readers::read_both))]
fn next_declared(alloc: Global, input: &mut Input<'_>, room: usize) -> Result<Declared, Halt>
    ensures { Reads (spec.read_declared room input.old) result input.new }
{
    input.expect(ExprSet::Comma)?;
    name_and_value(alloc, input, room)
}

fn more_declared(alloc: Global, input: &mut Input<'_>, room: usize) -> Result<Items<Declared>, Halt>
    ensures { Reads (read_many (of set.is_comma) (spec.read_declared room) input.old) result input.new }
{
    let mut found = Items::new(alloc);
    for _turn in 0..input.len() {
        if !input.sees(ExprSet::Comma) {
            return Ok(found);
        }
        let item = next_declared(alloc, input, room)?;
        found.push(item)?;
    }
    Ok(found)
}

/// Reads the value of a declared name, and the names behind it with theirs.
#[tactic(auto, unfolding(decl_grammar::specs::Reading::read_values, forms::specs::Readers::read_both))]
pub fn values(
    alloc: Global,
    input: &mut Input<'_>,
    room: usize,
) -> Result<(Option<Expr>, Items<Declared>), Halt>
    ensures { Reads (spec.read_values room input.old) result input.new }
{
    let value = value_if_any(alloc, input, room)?;
    let more = more_declared(alloc, input, room)?;
    Ok((value, more))
}

/// All names of a declaration.
pub fn all_declared(
    alloc: Global,
    name: Ident,
    value: Option<Expr>,
    more: Items<Declared>,
) -> Result<Items<Declared>, AllocError>
    ensures { IfOk result (λ all. all ≡ node.all_declared name (value, more)) }
{
    joined(alloc, Declared { name, value }, more)
}
