//! Simple statements that begin with a word.
ghost use Rattle.std.specs.Prelude.{◌≡◌, ◌≢◌, ◌∷◌, [], IfOk};
ghost use Rattle.forms.specs.Readers.{read_both, read_one, read_or, read_many};
ghost use Rattle.forms.specs.Lists.{pair, second, itself};
ghost use Rattle.token_class.specs.Sets.{of};
ghost use Rattle.expr_grammar.specs.Words as set;
ghost use Rattle.expr_grammar.specs.Nodes as expr_node;
ghost use Rattle.expr_grammar.specs.Reading as expr_spec;
ghost use Rattle.decl_grammar.specs.Words as words;
ghost use Rattle.decl_grammar.specs.Nodes as node;
ghost use Rattle.decl_grammar.specs.Reading as spec;
ghost use Rattle.token_input.specs.Reads.{Reads};

use crate::exprs::{all_declared, expr, expr_list, values};
use crate::names::{import_items, name_list, typed_name};
use crate::sets::StmtSet;
use cy_tree::{Expr, Ident, ImportItem, Simple};
use sqlite_items::Items;
use std::alloc::Global;
use token_input::{ExprSet, Halt, Input, joined};

// ---- those that begin with a word

#[tactic(auto, unfolding(forms::specs::Readers::read_one))]
fn pass_stmt(input: &mut Input<'_>) -> Result<Simple, Halt>
    ensures { Reads (read_one (of words.is_pass) node.pass_node input.old) result input.new }
{
    let taken = input.expect(StmtSet::Pass)?;
    Ok(Simple::Pass(taken.token.span.start))
}

#[tactic(auto, unfolding(forms::specs::Readers::read_one))]
fn break_stmt(input: &mut Input<'_>) -> Result<Simple, Halt>
    ensures { Reads (read_one (of words.is_break) node.break_node input.old) result input.new }
{
    let taken = input.expect(StmtSet::Break)?;
    Ok(Simple::Break(taken.token.span.start))
}

#[tactic(auto, unfolding(forms::specs::Readers::read_one))]
fn continue_stmt(input: &mut Input<'_>) -> Result<Simple, Halt>
    ensures { Reads (read_one (of words.is_continue) node.continue_node input.old) result input.new }
{
    let taken = input.expect(StmtSet::Continue)?;
    Ok(Simple::Continue(taken.token.span.start))
}

#[tactic(auto, unfolding(forms::specs::Readers::read_both, forms::specs::Readers::read_or, forms::specs::Readers::read_nothing))]
fn exprs_if_any(alloc: Global, input: &mut Input<'_>, room: usize) -> Result<Option<Expr>, Halt>
    ensures { Reads (expr_spec.read_opt set.begins_expr (spec.read_exprs room) input.old) result input.new }
{
    if !input.sees(ExprSet::BeginsExpr) {
        return Ok(None);
    }
    let value = expr_list(alloc, input, room)?;
    Ok(Some(value))
}

#[tactic(auto, unfolding(forms::specs::Readers::read_both, forms::specs::Readers::read_or, forms::specs::Readers::read_nothing))]
fn expr_if_any(alloc: Global, input: &mut Input<'_>, room: usize) -> Result<Option<Expr>, Halt>
    ensures { Reads (expr_spec.read_opt set.begins_expr (spec.read_expr room) input.old) result input.new }
{
    if !input.sees(ExprSet::BeginsExpr) {
        return Ok(None);
    }
    let value = expr(alloc, input, room)?;
    Ok(Some(value))
}

#[tactic(auto, unfolding(decl_grammar::specs::Reading::read_return, forms::specs::Readers::read_both))]
fn return_stmt(alloc: Global, input: &mut Input<'_>, room: usize) -> Result<Simple, Halt>
    ensures { Reads (spec.read_return room input.old) result input.new }
{
    let at = input.expect(StmtSet::Return)?.token.span.start;
    let value = exprs_if_any(alloc, input, room)?;
    Ok(Simple::ReturnNode(at, value))
}

#[tactic(auto, unfolding(decl_grammar::specs::Reading::read_raise, forms::specs::Readers::read_both))]
fn raise_stmt(alloc: Global, input: &mut Input<'_>, room: usize) -> Result<Simple, Halt>
    ensures { Reads (spec.read_raise room input.old) result input.new }
{
    let at = input.expect(StmtSet::Raise)?.token.span.start;
    let value = expr_if_any(alloc, input, room)?;
    Ok(Simple::Raise(at, value))
}

#[tactic(auto, unfolding(forms::specs::Readers::read_both))]
fn next_target(alloc: Global, input: &mut Input<'_>, room: usize) -> Result<Expr, Halt>
    ensures { Reads (read_both second (read_one (of set.is_comma) itself) (spec.read_expr room) input.old) result input.new }
{
    input.expect(ExprSet::Comma)?;
    expr(alloc, input, room)
}

fn more_targets(alloc: Global, input: &mut Input<'_>, room: usize) -> Result<Items<Expr>, Halt>
    ensures { Reads (read_many (of set.is_comma) (read_both second (read_one (of set.is_comma) itself) (spec.read_expr room)) input.old) result input.new }
{
    let mut found = Items::new(alloc);
    for _turn in 0..input.len() {
        if !input.sees(ExprSet::Comma) {
            return Ok(found);
        }
        let item = next_target(alloc, input, room)?;
        found.push(item)?;
    }
    Ok(found)
}

#[tactic(auto, unfolding(forms::specs::Readers::read_both))]
fn targets(alloc: Global, input: &mut Input<'_>, room: usize) -> Result<Items<Expr>, Halt>
    ensures { Reads (read_both expr_node.cons (spec.read_expr room) (read_many (of set.is_comma) (read_both second (read_one (of set.is_comma) itself) (spec.read_expr room))) input.old) result input.new }
{
    let first = expr(alloc, input, room)?;
    let more = more_targets(alloc, input, room)?;
    Ok(joined(alloc, first, more)?)
}

#[tactic(auto, unfolding(decl_grammar::specs::Reading::read_del, forms::specs::Readers::read_both))]
fn del_stmt(alloc: Global, input: &mut Input<'_>, room: usize) -> Result<Simple, Halt>
    ensures { Reads (spec.read_del room input.old) result input.new }
{
    let at = input.expect(StmtSet::Del)?.token.span.start;
    let targets = targets(alloc, input, room)?;
    Ok(Simple::Del(at, targets))
}

#[tactic(auto, unfolding(decl_grammar::specs::Reading::read_global, forms::specs::Readers::read_both))]
fn global_stmt(alloc: Global, input: &mut Input<'_>, room: usize) -> Result<Simple, Halt>
    ensures { Reads (spec.read_global room input.old) result input.new }
{
    let at = input.expect(StmtSet::Global)?.token.span.start;
    let names = name_list(alloc, input)?;
    Ok(Simple::Global(at, names))
}

#[tactic(auto, unfolding(decl_grammar::specs::Reading::read_import, forms::specs::Readers::read_both))]
fn import_stmt(alloc: Global, input: &mut Input<'_>, room: usize) -> Result<Simple, Halt>
    ensures { Reads (spec.read_import room input.old) result input.new }
{
    let at = input.expect(StmtSet::Import)?.token.span.start;
    let items = import_items(alloc, input)?;
    Ok(Simple::Import(at, items))
}

#[tactic(auto, unfolding(decl_grammar::specs::Reading::read_word_stmt, forms::specs::Readers::read_or))]
fn later_word(alloc: Global, input: &mut Input<'_>, room: usize) -> Result<Simple, Halt>
    ensures { Reads (read_or (of words.is_raise) (spec.read_raise room) (read_or (of words.is_del) (spec.read_del room) (read_or (of words.is_global) (spec.read_global room) (spec.read_import room))) input.old) result input.new }
{
    if input.sees(StmtSet::Raise) {
        return raise_stmt(alloc, input, room);
    }
    if input.sees(StmtSet::Del) {
        return del_stmt(alloc, input, room);
    }
    if input.sees(StmtSet::Global) {
        return global_stmt(alloc, input, room);
    }
    import_stmt(alloc, input, room)
}

/// Reads a simple statement that begins with a word, but `from` and `cdef`.
#[tactic(auto, unfolding(decl_grammar::specs::Reading::read_word_stmt, forms::specs::Readers::read_or))]
pub(crate) fn word_stmt(alloc: Global, input: &mut Input<'_>, room: usize) -> Result<Simple, Halt>
    ensures { Reads (spec.read_word_stmt room input.old) result input.new }
{
    if input.sees(StmtSet::Pass) {
        return pass_stmt(input);
    }
    if input.sees(StmtSet::Break) {
        return break_stmt(input);
    }
    if input.sees(StmtSet::Continue) {
        return continue_stmt(input);
    }
    if input.sees(StmtSet::Return) {
        return return_stmt(alloc, input, room);
    }
    later_word(alloc, input, room)
}

/// Reads `import` and the names behind it.
#[tactic(auto, unfolding(forms::specs::Readers::read_both))]
pub fn imported(alloc: Global, input: &mut Input<'_>) -> Result<Items<ImportItem>, Halt>
    ensures { Reads (read_both second (read_one (of words.is_import) itself) spec.read_items input.old) result input.new }
{
    input.expect(StmtSet::Import)?;
    import_items(alloc, input)
}

#[tactic(auto, unfolding(forms::specs::Readers::read_both))]
fn import_from(alloc: Global, input: &mut Input<'_>) -> Result<(Ident, Items<ImportItem>), Halt>
    ensures { Reads (read_both pair spec.read_name (read_both second (read_one (of words.is_import) itself) spec.read_items) input.old) result input.new }
{
    let module = input.ident(alloc, ExprSet::Name)?;
    let items = imported(alloc, input)?;
    Ok((module, items))
}

/// Reads `from m import ..`.
#[tactic(auto, unfolding(decl_grammar::specs::Reading::read_from, forms::specs::Readers::read_both))]
pub(crate) fn from_stmt(alloc: Global, input: &mut Input<'_>, room: usize) -> Result<Simple, Halt>
    ensures { Reads (spec.read_from room input.old) result input.new }
{
    let at = input.expect(StmtSet::From)?.token.span.start;
    let (module, items) = import_from(alloc, input)?;
    Ok(Simple::FromImport(at, module, items))
}

/// Reads a `cdef` of variables.
#[tactic(auto, unfolding(decl_grammar::specs::Reading::read_cdef, forms::specs::Readers::read_both))]
pub(crate) fn cdef_stmt(alloc: Global, input: &mut Input<'_>, room: usize) -> Result<Simple, Halt>
    ensures { Reads (spec.read_cdef room input.old) result input.new }
{
    let at = input.expect(StmtSet::Cdef)?.token.span.start;
    let (kind, name) = typed_name(alloc, input, room)?;
    let (value, more) = values(alloc, input, room)?;
    Ok(Simple::Cdef(at, kind, all_declared(alloc, name, value, more)?))
}
