//! Simple statements, and lines of them.
ghost use Rattle.std.specs.Prelude.{◌≡◌, ◌≢◌, ◌∷◌, []};
ghost use Rattle.forms.specs.Readers.{read_both, read_one, read_or};
ghost use Rattle.forms.specs.Lists.{push, itself, read_trail};
ghost use Rattle.token_class.specs.Sets.{of};
ghost use Rattle.decl_grammar.specs.Words as words;
ghost use Rattle.decl_grammar.specs.Nodes as node;
ghost use Rattle.decl_grammar.specs.Reading as spec;
ghost use Rattle.token_input.specs.Reads.{Reads};

use crate::assign::expression_stmt;
use crate::sets::StmtSet;
use crate::simple::{cdef_stmt, from_stmt, word_stmt};
use cy_tree::{Line, Simple};
use sqlite_items::Items;
use std::alloc::Global;
use token_input::{Halt, Input};

#[tactic(auto, unfolding(decl_grammar::specs::Reading::read_simple, forms::specs::Readers::read_or))]
fn simple(alloc: Global, input: &mut Input<'_>, room: usize) -> Result<Simple, Halt>
    ensures { Reads (spec.read_simple room input.old) result input.new }
{
    if input.sees(StmtSet::BeginsWord) {
        return word_stmt(alloc, input, room);
    }
    if input.sees(StmtSet::From) {
        return from_stmt(alloc, input, room);
    }
    if input.sees(StmtSet::Cdef) {
        return cdef_stmt(alloc, input, room);
    }
    expression_stmt(alloc, input, room)
}

fn trailing_simples(
    alloc: Global,
    input: &mut Input<'_>,
    room: usize,
) -> Result<(Items<Simple>, bool), Halt>
    ensures { Reads (read_trail (of words.is_semicolon) (of words.begins_simple) (spec.read_simple room) input.old) result input.new }
{
    let mut found = Items::new(alloc);
    for _turn in 0..input.len() {
        if !input.flag(StmtSet::Semicolon) {
            return Ok((found, false));
        }
        if !input.sees(StmtSet::BeginsSimple) {
            return Ok((found, true));
        }
        let next = simple(alloc, input, room)?;
        found.push(next)?;
    }
    Ok((found, false))
}

/// Reads the further statements of a line, and whether a semicolon stands behind the last.
#[tactic(auto, unfolding(decl_grammar::specs::Reading::read_more_simples))]
pub fn more_simples(
    alloc: Global,
    input: &mut Input<'_>,
    room: usize,
) -> Result<(Items<Simple>, bool), Halt>
    ensures { Reads (spec.read_more_simples room input.old) result input.new }
{
    trailing_simples(alloc, input, room)
}

#[tactic(auto, unfolding(forms::specs::Readers::read_both))]
fn simples(alloc: Global, input: &mut Input<'_>, room: usize) -> Result<(Items<Simple>, bool), Halt>
    ensures { Reads (read_both push (spec.read_simple room) (spec.read_more_simples room) input.old) result input.new }
{
    let first = simple(alloc, input, room)?;
    let mut all = Items::new(alloc);
    all.push(first)?;
    let (more, last) = more_simples(alloc, input, room)?;
    all.append(more)?;
    Ok((all, last))
}

/// Reads simple statements on one line, where so many things may be opened.
#[tactic(auto, unfolding(decl_grammar::specs::Reading::read_line, forms::specs::Readers::read_both))]
pub fn line(alloc: Global, input: &mut Input<'_>, room: usize) -> Result<Line, Halt>
    ensures { Reads (spec.read_line room input.old) result input.new }
{
    let (simples, _last) = simples(alloc, input, room)?;
    input.expect(StmtSet::Newline)?;
    Ok(Line { simples })
}
