//! An item with the tables of its lines.
ghost use Rattle.std.specs.Prelude.{◌≡◌, ◌+◌, Some, IfOk, MatchOption, drop, slice_get};
ghost use Rattle.thin_tables.specs.Lines.{Lines, NoLine, NoStatement, label_line, lines_of, next_line};

use crate::jumps::{label_table, statement_table};
use cy_base::OutOfMemory;
use sqlite_items::at;
use std::alloc::Global;
use std::collections::HashMap;
use std::marker::Model;
use thin_state::{CItem, CStmt, Line};

/// An item of a file. Contracts see the item.
#[derive(Drop)]
pub struct LinkedItem {
    item: CItem,
    // The line after each label.
    labels: HashMap<u32, usize>,
    // For each line the first statement from it on.
    statements: Vec<usize>,
}

impl Model for LinkedItem {
    ghost use Rattle.std.specs.Prelude.{◌≡◌};
    ghost use Rattle.thin_state.specs.declared.tree.CItem.{CItem};
    ghost use Rattle.thin_tables.specs.Lines.{lines_of, statements_from};
    ghost use Rattle.thin_tables.specs.Tables.{AreLabels};

    ghost Value = { CItem };

    ghost view = { λ it. it.item };

    ghost invariant = { λ it. AreLabels (lines_of it.item) it.labels × (it.statements.items ≡ statements_from 0 (lines_of it.item)) };
}

/// The next statement of a body, and the number of the line after it.
#[derive(Clone, Copy)]
pub struct Following<'a> {
    pub statement: &'a CStmt,
    pub after: usize,
}

fn lines_of(item: &CItem) -> &[Line]
    ensures { result.now ≡ lines_of item.now }
{
    match item {
        CItem::Function(function) => function.lines.as_slice(),
        _ => &[],
    }
}

// The statement of a line, and the number of the next line.
fn statement_at(lines: &[Line], here: usize) -> Option<Following<'_>>
    ensures { MatchOption result (NoStatement (slice_get lines.entry.now here))
        (λ next. (slice_get lines.entry.now here ≡ Some (Line.Statement next.statement.now)) × (next.after ≡ here + 1)) }
{
    match at(lines, here) {
        Some(Line::Statement(statement)) => Some(Following {
            statement,
            after: here + 1,
        }),
        Some(Line::Label(_)) => None,
        None => None,
    }
}

impl LinkedItem {
    pub fn new(alloc: Global, item: CItem) -> Result<LinkedItem, OutOfMemory>
        ensures { IfOk result (λ linked. linked ≡ item) }
    {
        let labels = label_table(alloc, lines_of(&item))?;
        let statements = statement_table(alloc, lines_of(&item))?;
        Ok(LinkedItem {
            item,
            labels,
            statements,
        })
    }

    pub fn item(&self) -> &CItem
        ensures { result.now ≡ self.now }
    {
        &self.item
    }

    /// The number of the line after a label.
    pub fn label(&self, label: u32) -> Option<usize>
        ensures { result ≡ label_line (lines_of self.now) label }
    {
        self.labels.get(&label).copied()
    }

    /// The first statement from a line on.
    pub fn statement(&self, from: usize) -> Option<Following<'_>>
        ensures { MatchOption result (next_line (drop from (lines_of self.entry.now)) ≡ NoLine)
            (λ next. next_line (drop from (lines_of self.entry.now)) ≡ Lines next.statement.now (drop next.after (lines_of self.entry.now))) }
    {
        match at(self.statements.as_slice(), from) {
            None => None,
            Some(here) => statement_at(lines_of(&self.item), *here),
        }
    }
}
