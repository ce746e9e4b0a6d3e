//! Functions with the tables of their lines.
ghost use Rattle.std.specs.Prelude.{◌≡◌, ◌+◌, Some, None, IfOk, MatchOption, drop, is_some, slice_get};
ghost use Rattle.c_frame.specs.Lines.{NoStatement, after_label, label_line, next_line};

use crate::jumps::{label_table, statement_table};
use c_tree::{CFunction, CStmt, Line};
use cy_base::OutOfMemory;
use sqlite_items::at;
use std::alloc::Global;
use std::collections::HashMap;
use std::marker::Model;
use std::rc::Rc;

/// A function, where the labels and statements of its lines stand. Contracts see the function.
#[derive(Drop)]
struct Tabled {
    function: CFunction,
    // The line after each label.
    labels: HashMap<u32, usize>,
    // For each line the first statement from it on.
    statements: Vec<usize>,
}

impl Model for Tabled {
    ghost use Rattle.std.specs.Prelude.{◌≡◌};
    ghost use Rattle.c_tree.specs.declared.item.CFunction.{CFunction};
    ghost use Rattle.c_frame.specs.Lines.{statements_from};
    ghost use Rattle.c_frame.specs.Tables.{AreLabels};

    ghost Value = { CFunction };

    ghost view = { λ it. it.function };

    ghost invariant = { λ it. AreLabels it.function.lines it.labels × (it.statements.items ≡ statements_from 0 it.function.lines) };
}

/// The next statement of a function, and the number of the line after it.
#[derive(Clone, Copy)]
pub struct Following<'a> {
    pub statement: &'a CStmt,
    pub after: usize,
}

// The statement of a line, and the number of the next line.
fn statement_at(lines: &[Line], here: usize) -> Option<Following<'_>>
    ensures { MatchOption result (NoStatement (slice_get lines.entry.now here))
        (λ next. (slice_get lines.entry.now here ≡ Some (Line.Statement next.statement.now)) × (next.after ≡ here + 1)) }
{
    match at(lines, here) {
        Some(Line::Statement(statement)) => Some(Following {
            statement,
            after: here + 1,
        }),
        Some(Line::Label(_)) => None,
        None => None,
    }
}

impl Tabled {
    fn new(alloc: Global, function: CFunction) -> Result<Tabled, OutOfMemory>
        ensures { IfOk result (λ it. it ≡ function) }
    {
        let labels = label_table(alloc, function.lines.as_slice())?;
        let statements = statement_table(alloc, function.lines.as_slice())?;
        Ok(Tabled {
            function,
            labels,
            statements,
        })
    }

    fn function(&self) -> &CFunction
        ensures { result.now ≡ self.now }
    {
        &self.function
    }

    // The number of the line after a label.
    fn label(&self, label: u32) -> Option<usize>
        ensures { result ≡ label_line self.now.lines label }
    {
        self.labels.get(&label).copied()
    }

    // The first statement from a line on.
    fn statement(&self, from: usize) -> Option<Following<'_>>
        ensures { MatchOption result (next_line (drop from self.entry.now.lines) ≡ None)
            (λ next. next_line (drop from self.entry.now.lines) ≡ Some (record { statement = next.statement.now; rest = drop next.after self.entry.now.lines })) }
    {
        match at(self.statements.as_slice(), from) {
            None => None,
            Some(here) => statement_at(self.function.lines.as_slice(), *here),
        }
    }
}

/// A function with the tables of its lines, which frames share. Contracts see the function.
#[derive(Drop)]
pub struct LinkedFunction {
    shared: Rc<Tabled>,
}

impl Model for LinkedFunction {
    ghost use Rattle.c_tree.specs.declared.item.CFunction.{CFunction};

    ghost Value = { CFunction };

    ghost view = { λ it. it.shared.value };
}

impl LinkedFunction {
    /// A function with its tables, or memory is wanting.
    pub fn new(alloc: Global, function: CFunction) -> Result<LinkedFunction, OutOfMemory>
        ensures { IfOk result (λ it. it ≡ function) }
    {
        Ok(LinkedFunction {
            shared: Rc::new(alloc, Tabled::new(alloc, function)?)?,
        })
    }

    /// The function as it is written.
    pub fn function(&self) -> &CFunction
        ensures { result.now ≡ self.now }
    {
        self.shared.function()
    }

    /// Another owner of the same, or memory is wanting.
    pub fn share(&self) -> Result<LinkedFunction, OutOfMemory>
        ensures { IfOk result (λ it. it ≡ self.now) }
    {
        Ok(LinkedFunction {
            shared: self.shared.clone()?,
        })
    }

    /// Whether a label stands among the lines (ISO/IEC 9899:2011 6.8.6.1).
    pub fn has_label(&self, label: u32) -> bool
        ensures { result ≡ is_some (after_label self.now.lines label) }
    {
        self.label(label).is_some()
    }

    /// The number of the line after a label.
    pub(crate) fn label(&self, label: u32) -> Option<usize>
        ensures { result ≡ label_line self.now.lines label }
    {
        self.shared.label(label)
    }

    /// The first statement from a line on.
    pub(crate) fn statement(&self, from: usize) -> Option<Following<'_>>
        ensures { MatchOption result (next_line (drop from self.entry.now.lines) ≡ None)
            (λ next. next_line (drop from self.entry.now.lines) ≡ Some (record { statement = next.statement.now; rest = drop next.after self.entry.now.lines })) }
    {
        self.shared.statement(from)
    }
}
