//! The lines that are left to a frame.
ghost use Rattle.std.specs.Prelude.{◌≡◌, IfOk, OnErr, OnOk, unwrap_or};
ghost use Rattle.std.specs.Option.{option_copied};
ghost use Rattle.c_frame.specs.Lines.{after_label, next_line, rest_or, statement_of};

use crate::function::LinkedFunction;
use c_tree::CStmt;
use cy_base::OutOfMemory;
use std::marker::Model;

/// The lines of a function from one on. Contracts see the lines.
#[derive(Drop)]
pub struct Code {
    function: LinkedFunction,
    from: usize,
}

impl Model for Code {
    ghost use Rattle.std.specs.Prelude.{List, drop};
    ghost use Rattle.c_tree.specs.declared.item.Line.{Line};

    ghost Value = { List Line };

    ghost view = { λ it. drop it.from it.function.lines };
}

impl Code {
    /// All lines of a function.
    pub fn of(function: LinkedFunction) -> Code
        ensures { result ≡ function.lines }
    {
        Code { function, from: 0 }
    }

    /// The lines of a function behind a label, if it has the label (ISO/IEC 9899:2011 6.8.6.1), or memory is wanting.
    pub fn behind(function: &LinkedFunction, label: u32) -> Result<Option<Code>, OutOfMemory>
        ensures { IfOk result (λ code. code ≡ after_label function.now.lines label) }
    {
        match function.label(label) {
            None => Ok(None),
            Some(from) => Ok(Some(Code {
                function: function.share()?,
                from,
            })),
        }
    }

    /// The next statement after any labels.
    pub fn statement(&self) -> Option<&CStmt>
        ensures { option_copied result ≡ statement_of (next_line self.entry.now) }
    {
        match self.function.statement(self.from) {
            None => None,
            Some(next) => Some(next.statement),
        }
    }

    /// Goes on to the lines behind the next statement. Where there is none, nothing changes.
    pub fn advance(&mut self)
        ensures { self.new ≡ rest_or (next_line self.old) self.old }
    {
        if let Some(next) = self.function.statement(self.from) {
            self.from = next.after;
        }
    }
}
