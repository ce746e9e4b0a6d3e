//! `try`.
ghost use Rattle.std.specs.Prelude.{◌≡◌, ◌≢◌, ◌∷◌, []};
ghost use Rattle.forms.specs.Readers.{read_both, read_or, read_many};
ghost use Rattle.token_class.specs.Sets.{of};
ghost use Rattle.decl_grammar.specs.Words as words;
ghost use Rattle.decl_grammar.specs.Nodes as node;
ghost use Rattle.decl_grammar.specs.Reading as spec;
ghost use Rattle.token_input.specs.Reads.{Reads};
ghost use Rattle.pyx_suite.specs.Nests.{Nests};

use crate::parts::{caught_if_any, type_and_name};
use crate::suites::Suites;
use cy_tree::{Handler, Stmt, Suite};
use pyx_stmt::StmtSet;
use sqlite_items::{Boxed, Items};
use std::alloc::Global;
use token_input::{Halt, Input, joined};

/// The handlers of a `try`, and the suites of `else` and `finally`.
type Handled = (Items<Handler>, Option<Boxed<Suite>>, Option<Boxed<Suite>>);

impl<F: Fn(Global, &mut Input<'_>, usize) -> Result<Items<Stmt>, Halt>> Suites<F> {
    #[tactic(auto, unfolding(decl_grammar::specs::Reading::read_handler, forms::specs::Readers::read_both))]
    fn handler(&self, input: &mut Input<'_>) -> Result<Handler, Halt>
        requires { Nests self.now.room (F.pre self.now.inner) (F.post self.now.inner) }
        ensures { Reads (spec.read_handler self.now.room (spec.read_inside self.now.room) input.old) result input.new }
    {
        let at = input.expect(StmtSet::Except)?.token.span.start;
        let caught = caught_if_any(self.alloc, input, self.room)?;
        let (kind, name) = type_and_name(caught);
        let body = self.boxed_body(input)?;
        Ok(Handler {
            at,
            kind,
            name,
            body,
        })
    }

    fn more_handlers(&self, input: &mut Input<'_>) -> Result<Items<Handler>, Halt>
        requires { Nests self.now.room (F.pre self.now.inner) (F.post self.now.inner) }
        ensures { Reads (read_many (of words.is_except) (spec.read_handler self.now.room (spec.read_inside self.now.room)) input.old) result input.new }
    {
        let mut found = Items::new(self.alloc);
        for _turn in 0..input.len() {
            if !input.sees(StmtSet::Except) {
                return Ok(found);
            }
            let item = self.handler(input)?;
            found.push(item)?;
        }
        Ok(found)
    }

    #[tactic(auto, unfolding(decl_grammar::specs::Reading::read_handlers, forms::specs::Readers::read_both))]
    fn handlers(&self, input: &mut Input<'_>) -> Result<Handled, Halt>
        requires { Nests self.now.room (F.pre self.now.inner) (F.post self.now.inner) }
        ensures { Reads (spec.read_handlers self.now.room (spec.read_inside self.now.room) input.old) result input.new }
    {
        let first = self.handler(input)?;
        let more = self.more_handlers(input)?;
        let handlers = joined(self.alloc, first, more)?;
        let other = self.else_if_any(input)?;
        let last = self.finally_if_any(input)?;
        Ok((handlers, other, last))
    }

    #[tactic(auto, unfolding(forms::specs::Readers::read_both, forms::specs::Readers::read_nothing))]
    fn unhandled(&self, input: &mut Input<'_>) -> Result<Handled, Halt>
        requires { Nests self.now.room (F.pre self.now.inner) (F.post self.now.inner) }
        ensures { Reads (spec.read_mapped node.unhandled (spec.read_finally self.now.room (spec.read_inside self.now.room)) input.old) result input.new }
    {
        let last = self.finally_part(input)?;
        Ok((Items::new(self.alloc), None, Some(last)))
    }

    #[tactic(auto, unfolding(forms::specs::Readers::read_or))]
    fn behind_try(&self, input: &mut Input<'_>) -> Result<Handled, Halt>
        requires { Nests self.now.room (F.pre self.now.inner) (F.post self.now.inner) }
        ensures { Reads (read_or (of words.is_except) (spec.read_handlers self.now.room (spec.read_inside self.now.room)) (spec.read_mapped node.unhandled (spec.read_finally self.now.room (spec.read_inside self.now.room))) input.old) result input.new }
    {
        if input.sees(StmtSet::Except) {
            return self.handlers(input);
        }
        self.unhandled(input)
    }

    #[tactic(auto, unfolding(decl_grammar::specs::Reading::read_try, forms::specs::Readers::read_both))]
    pub(crate) fn try_stmt(&self, input: &mut Input<'_>) -> Result<Stmt, Halt>
        requires { Nests self.now.room (F.pre self.now.inner) (F.post self.now.inner) }
        ensures { Reads (spec.read_try self.now.room (spec.read_inside self.now.room) input.old) result input.new }
    {
        let at = input.expect(StmtSet::Try)?.token.span.start;
        let body = self.boxed_body(input)?;
        let (handlers, other, last) = self.behind_try(input)?;
        Ok(Stmt::Try(at, body, handlers, other, last))
    }
}
