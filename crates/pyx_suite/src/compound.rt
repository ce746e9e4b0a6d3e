//! `if`, `while`, `for` and `with`.
ghost use Rattle.std.specs.Prelude.{◌≡◌, ◌≢◌, ◌∷◌, []};
ghost use Rattle.forms.specs.Readers.{read_both, read_one, read_or, read_many};
ghost use Rattle.forms.specs.Lists.{pair, second, itself};
ghost use Rattle.token_class.specs.Sets.{of};
ghost use Rattle.decl_grammar.specs.Words as words;
ghost use Rattle.decl_grammar.specs.Reading as spec;
ghost use Rattle.token_input.specs.Reads.{Reads};
ghost use Rattle.pyx_suite.specs.Nests.{Nests};

use crate::parts::lock_word;
use crate::suites::Suites;
use cy_tree::{Arm, Stmt};
use pyx_stmt::{StmtSet, target};
use sqlite_items::Items;
use std::alloc::Global;
use token_input::{ExprSet, Halt, Input, joined};

impl<F: Fn(Global, &mut Input<'_>, usize) -> Result<Items<Stmt>, Halt>> Suites<F> {
    #[tactic(auto, unfolding(decl_grammar::specs::Reading::read_elif, forms::specs::Readers::read_both))]
    fn elif_part(&self, input: &mut Input<'_>) -> Result<Arm, Halt>
        requires { Nests self.now.room (F.pre self.now.inner) (F.post self.now.inner) }
        ensures { Reads (spec.read_elif self.now.room (spec.read_inside self.now.room) input.old) result input.new }
    {
        let at = input.expect(StmtSet::Elif)?.token.span.start;
        let (test, body) = self.tested(input)?;
        Ok(Arm { at, test, body })
    }

    fn elifs(&self, input: &mut Input<'_>) -> Result<Items<Arm>, Halt>
        requires { Nests self.now.room (F.pre self.now.inner) (F.post self.now.inner) }
        ensures { Reads (read_many (of words.is_elif) (spec.read_elif self.now.room (spec.read_inside self.now.room)) input.old) result input.new }
    {
        let mut found = Items::new(self.alloc);
        for _turn in 0..input.len() {
            if !input.sees(StmtSet::Elif) {
                return Ok(found);
            }
            let item = self.elif_part(input)?;
            found.push(item)?;
        }
        Ok(found)
    }

    #[tactic(auto, unfolding(decl_grammar::specs::Reading::read_if, forms::specs::Readers::read_both))]
    pub(crate) fn if_stmt(&self, input: &mut Input<'_>) -> Result<Stmt, Halt>
        requires { Nests self.now.room (F.pre self.now.inner) (F.post self.now.inner) }
        ensures { Reads (spec.read_if self.now.room (spec.read_inside self.now.room) input.old) result input.new }
    {
        let at = input.expect(ExprSet::If)?.token.span.start;
        let (test, body) = self.tested(input)?;
        let more = self.elifs(input)?;
        let other = self.else_if_any(input)?;
        let arms = joined(self.alloc, Arm { at, test, body }, more)?;
        Ok(Stmt::IfNode(at, arms, other))
    }

    #[tactic(auto, unfolding(decl_grammar::specs::Reading::read_while, forms::specs::Readers::read_both))]
    pub(crate) fn while_stmt(&self, input: &mut Input<'_>) -> Result<Stmt, Halt>
        requires { Nests self.now.room (F.pre self.now.inner) (F.post self.now.inner) }
        ensures { Reads (spec.read_while self.now.room (spec.read_inside self.now.room) input.old) result input.new }
    {
        let at = input.expect(StmtSet::While)?.token.span.start;
        let (test, body) = self.tested(input)?;
        let other = self.else_if_any(input)?;
        Ok(Stmt::WhileNode(at, test, body, other))
    }

    #[tactic(auto, unfolding(decl_grammar::specs::Reading::read_for, forms::specs::Readers::read_both))]
    pub(crate) fn for_stmt(&self, input: &mut Input<'_>) -> Result<Stmt, Halt>
        requires { Nests self.now.room (F.pre self.now.inner) (F.post self.now.inner) }
        ensures { Reads (spec.read_for self.now.room (spec.read_inside self.now.room) input.old) result input.new }
    {
        let at = input.expect(StmtSet::For)?.token.span.start;
        let target = target(self.alloc, input, self.room)?;
        input.expect(ExprSet::In)?;
        let (over, body) = self.tested(input)?;
        let other = self.else_if_any(input)?;
        Ok(Stmt::ForNode(at, target, over, body, other))
    }

    #[tactic(auto, unfolding(decl_grammar::specs::Reading::read_with, forms::specs::Readers::read_both))]
    pub(crate) fn with_stmt(&self, input: &mut Input<'_>) -> Result<Stmt, Halt>
        requires { Nests self.now.room (F.pre self.now.inner) (F.post self.now.inner) }
        ensures { Reads (spec.read_with self.now.room (spec.read_inside self.now.room) input.old) result input.new }
    {
        let at = input.expect(StmtSet::With)?.token.span.start;
        let word = lock_word(input)?;
        let body = self.boxed_body(input)?;
        Ok(Stmt::With(at, word, body))
    }
}
