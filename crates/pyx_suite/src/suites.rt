//! Suites. What stands in an indented one is read by a parameter, so that each function is proved by itself.
ghost use Rattle.std.specs.Prelude.{◌≡◌, ◌≢◌};
ghost use Rattle.forms.specs.Readers.{read_both, read_one, read_or};
ghost use Rattle.forms.specs.Lists.{second, itself};
ghost use Rattle.token_class.specs.Sets.{of};
ghost use Rattle.expr_grammar.specs.Words as set;
ghost use Rattle.expr_grammar.specs.Reading as expr_spec;
ghost use Rattle.decl_grammar.specs.Words as words;
ghost use Rattle.decl_grammar.specs.Nodes as node;
ghost use Rattle.decl_grammar.specs.Reading as spec;
ghost use Rattle.token_input.specs.Reads.{Reads};
ghost use Rattle.pyx_suite.specs.Nests.{Nests};

use cy_tree::{Expr, Stmt, Suite};
use pyx_stmt::{StmtSet, expr, line};
use sqlite_items::{Boxed, Items};
use std::alloc::Global;
use token_input::{ExprSet, Halt, Input};

/// Statements where so many things may be opened.
#[derive(Clone, Copy)]
pub struct Suites<F> {
    pub alloc: Global,
    pub room: usize,
    /// What reads the statements of an indented suite.
    pub inner: F,
}

impl<F: Fn(Global, &mut Input<'_>, usize) -> Result<Items<Stmt>, Halt>> Suites<F> {
    fn inside(&self, input: &mut Input<'_>) -> Result<Items<Stmt>, Halt>
        requires { Nests self.now.room (F.pre self.now.inner) (F.post self.now.inner) }
        ensures { Reads (spec.read_inside self.now.room input.old) result input.new }
    {
        (self.inner)(self.alloc, input, self.room)
    }

    #[tactic(auto, unfolding(forms::specs::Readers::read_both))]
    fn indented(&self, input: &mut Input<'_>) -> Result<Suite, Halt>
        requires { Nests self.now.room (F.pre self.now.inner) (F.post self.now.inner) }
        ensures { Reads (read_both second (read_one (of words.is_newline) itself) (read_both second (read_one (of words.is_indent) itself) (read_both node.block_node (spec.read_inside self.now.room) (read_one (of words.is_dedent) itself))) input.old) result input.new }
    {
        input.expect(StmtSet::Newline)?;
        input.expect(StmtSet::Indent)?;
        let statements = self.inside(input)?;
        input.expect(StmtSet::Dedent)?;
        Ok(Suite::Block(statements))
    }

    #[tactic(auto, unfolding(forms::specs::Readers::read_both, forms::specs::Readers::read_nothing))]
    fn inline(&self, input: &mut Input<'_>) -> Result<Suite, Halt>
        ensures { Reads (spec.read_mapped node.inline_node (spec.read_line self.now.room) input.old) result input.new }
    {
        let line = line(self.alloc, input, self.room)?;
        Ok(Suite::Inline(line))
    }

    #[tactic(auto, unfolding(decl_grammar::specs::Reading::read_suite, forms::specs::Readers::read_or))]
    fn suite(&self, input: &mut Input<'_>) -> Result<Suite, Halt>
        requires { Nests self.now.room (F.pre self.now.inner) (F.post self.now.inner) }
        ensures { Reads (spec.read_suite self.now.room (spec.read_inside self.now.room) input.old) result input.new }
    {
        if input.sees(StmtSet::BeginsSimple) {
            return self.inline(input);
        }
        self.indented(input)
    }

    /// Reads a colon and a suite.
    #[tactic(auto, unfolding(decl_grammar::specs::Reading::read_body, forms::specs::Readers::read_both))]
    pub(crate) fn body(&self, input: &mut Input<'_>) -> Result<Suite, Halt>
        requires { Nests self.now.room (F.pre self.now.inner) (F.post self.now.inner) }
        ensures { Reads (spec.read_body self.now.room (spec.read_inside self.now.room) input.old) result input.new }
    {
        input.expect(ExprSet::Colon)?;
        self.suite(input)
    }

    pub(crate) fn boxed_body(&self, input: &mut Input<'_>) -> Result<Boxed<Suite>, Halt>
        requires { Nests self.now.room (F.pre self.now.inner) (F.post self.now.inner) }
        ensures { Reads (spec.read_body self.now.room (spec.read_inside self.now.room) input.old) result input.new }
    {
        let body = self.body(input)?;
        Ok(Boxed::new(self.alloc, body)?)
    }

    /// Reads a test, and the suite behind it.
    #[tactic(auto, unfolding(decl_grammar::specs::Reading::read_tested, forms::specs::Readers::read_both))]
    pub(crate) fn tested(&self, input: &mut Input<'_>) -> Result<(Expr, Boxed<Suite>), Halt>
        requires { Nests self.now.room (F.pre self.now.inner) (F.post self.now.inner) }
        ensures { Reads (spec.read_tested self.now.room (spec.read_inside self.now.room) input.old) result input.new }
    {
        let test = expr(self.alloc, input, self.room)?;
        let body = self.boxed_body(input)?;
        Ok((test, body))
    }

    #[tactic(auto, unfolding(decl_grammar::specs::Reading::read_else, forms::specs::Readers::read_both))]
    fn else_part(&self, input: &mut Input<'_>) -> Result<Boxed<Suite>, Halt>
        requires { Nests self.now.room (F.pre self.now.inner) (F.post self.now.inner) }
        ensures { Reads (spec.read_else self.now.room (spec.read_inside self.now.room) input.old) result input.new }
    {
        input.expect(ExprSet::Else)?;
        self.boxed_body(input)
    }

    /// Reads the suite of `else`, if it stands there.
    #[tactic(auto, unfolding(forms::specs::Readers::read_both, forms::specs::Readers::read_or, forms::specs::Readers::read_nothing))]
    pub(crate) fn else_if_any(&self, input: &mut Input<'_>) -> Result<Option<Boxed<Suite>>, Halt>
        requires { Nests self.now.room (F.pre self.now.inner) (F.post self.now.inner) }
        ensures { Reads (expr_spec.read_opt set.is_else (spec.read_else self.now.room (spec.read_inside self.now.room)) input.old) result input.new }
    {
        if !input.sees(ExprSet::Else) {
            return Ok(None);
        }
        let body = self.else_part(input)?;
        Ok(Some(body))
    }

    /// Reads the suite of `finally`.
    #[tactic(auto, unfolding(decl_grammar::specs::Reading::read_finally, forms::specs::Readers::read_both))]
    pub(crate) fn finally_part(&self, input: &mut Input<'_>) -> Result<Boxed<Suite>, Halt>
        requires { Nests self.now.room (F.pre self.now.inner) (F.post self.now.inner) }
        ensures { Reads (spec.read_finally self.now.room (spec.read_inside self.now.room) input.old) result input.new }
    {
        input.expect(StmtSet::Finally)?;
        self.boxed_body(input)
    }

    /// Reads the suite of `finally`, if it stands there.
    #[tactic(auto, unfolding(forms::specs::Readers::read_both, forms::specs::Readers::read_or, forms::specs::Readers::read_nothing))]
    pub(crate) fn finally_if_any(&self, input: &mut Input<'_>) -> Result<Option<Boxed<Suite>>, Halt>
        requires { Nests self.now.room (F.pre self.now.inner) (F.post self.now.inner) }
        ensures { Reads (expr_spec.read_opt words.is_finally (spec.read_finally self.now.room (spec.read_inside self.now.room)) input.old) result input.new }
    {
        if !input.sees(StmtSet::Finally) {
            return Ok(None);
        }
        let body = self.finally_part(input)?;
        Ok(Some(body))
    }
}
