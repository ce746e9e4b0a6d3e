//! Statements, and those of an indented suite.
ghost use Rattle.std.specs.Prelude.{◌≡◌, ◌≢◌, ◌∷◌, []};
ghost use Rattle.forms.specs.Readers.{read_both, read_or, read_many};
ghost use Rattle.token_class.specs.Sets.{of};
ghost use Rattle.decl_grammar.specs.Words as words;
ghost use Rattle.decl_grammar.specs.Nodes as node;
ghost use Rattle.decl_grammar.specs.Reading as spec;
ghost use Rattle.token_input.specs.Reads.{Reads};
ghost use Rattle.pyx_suite.specs.Nests.{Nests};

use crate::suites::Suites;
use cy_tree::Stmt;
use pyx_stmt::{StmtSet, line};
use sqlite_items::Items;
use std::alloc::Global;
use token_input::{ExprSet, Halt, Input};

impl<F: Fn(Global, &mut Input<'_>, usize) -> Result<Items<Stmt>, Halt>> Suites<F> {
    #[tactic(auto, unfolding(decl_grammar::specs::Reading::read_compound, forms::specs::Readers::read_or))]
    fn compound(&self, input: &mut Input<'_>) -> Result<Stmt, Halt>
        requires { Nests self.now.room (F.pre self.now.inner) (F.post self.now.inner) }
        ensures { Reads (spec.read_compound self.now.room (spec.read_inside self.now.room) input.old) result input.new }
    {
        if input.sees(ExprSet::If) {
            return self.if_stmt(input);
        }
        if input.sees(StmtSet::While) {
            return self.while_stmt(input);
        }
        if input.sees(StmtSet::For) {
            return self.for_stmt(input);
        }
        if input.sees(StmtSet::Try) {
            return self.try_stmt(input);
        }
        self.with_stmt(input)
    }

    #[tactic(auto, unfolding(forms::specs::Readers::read_both, forms::specs::Readers::read_nothing))]
    fn simples(&self, input: &mut Input<'_>) -> Result<Stmt, Halt>
        ensures { Reads (spec.read_mapped node.simples_node (spec.read_line self.now.room) input.old) result input.new }
    {
        let line = line(self.alloc, input, self.room)?;
        Ok(Stmt::Simples(line))
    }

    /// Reads a statement.
    #[tactic(auto, unfolding(decl_grammar::specs::Reading::read_stmt, forms::specs::Readers::read_or))]
    pub(crate) fn stmt(&self, input: &mut Input<'_>) -> Result<Stmt, Halt>
        requires { Nests self.now.room (F.pre self.now.inner) (F.post self.now.inner) }
        ensures { Reads (spec.read_stmt self.now.room (spec.read_inside self.now.room) input.old) result input.new }
    {
        if input.sees(StmtSet::BeginsSimple) {
            return self.simples(input);
        }
        self.compound(input)
    }

    fn more_stmts(&self, input: &mut Input<'_>) -> Result<Items<Stmt>, Halt>
        requires { Nests self.now.room (F.pre self.now.inner) (F.post self.now.inner) }
        ensures { Reads (read_many (of words.begins_stmt) (spec.read_stmt self.now.room (spec.read_inside self.now.room)) input.old) result input.new }
    {
        let mut found = Items::new(self.alloc);
        for _turn in 0..input.len() {
            if !input.sees(StmtSet::BeginsStmt) {
                return Ok(found);
            }
            let item = self.stmt(input)?;
            found.push(item)?;
        }
        Ok(found)
    }

    /// Reads a statement, and those behind it.
    #[tactic(auto, unfolding(forms::specs::Readers::read_both))]
    pub(crate) fn stmts(&self, input: &mut Input<'_>) -> Result<Items<Stmt>, Halt>
        requires { Nests self.now.room (F.pre self.now.inner) (F.post self.now.inner) }
        ensures { Reads (spec.read_some_of words.begins_stmt (spec.read_stmt self.now.room (spec.read_inside self.now.room)) input.old) result input.new }
    {
        let first = self.stmt(input)?;
        let mut all = Items::new(self.alloc);
        all.push(first)?;
        let more = self.more_stmts(input)?;
        all.append(more)?;
        Ok(all)
    }
}
