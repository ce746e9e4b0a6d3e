//! The levels of expressions. Those that hold expressions take the reader of these as a parameter, so that each is
//! proved by itself.
ghost use Rattle.std.specs.Prelude.{◌≡◌, true};
ghost use Rattle.forms.specs.Readers.{read_both, read_one, read_many};
ghost use Rattle.forms.specs.Lists.{second, pair, itself};
ghost use Rattle.token_class.specs.Sets.{of};
ghost use Rattle.expr_grammar.specs.Words as set;
ghost use Rattle.expr_grammar.specs.Grammar.{is_positive};
ghost use Rattle.expr_grammar.specs.Nodes as node;
ghost use Rattle.expr_grammar.specs.Reading as spec;
ghost use Rattle.token_input.specs.Reads.{Reads};
ghost use Rattle.pyx_parse.specs.Below.{below, Nests};

use crate::nodes::{
    bit_and_node, bit_or_node, bit_xor_node, conditional, conjunction_node, disjunction_node,
    prefix_op, shift_node, shift_op, sum_node, sum_op, term_node, term_op,
};
use cy_tree::{Comparison, Expr, Operand, ShiftOperand, SumOperand, TermOperand};
use expr_grammar::Level;
use sqlite_items::{Boxed, Items};
use std::alloc::Global;
use token_input::{ExprSet, Halt, Input, Taken, comparison, type_node};

#[derive(Clone, Copy)]
pub struct Grammar<F> {
    pub alloc: Global,
    /// Whether something may be opened here.
    pub here: bool,
    /// How many things may be opened in there.
    pub room: usize,
    pub expr: F,
}

impl<F: Fn(Global, &mut Input<'_>, usize, Level) -> Result<Expr, Halt>> Grammar<F> {
    pub(crate) fn nested(&self, input: &mut Input<'_>, l: Level) -> Result<Expr, Halt>
        requires nests { Nests self.now.here self.now.room (F.pre self.now.expr) (F.post self.now.expr) }
        requires here { self.now.here ≡ true }
        ensures { Reads (below self.now.here self.now.room l input.old) result input.new }
    {
        (self.expr)(self.alloc, input, self.room, l)
    }

    #[tactic(auto, unfolding(forms::specs::Readers::read_both))]
    fn term_operand(&self, input: &mut Input<'_>) -> Result<TermOperand, Halt>
        requires { Nests self.now.here self.now.room (F.pre self.now.expr) (F.post self.now.expr) }
        ensures { Reads (read_both node.term_operand (read_one (of set.is_term) itself) (spec.read_unary self.now.here (is_positive self.now.room) (below self.now.here self.now.room)) input.old) result input.new }
    {
        let Taken { token, class } = input.expect(ExprSet::Term)?;
        let (op, at) = (term_op(class), token.span.start);
        Ok((op, at, self.unary(input)?))
    }

    fn term_operands(&self, input: &mut Input<'_>) -> Result<Items<TermOperand>, Halt>
        requires { Nests self.now.here self.now.room (F.pre self.now.expr) (F.post self.now.expr) }
        ensures { Reads (read_many (of set.is_term) (read_both node.term_operand (read_one (of set.is_term) itself) (spec.read_unary self.now.here (is_positive self.now.room) (below self.now.here self.now.room))) input.old) result input.new }
    {
        let mut found = Items::new(self.alloc);
        for _turn in 0..input.len() {
            if !input.sees(ExprSet::Term) {
                return Ok(found);
            }
            let operand = self.term_operand(input)?;
            found.push(operand)?;
        }
        Ok(found)
    }

    #[tactic(auto, unfolding(expr_grammar::specs::Reading::read_term, forms::specs::Readers::read_both, forms::specs::Readers::read_placed))]
    fn term(&self, input: &mut Input<'_>) -> Result<Expr, Halt>
        requires { Nests self.now.here self.now.room (F.pre self.now.expr) (F.post self.now.expr) }
        ensures { Reads (spec.read_term self.now.here (is_positive self.now.room) (below self.now.here self.now.room) input.old) result input.new }
    {
        let at = input.at();
        let first = self.unary(input)?;
        let more = self.term_operands(input)?;
        Ok(term_node(self.alloc, at, first, more)?)
    }

    #[tactic(auto, unfolding(forms::specs::Readers::read_both))]
    fn sum_operand(&self, input: &mut Input<'_>) -> Result<SumOperand, Halt>
        requires { Nests self.now.here self.now.room (F.pre self.now.expr) (F.post self.now.expr) }
        ensures { Reads (read_both node.sum_operand (read_one (of set.is_sum) itself) (spec.read_term self.now.here (is_positive self.now.room) (below self.now.here self.now.room)) input.old) result input.new }
    {
        let Taken { token, class } = input.expect(ExprSet::Sum)?;
        let (op, at) = (sum_op(class), token.span.start);
        Ok((op, at, self.term(input)?))
    }

    fn sum_operands(&self, input: &mut Input<'_>) -> Result<Items<SumOperand>, Halt>
        requires { Nests self.now.here self.now.room (F.pre self.now.expr) (F.post self.now.expr) }
        ensures { Reads (read_many (of set.is_sum) (read_both node.sum_operand (read_one (of set.is_sum) itself) (spec.read_term self.now.here (is_positive self.now.room) (below self.now.here self.now.room))) input.old) result input.new }
    {
        let mut found = Items::new(self.alloc);
        for _turn in 0..input.len() {
            if !input.sees(ExprSet::Sum) {
                return Ok(found);
            }
            let operand = self.sum_operand(input)?;
            found.push(operand)?;
        }
        Ok(found)
    }

    #[tactic(auto, unfolding(expr_grammar::specs::Reading::read_sum, forms::specs::Readers::read_both, forms::specs::Readers::read_placed))]
    fn sum(&self, input: &mut Input<'_>) -> Result<Expr, Halt>
        requires { Nests self.now.here self.now.room (F.pre self.now.expr) (F.post self.now.expr) }
        ensures { Reads (spec.read_sum self.now.here (is_positive self.now.room) (below self.now.here self.now.room) input.old) result input.new }
    {
        let at = input.at();
        let first = self.term(input)?;
        let more = self.sum_operands(input)?;
        Ok(sum_node(self.alloc, at, first, more)?)
    }

    #[tactic(auto, unfolding(forms::specs::Readers::read_both))]
    fn shift_operand(&self, input: &mut Input<'_>) -> Result<ShiftOperand, Halt>
        requires { Nests self.now.here self.now.room (F.pre self.now.expr) (F.post self.now.expr) }
        ensures { Reads (read_both node.shift_operand (read_one (of set.is_shift) itself) (spec.read_sum self.now.here (is_positive self.now.room) (below self.now.here self.now.room)) input.old) result input.new }
    {
        let Taken { token, class } = input.expect(ExprSet::Shift)?;
        let (op, at) = (shift_op(class), token.span.start);
        Ok((op, at, self.sum(input)?))
    }

    fn shift_operands(&self, input: &mut Input<'_>) -> Result<Items<ShiftOperand>, Halt>
        requires { Nests self.now.here self.now.room (F.pre self.now.expr) (F.post self.now.expr) }
        ensures { Reads (read_many (of set.is_shift) (read_both node.shift_operand (read_one (of set.is_shift) itself) (spec.read_sum self.now.here (is_positive self.now.room) (below self.now.here self.now.room))) input.old) result input.new }
    {
        let mut found = Items::new(self.alloc);
        for _turn in 0..input.len() {
            if !input.sees(ExprSet::Shift) {
                return Ok(found);
            }
            let operand = self.shift_operand(input)?;
            found.push(operand)?;
        }
        Ok(found)
    }

    #[tactic(auto, unfolding(expr_grammar::specs::Reading::read_shift, forms::specs::Readers::read_both, forms::specs::Readers::read_placed))]
    fn shift(&self, input: &mut Input<'_>) -> Result<Expr, Halt>
        requires { Nests self.now.here self.now.room (F.pre self.now.expr) (F.post self.now.expr) }
        ensures { Reads (spec.read_shift self.now.here (is_positive self.now.room) (below self.now.here self.now.room) input.old) result input.new }
    {
        let at = input.at();
        let first = self.sum(input)?;
        let more = self.shift_operands(input)?;
        Ok(shift_node(self.alloc, at, first, more)?)
    }

    #[tactic(auto, unfolding(forms::specs::Readers::read_both))]
    fn bit_and_operand(&self, input: &mut Input<'_>) -> Result<Operand, Halt>
        requires { Nests self.now.here self.now.room (F.pre self.now.expr) (F.post self.now.expr) }
        ensures { Reads (read_both node.operand (read_one (of set.is_ampersand) itself) (spec.read_shift self.now.here (is_positive self.now.room) (below self.now.here self.now.room)) input.old) result input.new }
    {
        let at = input.expect(ExprSet::Ampersand)?.token.span.start;
        Ok((at, self.shift(input)?))
    }

    fn bit_and_operands(&self, input: &mut Input<'_>) -> Result<Items<Operand>, Halt>
        requires { Nests self.now.here self.now.room (F.pre self.now.expr) (F.post self.now.expr) }
        ensures { Reads (read_many (of set.is_ampersand) (read_both node.operand (read_one (of set.is_ampersand) itself) (spec.read_shift self.now.here (is_positive self.now.room) (below self.now.here self.now.room))) input.old) result input.new }
    {
        let mut found = Items::new(self.alloc);
        for _turn in 0..input.len() {
            if !input.sees(ExprSet::Ampersand) {
                return Ok(found);
            }
            let operand = self.bit_and_operand(input)?;
            found.push(operand)?;
        }
        Ok(found)
    }

    #[tactic(auto, unfolding(expr_grammar::specs::Reading::read_bit_and, forms::specs::Readers::read_both, forms::specs::Readers::read_placed))]
    fn bit_and(&self, input: &mut Input<'_>) -> Result<Expr, Halt>
        requires { Nests self.now.here self.now.room (F.pre self.now.expr) (F.post self.now.expr) }
        ensures { Reads (spec.read_bit_and self.now.here (is_positive self.now.room) (below self.now.here self.now.room) input.old) result input.new }
    {
        let at = input.at();
        let first = self.shift(input)?;
        let more = self.bit_and_operands(input)?;
        Ok(bit_and_node(self.alloc, at, first, more)?)
    }

    #[tactic(auto, unfolding(forms::specs::Readers::read_both))]
    fn bit_xor_operand(&self, input: &mut Input<'_>) -> Result<Operand, Halt>
        requires { Nests self.now.here self.now.room (F.pre self.now.expr) (F.post self.now.expr) }
        ensures { Reads (read_both node.operand (read_one (of set.is_caret) itself) (spec.read_bit_and self.now.here (is_positive self.now.room) (below self.now.here self.now.room)) input.old) result input.new }
    {
        let at = input.expect(ExprSet::Caret)?.token.span.start;
        Ok((at, self.bit_and(input)?))
    }

    fn bit_xor_operands(&self, input: &mut Input<'_>) -> Result<Items<Operand>, Halt>
        requires { Nests self.now.here self.now.room (F.pre self.now.expr) (F.post self.now.expr) }
        ensures { Reads (read_many (of set.is_caret) (read_both node.operand (read_one (of set.is_caret) itself) (spec.read_bit_and self.now.here (is_positive self.now.room) (below self.now.here self.now.room))) input.old) result input.new }
    {
        let mut found = Items::new(self.alloc);
        for _turn in 0..input.len() {
            if !input.sees(ExprSet::Caret) {
                return Ok(found);
            }
            let operand = self.bit_xor_operand(input)?;
            found.push(operand)?;
        }
        Ok(found)
    }

    #[tactic(auto, unfolding(expr_grammar::specs::Reading::read_bit_xor, forms::specs::Readers::read_both, forms::specs::Readers::read_placed))]
    fn bit_xor(&self, input: &mut Input<'_>) -> Result<Expr, Halt>
        requires { Nests self.now.here self.now.room (F.pre self.now.expr) (F.post self.now.expr) }
        ensures { Reads (spec.read_bit_xor self.now.here (is_positive self.now.room) (below self.now.here self.now.room) input.old) result input.new }
    {
        let at = input.at();
        let first = self.bit_and(input)?;
        let more = self.bit_xor_operands(input)?;
        Ok(bit_xor_node(self.alloc, at, first, more)?)
    }

    #[tactic(auto, unfolding(forms::specs::Readers::read_both))]
    fn bit_or_operand(&self, input: &mut Input<'_>) -> Result<Operand, Halt>
        requires { Nests self.now.here self.now.room (F.pre self.now.expr) (F.post self.now.expr) }
        ensures { Reads (read_both node.operand (read_one (of set.is_bar) itself) (spec.read_bit_xor self.now.here (is_positive self.now.room) (below self.now.here self.now.room)) input.old) result input.new }
    {
        let at = input.expect(ExprSet::Bar)?.token.span.start;
        Ok((at, self.bit_xor(input)?))
    }

    fn bit_or_operands(&self, input: &mut Input<'_>) -> Result<Items<Operand>, Halt>
        requires { Nests self.now.here self.now.room (F.pre self.now.expr) (F.post self.now.expr) }
        ensures { Reads (read_many (of set.is_bar) (read_both node.operand (read_one (of set.is_bar) itself) (spec.read_bit_xor self.now.here (is_positive self.now.room) (below self.now.here self.now.room))) input.old) result input.new }
    {
        let mut found = Items::new(self.alloc);
        for _turn in 0..input.len() {
            if !input.sees(ExprSet::Bar) {
                return Ok(found);
            }
            let operand = self.bit_or_operand(input)?;
            found.push(operand)?;
        }
        Ok(found)
    }

    #[tactic(auto, unfolding(expr_grammar::specs::Reading::read_bit_or, forms::specs::Readers::read_both, forms::specs::Readers::read_placed))]
    fn bit_or(&self, input: &mut Input<'_>) -> Result<Expr, Halt>
        requires { Nests self.now.here self.now.room (F.pre self.now.expr) (F.post self.now.expr) }
        ensures { Reads (spec.read_bit_or self.now.here (is_positive self.now.room) (below self.now.here self.now.room) input.old) result input.new }
    {
        let at = input.at();
        let first = self.bit_xor(input)?;
        let more = self.bit_or_operands(input)?;
        Ok(bit_or_node(self.alloc, at, first, more)?)
    }

    #[tactic(auto, unfolding(forms::specs::Readers::read_both))]
    fn conjunction_operand(&self, input: &mut Input<'_>) -> Result<Expr, Halt>
        requires { Nests self.now.here self.now.room (F.pre self.now.expr) (F.post self.now.expr) }
        ensures { Reads (read_both second (read_one (of set.is_and) itself) (spec.read_negation self.now.here (is_positive self.now.room) (below self.now.here self.now.room)) input.old) result input.new }
    {
        input.expect(ExprSet::And)?;
        self.negation(input)
    }

    fn conjunction_operands(&self, input: &mut Input<'_>) -> Result<Items<Expr>, Halt>
        requires { Nests self.now.here self.now.room (F.pre self.now.expr) (F.post self.now.expr) }
        ensures { Reads (read_many (of set.is_and) (read_both second (read_one (of set.is_and) itself) (spec.read_negation self.now.here (is_positive self.now.room) (below self.now.here self.now.room))) input.old) result input.new }
    {
        let mut found = Items::new(self.alloc);
        for _turn in 0..input.len() {
            if !input.sees(ExprSet::And) {
                return Ok(found);
            }
            let operand = self.conjunction_operand(input)?;
            found.push(operand)?;
        }
        Ok(found)
    }

    #[tactic(auto, unfolding(expr_grammar::specs::Reading::read_conjunction, forms::specs::Readers::read_both, forms::specs::Readers::read_placed))]
    fn conjunction(&self, input: &mut Input<'_>) -> Result<Expr, Halt>
        requires { Nests self.now.here self.now.room (F.pre self.now.expr) (F.post self.now.expr) }
        ensures { Reads (spec.read_conjunction self.now.here (is_positive self.now.room) (below self.now.here self.now.room) input.old) result input.new }
    {
        let at = input.at();
        let first = self.negation(input)?;
        let more = self.conjunction_operands(input)?;
        Ok(conjunction_node(self.alloc, at, first, more)?)
    }

    #[tactic(auto, unfolding(forms::specs::Readers::read_both))]
    fn disjunction_operand(&self, input: &mut Input<'_>) -> Result<Expr, Halt>
        requires { Nests self.now.here self.now.room (F.pre self.now.expr) (F.post self.now.expr) }
        ensures { Reads (read_both second (read_one (of set.is_or) itself) (spec.read_conjunction self.now.here (is_positive self.now.room) (below self.now.here self.now.room)) input.old) result input.new }
    {
        input.expect(ExprSet::Or)?;
        self.conjunction(input)
    }

    fn disjunction_operands(&self, input: &mut Input<'_>) -> Result<Items<Expr>, Halt>
        requires { Nests self.now.here self.now.room (F.pre self.now.expr) (F.post self.now.expr) }
        ensures { Reads (read_many (of set.is_or) (read_both second (read_one (of set.is_or) itself) (spec.read_conjunction self.now.here (is_positive self.now.room) (below self.now.here self.now.room))) input.old) result input.new }
    {
        let mut found = Items::new(self.alloc);
        for _turn in 0..input.len() {
            if !input.sees(ExprSet::Or) {
                return Ok(found);
            }
            let operand = self.disjunction_operand(input)?;
            found.push(operand)?;
        }
        Ok(found)
    }

    #[tactic(auto, unfolding(expr_grammar::specs::Reading::read_disjunction, forms::specs::Readers::read_both, forms::specs::Readers::read_placed))]
    fn disjunction(&self, input: &mut Input<'_>) -> Result<Expr, Halt>
        requires { Nests self.now.here self.now.room (F.pre self.now.expr) (F.post self.now.expr) }
        ensures { Reads (spec.read_disjunction self.now.here (is_positive self.now.room) (below self.now.here self.now.room) input.old) result input.new }
    {
        let at = input.at();
        let first = self.conjunction(input)?;
        let more = self.disjunction_operands(input)?;
        Ok(disjunction_node(self.alloc, at, first, more)?)
    }

    #[tactic(auto, unfolding(expr_grammar::specs::Reading::read_prefixed, forms::specs::Readers::read_both, forms::specs::Readers::read_guard, forms::specs::Readers::refuse))]
    fn prefixed(&self, input: &mut Input<'_>) -> Result<Expr, Halt>
        requires { Nests self.now.here self.now.room (F.pre self.now.expr) (F.post self.now.expr) }
        ensures { Reads (spec.read_prefixed self.now.here (is_positive self.now.room) (below self.now.here self.now.room) input.old) result input.new }
    {
        if !self.here {
            return Err(Halt::no_room(input.sees(ExprSet::Prefix)));
        }
        let Taken { token, class } = input.expect(ExprSet::Prefix)?;
        let (op, at) = (prefix_op(class), token.span.start);
        let operand = self.nested(input, Level::Unary)?;
        Ok(Expr::Unary(at, op, Boxed::new(self.alloc, operand)?))
    }

    #[tactic(auto, unfolding(expr_grammar::specs::Reading::read_unary, forms::specs::Readers::read_or))]
    pub(crate) fn unary(&self, input: &mut Input<'_>) -> Result<Expr, Halt>
        requires { Nests self.now.here self.now.room (F.pre self.now.expr) (F.post self.now.expr) }
        ensures { Reads (spec.read_unary self.now.here (is_positive self.now.room) (below self.now.here self.now.room) input.old) result input.new }
    {
        if input.sees(ExprSet::Prefix) {
            return self.prefixed(input);
        }
        if input.sees(ExprSet::Less) {
            return self.cast(input);
        }
        self.postfix(input)
    }

    #[tactic(auto, unfolding(expr_grammar::specs::Reading::read_negated, forms::specs::Readers::read_both, forms::specs::Readers::read_guard, forms::specs::Readers::refuse))]
    fn negated(&self, input: &mut Input<'_>) -> Result<Expr, Halt>
        requires { Nests self.now.here self.now.room (F.pre self.now.expr) (F.post self.now.expr) }
        ensures { Reads (spec.read_negated self.now.here (is_positive self.now.room) (below self.now.here self.now.room) input.old) result input.new }
    {
        if !self.here {
            return Err(Halt::no_room(input.sees(ExprSet::Not)));
        }
        let at = input.expect(ExprSet::Not)?.token.span.start;
        let operand = self.nested(input, Level::Not)?;
        Ok(Expr::Not(at, Boxed::new(self.alloc, operand)?))
    }

    #[tactic(auto, unfolding(expr_grammar::specs::Reading::read_negation, forms::specs::Readers::read_or))]
    pub(crate) fn negation(&self, input: &mut Input<'_>) -> Result<Expr, Halt>
        requires { Nests self.now.here self.now.room (F.pre self.now.expr) (F.post self.now.expr) }
        ensures { Reads (spec.read_negation self.now.here (is_positive self.now.room) (below self.now.here self.now.room) input.old) result input.new }
    {
        if input.sees(ExprSet::Not) {
            return self.negated(input);
        }
        self.compare(input)
    }

    #[tactic(auto, unfolding(forms::specs::Readers::read_both))]
    fn compared(&self, input: &mut Input<'_>) -> Result<((Comparison, u32), Expr), Halt>
        requires { Nests self.now.here self.now.room (F.pre self.now.expr) (F.post self.now.expr) }
        ensures { Reads (read_both pair spec.read_cop (spec.read_bit_or self.now.here (is_positive self.now.room) (below self.now.here self.now.room)) input.old) result input.new }
    {
        let op = comparison(input)?;
        let right = self.bit_or(input)?;
        Ok((op, right))
    }

    #[tactic(auto, unfolding(expr_grammar::specs::Reading::read_compare, forms::specs::Readers::read_both, forms::specs::Readers::read_or, forms::specs::Readers::read_nothing, forms::specs::Readers::read_placed))]
    fn compare(&self, input: &mut Input<'_>) -> Result<Expr, Halt>
        requires { Nests self.now.here self.now.room (F.pre self.now.expr) (F.post self.now.expr) }
        ensures { Reads (spec.read_compare self.now.here (is_positive self.now.room) (below self.now.here self.now.room) input.old) result input.new }
    {
        let at = input.at();
        let left = self.bit_or(input)?;
        if !input.sees(ExprSet::BeginsCop) {
            return Ok(left);
        }
        let ((op, place), right) = self.compared(input)?;
        let left = Boxed::new(self.alloc, left)?;
        Ok(Expr::Compare(at, left, op, place, Boxed::new(self.alloc, right)?))
    }

    #[tactic(auto, unfolding(expr_grammar::specs::Reading::read_otherwise, forms::specs::Readers::read_both, forms::specs::Readers::read_guard, forms::specs::Readers::refuse))]
    fn otherwise(&self, input: &mut Input<'_>) -> Result<Expr, Halt>
        requires { Nests self.now.here self.now.room (F.pre self.now.expr) (F.post self.now.expr) }
        ensures { Reads (spec.read_otherwise self.now.here (is_positive self.now.room) (below self.now.here self.now.room) input.old) result input.new }
    {
        if !self.here {
            return Err(Halt::no_room(input.sees(ExprSet::Else)));
        }
        input.expect(ExprSet::Else)?;
        self.nested(input, Level::Expr)
    }

    #[tactic(auto, unfolding(forms::specs::Readers::read_both))]
    fn tested(&self, input: &mut Input<'_>) -> Result<(Expr, Expr), Halt>
        requires { Nests self.now.here self.now.room (F.pre self.now.expr) (F.post self.now.expr) }
        ensures { Reads (read_both pair (spec.read_disjunction self.now.here (is_positive self.now.room) (below self.now.here self.now.room)) (spec.read_otherwise self.now.here (is_positive self.now.room) (below self.now.here self.now.room)) input.old) result input.new }
    {
        let test = self.disjunction(input)?;
        let other = self.otherwise(input)?;
        Ok((test, other))
    }

    #[tactic(auto, unfolding(expr_grammar::specs::Reading::read_condition, forms::specs::Readers::read_both))]
    fn condition(&self, input: &mut Input<'_>) -> Result<(Expr, Expr), Halt>
        requires { Nests self.now.here self.now.room (F.pre self.now.expr) (F.post self.now.expr) }
        ensures { Reads (spec.read_condition self.now.here (is_positive self.now.room) (below self.now.here self.now.room) input.old) result input.new }
    {
        input.expect(ExprSet::If)?;
        self.tested(input)
    }

    #[tactic(auto, unfolding(expr_grammar::specs::Reading::read_expr, forms::specs::Readers::read_both, forms::specs::Readers::read_or, forms::specs::Readers::read_nothing, forms::specs::Readers::read_placed))]
    pub(crate) fn whole(&self, input: &mut Input<'_>) -> Result<Expr, Halt>
        requires { Nests self.now.here self.now.room (F.pre self.now.expr) (F.post self.now.expr) }
        ensures { Reads (spec.read_expr self.now.here (is_positive self.now.room) (below self.now.here self.now.room) input.old) result input.new }
    {
        let at = input.at();
        let value = self.disjunction(input)?;
        if !input.sees(ExprSet::If) {
            return Ok(value);
        }
        let (test, other) = self.condition(input)?;
        Ok(conditional(self.alloc, at, value, test, other)?)
    }

    #[tactic(auto, unfolding(expr_grammar::specs::Reading::read_behind_type, forms::specs::Readers::read_both))]
    fn behind_type(&self, input: &mut Input<'_>) -> Result<(bool, Expr), Halt>
        requires nests { Nests self.now.here self.now.room (F.pre self.now.expr) (F.post self.now.expr) }
        requires here { self.now.here ≡ true }
        ensures { Reads (spec.read_behind_type self.now.here (is_positive self.now.room) (below self.now.here self.now.room) input.old) result input.new }
    {
        let checked = input.flag(ExprSet::QuestionMark);
        input.expect(ExprSet::Greater)?;
        let operand = self.nested(input, Level::Unary)?;
        Ok((checked, operand))
    }

    #[tactic(auto, unfolding(expr_grammar::specs::Reading::read_cast, forms::specs::Readers::read_both, forms::specs::Readers::read_guard, forms::specs::Readers::refuse))]
    fn cast(&self, input: &mut Input<'_>) -> Result<Expr, Halt>
        requires { Nests self.now.here self.now.room (F.pre self.now.expr) (F.post self.now.expr) }
        ensures { Reads (spec.read_cast self.now.here (is_positive self.now.room) (below self.now.here self.now.room) input.old) result input.new }
    {
        if !self.here {
            return Err(Halt::no_room(input.sees(ExprSet::Less)));
        }
        let at = input.expect(ExprSet::Less)?.token.span.start;
        let to = type_node(self.alloc, input, self.room)?;
        let (checked, operand) = self.behind_type(input)?;
        Ok(Expr::Cast(at, to, checked, Boxed::new(self.alloc, operand)?))
    }

    pub(crate) fn by_level(&self, input: &mut Input<'_>, l: Level) -> Result<Expr, Halt>
        requires { Nests self.now.here self.now.room (F.pre self.now.expr) (F.post self.now.expr) }
        ensures { Reads (spec.read_at_level self.now.here (is_positive self.now.room) (below self.now.here self.now.room) l input.old) result input.new }
    {
        match l {
            Level::Expr => self.whole(input),
            Level::Not => self.negation(input),
            Level::Unary => self.unary(input),
            Level::Postfix => self.postfix(input),
        }
    }
}
