//! Atoms, and what stands behind them (Python language reference, 6.2 and 6.3).
ghost use Rattle.std.specs.Prelude.{◌≡◌, true};
ghost use Rattle.forms.specs.Readers.{read_both, read_one, read_or, read_many, read_placed};
ghost use Rattle.forms.specs.Lists.{second, pair, push, itself, read_trail, read_trail_upto};
ghost use Rattle.token_class.specs.Sets.{of};
ghost use Rattle.expr_grammar.specs.Words as set;
ghost use Rattle.expr_grammar.specs.Grammar.{argument_rule, is_positive};
ghost use Rattle.expr_grammar.specs.Nodes as node;
ghost use Rattle.expr_grammar.specs.Reading as spec;
ghost use Rattle.token_input.specs.Reads.{Reads};
ghost use Rattle.pyx_parse.specs.Below.{below, Nests};
ghost use Rattle.pyx_parse.specs.NoneMore.{IsExcess, NoneMore};

use crate::atoms::{attribute, falsehood, int, name, none, strings, truth};
use crate::grammar::Grammar;
use crate::nodes::{group_node, postfix_node};
use cy_tree::{Expr, Index, Pair, Part};
use expr_grammar::Level;
use sqlite_items::{Boxed, Items};
use std::alloc::Global;
use token_input::{ExprSet, Halt, Input, joined};

impl<F: Fn(Global, &mut Input<'_>, usize, Level) -> Result<Expr, Halt>> Grammar<F> {
    fn more_exprs(&self, input: &mut Input<'_>) -> Result<(Items<Expr>, bool), Halt>
        requires nests { Nests self.now.here self.now.room (F.pre self.now.expr) (F.post self.now.expr) }
        requires here { self.now.here ≡ true }
        ensures { Reads (read_trail (of set.is_comma) (of set.begins_expr) (below self.now.here self.now.room Level.Expr) input.old) result input.new }
    {
        let mut found = Items::new(self.alloc);
        for _turn in 0..input.len() {
            if !input.flag(ExprSet::Comma) {
                return Ok((found, false));
            }
            if !input.sees(ExprSet::BeginsExpr) {
                return Ok((found, true));
            }
            let next = self.nested(input, Level::Expr)?;
            found.push(next)?;
        }
        Ok((found, false))
    }

    #[tactic(auto, unfolding(forms::specs::Readers::read_both))]
    fn some_exprs(&self, input: &mut Input<'_>) -> Result<(Items<Expr>, bool), Halt>
        requires nests { Nests self.now.here self.now.room (F.pre self.now.expr) (F.post self.now.expr) }
        requires here { self.now.here ≡ true }
        ensures { Reads (read_both push (below self.now.here self.now.room Level.Expr) (read_trail (of set.is_comma) (of set.begins_expr) (below self.now.here self.now.room Level.Expr)) input.old) result input.new }
    {
        let first = self.nested(input, Level::Expr)?;
        let (more, comma) = self.more_exprs(input)?;
        Ok((joined(self.alloc, first, more)?, comma))
    }

    #[tactic(auto, unfolding(expr_grammar::specs::Reading::read_exprs, forms::specs::Readers::read_or, forms::specs::Readers::read_nothing))]
    fn exprs(&self, input: &mut Input<'_>) -> Result<(Items<Expr>, bool), Halt>
        requires nests { Nests self.now.here self.now.room (F.pre self.now.expr) (F.post self.now.expr) }
        requires here { self.now.here ≡ true }
        ensures { Reads (spec.read_exprs self.now.here (is_positive self.now.room) (below self.now.here self.now.room) input.old) result input.new }
    {
        if !input.sees(ExprSet::BeginsExpr) {
            return Ok((Items::new(self.alloc), false));
        }
        self.some_exprs(input)
    }

    fn more_arguments(&self, input: &mut Input<'_>) -> Result<(Items<Expr>, bool), Halt>
        requires nests { Nests self.now.here self.now.room (F.pre self.now.expr) (F.post self.now.expr) }
        requires here { self.now.here ≡ true }
        ensures { Reads (read_trail_upto 31 (of set.is_comma) (of set.begins_expr) (argument_rule (is_positive self.now.room)) (below self.now.here self.now.room Level.Expr) input.old) result input.new }
    {
        let mut found = Items::new(self.alloc);
        for _turn in 0..31usize {
            if !input.flag(ExprSet::Comma) {
                return Ok((found, false));
            }
            if !input.sees(ExprSet::BeginsExpr) {
                return Ok((found, true));
            }
            let next = self.nested(input, Level::Expr)?;
            found.push(next)?;
        }
        let comma = self.no_argument(input)?;
        Ok((found, comma))
    }

    // A comma may stand behind the last argument that may, and nothing behind that.
    #[tactic(auto, unfolding(forms::specs::Readers::read_or, forms::specs::Readers::read_nothing))]
    fn no_argument(&self, input: &mut Input<'_>) -> Result<bool, Halt>
        ensures { NoneMore (read_trail_upto 0 (of set.is_comma) (of set.begins_expr) (argument_rule (is_positive self.now.room)) (below self.now.here self.now.room Level.Expr) input.old) result input.new }
    {
        if !input.flag(ExprSet::Comma) {
            return Ok(false);
        }
        if !input.sees(ExprSet::BeginsExpr) {
            return Ok(true);
        }
        Err(Halt::Limit(self.excess(input)))
    }

    // The rule that a 33rd argument breaks: where it would open something for which there is no room, that comes first.
    fn excess(&self, input: &Input<'_>) -> u8
        ensures { IsExcess (is_positive self.now.room) input.now result }
    {
        if self.room == 0 && input.sees(ExprSet::Opens) {
            2
        } else {
            3
        }
    }

    #[tactic(auto, unfolding(forms::specs::Readers::read_both))]
    fn some_arguments(&self, input: &mut Input<'_>) -> Result<(Items<Expr>, bool), Halt>
        requires nests { Nests self.now.here self.now.room (F.pre self.now.expr) (F.post self.now.expr) }
        requires here { self.now.here ≡ true }
        ensures { Reads (read_both push (below self.now.here self.now.room Level.Expr) (read_trail_upto 31 (of set.is_comma) (of set.begins_expr) (argument_rule (is_positive self.now.room)) (below self.now.here self.now.room Level.Expr)) input.old) result input.new }
    {
        let first = self.nested(input, Level::Expr)?;
        let (more, comma) = self.more_arguments(input)?;
        Ok((joined(self.alloc, first, more)?, comma))
    }

    #[tactic(auto, unfolding(expr_grammar::specs::Reading::read_arguments, forms::specs::Readers::read_or, forms::specs::Readers::read_nothing))]
    fn arguments(&self, input: &mut Input<'_>) -> Result<(Items<Expr>, bool), Halt>
        requires nests { Nests self.now.here self.now.room (F.pre self.now.expr) (F.post self.now.expr) }
        requires here { self.now.here ≡ true }
        ensures { Reads (spec.read_arguments self.now.here (is_positive self.now.room) (below self.now.here self.now.room) input.old) result input.new }
    {
        if !input.sees(ExprSet::BeginsExpr) {
            return Ok((Items::new(self.alloc), false));
        }
        self.some_arguments(input)
    }

    #[tactic(auto, unfolding(forms::specs::Readers::read_both))]
    fn entry_value(&self, input: &mut Input<'_>) -> Result<Expr, Halt>
        requires nests { Nests self.now.here self.now.room (F.pre self.now.expr) (F.post self.now.expr) }
        requires here { self.now.here ≡ true }
        ensures { Reads (read_both second (read_one (of set.is_colon) itself) (below self.now.here self.now.room Level.Expr) input.old) result input.new }
    {
        input.expect(ExprSet::Colon)?;
        self.nested(input, Level::Expr)
    }

    #[tactic(auto, unfolding(expr_grammar::specs::Reading::read_item, forms::specs::Readers::read_both))]
    fn entry(&self, input: &mut Input<'_>) -> Result<Pair, Halt>
        requires nests { Nests self.now.here self.now.room (F.pre self.now.expr) (F.post self.now.expr) }
        requires here { self.now.here ≡ true }
        ensures { Reads (spec.read_item self.now.here (is_positive self.now.room) (below self.now.here self.now.room) input.old) result input.new }
    {
        let key = self.nested(input, Level::Expr)?;
        let value = self.entry_value(input)?;
        Ok((key, value))
    }

    fn more_entries(&self, input: &mut Input<'_>) -> Result<(Items<Pair>, bool), Halt>
        requires nests { Nests self.now.here self.now.room (F.pre self.now.expr) (F.post self.now.expr) }
        requires here { self.now.here ≡ true }
        ensures { Reads (read_trail (of set.is_comma) (of set.begins_expr) (spec.read_item self.now.here (is_positive self.now.room) (below self.now.here self.now.room)) input.old) result input.new }
    {
        let mut found = Items::new(self.alloc);
        for _turn in 0..input.len() {
            if !input.flag(ExprSet::Comma) {
                return Ok((found, false));
            }
            if !input.sees(ExprSet::BeginsExpr) {
                return Ok((found, true));
            }
            let next = self.entry(input)?;
            found.push(next)?;
        }
        Ok((found, false))
    }

    #[tactic(auto, unfolding(forms::specs::Readers::read_both))]
    fn some_entries(&self, input: &mut Input<'_>) -> Result<(Items<Pair>, bool), Halt>
        requires nests { Nests self.now.here self.now.room (F.pre self.now.expr) (F.post self.now.expr) }
        requires here { self.now.here ≡ true }
        ensures { Reads (read_both push (spec.read_item self.now.here (is_positive self.now.room) (below self.now.here self.now.room)) (read_trail (of set.is_comma) (of set.begins_expr) (spec.read_item self.now.here (is_positive self.now.room) (below self.now.here self.now.room))) input.old) result input.new }
    {
        let mut all = Items::new(self.alloc);
        all.push(self.entry(input)?)?;
        let (more, comma) = self.more_entries(input)?;
        all.append(more)?;
        Ok((all, comma))
    }

    #[tactic(auto, unfolding(expr_grammar::specs::Reading::read_items, forms::specs::Readers::read_or, forms::specs::Readers::read_nothing))]
    fn entries(&self, input: &mut Input<'_>) -> Result<(Items<Pair>, bool), Halt>
        requires nests { Nests self.now.here self.now.room (F.pre self.now.expr) (F.post self.now.expr) }
        requires here { self.now.here ≡ true }
        ensures { Reads (spec.read_items self.now.here (is_positive self.now.room) (below self.now.here self.now.room) input.old) result input.new }
    {
        if !input.sees(ExprSet::BeginsExpr) {
            return Ok((Items::new(self.alloc), false));
        }
        self.some_entries(input)
    }

    #[tactic(auto, unfolding(forms::specs::Readers::read_both, forms::specs::Readers::read_or, forms::specs::Readers::read_nothing))]
    fn bound(&self, input: &mut Input<'_>) -> Result<Option<Boxed<Expr>>, Halt>
        requires nests { Nests self.now.here self.now.room (F.pre self.now.expr) (F.post self.now.expr) }
        requires here { self.now.here ≡ true }
        ensures { Reads (spec.read_opt set.begins_expr (below self.now.here self.now.room Level.Expr) input.old) result input.new }
    {
        if !input.sees(ExprSet::BeginsExpr) {
            return Ok(None);
        }
        let bound = self.nested(input, Level::Expr)?;
        Ok(Some(Boxed::new(self.alloc, bound)?))
    }

    #[tactic(auto, unfolding(expr_grammar::specs::Reading::read_high, forms::specs::Readers::read_both))]
    fn high(&self, input: &mut Input<'_>) -> Result<Option<Boxed<Expr>>, Halt>
        requires nests { Nests self.now.here self.now.room (F.pre self.now.expr) (F.post self.now.expr) }
        requires here { self.now.here ≡ true }
        ensures { Reads (spec.read_high self.now.here (is_positive self.now.room) (below self.now.here self.now.room) input.old) result input.new }
    {
        input.expect(ExprSet::Colon)?;
        self.bound(input)
    }

    #[tactic(auto, unfolding(forms::specs::Readers::read_both))]
    fn open_slice(&self, input: &mut Input<'_>) -> Result<Index, Halt>
        requires nests { Nests self.now.here self.now.room (F.pre self.now.expr) (F.post self.now.expr) }
        requires here { self.now.here ≡ true }
        ensures { Reads (read_both node.low_slice (read_one (of set.is_colon) itself) (spec.read_opt set.begins_expr (below self.now.here self.now.room Level.Expr)) input.old) result input.new }
    {
        let at = input.expect(ExprSet::Colon)?.token.span.start;
        let high = self.bound(input)?;
        Ok(Index::Slice(at, None, high))
    }

    #[tactic(auto, unfolding(forms::specs::Readers::read_both, forms::specs::Readers::read_or, forms::specs::Readers::read_nothing, forms::specs::Readers::read_placed))]
    fn expr_index(&self, input: &mut Input<'_>) -> Result<Index, Halt>
        requires nests { Nests self.now.here self.now.room (F.pre self.now.expr) (F.post self.now.expr) }
        requires here { self.now.here ≡ true }
        ensures { Reads (read_placed (node.from node.index_node) (read_both pair (below self.now.here self.now.room Level.Expr) (spec.read_opt set.is_colon (spec.read_high self.now.here (is_positive self.now.room) (below self.now.here self.now.room)))) input.old) result input.new }
    {
        let at = input.at();
        let low = self.nested(input, Level::Expr)?;
        if !input.sees(ExprSet::Colon) {
            return Ok(Index::One(low));
        }
        let high = self.high(input)?;
        Ok(Index::Slice(at, Some(Boxed::new(self.alloc, low)?), high))
    }

    #[tactic(auto, unfolding(expr_grammar::specs::Reading::read_index, forms::specs::Readers::read_or))]
    fn index(&self, input: &mut Input<'_>) -> Result<Index, Halt>
        requires nests { Nests self.now.here self.now.room (F.pre self.now.expr) (F.post self.now.expr) }
        requires here { self.now.here ≡ true }
        ensures { Reads (spec.read_index self.now.here (is_positive self.now.room) (below self.now.here self.now.room) input.old) result input.new }
    {
        if input.sees(ExprSet::Colon) {
            return self.open_slice(input);
        }
        self.expr_index(input)
    }

    fn more_indexes(&self, input: &mut Input<'_>) -> Result<(Items<Index>, bool), Halt>
        requires nests { Nests self.now.here self.now.room (F.pre self.now.expr) (F.post self.now.expr) }
        requires here { self.now.here ≡ true }
        ensures { Reads (read_trail (of set.is_comma) (of set.begins_index) (spec.read_index self.now.here (is_positive self.now.room) (below self.now.here self.now.room)) input.old) result input.new }
    {
        let mut found = Items::new(self.alloc);
        for _turn in 0..input.len() {
            if !input.flag(ExprSet::Comma) {
                return Ok((found, false));
            }
            if !input.sees(ExprSet::BeginsIndex) {
                return Ok((found, true));
            }
            let next = self.index(input)?;
            found.push(next)?;
        }
        Ok((found, false))
    }

    #[tactic(auto, unfolding(expr_grammar::specs::Reading::read_indexes, forms::specs::Readers::read_both))]
    fn indexes(&self, input: &mut Input<'_>) -> Result<(Items<Index>, bool), Halt>
        requires nests { Nests self.now.here self.now.room (F.pre self.now.expr) (F.post self.now.expr) }
        requires here { self.now.here ≡ true }
        ensures { Reads (spec.read_indexes self.now.here (is_positive self.now.room) (below self.now.here self.now.room) input.old) result input.new }
    {
        let first = self.index(input)?;
        let (more, comma) = self.more_indexes(input)?;
        Ok((joined(self.alloc, first, more)?, comma))
    }

    #[tactic(auto, unfolding(expr_grammar::specs::Reading::read_group, forms::specs::Readers::read_both, forms::specs::Readers::read_guard, forms::specs::Readers::refuse))]
    fn group(&self, input: &mut Input<'_>) -> Result<Expr, Halt>
        requires { Nests self.now.here self.now.room (F.pre self.now.expr) (F.post self.now.expr) }
        ensures { Reads (spec.read_group self.now.here (is_positive self.now.room) (below self.now.here self.now.room) input.old) result input.new }
    {
        if !self.here {
            return Err(Halt::no_room(input.sees(ExprSet::OpenParenthesis)));
        }
        let at = input.expect(ExprSet::OpenParenthesis)?.token.span.start;
        let (all, comma) = self.exprs(input)?;
        input.expect(ExprSet::CloseParenthesis)?;
        Ok(group_node(at, all, comma))
    }

    #[tactic(auto, unfolding(expr_grammar::specs::Reading::read_list_display, forms::specs::Readers::read_both, forms::specs::Readers::read_guard, forms::specs::Readers::refuse))]
    fn list_display(&self, input: &mut Input<'_>) -> Result<Expr, Halt>
        requires { Nests self.now.here self.now.room (F.pre self.now.expr) (F.post self.now.expr) }
        ensures { Reads (spec.read_list_display self.now.here (is_positive self.now.room) (below self.now.here self.now.room) input.old) result input.new }
    {
        if !self.here {
            return Err(Halt::no_room(input.sees(ExprSet::OpenBracket)));
        }
        let at = input.expect(ExprSet::OpenBracket)?.token.span.start;
        let (all, _) = self.exprs(input)?;
        input.expect(ExprSet::CloseBracket)?;
        Ok(Expr::ListNode(at, all))
    }

    #[tactic(auto, unfolding(expr_grammar::specs::Reading::read_dict_display, forms::specs::Readers::read_both, forms::specs::Readers::read_guard, forms::specs::Readers::refuse))]
    fn dict_display(&self, input: &mut Input<'_>) -> Result<Expr, Halt>
        requires { Nests self.now.here self.now.room (F.pre self.now.expr) (F.post self.now.expr) }
        ensures { Reads (spec.read_dict_display self.now.here (is_positive self.now.room) (below self.now.here self.now.room) input.old) result input.new }
    {
        if !self.here {
            return Err(Halt::no_room(input.sees(ExprSet::OpenBrace)));
        }
        let at = input.expect(ExprSet::OpenBrace)?.token.span.start;
        let (all, _) = self.entries(input)?;
        input.expect(ExprSet::CloseBrace)?;
        Ok(Expr::Dict(at, all))
    }

    #[tactic(auto, unfolding(expr_grammar::specs::Reading::read_call, forms::specs::Readers::read_both, forms::specs::Readers::read_guard, forms::specs::Readers::refuse))]
    fn call(&self, input: &mut Input<'_>) -> Result<Part, Halt>
        requires { Nests self.now.here self.now.room (F.pre self.now.expr) (F.post self.now.expr) }
        ensures { Reads (spec.read_call self.now.here (is_positive self.now.room) (below self.now.here self.now.room) input.old) result input.new }
    {
        if !self.here {
            return Err(Halt::no_room(input.sees(ExprSet::OpenParenthesis)));
        }
        let at = input.expect(ExprSet::OpenParenthesis)?.token.span.start;
        let (all, _) = self.arguments(input)?;
        input.expect(ExprSet::CloseParenthesis)?;
        Ok(Part::Call(at, all))
    }

    #[tactic(auto, unfolding(expr_grammar::specs::Reading::read_indexing, forms::specs::Readers::read_both, forms::specs::Readers::read_guard, forms::specs::Readers::refuse))]
    fn indexing(&self, input: &mut Input<'_>) -> Result<Part, Halt>
        requires { Nests self.now.here self.now.room (F.pre self.now.expr) (F.post self.now.expr) }
        ensures { Reads (spec.read_indexing self.now.here (is_positive self.now.room) (below self.now.here self.now.room) input.old) result input.new }
    {
        if !self.here {
            return Err(Halt::no_room(input.sees(ExprSet::OpenBracket)));
        }
        let at = input.expect(ExprSet::OpenBracket)?.token.span.start;
        let (all, _) = self.indexes(input)?;
        input.expect(ExprSet::CloseBracket)?;
        Ok(Part::Item(at, all))
    }

    #[tactic(auto, unfolding(forms::specs::Readers::read_or))]
    fn display(&self, input: &mut Input<'_>) -> Result<Expr, Halt>
        requires { Nests self.now.here self.now.room (F.pre self.now.expr) (F.post self.now.expr) }
        ensures { Reads (read_or (of set.is_open_parenthesis) (spec.read_group self.now.here (is_positive self.now.room) (below self.now.here self.now.room)) (read_or (of set.is_open_bracket) (spec.read_list_display self.now.here (is_positive self.now.room) (below self.now.here self.now.room)) (spec.read_dict_display self.now.here (is_positive self.now.room) (below self.now.here self.now.room))) input.old) result input.new }
    {
        if input.sees(ExprSet::OpenParenthesis) {
            return self.group(input);
        }
        if input.sees(ExprSet::OpenBracket) {
            return self.list_display(input);
        }
        self.dict_display(input)
    }

    #[tactic(auto, unfolding(forms::specs::Readers::read_or))]
    fn constant(&self, input: &mut Input<'_>) -> Result<Expr, Halt>
        requires { Nests self.now.here self.now.room (F.pre self.now.expr) (F.post self.now.expr) }
        ensures { Reads (read_or (of set.is_none) (read_one (of set.is_none) node.none_node) (read_or (of set.is_true) (read_one (of set.is_true) node.true_node) (read_or (of set.is_false) (read_one (of set.is_false) node.false_node) (read_or (of set.is_open_parenthesis) (spec.read_group self.now.here (is_positive self.now.room) (below self.now.here self.now.room)) (read_or (of set.is_open_bracket) (spec.read_list_display self.now.here (is_positive self.now.room) (below self.now.here self.now.room)) (spec.read_dict_display self.now.here (is_positive self.now.room) (below self.now.here self.now.room)))))) input.old) result input.new }
    {
        if input.sees(ExprSet::None) {
            return none(input);
        }
        if input.sees(ExprSet::True) {
            return truth(input);
        }
        if input.sees(ExprSet::False) {
            return falsehood(input);
        }
        self.display(input)
    }

    #[tactic(auto, unfolding(expr_grammar::specs::Reading::read_atom, forms::specs::Readers::read_or))]
    fn atom(&self, input: &mut Input<'_>) -> Result<Expr, Halt>
        requires { Nests self.now.here self.now.room (F.pre self.now.expr) (F.post self.now.expr) }
        ensures { Reads (spec.read_atom self.now.here (is_positive self.now.room) (below self.now.here self.now.room) input.old) result input.new }
    {
        if input.sees(ExprSet::Name) {
            return name(self.alloc, input);
        }
        if input.sees(ExprSet::Int) {
            return int(input);
        }
        if input.sees(ExprSet::Str) {
            return strings(self.alloc, input);
        }
        self.constant(input)
    }

    #[tactic(auto, unfolding(expr_grammar::specs::Reading::read_part, forms::specs::Readers::read_or))]
    fn part(&self, input: &mut Input<'_>) -> Result<Part, Halt>
        requires { Nests self.now.here self.now.room (F.pre self.now.expr) (F.post self.now.expr) }
        ensures { Reads (spec.read_part self.now.here (is_positive self.now.room) (below self.now.here self.now.room) input.old) result input.new }
    {
        if input.sees(ExprSet::Dot) {
            return attribute(self.alloc, input);
        }
        if input.sees(ExprSet::OpenParenthesis) {
            return self.call(input);
        }
        self.indexing(input)
    }

    fn parts(&self, input: &mut Input<'_>) -> Result<Items<Part>, Halt>
        requires { Nests self.now.here self.now.room (F.pre self.now.expr) (F.post self.now.expr) }
        ensures { Reads (read_many (of set.trails) (spec.read_part self.now.here (is_positive self.now.room) (below self.now.here self.now.room)) input.old) result input.new }
    {
        let mut found = Items::new(self.alloc);
        for _turn in 0..input.len() {
            if !input.sees(ExprSet::Trails) {
                return Ok(found);
            }
            let part = self.part(input)?;
            found.push(part)?;
        }
        Ok(found)
    }

    #[tactic(auto, unfolding(expr_grammar::specs::Reading::read_postfix, forms::specs::Readers::read_both, forms::specs::Readers::read_placed))]
    pub(crate) fn postfix(&self, input: &mut Input<'_>) -> Result<Expr, Halt>
        requires { Nests self.now.here self.now.room (F.pre self.now.expr) (F.post self.now.expr) }
        ensures { Reads (spec.read_postfix self.now.here (is_positive self.now.room) (below self.now.here self.now.room) input.old) result input.new }
    {
        let at = input.at();
        let first = self.atom(input)?;
        let more = self.parts(input)?;
        Ok(postfix_node(self.alloc, at, first, more)?)
    }
}
