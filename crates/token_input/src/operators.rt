//! The operators of comparisons (Python language reference, 6.10).
ghost use Rattle.std.specs.Prelude.{◌≡◌};
ghost use Rattle.forms.specs.Readers.{read_both, read_one};
ghost use Rattle.forms.specs.Lists.{itself};
ghost use Rattle.token_class.specs.Sets.{of};
ghost use Rattle.expr_grammar.specs.Words as set;
ghost use Rattle.expr_grammar.specs.Nodes as node;
ghost use Rattle.expr_grammar.specs.Reading as spec;
ghost use Rattle.token_input.specs.Reads.{Reads};

use crate::halt::Halt;
use crate::input::Input;
use crate::words::ExprSet;
use cy_tree::Comparison;

#[tactic(auto, unfolding(forms::specs::Readers::read_both))]
fn is_or_is_not(input: &mut Input<'_>) -> Result<(Comparison, u32), Halt>
    ensures { Reads (read_both node.is_node (read_one (of set.is_is) itself) (spec.read_flag set.is_not) input.old) result input.new }
{
    let at = input.expect(ExprSet::Is)?.token.span.start;
    if input.flag(ExprSet::Not) {
        Ok((Comparison::IsNot, at))
    } else {
        Ok((Comparison::Is, at))
    }
}

#[tactic(auto, unfolding(forms::specs::Readers::read_both))]
fn not_in(input: &mut Input<'_>) -> Result<(Comparison, u32), Halt>
    ensures { Reads (read_both node.not_in_node (read_one (of set.is_not) itself) (read_one (of set.is_in) itself) input.old) result input.new }
{
    let at = input.expect(ExprSet::Not)?.token.span.start;
    input.expect(ExprSet::In)?;
    Ok((Comparison::NotIn, at))
}

/// Reads the operator of a comparison, and its first byte.
#[tactic(auto, unfolding(expr_grammar::specs::Reading::read_cop, forms::specs::Readers::read_or))]
pub fn comparison(input: &mut Input<'_>) -> Result<(Comparison, u32), Halt>
    ensures { Reads (spec.read_cop input.old) result input.new }
{
    if input.sees(ExprSet::Order) {
        return input.order();
    }
    if input.sees(ExprSet::Is) {
        return is_or_is_not(input);
    }
    if input.sees(ExprSet::In) {
        return input.within();
    }
    not_in(input)
}
