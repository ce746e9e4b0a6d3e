//! The atoms and parts that hold no expression (Python language reference, 6.2 and 6.3.1).
ghost use Rattle.forms.specs.Readers.{read_both, read_one, read_many};
ghost use Rattle.forms.specs.Lists.{pair};
ghost use Rattle.token_class.specs.Sets.{of};
ghost use Rattle.expr_grammar.specs.Words as set;
ghost use Rattle.expr_grammar.specs.Nodes as node;
ghost use Rattle.expr_grammar.specs.Reading as spec;
ghost use Rattle.token_input.specs.Reads.{Reads};

use crate::nodes::joined_text;
use cy_base::Text;
use cy_tree::{Expr, Part};
use sqlite_items::Items;
use std::alloc::Global;
use token_input::{ExprSet, Halt, Input};

#[tactic(auto, unfolding(forms::specs::Readers::read_one))]
pub(crate) fn name(alloc: Global, input: &mut Input<'_>) -> Result<Expr, Halt>
    ensures { Reads (read_one (of set.is_name) node.name_node input.old) result input.new }
{
    let name = input.ident(alloc, ExprSet::Name)?;
    Ok(Expr::Name(name))
}

#[tactic(auto, unfolding(forms::specs::Readers::read_one))]
pub(crate) fn int(input: &mut Input<'_>) -> Result<Expr, Halt>
    ensures { Reads (read_one (of set.is_int) node.int_node input.old) result input.new }
{
    let at = input.at();
    let value = input.int()?;
    Ok(Expr::Int(at, value))
}

#[tactic(auto, unfolding(forms::specs::Readers::read_one))]
pub(crate) fn none(input: &mut Input<'_>) -> Result<Expr, Halt>
    ensures { Reads (read_one (of set.is_none) node.none_node input.old) result input.new }
{
    let at = input.expect(ExprSet::None)?.token.span.start;
    Ok(Expr::NoneNode(at))
}

#[tactic(auto, unfolding(forms::specs::Readers::read_one))]
pub(crate) fn truth(input: &mut Input<'_>) -> Result<Expr, Halt>
    ensures { Reads (read_one (of set.is_true) node.true_node input.old) result input.new }
{
    let at = input.expect(ExprSet::True)?.token.span.start;
    Ok(Expr::TrueNode(at))
}

#[tactic(auto, unfolding(forms::specs::Readers::read_one))]
pub(crate) fn falsehood(input: &mut Input<'_>) -> Result<Expr, Halt>
    ensures { Reads (read_one (of set.is_false) node.false_node input.old) result input.new }
{
    let at = input.expect(ExprSet::False)?.token.span.start;
    Ok(Expr::FalseNode(at))
}

fn more_strings(alloc: Global, input: &mut Input<'_>) -> Result<Items<Text>, Halt>
    ensures { Reads (read_many (of set.is_str) (read_one (of set.is_str) node.text) input.old) result input.new }
{
    let mut found = Items::new(alloc);
    for _turn in 0..input.len() {
        if !input.sees(ExprSet::Str) {
            return Ok(found);
        }
        let text = input.string(alloc)?;
        found.push(text)?;
    }
    Ok(found)
}

#[tactic(auto, unfolding(forms::specs::Readers::read_both))]
fn string_parts(alloc: Global, input: &mut Input<'_>) -> Result<(Text, Items<Text>), Halt>
    ensures { Reads (read_both pair (read_one (of set.is_str) node.text) (read_many (of set.is_str) (read_one (of set.is_str) node.text)) input.old) result input.new }
{
    let first = input.string(alloc)?;
    let more = more_strings(alloc, input)?;
    Ok((first, more))
}

#[tactic(auto, unfolding(expr_grammar::specs::Reading::read_strings, forms::specs::Readers::read_placed))]
pub(crate) fn strings(alloc: Global, input: &mut Input<'_>) -> Result<Expr, Halt>
    ensures { Reads (spec.read_strings input.old) result input.new }
{
    let at = input.at();
    let (first, more) = string_parts(alloc, input)?;
    Ok(Expr::Str(at, joined_text(alloc, first, more)?))
}

#[tactic(auto, unfolding(expr_grammar::specs::Reading::read_attribute, forms::specs::Readers::read_both))]
pub(crate) fn attribute(alloc: Global, input: &mut Input<'_>) -> Result<Part, Halt>
    ensures { Reads (spec.read_attribute input.old) result input.new }
{
    let at = input.expect(ExprSet::Dot)?.token.span.start;
    let name = input.ident(alloc, ExprSet::Name)?;
    Ok(Part::Attribute(at, name))
}
