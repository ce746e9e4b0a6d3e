//! The heads of functions: parameters, exception clauses and `nogil`.
ghost use Rattle.std.specs.Prelude.{◌≡◌, ◌≢◌, ◌∷◌, [], false};
ghost use Rattle.forms.specs.Readers.{and_then, did, read_both, read_one, read_or, read_nothing};
ghost use Rattle.forms.specs.Lists.{first, second, pair, push, itself, read_trail_upto};
ghost use Rattle.token_class.specs.Sets.{of};
ghost use Rattle.expr_grammar.specs.Words as set;
ghost use Rattle.expr_grammar.specs.Nodes as expr_node;
ghost use Rattle.expr_grammar.specs.Grammar.{pair_of_three};
ghost use Rattle.expr_grammar.specs.Reading as expr_spec;
ghost use Rattle.decl_grammar.specs.Words as words;
ghost use Rattle.decl_grammar.specs.Nodes as node;
ghost use Rattle.decl_grammar.specs.Grammar.{three};
ghost use Rattle.decl_grammar.specs.Factored as factored;
ghost use Rattle.decl_grammar.specs.Reading as spec;
ghost use Rattle.decl_grammar.specs.Files.{in_brackets};
ghost use Rattle.token_input.specs.Reads.{Reads};
ghost use Rattle.pyx_head.specs.NoneMore.{NoneMore};

use cy_tree::{ClauseNode, Expr, Header, Param};
use pyx_lex::Token;
use pyx_stmt::{StmtSet, typed_name, value_if_any};
use sqlite_items::Items;
use std::alloc::Global;
use token_input::{ExprSet, Halt, Input, joined};

/// How many things may be opened in the brackets of a header; those are one of the hundred.
const IN_BRACKETS: usize = 99;

// ---- exception clauses

#[tactic(auto, unfolding(forms::specs::Readers::read_both))]
fn signed(input: &mut Input<'_>) -> Result<(bool, u128), Halt>
    ensures { Reads (read_both pair (expr_spec.read_flag words.is_minus) (read_one (of set.is_int) expr_node.int_of) input.old) result input.new }
{
    let negative = input.flag(StmtSet::Minus);
    let value = input.int()?;
    Ok((negative, value))
}

#[tactic(auto, unfolding(decl_grammar::specs::Reading::read_amount, forms::specs::Readers::read_placed))]
fn amount(input: &mut Input<'_>) -> Result<(u32, bool, u128), Halt>
    ensures { Reads (spec.read_amount input.old) result input.new }
{
    let at = input.at();
    let (negative, value) = signed(input)?;
    Ok((at, negative, value))
}

#[tactic(auto, unfolding(forms::specs::Readers::read_both))]
fn given(input: &mut Input<'_>) -> Result<(bool, (u32, bool, u128)), Halt>
    ensures { Reads (read_both pair (expr_spec.read_flag set.is_question_mark) spec.read_amount input.old) result input.new }
{
    let maybe = input.flag(ExprSet::QuestionMark);
    let amount = amount(input)?;
    Ok((maybe, amount))
}

// What stands behind `except`, which is given.
#[tactic(auto, unfolding(forms::specs::Readers::read_or, forms::specs::Readers::read_both, forms::specs::Readers::read_nothing))]
fn behind_except(input: &mut Input<'_>, word: &Token) -> Result<ClauseNode, Halt>
    ensures { Reads (and_then (read_or (of words.is_star) (spec.read_mapped (factored.flipped node.star_node) (read_one (of words.is_star) itself)) (spec.read_mapped (factored.flipped node.value_node) (read_both pair (expr_spec.read_flag set.is_question_mark) spec.read_amount)) input.old) (λ f r. did (f word.now) r)) result input.new }
{
    let at = word.span.start;
    if input.sees(StmtSet::Star) {
        input.expect(StmtSet::Star)?;
        return Ok(ClauseNode::Star(at));
    }
    let (maybe, (value_at, negative, value)) = given(input)?;
    Ok(ClauseNode::Value {
        at,
        maybe,
        value_at,
        negative,
        value,
    })
}

#[tactic(auto, unfolding(forms::specs::Readers::read_both))]
fn except_clause(input: &mut Input<'_>) -> Result<ClauseNode, Halt>
    ensures { Reads (spec.read_fork node.star_node node.value_node (read_one (of words.is_except) itself) words.is_star (read_one (of words.is_star) itself) (read_both pair (expr_spec.read_flag set.is_question_mark) spec.read_amount) input.old) result input.new }
{
    let word = input.expect(StmtSet::Except)?.token;
    behind_except(input, word)
}

#[tactic(auto, unfolding(forms::specs::Readers::read_one))]
fn noexcept(input: &mut Input<'_>) -> Result<ClauseNode, Halt>
    ensures { Reads (read_one (of words.is_noexcept) node.noexcept_node input.old) result input.new }
{
    let taken = input.expect(StmtSet::Noexcept)?;
    Ok(ClauseNode::Noexcept(taken.token.span.start))
}

#[tactic(auto, unfolding(decl_grammar::specs::Reading::read_clause, forms::specs::Readers::read_or))]
fn clause(input: &mut Input<'_>) -> Result<ClauseNode, Halt>
    ensures { Reads (spec.read_clause input.old) result input.new }
{
    if input.sees(StmtSet::Except) {
        return except_clause(input);
    }
    noexcept(input)
}

#[tactic(auto, unfolding(forms::specs::Readers::read_both, forms::specs::Readers::read_or, forms::specs::Readers::read_nothing))]
fn clause_if_any(input: &mut Input<'_>) -> Result<Option<ClauseNode>, Halt>
    ensures { Reads (expr_spec.read_opt spec.begins_clause spec.read_clause input.old) result input.new }
{
    if !input.sees(StmtSet::BeginsClause) {
        return Ok(None);
    }
    let clause = clause(input)?;
    Ok(Some(clause))
}

#[tactic(auto, unfolding(forms::specs::Readers::read_one))]
fn nogil(input: &mut Input<'_>) -> Result<u32, Halt>
    ensures { Reads (read_one (of words.is_nogil) expr_node.at input.old) result input.new }
{
    let taken = input.expect(StmtSet::Nogil)?;
    Ok(taken.token.span.start)
}

#[tactic(auto, unfolding(forms::specs::Readers::read_both, forms::specs::Readers::read_or, forms::specs::Readers::read_nothing))]
fn nogil_if_any(input: &mut Input<'_>) -> Result<Option<u32>, Halt>
    ensures { Reads (expr_spec.read_opt words.is_nogil (read_one (of words.is_nogil) expr_node.at) input.old) result input.new }
{
    if !input.sees(StmtSet::Nogil) {
        return Ok(None);
    }
    let at = nogil(input)?;
    Ok(Some(at))
}

#[tactic(auto, unfolding(forms::specs::Readers::read_both))]
fn clause_first(input: &mut Input<'_>) -> Result<(Option<ClauseNode>, Option<u32>), Halt>
    ensures { Reads (read_both factored.clause_then spec.read_clause (expr_spec.read_opt words.is_nogil (read_one (of words.is_nogil) expr_node.at)) input.old) result input.new }
{
    let given = clause(input)?;
    let word = nogil_if_any(input)?;
    Ok((Some(given), word))
}

#[tactic(auto, unfolding(forms::specs::Readers::read_both))]
fn nogil_first(input: &mut Input<'_>) -> Result<(Option<ClauseNode>, Option<u32>), Halt>
    ensures { Reads (read_both factored.nogil_then (read_one (of words.is_nogil) expr_node.at) (expr_spec.read_opt spec.begins_clause spec.read_clause) input.old) result input.new }
{
    let word = nogil(input)?;
    let given = clause_if_any(input)?;
    Ok((given, Some(word)))
}

#[tactic(auto, unfolding(decl_grammar::specs::Reading::read_marks, forms::specs::Readers::read_or, forms::specs::Readers::read_nothing))]
fn marks(input: &mut Input<'_>) -> Result<(Option<ClauseNode>, Option<u32>), Halt>
    ensures { Reads (spec.read_marks input.old) result input.new }
{
    if input.sees(StmtSet::BeginsClause) {
        return clause_first(input);
    }
    if input.sees(StmtSet::Nogil) {
        return nogil_first(input);
    }
    Ok((None, None))
}

// ---- parameters

#[tactic(auto, unfolding(decl_grammar::specs::Reading::read_never_none, forms::specs::Readers::read_both))]
fn never_none(input: &mut Input<'_>) -> Result<u32, Halt>
    ensures { Reads (spec.read_never_none in_brackets input.old) result input.new }
{
    let at = input.expect(ExprSet::Not)?.token.span.start;
    input.expect(ExprSet::None)?;
    Ok(at)
}

#[tactic(auto, unfolding(forms::specs::Readers::read_both, forms::specs::Readers::read_or, forms::specs::Readers::read_nothing))]
fn never_none_if_any(input: &mut Input<'_>) -> Result<Option<u32>, Halt>
    ensures { Reads (expr_spec.read_opt set.is_not (spec.read_never_none in_brackets) input.old) result input.new }
{
    if !input.sees(ExprSet::Not) {
        return Ok(None);
    }
    let at = never_none(input)?;
    Ok(Some(at))
}

#[tactic(auto, unfolding(forms::specs::Readers::read_both))]
fn behind_parameter(
    alloc: Global,
    input: &mut Input<'_>,
) -> Result<(Option<u32>, Option<Expr>), Halt>
    ensures { Reads (read_both pair (expr_spec.read_opt set.is_not (spec.read_never_none in_brackets)) (expr_spec.read_opt words.is_assign (spec.read_value in_brackets)) input.old) result input.new }
{
    let not_none = never_none_if_any(input)?;
    let default = value_if_any(alloc, input, IN_BRACKETS)?;
    Ok((not_none, default))
}

#[tactic(auto, unfolding(decl_grammar::specs::Reading::read_param, forms::specs::Readers::read_both))]
fn param(alloc: Global, input: &mut Input<'_>) -> Result<Param, Halt>
    ensures { Reads (spec.read_param in_brackets input.old) result input.new }
{
    let (kind, name) = typed_name(alloc, input, IN_BRACKETS)?;
    let (not_none, default) = behind_parameter(alloc, input)?;
    Ok(Param {
        kind,
        name,
        not_none,
        default,
    })
}

fn more_params(alloc: Global, input: &mut Input<'_>) -> Result<(Items<Param>, bool), Halt>
    ensures { Reads (read_trail_upto 31 (of set.is_comma) (of set.begins_type) three (spec.read_param in_brackets) input.old) result input.new }
{
    let mut found = Items::new(alloc);
    for _turn in 0..31usize {
        if !input.flag(ExprSet::Comma) {
            return Ok((found, false));
        }
        if !input.sees(StmtSet::BeginsType) {
            return Ok((found, true));
        }
        let next = param(alloc, input)?;
        found.push(next)?;
    }
    let comma = no_param(input)?;
    Ok((found, comma))
}

// A comma may stand behind the last parameter that may, and nothing behind that.
fn no_param(input: &mut Input<'_>) -> Result<bool, Halt>
    ensures { NoneMore (read_trail_upto 0 (of set.is_comma) (of set.begins_type) three (spec.read_param in_brackets) input.old) result input.new }
{
    if !input.flag(ExprSet::Comma) {
        return Ok(false);
    }
    if !input.sees(StmtSet::BeginsType) {
        return Ok(true);
    }
    Err(Halt::Limit(3))
}

#[tactic(auto, unfolding(forms::specs::Readers::read_both))]
fn some_params(alloc: Global, input: &mut Input<'_>) -> Result<(Items<Param>, bool), Halt>
    ensures { Reads (read_both push (spec.read_param in_brackets) (read_trail_upto 31 (of set.is_comma) (of set.begins_type) three (spec.read_param in_brackets)) input.old) result input.new }
{
    let first = param(alloc, input)?;
    let (more, comma) = more_params(alloc, input)?;
    Ok((joined(alloc, first, more)?, comma))
}

#[tactic(auto, unfolding(decl_grammar::specs::Reading::read_params, forms::specs::Readers::read_or, forms::specs::Readers::read_nothing))]
fn params(alloc: Global, input: &mut Input<'_>) -> Result<(Items<Param>, bool), Halt>
    ensures { Reads (spec.read_params in_brackets input.old) result input.new }
{
    if !input.sees(StmtSet::BeginsType) {
        return Ok((Items::new(alloc), false));
    }
    some_params(alloc, input)
}

#[tactic(auto, unfolding(forms::specs::Readers::read_both))]
fn closed_params(alloc: Global, input: &mut Input<'_>) -> Result<(Items<Param>, bool), Halt>
    ensures { Reads (read_both first (spec.read_params in_brackets) (read_one (of set.is_close_parenthesis) itself) input.old) result input.new }
{
    let (params, comma) = params(alloc, input)?;
    input.expect(ExprSet::CloseParenthesis)?;
    Ok((params, comma))
}

/// Reads parameters in brackets.
#[tactic(auto, unfolding(decl_grammar::specs::Reading::read_parameters, forms::specs::Readers::read_both))]
pub fn parameters(alloc: Global, input: &mut Input<'_>) -> Result<Items<Param>, Halt>
    ensures { Reads (spec.read_parameters in_brackets input.old) result input.new }
{
    input.expect(ExprSet::OpenParenthesis)?;
    let (params, _comma) = closed_params(alloc, input)?;
    Ok(params)
}

/// Reads the head of a C function behind its name.
#[tactic(auto, unfolding(decl_grammar::specs::Reading::read_header, forms::specs::Readers::read_both))]
pub fn header(alloc: Global, input: &mut Input<'_>) -> Result<Header, Halt>
    ensures { Reads (spec.read_header in_brackets input.old) result input.new }
{
    let params = parameters(alloc, input)?;
    let (clause, nogil) = marks(input)?;
    Ok(Header {
        params,
        clause,
        nogil,
    })
}
