//! Types (Cython documentation, "Language Basics" and "Typed Memoryviews").
ghost use Rattle.std.specs.Prelude.{◌≡◌, ◌≢◌, ◌∷◌, [], Bool, IfOk};
ghost use Rattle.forms.specs.Readers.{Reader, read_both, read_one, bad, refuse, read_guard, read_or, read_nothing};
ghost use Rattle.forms.specs.Lists.{first, second, pair, itself, read_many_upto};
ghost use Rattle.token_class.specs.Sets.{of};
ghost use Rattle.expr_grammar.specs.Words as set;
ghost use Rattle.expr_grammar.specs.Grammar.{four, is_positive, two};
ghost use Rattle.expr_grammar.specs.declared.Level.{Level};
ghost use Rattle.cy_tree.specs.declared.expr.Expr.{Expr};
ghost use Rattle.pyx_lex.specs.declared.token.Token.{Token};
ghost use Rattle.expr_grammar.specs.Reading as spec;
ghost use Rattle.expr_grammar.specs.Nodes as node;
ghost use Rattle.token_input.specs.Reads.{Reads, Fails};

use crate::halt::Halt;
use crate::input::Input;
use crate::lists::joined;
use crate::words::ExprSet;
use cy_tree::{Dim, Ident, NumberWords, TypeName, TypeNode};
use expr_grammar::Longs;
use sqlite_items::Items;
use std::alloc::Global;

#[tactic(auto, unfolding(expr_grammar::specs::Reading::read_short, forms::specs::Readers::read_both))]
fn short(input: &mut Input<'_>) -> Result<NumberWords, Halt>
    ensures { Reads (spec.read_short input.old) result input.new }
{
    input.expect(ExprSet::Short)?;
    if input.flag(ExprSet::IntWord) {
        Ok(NumberWords::ShortInt)
    } else {
        Ok(NumberWords::Short)
    }
}

#[tactic(auto, unfolding(expr_grammar::specs::Reading::read_length, forms::specs::Readers::read_both, forms::specs::Readers::read_or, forms::specs::Readers::read_one, forms::specs::Readers::read_nothing))]
fn length(input: &mut Input<'_>) -> Result<Longs, Halt>
    ensures { Reads (spec.read_length input.old) result input.new }
{
    if input.sees(ExprSet::Long) {
        input.expect(ExprSet::Long)?;
        if input.flag(ExprSet::IntWord) {
            return Ok(Longs::LongInt);
        }
        return Ok(Longs::Long);
    }
    if input.flag(ExprSet::IntWord) {
        return Ok(Longs::Int);
    }
    Ok(Longs::Bare)
}

fn long_words(longs: Longs) -> NumberWords
    ensures { result ≡ node.long_words longs }
{
    match longs {
        Longs::Bare => NumberWords::Long,
        Longs::Int => NumberWords::LongInt,
        Longs::Long => NumberWords::LongLong,
        Longs::LongInt => NumberWords::LongLongInt,
    }
}

#[tactic(auto, unfolding(expr_grammar::specs::Reading::read_long, forms::specs::Readers::read_both))]
fn long(input: &mut Input<'_>) -> Result<NumberWords, Halt>
    ensures { Reads (spec.read_long input.old) result input.new }
{
    input.expect(ExprSet::Long)?;
    let longs = length(input)?;
    Ok(long_words(longs))
}

#[tactic(auto, unfolding(expr_grammar::specs::Reading::read_signed, forms::specs::Readers::read_both, forms::specs::Readers::read_or, forms::specs::Readers::read_one, forms::specs::Readers::read_nothing))]
fn signed(input: &mut Input<'_>) -> Result<NumberWords, Halt>
    ensures { Reads (spec.read_signed input.old) result input.new }
{
    input.expect(ExprSet::Signed)?;
    if input.flag(ExprSet::Char) {
        Ok(NumberWords::SignedChar)
    } else {
        Err(Halt::Unexpected)
    }
}

#[tactic(auto, unfolding(forms::specs::Readers::read_both))]
fn unsigned_short(input: &mut Input<'_>) -> Result<NumberWords, Halt>
    ensures { Reads (read_both node.unsigned_short (read_one (of set.is_short) itself) (spec.read_flag set.is_int_word) input.old) result input.new }
{
    input.expect(ExprSet::Short)?;
    if input.flag(ExprSet::IntWord) {
        Ok(NumberWords::UnsignedShortInt)
    } else {
        Ok(NumberWords::UnsignedShort)
    }
}

fn unsigned_long_words(longs: Longs) -> NumberWords
    ensures { result ≡ node.unsigned_long_words longs }
{
    match longs {
        Longs::Bare => NumberWords::UnsignedLong,
        Longs::Int => NumberWords::UnsignedLongInt,
        Longs::Long => NumberWords::UnsignedLongLong,
        Longs::LongInt => NumberWords::UnsignedLongLongInt,
    }
}

#[tactic(auto, unfolding(forms::specs::Readers::read_both))]
fn unsigned_long(input: &mut Input<'_>) -> Result<NumberWords, Halt>
    ensures { Reads (read_both node.unsigned_long (read_one (of set.is_long) itself) spec.read_length input.old) result input.new }
{
    input.expect(ExprSet::Long)?;
    let longs = length(input)?;
    Ok(unsigned_long_words(longs))
}

#[tactic(auto, unfolding(forms::specs::Readers::read_or, forms::specs::Readers::read_one, forms::specs::Readers::read_nothing))]
fn unsigned_int_or_long(input: &mut Input<'_>) -> Result<NumberWords, Halt>
    ensures { Reads (read_or (of set.is_int_word) (read_one (of set.is_int_word) (λ x. NumberWords.UnsignedInt)) (read_or (of set.is_long) (read_both node.unsigned_long (read_one (of set.is_long) itself) spec.read_length) (read_nothing NumberWords.Unsigned)) input.old) result input.new }
{
    if input.sees(ExprSet::IntWord) {
        input.expect(ExprSet::IntWord)?;
        return Ok(NumberWords::UnsignedInt);
    }
    if input.sees(ExprSet::Long) {
        return unsigned_long(input);
    }
    Ok(NumberWords::Unsigned)
}

#[tactic(auto, unfolding(expr_grammar::specs::Reading::read_behind_unsigned, forms::specs::Readers::read_or, forms::specs::Readers::read_one, forms::specs::Readers::read_nothing))]
fn behind_unsigned(input: &mut Input<'_>) -> Result<NumberWords, Halt>
    ensures { Reads (spec.read_behind_unsigned input.old) result input.new }
{
    if input.sees(ExprSet::Char) {
        input.expect(ExprSet::Char)?;
        return Ok(NumberWords::UnsignedChar);
    }
    if input.sees(ExprSet::Short) {
        return unsigned_short(input);
    }
    unsigned_int_or_long(input)
}

#[tactic(auto, unfolding(expr_grammar::specs::Reading::read_unsigned, forms::specs::Readers::read_both))]
fn unsigned(input: &mut Input<'_>) -> Result<NumberWords, Halt>
    ensures { Reads (spec.read_unsigned input.old) result input.new }
{
    input.expect(ExprSet::Unsigned)?;
    behind_unsigned(input)
}

#[tactic(auto, unfolding(expr_grammar::specs::Reading::read_number_words, forms::specs::Readers::read_or, forms::specs::Readers::read_one))]
fn number_words(input: &mut Input<'_>) -> Result<NumberWords, Halt>
    ensures { Reads (spec.read_number_words input.old) result input.new }
{
    if input.sees(ExprSet::Signed) {
        return signed(input);
    }
    if input.sees(ExprSet::Unsigned) {
        return unsigned(input);
    }
    if input.sees(ExprSet::Short) {
        return short(input);
    }
    if input.sees(ExprSet::IntWord) {
        input.expect(ExprSet::IntWord)?;
        return Ok(NumberWords::Int);
    }
    if input.sees(ExprSet::Long) {
        return long(input);
    }
    input.lone()
}

/// Reads a name behind a dot.
#[tactic(auto, unfolding(expr_grammar::specs::Reading::read_member, forms::specs::Readers::read_both))]
pub fn member(alloc: Global, input: &mut Input<'_>) -> Result<Ident, Halt>
    ensures { Reads (spec.read_member input.old) result input.new }
{
    input.expect(ExprSet::Dot)?;
    input.ident(alloc, ExprSet::Name)
}

#[tactic(auto, unfolding(forms::specs::Readers::read_both, forms::specs::Readers::read_or, forms::specs::Readers::read_nothing))]
fn named(alloc: Global, input: &mut Input<'_>) -> Result<TypeName, Halt>
    ensures { Reads (read_both node.named_node (read_one (of set.is_plain_name) node.ident) (spec.read_opt set.is_dot spec.read_member) input.old) result input.new }
{
    let module = input.ident(alloc, ExprSet::PlainName)?;
    if !input.sees(ExprSet::Dot) {
        return Ok(TypeName::Named(module));
    }
    let name = member(alloc, input)?;
    Ok(TypeName::Member(module, name))
}

/// Reads the words of a type.
#[tactic(auto, unfolding(expr_grammar::specs::Reading::read_type_name, forms::specs::Readers::read_both, forms::specs::Readers::read_or, forms::specs::Readers::read_nothing))]
pub fn type_name(alloc: Global, input: &mut Input<'_>) -> Result<TypeName, Halt>
    ensures { Reads (spec.read_type_name input.old) result input.new }
{
    if input.sees(ExprSet::BeginsNumber) {
        let words = number_words(input)?;
        return Ok(TypeName::Number(words));
    }
    named(alloc, input)
}

#[tactic(auto, unfolding(forms::specs::Readers::read_both))]
fn step(input: &mut Input<'_>) -> Result<u128, Halt>
    ensures { Reads (read_both second (read_one (of set.is_colon) itself) (read_one (of set.is_int) node.int_of) input.old) result input.new }
{
    input.expect(ExprSet::Colon)?;
    input.int()
}

#[tactic(auto, unfolding(expr_grammar::specs::Reading::read_dim, forms::specs::Readers::read_both, forms::specs::Readers::read_or, forms::specs::Readers::read_nothing))]
fn dim(input: &mut Input<'_>) -> Result<Dim, Halt>
    ensures { Reads (spec.read_dim input.old) result input.new }
{
    let at = input.expect(ExprSet::Colon)?.token.span.start;
    if !input.sees(ExprSet::Colon) {
        return Ok(Dim { at, step: None });
    }
    let step = step(input)?;
    Ok(Dim {
        at,
        step: Some(step),
    })
}

#[tactic(auto, unfolding(forms::specs::Readers::read_both))]
fn next_dim(input: &mut Input<'_>) -> Result<Dim, Halt>
    ensures { Reads (read_both second (read_one (of set.is_comma) itself) spec.read_dim input.old) result input.new }
{
    input.expect(ExprSet::Comma)?;
    dim(input)
}

// A fourth dimension is one too many.
#[tactic(auto, unfolding(forms::specs::Readers::read_both, forms::specs::Readers::refuse))]
fn fourth_dim(input: &mut Input<'_>) -> Halt
    ensures rule { Fails (read_both second (read_one (of set.is_comma) itself) (refuse {A = Dim} (of set.is_colon) four) input.old) result input.new }
{
    if input.expect(ExprSet::Comma).is_err() {
        return Halt::Unexpected;
    }
    if input.sees(ExprSet::Colon) {
        Halt::Limit(4)
    } else {
        Halt::Unexpected
    }
}

// The dimensions behind the third.
#[tactic(auto, unfolding(forms::specs::Readers::read_both, forms::specs::Readers::read_or, forms::specs::Readers::read_nothing, forms::specs::Lists::read_many_upto))]
fn behind_third(alloc: Global, input: &mut Input<'_>) -> Result<Items<Dim>, Halt>
    ensures { Reads (read_many_upto 0 (of set.is_comma) (read_both second (read_one (of set.is_comma) itself) spec.read_dim) (read_both second (read_one (of set.is_comma) itself) (refuse (of set.is_colon) four)) input.old) result input.new }
{
    if !input.sees(ExprSet::Comma) {
        return Ok(Items::new(alloc));
    }
    Err(fourth_dim(input))
}

#[tactic(auto, unfolding(forms::specs::Readers::read_both, forms::specs::Readers::read_or, forms::specs::Readers::read_nothing, forms::specs::Lists::read_many_upto))]
fn behind_second(alloc: Global, input: &mut Input<'_>) -> Result<Items<Dim>, Halt>
    ensures { Reads (read_many_upto 1 (of set.is_comma) (read_both second (read_one (of set.is_comma) itself) spec.read_dim) (read_both second (read_one (of set.is_comma) itself) (refuse (of set.is_colon) four)) input.old) result input.new }
{
    if !input.sees(ExprSet::Comma) {
        return Ok(Items::new(alloc));
    }
    let third = next_dim(input)?;
    let more = behind_third(alloc, input)?;
    Ok(joined(alloc, third, more)?)
}

#[tactic(auto, unfolding(forms::specs::Readers::read_both, forms::specs::Readers::read_or, forms::specs::Readers::read_nothing, forms::specs::Lists::read_many_upto))]
fn behind_first(alloc: Global, input: &mut Input<'_>) -> Result<Items<Dim>, Halt>
    ensures { Reads (read_many_upto 2 (of set.is_comma) (read_both second (read_one (of set.is_comma) itself) spec.read_dim) (read_both second (read_one (of set.is_comma) itself) (refuse (of set.is_colon) four)) input.old) result input.new }
{
    if !input.sees(ExprSet::Comma) {
        return Ok(Items::new(alloc));
    }
    let next = next_dim(input)?;
    let more = behind_second(alloc, input)?;
    Ok(joined(alloc, next, more)?)
}

/// Reads the dimensions of a view, of which there are at most three.
#[tactic(auto, unfolding(expr_grammar::specs::Reading::read_dims, forms::specs::Readers::read_both))]
pub fn dims(alloc: Global, input: &mut Input<'_>) -> Result<Items<Dim>, Halt>
    ensures { Reads (spec.read_dims input.old) result input.new }
{
    let first = dim(input)?;
    let more = behind_first(alloc, input)?;
    Ok(joined(alloc, first, more)?)
}

/// Reads the brackets of a view, where so many things may be opened.
#[tactic(auto, unfolding(forms::specs::Readers::read_both, forms::specs::Readers::read_guard, forms::specs::Readers::refuse))]
pub fn view(alloc: Global, input: &mut Input<'_>, room: usize) -> Result<Items<Dim>, Halt>
    ensures { Reads (read_guard (is_positive room) (of set.is_open_bracket) two (read_both second (read_one (of set.is_open_bracket) itself) (read_both first spec.read_dims (read_one (of set.is_close_bracket) itself))) input.old) result input.new }
{
    if room == 0 {
        return Err(Halt::no_room(input.sees(ExprSet::OpenBracket)));
    }
    input.expect(ExprSet::OpenBracket)?;
    let dims = dims(alloc, input)?;
    input.expect(ExprSet::CloseBracket)?;
    Ok(dims)
}

#[tactic(auto, unfolding(forms::specs::Readers::read_both, forms::specs::Readers::read_or, forms::specs::Readers::read_nothing))]
fn type_body(
    alloc: Global,
    input: &mut Input<'_>,
    room: usize,
) -> Result<(TypeName, Items<Dim>), Halt>
    ensures { Reads (read_both pair spec.read_type_name (read_or (of set.is_open_bracket) (read_guard (is_positive room) (of set.is_open_bracket) two (read_both second (read_one (of set.is_open_bracket) itself) (read_both first spec.read_dims (read_one (of set.is_close_bracket) itself)))) (read_nothing [])) input.old) result input.new }
{
    let name = type_name(alloc, input)?;
    if !input.sees(ExprSet::OpenBracket) {
        return Ok((name, Items::new(alloc)));
    }
    let dims = view(alloc, input, room)?;
    Ok((name, dims))
}

#[tactic(auto, unfolding(forms::specs::Readers::read_both))]
fn type_parts(
    alloc: Global,
    input: &mut Input<'_>,
    room: usize,
) -> Result<(bool, TypeName, Items<Dim>), Halt>
    ensures { Reads (read_both node.triple (spec.read_flag set.is_const) (read_both pair spec.read_type_name (read_or (of set.is_open_bracket) (read_guard (is_positive room) (of set.is_open_bracket) two (read_both second (read_one (of set.is_open_bracket) itself) (read_both first spec.read_dims (read_one (of set.is_close_bracket) itself)))) (read_nothing []))) input.old) result input.new }
{
    let constant = input.flag(ExprSet::Const);
    let (name, dims) = type_body(alloc, input, room)?;
    Ok((constant, name, dims))
}

/// Reads a type, where so many things may be opened: its brackets are one.
#[tactic(auto, unfolding(expr_grammar::specs::Reading::read_type, forms::specs::Readers::read_placed))]
pub fn type_node(alloc: Global, input: &mut Input<'_>, room: usize) -> Result<TypeNode, Halt>
    ensures { (here : Bool) (inner : Level → Reader Token Expr) → Reads (spec.read_type here (is_positive room) inner input.old) result input.new }
{
    let at = input.at();
    let (constant, name, dims) = type_parts(alloc, input, room)?;
    Ok(TypeNode {
        at,
        constant,
        name,
        dims,
    })
}
