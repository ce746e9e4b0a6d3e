ghost use Rattle.std.specs.Prelude.{◌≡◌, ◌∷◌, ◌-◌, ◌<◌, ◌≤◌, true, length, map, IfOk};
ghost use Rattle.forms.specs.Readers.{sees, read_one, did};
ghost use Rattle.forms.specs.Lists.{itself};
ghost use Rattle.token_class.specs.Sets.{of};
ghost use Rattle.token_input.specs.Ended.{IsAlone, is_end, is_ended};
ghost use Rattle.token_input.specs.Reads.{Takes, StartsAt, Reads, IsStop};
ghost use Rattle.expr_grammar.specs.Words.{is_in, is_int, is_lone, is_order, is_str};
ghost use Rattle.expr_grammar.specs.Nodes as node;
ghost use Rattle.expr_grammar.specs.Reading.{read_flag};

use crate::halt::Halt;
use crate::set::TokenSet;
use crate::words::ExprSet;
use cy_base::{FileId, OutOfMemory, Phase, Refusal, Rule, Stop, Text};
use cy_tree::{Comparison, Ident, NumberWords};
use pyx_lex::{Token, TokenKind};
use std::alloc::{AllocError, Global};
use std::marker::Model;
use token_class::{TokenClass, class_of};

/// The classes of tokens, in their order. They are made once for a file, since a class is found by the token's text.
pub fn classes_of(alloc: Global, tokens: &[Token]) -> Result<Vec<TokenClass>, AllocError>
    ensures { IfOk result (λ found. found.items ≡ map node.class tokens.now) }
{
    tokens
        .iter()
        .map(|token| class_of(&token.kind))
        .collect(alloc)
}

/// Whether the last of these tokens is the end.
pub fn ends(tokens: &[Token]) -> bool
    ensures { result ≡ is_ended tokens.now }
{
    match tokens {
        [.., last] => matches!(last.kind, TokenKind::End),
        [] => false,
    }
}

/// A token, and its class.
#[derive(Clone, Copy)]
pub struct Taken<'a> {
    pub token: &'a Token,
    pub class: TokenClass,
}

/// The tokens that are left, of which the last is the end. Contracts see their list.
#[derive(Drop)]
pub struct Input<'a> {
    rest: &'a [Token],
    classes: &'a [TokenClass],
}

impl<'a> Model for Input<'a> {
    ghost use Rattle.std.specs.Prelude.{List};
    ghost use Rattle.pyx_lex.specs.declared.token.Token.{Token};
    ghost use Rattle.token_input.specs.Ended.{IsLeft};

    ghost Value = { List Token };

    ghost view = { λ i. i.rest.now };

    ghost invariant = { λ i. IsLeft i.rest.now i.classes.now };
}

impl<'a> Input<'a> {
    /// The input of these tokens, whose classes are given beside them.
    pub fn new(tokens: &'a [Token], classes: &'a [TokenClass]) -> Input<'a>
        requires ended { is_ended tokens.now ≡ true }
        requires classed { classes.now ≡ map node.class tokens.now }
        ensures { result ≡ tokens.now }
    {
        Input {
            rest: tokens,
            classes,
        }
    }

    /// How many tokens are left.
    pub fn len(&self) -> usize
        ensures { result ≡ length self.now }
    {
        self.rest.len()
    }

    /// The number of the next token, where there were so many tokens in all.
    pub fn number(&self, total: usize) -> usize
        requires { length self.now ≤ total }
        ensures number { result ≡ total - length self.now }
        ensures within { result < total }
    {
        total - self.rest.len()
    }

    /// Whether the next token is of the set.
    pub fn sees<S: TokenSet>(&self, set: S) -> bool
        ensures { result ≡ sees (of (S.classes set)) self.now }
    {
        match self.classes {
            [first, ..] => set.has(*first),
            [] => false,
        }
    }

    /// Whether the next token is the end.
    pub fn at_end(&self) -> bool
        ensures { result ≡ sees (of is_end) self.now }
    {
        matches!(self.classes[0], TokenClass::End)
    }

    /// Says whether the end is next and nothing stands behind it; where it isn't so, what is left begins with the
    /// token that is wrong.
    #[tactic(auto, unfolding(forms::specs::Readers::read_one))]
    pub fn end(&mut self) -> Result<(), Halt>
        ensures { IsAlone self.old result self.new }
    {
        if !self.at_end() {
            return Err(Halt::Unexpected);
        }
        if self.rest.len() == 1 {
            return Ok(());
        }
        self.rest = &self.rest[1..];
        self.classes = &self.classes[1..];
        Err(Halt::Unexpected)
    }

    /// The first byte of the next token.
    pub fn at(&self) -> u32
        ensures { StartsAt self.now result }
    {
        self.rest[0].span.start
    }

    /// What a file is refused for where reading stops at the next token.
    pub fn stop(&self, file: FileId, halt: Halt) -> Stop
        ensures { IsStop file self.now halt result }
    {
        let number = match halt {
            Halt::Unexpected => 1,
            Halt::Limit(number) => number,
            Halt::Memory => return Stop::Memory,
        };
        Stop::Refused(Refusal {
            rule: Rule {
                phase: Phase::Parse,
                number,
            },
            file,
            offset: self.at(),
        })
    }

    /// Takes the next token.
    fn take<S: TokenSet>(&mut self, set: S) -> Taken<'a>
        requires { sees (of (S.classes set)) self.old ≡ true }
        ensures rest { self.old ≡ result.token.now ∷ self.new }
        ensures class { result.class ≡ node.class result.token.now }
    {
        let (token, class) = (&self.rest[0], self.classes[0]);
        self.rest = &self.rest[1..];
        self.classes = &self.classes[1..];
        Taken { token, class }
    }

    /// Takes the next token, which is to be of the set.
    #[tactic(auto, unfolding(forms::specs::Readers::read_one))]
    pub fn expect<S: TokenSet>(&mut self, set: S) -> Result<Taken<'a>, Halt>
        ensures { Takes (read_one (of (S.classes set)) itself self.old) result self.new }
    {
        if !self.sees(set) {
            return Err(Halt::Unexpected);
        }
        Ok(self.take(set))
    }

    /// Takes the next token where it is of the set, and says whether it did.
    #[tactic(auto, unfolding(forms::specs::Readers::read_one, forms::specs::Readers::read_or, forms::specs::Readers::read_nothing))]
    pub fn flag<S: TokenSet>(&mut self, set: S) -> bool
        ensures { read_flag (S.classes set) self.old ≡ did result self.new }
    {
        if !self.sees(set) {
            return false;
        }
        self.take(set);
        true
    }

    /// Takes the next token, which is to be a NAME of the set.
    #[tactic(auto, unfolding(forms::specs::Readers::read_one))]
    pub fn ident<S: TokenSet>(&mut self, alloc: Global, set: S) -> Result<Ident, Halt>
        ensures { Reads (read_one (of (S.classes set)) node.ident self.old) result self.new }
    {
        if !self.sees(set) {
            return Err(Halt::Unexpected);
        }
        let token = self.take(set).token;
        let text = text_of(alloc, &token.kind)?;
        Ok(Ident {
            at: token.span.start,
            text,
        })
    }

    /// Takes the next token, which is to be a STRING.
    #[tactic(auto, unfolding(forms::specs::Readers::read_one))]
    pub fn string(&mut self, alloc: Global) -> Result<Text, Halt>
        ensures { Reads (read_one (of is_str) node.text self.old) result self.new }
    {
        if !self.sees(ExprSet::Str) {
            return Err(Halt::Unexpected);
        }
        let token = self.take(ExprSet::Str).token;
        Ok(text_of(alloc, &token.kind)?)
    }

    /// Takes the next token, which is to be an INT.
    #[tactic(auto, unfolding(forms::specs::Readers::read_one))]
    pub fn int(&mut self) -> Result<u128, Halt>
        ensures { Reads (read_one (of is_int) node.int_of self.old) result self.new }
    {
        if !self.sees(ExprSet::Int) {
            return Err(Halt::Unexpected);
        }
        let token = self.take(ExprSet::Int).token;
        Ok(number_of(&token.kind))
    }

    /// Takes the next token, which is to be a number word that is a type by itself alone.
    #[tactic(auto, unfolding(forms::specs::Readers::read_one))]
    pub fn lone(&mut self) -> Result<NumberWords, Halt>
        ensures { Reads (read_one (of is_lone) node.lone self.old) result self.new }
    {
        if !self.sees(ExprSet::Lone) {
            return Err(Halt::Unexpected);
        }
        let taken = self.take(ExprSet::Lone);
        Ok(lone_of(taken.class))
    }

    /// Takes the next token, which is to be one of `<`, `<=`, `==`, `!=`, `>` and `>=`.
    #[tactic(auto, unfolding(forms::specs::Readers::read_one))]
    pub fn order(&mut self) -> Result<(Comparison, u32), Halt>
        ensures { Reads (read_one (of is_order) node.order self.old) result self.new }
    {
        if !self.sees(ExprSet::Order) {
            return Err(Halt::Unexpected);
        }
        let taken = self.take(ExprSet::Order);
        Ok((order_of(taken.class), taken.token.span.start))
    }

    /// Takes the next token, which is to be `in`.
    #[tactic(auto, unfolding(forms::specs::Readers::read_one))]
    pub fn within(&mut self) -> Result<(Comparison, u32), Halt>
        ensures { Reads (read_one (of is_in) node.in_node self.old) result self.new }
    {
        if !self.sees(ExprSet::In) {
            return Err(Halt::Unexpected);
        }
        let token = self.take(ExprSet::In).token;
        Ok((Comparison::In, token.span.start))
    }
}

fn text_of(alloc: Global, kind: &TokenKind) -> Result<Text, OutOfMemory>
    ensures { IfOk result (λ text. text ≡ node.text_of kind.now) }
{
    match kind {
        TokenKind::Name(text) | TokenKind::Str(text) => text.copied(alloc),
        _ => Text::from_str(alloc, ""),
    }
}

fn number_of(kind: &TokenKind) -> u128
    ensures { result ≡ node.number_of kind.now }
{
    match kind {
        TokenKind::Int(value) => *value,
        _ => 0,
    }
}

fn lone_of(class: TokenClass) -> NumberWords
    ensures { result ≡ node.lone_of class }
{
    match class {
        TokenClass::PySsizeT => NumberWords::PySsizeT,
        TokenClass::SizeT => NumberWords::SizeT,
        TokenClass::Bint => NumberWords::Bint,
        _ => NumberWords::Void,
    }
}

fn order_of(class: TokenClass) -> Comparison
    ensures { result ≡ node.order_of class }
{
    match class {
        TokenClass::Less => Comparison::Less,
        TokenClass::LessEqual => Comparison::LessEqual,
        TokenClass::Equal => Comparison::Equal,
        TokenClass::NotEqual => Comparison::NotEqual,
        TokenClass::Greater => Comparison::Greater,
        _ => Comparison::GreaterEqual,
    }
}
