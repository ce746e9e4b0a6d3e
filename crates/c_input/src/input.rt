ghost use Rattle.std.specs.Prelude.{◌≡◌, ◌↔◌, ◌++◌, ◌∷◌, [], List, ℕ, Bool, true, Some, slice_get, IsSomeAnd, IfOk, IfSome, MatchOption, decimal, length};
ghost use Rattle.c_token.specs.CTokens.{CToken, Word, sign};
ghost use Rattle.c_cut.specs.Shown.{item_shown};
ghost use Rattle.c_tree.specs.Forms.{IsNumber, IsNumbered, IsString, IsVariable};
ghost use Rattle.c_tree.specs.Names.{variable_token};
ghost use Rattle.c_tree.specs.Values.{string};
ghost use Rattle.c_tree.specs.Statements.{index};
ghost use Rattle.c_word.specs.Numbers.{two_numbers};
ghost use Rattle.c_input.specs.Reads.{piece_shown, pieces_shown, Reads, ReadsEvery, Takes};

use crate::piece::{Piece, behind, is_piece};
use crate::quoted::unquoted;
use c_cut::Token;
use c_token::Bytes;
use c_tree::{Numbered, Variable};
use cy_base::OutOfMemory;
use std::alloc::Global;
use std::marker::Model;

/// The C tokens that are left. Contracts see their list.
#[derive(Drop)]
pub struct Input<'a> {
    rest: &'a [Token],
}

impl<'a> Model for Input<'a> {
    ghost use Rattle.std.specs.Prelude.{List};
    ghost use Rattle.c_token.specs.CTokens.{CToken};
    ghost use Rattle.c_cut.specs.Shown.{item_shown};

    ghost Value = { List CToken };

    ghost view = { λ i. item_shown i.rest.now };
}

impl<'a> Input<'a> {
    /// The input of these tokens.
    pub fn new(tokens: &'a [Token]) -> Input<'a>
        ensures { result ≡ item_shown tokens.now }
    {
        Input { rest: tokens }
    }

    /// How many tokens are left.
    pub fn len(&self) -> usize
        ensures { result ≡ length self.now }
    {
        self.rest.len()
    }

    /// Whether no token is left.
    pub fn is_done(&self) -> bool
        ensures { (result ≡ true) ↔ (self.now ≡ []) }
    {
        self.rest.is_empty()
    }

    /// Whether so many tokens ahead stands the piece.
    pub fn sees(&self, piece: Piece, at: usize) -> bool
        ensures { (result ≡ true) ↔ (slice_get self.now at ≡ Some (piece_shown piece)) }
    {
        match self.rest.get(at) {
            Some(token) => is_piece(token, piece),
            None => false,
        }
    }

    /// Takes these tokens where they are next, and says whether it did.
    pub fn fixed(&mut self, pieces: &[Piece]) -> bool
        ensures { Takes (pieces_shown pieces.now) self.old result self.new }
    {
        match behind(self.rest, pieces) {
            Some(rest) => {
                self.rest = rest;
                true
            }
            None => false,
        }
    }

    // The letters of the next token, where it is a word, and what is left behind it.
    fn split(&self) -> Option<(&'a [u8], &'a [Token])>
        ensures some { IfSome result (λ r. self.now ≡ Word r.0.now ∷ item_shown r.1.now) }
        ensures every { (letters : List ℕ) (rest : List CToken) → self.now ≡ Word letters ∷ rest → IsSomeAnd result (λ r. (r.0.now ≡ letters) × (item_shown r.1.now ≡ rest)) }
    {
        match self.rest {
            [Token::Word(bytes), rest @ ..] => Some((bytes.as_slice(), rest)),
            _ => None,
        }
    }

    /// The letters of the next token, where it is a word.
    pub fn next_word(&self) -> Option<&'a [u8]>
        ensures some { IfSome result (λ r. slice_get self.now 0 ≡ Some (Word r.now)) }
        ensures every { (letters : List ℕ) (rest : List CToken) → self.now ≡ Word letters ∷ rest → IsSomeAnd result (λ r. r.now ≡ letters) }
    {
        let (letters, _) = self.split()?;
        Some(letters)
    }

    /// Takes the next token, where it is a word.
    pub fn word(&mut self) -> Option<&'a [u8]>
        ensures some { MatchOption result (self.new ≡ self.old) (λ r. self.old ≡ Word r.now ∷ self.new) }
        ensures every { (letters : List ℕ) (rest : List CToken) → self.old ≡ Word letters ∷ rest → IsSomeAnd result (λ r. r.now ≡ letters) }
    {
        let (letters, rest) = self.split()?;
        self.rest = rest;
        Some(letters)
    }

    /// Takes the next token, where it is a variable's name.
    pub fn variable(&mut self) -> Option<Variable>
        ensures some { Reads IsVariable (λ x. variable_token x ∷ []) self.old result self.new }
        ensures every { ReadsEvery IsVariable (λ x. variable_token x ∷ []) self.old result }
    {
        let (letters, rest) = self.split()?;
        let found = c_word::variable(letters)?;
        self.rest = rest;
        Some(found)
    }

    /// Takes the next token, where it is a number.
    pub fn number(&mut self) -> Option<u32>
        ensures some { Reads IsNumber (λ n. Word (decimal n) ∷ []) self.old result self.new }
        ensures every { ReadsEvery IsNumber (λ n. Word (decimal n) ∷ []) self.old result }
    {
        let (letters, rest) = self.split()?;
        let found = c_word::number(letters)?;
        self.rest = rest;
        Some(found)
    }

    /// Takes the next token, where it is a number behind the letters.
    pub fn lettered(&mut self, letters: &[u8]) -> Option<u32>
        ensures some { Reads IsNumber (λ n. Word (letters.now ++ decimal n) ∷ []) self.old result self.new }
        ensures every { ReadsEvery IsNumber (λ n. Word (letters.now ++ decimal n) ∷ []) self.old result }
    {
        let (word, rest) = self.split()?;
        let found = c_word::lettered(letters, word)?;
        self.rest = rest;
        Some(found)
    }

    /// Takes the next token, where it is a module and a number in it behind the letters.
    pub fn numbered(&mut self, letters: &[u8]) -> Option<Numbered>
        ensures some { Reads IsNumbered (λ n. Word (letters.now ++ two_numbers n.module n.index) ∷ []) self.old result self.new }
        ensures every { ReadsEvery IsNumbered (λ n. Word (letters.now ++ two_numbers n.module n.index) ∷ []) self.old result }
    {
        let (word, rest) = self.split()?;
        let found = c_word::numbered(letters, word)?;
        self.rest = rest;
        Some(found)
    }

    /// Takes an index in brackets, where it is next.
    pub fn index(&mut self) -> Option<u32>
        ensures some { Reads IsNumber index self.old result self.new }
        ensures every { ReadsEvery IsNumber index self.old result }
    {
        match self.rest {
            [first, Token::Word(word), last, rest @ ..]
                if is_piece(first, Piece::Sign(b"[")) && is_piece(last, Piece::Sign(b"]")) => {
                let found = c_word::number(word.as_slice())?;
                self.rest = rest;
                Some(found)
            }
            _ => None,
        }
    }

    /// Takes the next token, where it is a string; nothing is said of what is left where memory is wanting.
    pub fn string(&mut self, alloc: Global) -> Result<Option<Bytes>, OutOfMemory>
        ensures some { IfOk result (λ found. Reads IsString (λ bytes. string bytes ∷ []) self.old found self.new) }
        ensures every { IfOk result (λ found. ReadsEvery IsString (λ bytes. string bytes ∷ []) self.old found) }
    {
        match self.rest {
            [Token::Str(raw), rest @ ..] => {
                let found = unquoted(alloc, raw.as_slice())?;
                if found.is_some() {
                    self.rest = rest;
                }
                Ok(found)
            }
            _ => Ok(None),
        }
    }
}
