ghost use Rattle.std.specs.Prelude.{◌≡◌, ◌<◌, ◌^◌, length, IfOk, IsTrue};
ghost use Rattle.pyx_lex.specs.Pieces.{piece_at, is_name};

use crate::blanks::{
    backslash_piece, blanks_piece, byte_at, comment_piece, is_blank, line_end_len,
};
use crate::name::{begins_name, name_piece};
use crate::number::number_piece;
use crate::sign::sign_piece;
use crate::string::{begins_string, string_piece};
use crate::token::TokenKind;
use cy_base::OutOfMemory;
use std::alloc::Global;

/// What a piece of the text is.
#[derive(Debug, Drop)]
pub(crate) enum Shape {
    Blanks(Indentation),
    /// A comment, and whether it is a directive that is refused.
    Comment(bool),
    LineEnd,
    Join,
    Spelled(TokenKind),
    /// A token that breaks a rule.
    Faulty(Fault),
    /// A character that starts no token.
    Stray,
    /// What a byte that isn't UTF-8 cuts short.
    Cut,
}

/// The tokens that can break a rule.
#[derive(Clone, Copy, Debug, PartialEq, Eq)]
pub(crate) enum Fault {
    Name,
    Str,
    Int,
}

/// A run of blanks: the spaces in it, and the place of its first tab.
#[derive(Clone, Copy, Debug, PartialEq, Eq)]
pub(crate) struct Indentation {
    pub spaces: usize,
    pub tab: Option<u32>,
}

/// A piece of the text, and how many bytes it takes.
#[derive(Debug, Drop)]
pub(crate) struct Piece {
    pub shape: Shape,
    pub len: usize,
}

impl Shape {
    pub(crate) fn is_name(&self) -> bool
        ensures { result ≡ is_name self.now }
    {
        match self {
            Shape::Spelled(TokenKind::Name(_)) => true,
            _ => false,
        }
    }
}

/// The piece that a text begins with. `broken` says that a byte follows the text that isn't UTF-8.
#[tactic(auto, unfolding(crate::specs::Pieces::piece_at))]
pub(crate) fn piece_at(
    alloc: Global,
    broken: bool,
    after_name: bool,
    text: &str,
) -> Result<Piece, OutOfMemory>
    requires some { 0 < length text.now }
    requires small { length text.now < 2 ^ 32 }
    ensures { IfOk result (λ piece. piece ≡ piece_at broken after_name text.now) }
{
    let bytes = text.as_bytes();
    let first = byte_at(bytes, 0);
    let line_end = line_end_len(bytes);
    if is_blank(first) {
        Ok(blanks_piece(text))
    } else if line_end != 0 {
        Ok(Piece {
            shape: Shape::LineEnd,
            len: line_end,
        })
    } else if first == b'\\' {
        Ok(backslash_piece(text))
    } else if first == b'#' {
        Ok(comment_piece(alloc, broken, text)?)
    } else if begins_string(bytes) {
        string_piece(alloc, broken, after_name, text)
    } else if first.is_ascii_digit() {
        Ok(number_piece(broken, text))
    } else if begins_name(text) {
        name_piece(alloc, broken, text)
    } else {
        sign_piece(alloc, text)
    }
}
