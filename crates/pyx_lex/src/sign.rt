//! Operators and delimiters (Python language reference, sections 2.5 and 2.6).
ghost use Rattle.std.specs.Prelude.{◌≡◌, IfOk};
ghost use Rattle.pyx_lex.specs.Pieces.{first_len, sign_piece};
ghost use Rattle.pyx_lex.specs.Signs.{sign_len, begins_with, is_one, signs_of_three, signs_of_two, is_opening, is_closing};

use crate::blanks::byte_at;
use crate::piece::{Piece, Shape};
use crate::token::TokenKind;
use cy_base::{OutOfMemory, Text};
use std::alloc::Global;

fn begins_with_three(text: &[u8]) -> bool
    ensures { result ≡ begins_with text.now signs_of_three }
{
    text.starts_with(b"<<=") || text.starts_with(b">>=") || text.starts_with(b"//=")
}

fn begins_with_two(text: &[u8]) -> bool
    ensures { result ≡ begins_with text.now signs_of_two }
{
    match byte_at(text, 0) {
        b'=' => text.starts_with(b"=="),
        b'!' => text.starts_with(b"!="),
        b'<' => text.starts_with(b"<=") || text.starts_with(b"<<"),
        b'>' => text.starts_with(b">=") || text.starts_with(b">>"),
        b'/' => text.starts_with(b"//") || text.starts_with(b"/="),
        b'+' => text.starts_with(b"+="),
        b'-' => text.starts_with(b"-="),
        b'*' => text.starts_with(b"*="),
        b'%' => text.starts_with(b"%="),
        b'&' => text.starts_with(b"&="),
        b'|' => text.starts_with(b"|="),
        b'^' => text.starts_with(b"^="),
        _ => false,
    }
}

fn is_one(byte: u8) -> bool
    ensures { result ≡ is_one byte }
{
    b"+-*/%&|^~<>=()[]{},:;.?".contains(&byte)
}

/// How many bytes the longest sign takes that a text begins with, or 0.
#[tactic(auto, unfolding(crate::specs::Signs::sign_len))]
pub(crate) fn sign_len(text: &[u8]) -> usize
    ensures { result ≡ sign_len text.now }
{
    if begins_with_three(text) {
        3
    } else if begins_with_two(text) {
        2
    } else if is_one(byte_at(text, 0)) {
        1
    } else {
        0
    }
}

pub(crate) fn is_opening(sign: &[u8]) -> bool
    ensures { result ≡ is_opening sign.now }
{
    sign == b"(".as_slice() || sign == b"[".as_slice() || sign == b"{".as_slice()
}

pub(crate) fn is_closing(sign: &[u8]) -> bool
    ensures { result ≡ is_closing sign.now }
{
    sign == b")".as_slice() || sign == b"]".as_slice() || sign == b"}".as_slice()
}

/// How many bytes the first character takes.
fn first_len(text: &str) -> usize
    ensures { result ≡ first_len text.now }
{
    match text.chars().next() {
        Some(first) => first.len_utf8(),
        None => 0,
    }
}

/// The sign that a text begins with, or a character that starts no token.
#[tactic(auto, unfolding(crate::specs::Pieces::sign_piece))]
pub(crate) fn sign_piece(alloc: Global, text: &str) -> Result<Piece, OutOfMemory>
    ensures { IfOk result (λ piece. piece ≡ sign_piece text.now) }
{
    let len = sign_len(text.as_bytes());
    if len == 0 {
        return Ok(Piece {
            shape: Shape::Stray,
            len: first_len(text),
        });
    }
    let sign = Text::from_str(alloc, &text[..len])?;
    Ok(Piece {
        shape: Shape::Spelled(TokenKind::Sign(sign)),
        len,
    })
}
