//! String literals and their escapes (Python language reference, section 2.4.1).
ghost use Rattle.std.specs.Prelude.{◌≡◌, ◌≤◌, ◌+◌, length, drop, take, false, IsTrue, IfOk};
ghost use Rattle.pyx_lex.specs.Pieces.{string_piece};
ghost use Rattle.pyx_lex.specs.Strings.{is_quote, is_prefix, begins_string, prefix_of, are_three, opening_at, closing_len, closes, stops, takes_next, inside_len, inside_of, behind_inside, is_open, is_closed, string_len, string_value};

use crate::blanks::byte_at;
use crate::escape::inside_value;
use crate::piece::{Fault, Piece, Shape};
use crate::token::TokenKind;
use cy_base::OutOfMemory;
use std::alloc::Global;

/// How a string literal begins: prefix and quotes.
#[derive(Clone, Copy, Debug, PartialEq, Eq)]
pub(crate) struct Opening {
    pub raw: bool,
    pub quote: u8,
    pub triple: bool,
    pub len: usize,
}

pub(crate) fn is_quote(byte: u8) -> bool
    ensures { result ≡ is_quote byte }
{
    byte == b'\'' || byte == b'"'
}

fn is_prefix(byte: u8) -> bool
    ensures { result ≡ is_prefix byte }
{
    (byte == b'r' || byte == b'R') || (byte == b'u' || byte == b'U')
}

/// Whether a text begins with a quote, or a prefix and a quote.
pub(crate) fn begins_string(text: &[u8]) -> bool
    ensures { result ≡ begins_string text.now }
{
    is_quote(byte_at(text, 0)) || (is_prefix(byte_at(text, 0)) && is_quote(byte_at(text, 1)))
}

fn prefix_of(text: &[u8]) -> usize
    ensures { result ≡ prefix_of text.now }
{
    if is_quote(byte_at(text, 0)) { 0 } else { 1 }
}

fn are_three(quote: u8, text: &[u8]) -> bool
    ensures { result ≡ are_three quote text.now }
{
    byte_at(text, 0) == quote && (byte_at(text, 1) == quote && byte_at(text, 2) == quote)
}

/// How a text that begins with a string opens it.
fn opening_at(text: &[u8]) -> Opening
    requires { IsTrue (begins_string text.now) }
    ensures opening { result ≡ opening_at text.now }
    ensures within { result.len ≤ length text.now }
{
    let prefix = prefix_of(text);
    let quote = byte_at(text, prefix);
    let triple = are_three(quote, &text[prefix..]);
    let first = byte_at(text, 0);
    Opening {
        raw: first == b'r' || first == b'R',
        quote,
        triple,
        len: prefix + if triple { 3 } else { 1 },
    }
}

impl Opening {
    fn closing_len(&self) -> usize
        ensures { result ≡ closing_len self.now }
    {
        if self.triple { 3 } else { 1 }
    }

    fn closes(&self, text: &[u8]) -> bool
        ensures { result ≡ closes self.now text.now }
    {
        if self.triple {
            are_three(self.quote, text)
        } else {
            byte_at(text, 0) == self.quote
        }
    }

    fn stops(&self, text: &[u8]) -> bool
        ensures { result ≡ stops self.now text.now }
    {
        self.closes(text) || (!self.triple && byte_at(text, 0) == b'\n')
    }

    fn takes_next(&self, taken: bool, byte: u8) -> bool
        ensures { result ≡ takes_next self.now taken byte }
    {
        !taken && (!self.raw && byte == b'\\')
    }

    /// How many bytes stand before what stops the string, or before the text's end.
    fn inside_len(&self, text: &[u8]) -> usize
        ensures len { result ≡ inside_len self.now false text.now }
        ensures within { result ≤ length text.now }
    {
        let mut taken = false;
        for (i, byte) in text.iter().enumerate() {
            if !taken && self.stops(&text[i..]) {
                return i;
            }
            taken = self.takes_next(taken, *byte);
        }
        text.len()
    }
}

/// Where a string literal ends: its opening, the bytes of its inside and of the whole, whether the text ends in it, and
/// whether it is closed.
#[derive(Clone, Copy)]
struct Bounds {
    opening: Opening,
    inside: usize,
    len: usize,
    unended: bool,
    closed: bool,
}

fn bounds_of(text: &[u8]) -> Bounds
    requires { IsTrue (begins_string text.now) }
    ensures opening { result.opening ≡ opening_at text.now }
    ensures inside { result.inside ≡ inside_len (opening_at text.now) false (drop (opening_at text.now).len text.now) }
    ensures len { result.len ≡ string_len text.now }
    ensures unended { result.unended ≡ is_open text.now }
    ensures closed { result.closed ≡ is_closed text.now }
    ensures within { result.opening.len + result.inside ≤ length text.now }
{
    let opening = opening_at(text);
    let behind = &text[opening.len..];
    let inside = opening.inside_len(behind);
    let rest = &behind[inside..];
    let unended = rest.is_empty();
    let closed = !unended && opening.closes(rest);
    let closing = if closed { opening.closing_len() } else { 0 };
    Bounds {
        opening,
        inside,
        len: opening.len + inside + closing,
        unended,
        closed,
    }
}

/// The string that a text begins with.
#[tactic(auto, unfolding(crate::specs::Pieces::string_piece, crate::specs::Strings::string_value))]
pub(crate) fn string_piece(
    alloc: Global,
    broken: bool,
    after_name: bool,
    text: &str,
) -> Result<Piece, OutOfMemory>
    requires { IsTrue (begins_string text.now) }
    ensures { IfOk result (λ piece. piece ≡ string_piece broken after_name text.now) }
{
    let bounds = bounds_of(text.as_bytes());
    let len = bounds.len;
    if broken && bounds.unended {
        return Ok(Piece {
            shape: Shape::Cut,
            len,
        });
    }
    if after_name || !bounds.closed {
        return Ok(Piece {
            shape: Shape::Faulty(Fault::Str),
            len,
        });
    }
    let start = bounds.opening.len;
    let inside = &text[start..start + bounds.inside];
    let value = inside_value(alloc, bounds.opening.raw, inside)?;
    let shape = match value {
        Some(value) => Shape::Spelled(TokenKind::Str(value)),
        None => Shape::Faulty(Fault::Str),
    };
    Ok(Piece { shape, len })
}
