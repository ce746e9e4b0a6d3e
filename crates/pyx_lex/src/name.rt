//! Identifiers and keywords (Python language reference, section 2.3).
ghost use Rattle.std.specs.Prelude.{◌≡◌, ◌↔◌, chars, encode_utf8_all, IfOk, IsTrue, take, take_while};
ghost use Rattle.std.specs.Str.{IsCharBoundary};
ghost use Rattle.pyx_lex.specs.Pieces.{name_shape, name_piece};
ghost use Rattle.pyx_lex.specs.Names.{starts_name, begins_name, begins_with_continue, name_at, is_reserved, is_wrong_name, is_among, words_to_async, words_to_const, words_to_elif, words_to_gil, words_to_is, words_to_or, words_to_try, words_to_yield};

use crate::piece::{Fault, Piece, Shape};
use crate::token::TokenKind;
use cy_base::{OutOfMemory, Text};
use std::alloc::{AllocError, Global};
use unicode_ident::{is_xid_continue, is_xid_start};
use unicode_normalization::is_nfkc;

pub(crate) fn begins_name(text: &str) -> bool
    ensures { result ≡ begins_name text.now }
{
    match text.chars().next() {
        Some(first) => is_xid_start(first) || first == '_',
        None => false,
    }
}

/// Whether the first character is an XID_Continue character.
pub(crate) fn begins_with_continue(text: &str) -> bool
    ensures { result ≡ begins_with_continue text.now }
{
    match text.chars().next() {
        Some(first) => is_xid_continue(first),
        None => false,
    }
}

/// How many bytes the longest front of XID_Continue characters takes.
pub(crate) fn name_len(text: &str) -> usize
    ensures name { take result text.now ≡ name_at text.now }
    ensures boundary { IsCharBoundary text.now result }
{
    match text.find(|c: char| !is_xid_continue(c)) {
        Some(at) => at,
        None => text.len(),
    }
}

#[tactic(auto, unfolding(crate::specs::Names::is_wrong_name), using(crate::proofs::Normal::kept_ascii))]
/// Whether a name takes over 255 bytes or isn't in normalization form KC.
pub(crate) fn is_wrong_name(alloc: Global, name: &str) -> Result<bool, AllocError>
    ensures { IfOk result (λ wrong. is_wrong_name name.now ≡ wrong) }
{
    if name.len() > 255 {
        return Ok(true);
    }
    if name.is_ascii() {
        return Ok(false);
    }
    let kept = is_nfkc(alloc, name)?;
    Ok(!kept)
}

fn is_to_async(name: &[u8]) -> bool
    ensures { result ≡ is_among name.now words_to_async }
{
    name == b"False".as_slice()
        || name == b"None".as_slice()
        || name == b"True".as_slice()
        || name == b"and".as_slice()
        || name == b"as".as_slice()
        || name == b"assert".as_slice()
        || name == b"async".as_slice()
}

fn is_to_const(name: &[u8]) -> bool
    ensures { result ≡ is_among name.now words_to_const }
{
    name == b"await".as_slice()
        || name == b"break".as_slice()
        || name == b"cdef".as_slice()
        || name == b"cimport".as_slice()
        || name == b"class".as_slice()
        || name == b"const".as_slice()
}

fn is_to_elif(name: &[u8]) -> bool
    ensures { result ≡ is_among name.now words_to_elif }
{
    name == b"continue".as_slice()
        || name == b"cpdef".as_slice()
        || name == b"ctypedef".as_slice()
        || name == b"def".as_slice()
        || name == b"del".as_slice()
        || name == b"elif".as_slice()
}

fn is_to_gil(name: &[u8]) -> bool
    ensures { result ≡ is_among name.now words_to_gil }
{
    name == b"else".as_slice()
        || name == b"except".as_slice()
        || name == b"finally".as_slice()
        || name == b"for".as_slice()
        || name == b"from".as_slice()
        || name == b"gil".as_slice()
}

fn is_to_is(name: &[u8]) -> bool
    ensures { result ≡ is_among name.now words_to_is }
{
    name == b"global".as_slice()
        || name == b"if".as_slice()
        || name == b"import".as_slice()
        || name == b"in".as_slice()
        || name == b"include".as_slice()
        || name == b"is".as_slice()
}

fn is_to_or(name: &[u8]) -> bool
    ensures { result ≡ is_among name.now words_to_or }
{
    name == b"lambda".as_slice()
        || name == b"noexcept".as_slice()
        || name == b"nogil".as_slice()
        || name == b"nonlocal".as_slice()
        || name == b"not".as_slice()
        || name == b"or".as_slice()
}

fn is_to_try(name: &[u8]) -> bool
    ensures { result ≡ is_among name.now words_to_try }
{
    name == b"pass".as_slice()
        || name == b"public".as_slice()
        || name == b"raise".as_slice()
        || name == b"readonly".as_slice()
        || name == b"return".as_slice()
        || name == b"try".as_slice()
}

fn is_to_yield(name: &[u8]) -> bool
    ensures { result ≡ is_among name.now words_to_yield }
{
    name == b"while".as_slice() || name == b"with".as_slice() || name == b"yield".as_slice()
}

#[tactic(auto, unfolding(crate::specs::Names::is_reserved))]
pub(crate) fn is_reserved(name: &[u8]) -> bool
    ensures { result ≡ is_reserved name.now }
{
    ((is_to_async(name) || is_to_const(name)) || (is_to_elif(name) || is_to_gil(name)))
        || ((is_to_is(name) || is_to_or(name)) || (is_to_try(name) || is_to_yield(name)))
}

#[tactic(auto, unfolding(crate::specs::Pieces::name_shape))]
fn name_shape(alloc: Global, name: &str) -> Result<Shape, OutOfMemory>
    ensures { IfOk result (λ shape. shape ≡ name_shape name.now) }
{
    if is_reserved(name.as_bytes()) {
        let word = Text::from_str(alloc, name)?;
        return Ok(Shape::Spelled(TokenKind::Word(word)));
    }
    if is_wrong_name(alloc, name)? {
        return Ok(Shape::Faulty(Fault::Name));
    }
    let text = Text::from_str(alloc, name)?;
    Ok(Shape::Spelled(TokenKind::Name(text)))
}

/// The name or the reserved word that a text begins with.
#[tactic(auto, unfolding(crate::specs::Pieces::name_piece))]
pub(crate) fn name_piece(alloc: Global, broken: bool, text: &str) -> Result<Piece, OutOfMemory>
    ensures { IfOk result (λ piece. piece ≡ name_piece broken text.now) }
{
    let len = name_len(text);
    if broken && text.len() == len {
        return Ok(Piece {
            shape: Shape::Cut,
            len,
        });
    }
    let shape = name_shape(alloc, &text[..len])?;
    Ok(Piece { shape, len })
}
