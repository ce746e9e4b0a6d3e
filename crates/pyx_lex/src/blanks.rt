//! What stands between tokens (Python language reference, section 2.1).
ghost use Rattle.std.specs.Prelude.{◌≡◌, ◌≤◌, ◌<◌, ◌^◌, ◌==◌, length, slice_index, IfOk, IfSome};
ghost use Rattle.std.specs.List.{prefix_len, count_by, position};
ghost use Rattle.std.specs.Str.{IsCharBoundary};
ghost use Rattle.pyx_lex.specs.Blanks.{is_blank, blanks, indentation, line_end_len, is_line_end, line_len, is_directive, is_refused_directive, without_spaces, is_language_level};
ghost use Rattle.pyx_lex.specs.Pieces.{blanks_piece, backslash_piece, comment_piece};

use crate::piece::{Indentation, Piece, Shape};
use std::alloc::{AllocError, Global};

/// The byte at a place, or 0 behind the last.
pub(crate) fn byte_at(text: &[u8], at: usize) -> u8
    ensures { result ≡ slice_index text.now at }
{
    match text.get(at) {
        Some(byte) => *byte,
        None => 0,
    }
}

pub(crate) fn is_blank(byte: u8) -> bool
    ensures { result ≡ is_blank byte }
{
    byte == b' ' || byte == b'\t'
}

fn blanks_len(text: &[u8]) -> usize
    ensures len { result ≡ prefix_len is_blank text.now }
    ensures within { result ≤ length text.now }
{
    for (i, byte) in text.iter().enumerate() {
        if !is_blank(*byte) {
            return i;
        }
    }
    text.len()
}

fn spaces(run: &[u8]) -> usize
    ensures { result ≡ count_by (λ b. b == 32) run.now }
{
    run.iter().filter(|byte| **byte == b' ').count()
}

fn tab_at(run: &[u8]) -> Option<usize>
    ensures place { result ≡ position (λ b. b == 9) run.now }
    ensures within { IfSome result (λ at. at < length run.now) }
{
    run.iter().position(|byte| *byte == b'\t')
}

fn first_tab(run: &[u8]) -> Option<u32>
    requires { length run.now < 2 ^ 32 }
    ensures { result ≡ position (λ b. b == 9) run.now }
{
    match tab_at(run) {
        Some(at) => Some(at as u32),
        None => None,
    }
}

/// The run of blanks that a text begins with.
#[tactic(auto, unfolding(crate::specs::Pieces::blanks_piece))]
pub(crate) fn blanks_piece(text: &str) -> Piece
    requires { length text.now < 2 ^ 32 }
    ensures { result ≡ blanks_piece text.now }
{
    let len = blanks_len(text.as_bytes());
    let run = &text.as_bytes()[..len];
    let spaces = spaces(run);
    let tab = first_tab(run);
    Piece {
        shape: Shape::Blanks(Indentation { spaces, tab }),
        len,
    }
}

/// How many bytes the line end takes that a text begins with, or 0.
pub(crate) fn line_end_len(text: &[u8]) -> usize
    ensures { result ≡ line_end_len text.now }
{
    if byte_at(text, 0) == b'\n' {
        1
    } else if byte_at(text, 0) == b'\r' && byte_at(text, 1) == b'\n' {
        2
    } else {
        0
    }
}

/// How many bytes stand before the line's end, or the text's.
pub(crate) fn line_len(text: &[u8]) -> usize
    ensures len { result ≡ line_len text.now }
    ensures within { result ≤ length text.now }
{
    for i in 0..text.len() {
        if line_end_len(&text[i..]) != 0 {
            return i;
        }
    }
    text.len()
}

/// A join, or a backslash that is none.
#[tactic(auto, unfolding(crate::specs::Pieces::backslash_piece))]
pub(crate) fn backslash_piece(text: &str) -> Piece
    requires { 0 < length text.now }
    ensures { result ≡ backslash_piece text.now }
{
    let len = line_end_len(&text.as_bytes()[1..]);
    if len != 0 {
        Piece {
            shape: Shape::Join,
            len: 1 + len,
        }
    } else {
        Piece {
            shape: Shape::Stray,
            len: 1,
        }
    }
}

fn without_spaces(alloc: Global, text: &[u8]) -> Result<Vec<u8>, AllocError>
    ensures { IfOk result (λ kept. kept.items ≡ without_spaces text.now) }
{
    text.iter()
        .filter(|byte| **byte != b' ')
        .copied()
        .collect(alloc)
}

fn is_language_level(text: &[u8]) -> bool
    ensures { result ≡ is_language_level text.now }
{
    text == b"language_level=3".as_slice() || text == b"language_level=3str".as_slice()
}

fn is_refused_directive(alloc: Global, comment: &[u8]) -> Result<bool, AllocError>
    ensures { IfOk result (λ refused. refused ≡ is_refused_directive comment.now) }
{
    if !comment.starts_with(b"# cython:") {
        return Ok(false);
    }
    let kept = without_spaces(alloc, &comment[9..])?;
    Ok(!is_language_level(&kept))
}

/// A comment, which runs to the line's end.
#[tactic(auto, unfolding(crate::specs::Pieces::comment_piece))]
pub(crate) fn comment_piece(alloc: Global, broken: bool, text: &str) -> Result<Piece, AllocError>
    ensures { IfOk result (λ piece. piece ≡ comment_piece broken text.now) }
{
    let len = line_len(text.as_bytes());
    if broken && text.len() == len {
        return Ok(Piece {
            shape: Shape::Cut,
            len,
        });
    }
    let refused = is_refused_directive(alloc, &text.as_bytes()[..len])?;
    Ok(Piece {
        shape: Shape::Comment(refused),
        len,
    })
}
