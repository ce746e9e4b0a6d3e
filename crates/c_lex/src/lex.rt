//! The reading of a text, byte by byte.
ghost use Rattle.std.specs.Prelude.{◌≡◌, ◌≤◌, ◌<◌, ◌+◌, ◌++◌, ◌∷◌, [], length, slice_index, IfOk, OnOk};
ghost use Rattle.c_token.specs.CTokens.{Joining, Other, Sign, after, begin, c_tokens, ends, kind_of, line_end, quoted, step};
ghost use Rattle.c_cut.specs.Shown.{item_shown, token_shown};
ghost use Rattle.c_lex.specs.Shown.{line_shown, mode_shown, start_of};

use crate::byte::{self, ByteKind};
use crate::mode::{Line, Mode};
use c_cut::Token;
use c_token::Bytes;
use cy_base::OutOfMemory;
use std::alloc::Global;

fn copied(alloc: Global, bytes: &[u8]) -> Result<Bytes, OutOfMemory>
    ensures { IfOk result (λ copy. copy ≡ bytes.now) }
{
    Ok(Bytes::new(Vec::from_slice(alloc, bytes)?))
}

fn put(tokens: &mut Vec<Token>, token: Token) -> Result<(), OutOfMemory>
    ensures { OnOk result (item_shown tokens.new.items ≡ item_shown tokens.old.items ++ token_shown token ∷ []) }
{
    tokens.push(token)?;
    Ok(())
}

// Where a token leaves its line.
fn after(line: Line, token: &Token) -> Line
    ensures { line_shown result ≡ after (line_shown line) (token_shown token.now) }
{
    match line {
        Line::Fresh | Line::Text => Line::Text,
        Line::Hash => after_hash(token),
        Line::Include | Line::Directive => Line::Directive,
    }
}

fn after_hash(token: &Token) -> Line
    ensures { line_shown result ≡ after (line_shown Line.Hash) (token_shown token.now) }
{
    match token {
        Token::Word(letters) => {
            if letters.as_slice() == b"include".as_slice() {
                Line::Include
            } else {
                Line::Directive
            }
        }
        _ => Line::Directive,
    }
}

// The end of a line gives a token if the line is a preprocessor line.
fn end_line(tokens: &mut Vec<Token>, line: Line) -> Result<(), OutOfMemory>
    ensures { OnOk result (item_shown tokens.new.items ≡ item_shown tokens.old.items ++ line_end (line_shown line)) }
{
    match line {
        Line::Fresh | Line::Text => Ok(()),
        Line::Hash | Line::Include | Line::Directive => put(tokens, Token::LineEnd),
    }
}

fn put_sign(tokens: &mut Vec<Token>, b: u8) -> Result<(), OutOfMemory>
    ensures { OnOk result (item_shown tokens.new.items ≡ item_shown tokens.old.items ++ Sign (b ∷ []) ∷ []) }
{
    let sign = copied(*tokens.allocator(), &[b])?;
    put(tokens, Token::Sign(sign))
}

// Where a sign, or a byte that starts no token, leaves its line.
fn after_sign(line: Line) -> Line
    ensures { line_shown result ≡ after (line_shown line) (Other 0) }
{
    match line {
        Line::Fresh | Line::Text => Line::Text,
        Line::Hash | Line::Include | Line::Directive => Line::Directive,
    }
}

// A byte that a longer sign may begin with.
fn begin_sign(
    tokens: &mut Vec<Token>,
    line: Line,
    bytes: &[u8],
    at: usize,
) -> Result<Mode, OutOfMemory>
    requires { at < length bytes.now }
    ensures given { OnOk result (item_shown tokens.new.items ≡ item_shown tokens.old.items ++ (begin Joining (line_shown line) (slice_index bytes.now at)).given) }
    ensures next { IfOk result (λ next. mode_shown bytes.now (at + 1) next ≡ (begin Joining (line_shown line) (slice_index bytes.now at)).next) }
    ensures starts { IfOk result (λ next. start_of next ≤ at + 1) }
{
    let b = bytes[at];
    match line {
        Line::Fresh => {
            if b == b'#' {
                put_sign(tokens, b)?;
                Ok(Mode::Between(Line::Hash))
            } else {
                Ok(Mode::InSign(line, at))
            }
        }
        Line::Include => {
            if b == b'<' {
                Ok(Mode::InHeader(at + 1))
            } else {
                Ok(Mode::InSign(line, at))
            }
        }
        Line::Text | Line::Hash | Line::Directive => Ok(Mode::InSign(line, at)),
    }
}

// A byte between tokens.
fn begin(tokens: &mut Vec<Token>, line: Line, bytes: &[u8], at: usize) -> Result<Mode, OutOfMemory>
    requires { at < length bytes.now }
    ensures given { OnOk result (item_shown tokens.new.items ≡ item_shown tokens.old.items ++ (begin (kind_of (slice_index bytes.now at)) (line_shown line) (slice_index bytes.now at)).given) }
    ensures next { IfOk result (λ next. mode_shown bytes.now (at + 1) next ≡ (begin (kind_of (slice_index bytes.now at)) (line_shown line) (slice_index bytes.now at)).next) }
    ensures starts { IfOk result (λ next. start_of next ≤ at + 1) }
{
    let b = bytes[at];
    match byte::kind_of(b) {
        ByteKind::LineFeed => {
            end_line(tokens, line)?;
            Ok(Mode::Between(Line::Fresh))
        }
        ByteKind::Blank => Ok(Mode::Between(line)),
        ByteKind::WordByte => Ok(Mode::InWord(line, at)),
        ByteKind::Quote => Ok(Mode::InQuotes(line, b, at + 1)),
        ByteKind::Alone => {
            put_sign(tokens, b)?;
            Ok(Mode::Between(after_sign(line)))
        }
        ByteKind::Joining => begin_sign(tokens, line, bytes, at),
        ByteKind::Neither => {
            put(tokens, Token::Other(b))?;
            Ok(Mode::Between(after_sign(line)))
        }
    }
}

// A token that is whole; the line after it.
fn close(tokens: &mut Vec<Token>, token: Token, line: Line) -> Result<Line, OutOfMemory>
    ensures given { OnOk result (item_shown tokens.new.items ≡ item_shown tokens.old.items ++ token_shown token ∷ []) }
    ensures next { IfOk result (λ next. line_shown next ≡ after (line_shown line) (token_shown token)) }
{
    let next = after(line, &token);
    put(tokens, token)?;
    Ok(next)
}

// A byte that ends the token before it.
fn end_token(
    tokens: &mut Vec<Token>,
    token: Token,
    line: Line,
    bytes: &[u8],
    at: usize,
) -> Result<Mode, OutOfMemory>
    requires { at < length bytes.now }
    ensures given { OnOk result (item_shown tokens.new.items ≡ item_shown tokens.old.items ++ (ends (token_shown token) (line_shown line) (slice_index bytes.now at)).given) }
    ensures next { IfOk result (λ next. mode_shown bytes.now (at + 1) next ≡ (ends (token_shown token) (line_shown line) (slice_index bytes.now at)).next) }
    ensures starts { IfOk result (λ next. start_of next ≤ at + 1) }
{
    let line = close(tokens, token, line)?;
    begin(tokens, line, bytes, at)
}

fn in_word(
    tokens: &mut Vec<Token>,
    line: Line,
    start: usize,
    bytes: &[u8],
    at: usize,
) -> Result<Mode, OutOfMemory>
    requires inside { at < length bytes.now }
    requires begun { start ≤ at }
    ensures given { OnOk result (item_shown tokens.new.items ≡ item_shown tokens.old.items ++ (step (mode_shown bytes.now at (Mode.InWord line start)) (slice_index bytes.now at)).given) }
    ensures next { IfOk result (λ next. mode_shown bytes.now (at + 1) next ≡ (step (mode_shown bytes.now at (Mode.InWord line start)) (slice_index bytes.now at)).next) }
    ensures starts { IfOk result (λ next. start_of next ≤ at + 1) }
{
    if byte::is_word_byte(bytes[at]) {
        return Ok(Mode::InWord(line, start));
    }
    let word = Token::Word(copied(*tokens.allocator(), &bytes[start..at])?);
    end_token(tokens, word, line, bytes, at)
}

fn in_sign(
    tokens: &mut Vec<Token>,
    line: Line,
    start: usize,
    bytes: &[u8],
    at: usize,
) -> Result<Mode, OutOfMemory>
    requires inside { at < length bytes.now }
    requires begun { start ≤ at }
    ensures given { OnOk result (item_shown tokens.new.items ≡ item_shown tokens.old.items ++ (step (mode_shown bytes.now at (Mode.InSign line start)) (slice_index bytes.now at)).given) }
    ensures next { IfOk result (λ next. mode_shown bytes.now (at + 1) next ≡ (step (mode_shown bytes.now at (Mode.InSign line start)) (slice_index bytes.now at)).next) }
    ensures starts { IfOk result (λ next. start_of next ≤ at + 1) }
{
    if byte::is_long_sign(&bytes[start..at + 1]) {
        return Ok(Mode::InSign(line, start));
    }
    let sign = Token::Sign(copied(*tokens.allocator(), &bytes[start..at])?);
    end_token(tokens, sign, line, bytes, at)
}

fn quoted(quote: u8, bytes: Bytes) -> Token
    ensures { token_shown result ≡ quoted quote bytes }
{
    if quote == b'"' {
        Token::Str(bytes)
    } else {
        Token::Character(bytes)
    }
}

fn in_quotes(
    tokens: &mut Vec<Token>,
    line: Line,
    quote: u8,
    start: usize,
    bytes: &[u8],
    at: usize,
) -> Result<Mode, OutOfMemory>
    requires inside { at < length bytes.now }
    requires begun { start ≤ at }
    ensures given { OnOk result (item_shown tokens.new.items ≡ item_shown tokens.old.items ++ (step (mode_shown bytes.now at (Mode.InQuotes line quote start)) (slice_index bytes.now at)).given) }
    ensures next { IfOk result (λ next. mode_shown bytes.now (at + 1) next ≡ (step (mode_shown bytes.now at (Mode.InQuotes line quote start)) (slice_index bytes.now at)).next) }
    ensures starts { IfOk result (λ next. start_of next ≤ at + 1) }
{
    let b = bytes[at];
    if b == b'\n' {
        return end_token(tokens, Token::Other(quote), line, bytes, at);
    }
    if b == b'\\' {
        return Ok(Mode::AfterBackslash(line, quote, start));
    }
    if b == quote {
        let token = quoted(quote, copied(*tokens.allocator(), &bytes[start..at])?);
        return Ok(Mode::Between(close(tokens, token, line)?));
    }
    Ok(Mode::InQuotes(line, quote, start))
}

#[tactic(auto, using(crate::proofs::Ranges::range_more))]
fn after_backslash(
    tokens: &mut Vec<Token>,
    line: Line,
    quote: u8,
    start: usize,
    bytes: &[u8],
    at: usize,
) -> Result<Mode, OutOfMemory>
    requires inside { at < length bytes.now }
    requires begun { start ≤ at }
    ensures given { OnOk result (item_shown tokens.new.items ≡ item_shown tokens.old.items ++ (step (mode_shown bytes.now at (Mode.AfterBackslash line quote start)) (slice_index bytes.now at)).given) }
    ensures next { IfOk result (λ next. mode_shown bytes.now (at + 1) next ≡ (step (mode_shown bytes.now at (Mode.AfterBackslash line quote start)) (slice_index bytes.now at)).next) }
    ensures starts { IfOk result (λ next. start_of next ≤ at + 1) }
{
    if bytes[at] == b'\n' {
        return end_token(tokens, Token::Other(quote), line, bytes, at);
    }
    Ok(Mode::InQuotes(line, quote, start))
}

fn in_header(
    tokens: &mut Vec<Token>,
    start: usize,
    bytes: &[u8],
    at: usize,
) -> Result<Mode, OutOfMemory>
    requires inside { at < length bytes.now }
    requires begun { start ≤ at }
    ensures given { OnOk result (item_shown tokens.new.items ≡ item_shown tokens.old.items ++ (step (mode_shown bytes.now at (Mode.InHeader start)) (slice_index bytes.now at)).given) }
    ensures next { IfOk result (λ next. mode_shown bytes.now (at + 1) next ≡ (step (mode_shown bytes.now at (Mode.InHeader start)) (slice_index bytes.now at)).next) }
    ensures starts { IfOk result (λ next. start_of next ≤ at + 1) }
{
    let b = bytes[at];
    if b == b'\n' {
        return end_token(tokens, Token::Other(b'<'), Line::Directive, bytes, at);
    }
    if b == b'>' {
        let name = Token::HeaderName(copied(*tokens.allocator(), &bytes[start..at])?);
        put(tokens, name)?;
        return Ok(Mode::Between(Line::Directive));
    }
    Ok(Mode::InHeader(start))
}

// A byte in any mode.
fn step(tokens: &mut Vec<Token>, mode: Mode, bytes: &[u8], at: usize) -> Result<Mode, OutOfMemory>
    requires inside { at < length bytes.now }
    requires begun { start_of mode ≤ at }
    ensures given { OnOk result (item_shown tokens.new.items ≡ item_shown tokens.old.items ++ (step (mode_shown bytes.now at mode) (slice_index bytes.now at)).given) }
    ensures next { IfOk result (λ next. mode_shown bytes.now (at + 1) next ≡ (step (mode_shown bytes.now at mode) (slice_index bytes.now at)).next) }
    ensures starts { IfOk result (λ next. start_of next ≤ at + 1) }
{
    match mode {
        Mode::Between(line) => begin(tokens, line, bytes, at),
        Mode::InWord(line, start) => in_word(tokens, line, start, bytes, at),
        Mode::InSign(line, start) => in_sign(tokens, line, start, bytes, at),
        Mode::InQuotes(line, quote, start) => in_quotes(tokens, line, quote, start, bytes, at),
        Mode::AfterBackslash(line, quote, start) => {
            after_backslash(tokens, line, quote, start, bytes, at)
        }
        Mode::InHeader(start) => in_header(tokens, start, bytes, at),
    }
}

// A token that ends with the text.
fn last(tokens: &mut Vec<Token>, token: Token, line: Line) -> Result<(), OutOfMemory>
    ensures { OnOk result (item_shown tokens.new.items ≡ item_shown tokens.old.items ++ token_shown token ∷ line_end (after (line_shown line) (token_shown token))) }
{
    let line = close(tokens, token, line)?;
    end_line(tokens, line)
}

// The end of a text ends a token as a line's end does.
fn finish(tokens: &mut Vec<Token>, mode: Mode, bytes: &[u8]) -> Result<(), OutOfMemory>
    requires { start_of mode ≤ length bytes.now }
    ensures { OnOk result (item_shown tokens.new.items ≡ item_shown tokens.old.items ++ (step (mode_shown bytes.now (length bytes.now) mode) 10).given) }
{
    match mode {
        Mode::Between(line) => end_line(tokens, line),
        Mode::InWord(line, start) => {
            let word = Token::Word(copied(*tokens.allocator(), &bytes[start..])?);
            last(tokens, word, line)
        }
        Mode::InSign(line, start) => {
            let sign = Token::Sign(copied(*tokens.allocator(), &bytes[start..])?);
            last(tokens, sign, line)
        }
        Mode::InQuotes(line, quote, _) | Mode::AfterBackslash(line, quote, _) => {
            last(tokens, Token::Other(quote), line)
        }
        Mode::InHeader(_) => last(tokens, Token::Other(b'<'), Line::Directive),
    }
}

/// The tokens of a C text, each the longest that fits (ISO/IEC 9899:2011 6.4).
pub fn tokens(alloc: Global, bytes: &[u8]) -> Result<Vec<Token>, OutOfMemory>
    ensures { IfOk result (λ found. item_shown found.items ≡ c_tokens bytes.now) }
{
    let mut found = Vec::new(alloc);
    let mut mode = Mode::Between(Line::Fresh);
    for at in 0..bytes.len() {
        mode = step(&mut found, mode, bytes, at)?;
    }
    finish(&mut found, mode, bytes)?;
    Ok(found)
}
