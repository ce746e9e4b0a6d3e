//! What is written so far.
ghost use Rattle.std.specs.Prelude.{◌≡◌, ◌++◌, ◌∷◌, [], ℕ, List, true, false, codes, decimal, IfOk, OnOk, length, ◌<◌};
ghost use Rattle.std.specs.List.{flat_map};
ghost use Rattle.c_token.specs.CTokens.{Between, Fresh, Str, Word, c_tokens, is_word_byte};
ghost use Rattle.c_token.specs.Spelled.{AreWordBytes, quoted_byte};
ghost use Rattle.c_writer.specs.Rest.{glue, is_joining, is_whole_text, mode_after, two_numbers, IsAtRest, IsLetters};

use itoa::Buffer;
use std::alloc::{AllocError, Global};
use std::marker::Model;

/// C text as it is written. Contracts see its tokens (ISO/IEC 9899:2011 6.4).
#[derive(Drop)]
pub struct Writer {
    text: Vec<u8>,
    // A byte of what stands open at the end, or the line feed behind which nothing does.
    last: u8,
}

impl Model for Writer {
    ghost use Rattle.std.specs.Prelude.{List};
    ghost use Rattle.c_token.specs.CTokens.{CToken, c_tokens};
    ghost use Rattle.c_writer.specs.Rest.{IsAtRest};

    ghost Value = { List CToken };

    ghost view = { λ w. c_tokens w.text.items };

    ghost invariant = { λ w. IsAtRest w.text.items w.last };
}

fn is_word(b: u8) -> bool
    ensures { result ≡ is_word_byte b }
{
    matches!(b, b'0'..=b'9' | b'A'..=b'Z' | b'_' | b'a'..=b'z')
}

fn joins(b: u8) -> bool
    ensures { result ≡ is_joining b }
{
    matches!(
        b,
        b'=' | b'!'
            | b'<'
            | b'>'
            | b'-'
            | b'&'
            | b'|'
            | b'+'
            | b'*'
            | b'/'
            | b'%'
            | b'^'
            | b'#'
            | b':'
            | b'.'
    )
}

// Whether the two bytes would be read as one token.
fn glues(last: u8, first: u8) -> bool
    ensures { result ≡ glue last first }
{
    (is_word(last) && is_word(first)) || (joins(last) && joins(first))
}

// The text, with a blank behind it where it would glue to what follows.
fn apart(text: Vec<u8>, last: u8, first: u8) -> Result<(Vec<u8>, u8), AllocError>
    requires { IsAtRest text.items last }
    ensures rests { IfOk result (λ r. IsAtRest r.0.items r.1) }
    ensures same { IfOk result (λ r. c_tokens r.0.items ≡ c_tokens text.items) }
    ensures apart { IfOk result (λ r. glue r.1 first ≡ false) }
{
    let mut text = text;
    if !glues(last, first) {
        return Ok((text, last));
    }
    text.push(b' ')?;
    Ok((text, b' '))
}

// The text at the start of a line.
fn feed(text: Vec<u8>, last: u8) -> Result<Vec<u8>, AllocError>
    requires { IsAtRest text.items last }
    ensures rests { IfOk result (λ new. IsAtRest new.items 10) }
    ensures same { IfOk result (λ new. c_tokens new.items ≡ c_tokens text.items) }
{
    let mut text = text;
    if last == b'\n' {
        return Ok(text);
    }
    text.push(b'\n')?;
    Ok(text)
}

fn put_number(text: &mut Vec<u8>, number: u32) -> Result<(), AllocError>
    ensures { OnOk result (text.new.items ≡ text.old.items ++ decimal number) }
{
    text.extend_from_slice(Buffer::new().format(number).as_bytes())
}

fn put_two(text: &mut Vec<u8>, first: u32, second: u32) -> Result<(), AllocError>
    ensures { OnOk result (text.new.items ≡ text.old.items ++ two_numbers first second) }
{
    put_number(text, first)?;
    text.push(b'_')?;
    put_number(text, second)
}

fn put_three(text: &mut Vec<u8>, first: u32, second: u32, third: u32) -> Result<(), AllocError>
    ensures { OnOk result (text.new.items ≡ text.old.items ++ (two_numbers first second ++ (codes "_" ++ decimal third))) }
{
    put_two(text, first, second)?;
    text.push(b'_')?;
    put_number(text, third)
}

// A byte as it stands between quotes.
fn put_byte(text: &mut Vec<u8>, byte: u8) -> Result<(), AllocError>
    ensures { OnOk result (text.new.items ≡ text.old.items ++ quoted_byte byte) }
{
    if byte < b' ' || byte > b'~' || byte == b'"' || byte == b'\\' {
        text.push(b'\\')?;
        text.push(b'0' + byte / 64)?;
        text.push(b'0' + byte / 8 % 8)?;
        text.push(b'0' + byte % 8)?;
    } else {
        text.push(byte)?;
    }
    Ok(())
}

fn put_quoted(text: &mut Vec<u8>, bytes: &[u8]) -> Result<(), AllocError>
    ensures { OnOk result (text.new.items ≡ text.old.items ++ flat_map quoted_byte bytes.now) }
{
    for byte in bytes {
        put_byte(text, *byte)?;
    }
    Ok(())
}

impl Writer {
    /// Nothing is written yet.
    pub fn new(alloc: Global) -> Writer
        ensures { result ≡ [] }
    {
        Writer {
            text: Vec::new(alloc),
            last: b'\n',
        }
    }

    /// Writes a text with its blanks and line feeds, and a blank before it where it would glue to what stands there. The
    /// text has no `#`, and ends outside quotes.
    pub fn text(self, bytes: &[u8]) -> Result<Writer, AllocError>
        requires whole { is_whole_text bytes.now ≡ true }
        requires some { 0 < length bytes.now }
        ensures { IfOk result (λ new. new ≡ self ++ c_tokens bytes.now) }
    {
        let (mut text, _) = apart(self.text, self.last, bytes[0])?;
        text.extend_from_slice(bytes)?;
        Ok(Writer {
            text,
            last: bytes[bytes.len() - 1],
        })
    }

    /// Writes letters and the digits of a number as one word.
    pub fn lettered(self, letters: &[u8], number: u32) -> Result<Writer, AllocError>
        requires { IsLetters letters.now }
        ensures { IfOk result (λ new. new ≡ self ++ Word (letters.now ++ decimal number) ∷ []) }
    {
        let (mut text, _) = apart(self.text, self.last, letters[0])?;
        text.extend_from_slice(letters)?;
        put_number(&mut text, number)?;
        Ok(Writer { text, last: b'0' })
    }

    /// Writes letters and two numbers, with `_` between them, as one word.
    pub fn numbered(self, letters: &[u8], first: u32, second: u32) -> Result<Writer, AllocError>
        requires { IsLetters letters.now }
        ensures { IfOk result (λ new. new ≡ self ++ Word (letters.now ++ two_numbers first second) ∷ []) }
    {
        let (mut text, _) = apart(self.text, self.last, letters[0])?;
        text.extend_from_slice(letters)?;
        put_two(&mut text, first, second)?;
        Ok(Writer { text, last: b'0' })
    }

    /// Writes letters and three numbers, with `_` between them, as one word.
    pub fn with_three(
        self,
        letters: &[u8],
        first: u32,
        second: u32,
        third: u32,
    ) -> Result<Writer, AllocError>
        requires { IsLetters letters.now }
        ensures { IfOk result (λ new. new ≡ self ++ Word (letters.now ++ (two_numbers first second ++ (codes "_" ++ decimal third))) ∷ []) }
    {
        let (mut text, _) = apart(self.text, self.last, letters[0])?;
        text.extend_from_slice(letters)?;
        put_three(&mut text, first, second, third)?;
        Ok(Writer { text, last: b'0' })
    }

    /// Writes two parts of a word, of which the second may be empty.
    pub fn word(self, letters: &[u8], more: &[u8]) -> Result<Writer, AllocError>
        requires letters { IsLetters letters.now }
        requires more { AreWordBytes more.now }
        ensures { IfOk result (λ new. new ≡ self ++ Word (letters.now ++ more.now) ∷ []) }
    {
        let (mut text, _) = apart(self.text, self.last, letters[0])?;
        text.extend_from_slice(letters)?;
        text.extend_from_slice(more)?;
        Ok(Writer { text, last: b'0' })
    }

    /// Writes a string literal of these bytes (ISO/IEC 9899:2011 6.4.5).
    pub fn string(self, bytes: &[u8]) -> Result<Writer, AllocError>
        ensures { IfOk result (λ new. new ≡ self ++ Str (flat_map quoted_byte bytes.now) ∷ []) }
    {
        let mut text = self.text;
        text.push(b'"')?;
        put_quoted(&mut text, bytes)?;
        text.push(b'"')?;
        Ok(Writer { text, last: b'"' })
    }

    /// Begins a line, if the text doesn't stand at the start of one.
    pub fn fresh(self) -> Result<Writer, AllocError>
        ensures { IfOk result (λ new. new ≡ self) }
    {
        let text = feed(self.text, self.last)?;
        Ok(Writer { text, last: b'\n' })
    }

    /// Writes a line by itself, with the line feed at its end.
    pub fn directive(self, line: &[u8]) -> Result<Writer, AllocError>
        requires { mode_after (Between Fresh) line.now ≡ Between Fresh }
        ensures { IfOk result (λ new. new ≡ self ++ c_tokens line.now) }
    {
        let mut text = feed(self.text, self.last)?;
        text.extend_from_slice(line)?;
        Ok(Writer { text, last: b'\n' })
    }

    /// The text.
    pub fn finish(self) -> Vec<u8>
        ensures { c_tokens result.items ≡ self }
    {
        self.text
    }
}
