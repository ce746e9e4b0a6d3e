//! The escapes of string literals (Python language reference, section 2.4.1).
ghost use Rattle.std.specs.Prelude.{◌≡◌, ◌+◌, ◌<◌, ◌≤◌, ◌++◌, length, take, drop, true, false, IfOk, OnOk, MatchOption, IfSome, IsTrue, encode_utf8_all, option_to_list, string_bytes, chars};
ghost use Rattle.std.specs.Option.{option_map};
ghost use Rattle.std.specs.List.{list_all};
ghost use Rattle.std.specs.Char.{is_digit};
ghost use Rattle.pyx_lex.specs.Strings.{letter_escape, wanted_digits, hex_value, code_at, escape_at, behind_backslash, part_at, part_of, unescaped, inside_value};

use cy_base::{OutOfMemory, Text};
use std::alloc::{AllocError, Global};

/// A part of the inside of a string: a character or an escape.
#[derive(Clone, Copy, Debug, PartialEq, Eq)]
pub(crate) struct Part {
    pub gives: Option<char>,
    pub taken: usize,
}

fn letter_escape(c: char) -> Option<char>
    ensures { result ≡ letter_escape c }
{
    match c {
        '\\' | '\'' | '"' => Some(c),
        'a' => Some('\x07'),
        'b' => Some('\x08'),
        'f' => Some('\x0c'),
        'n' => Some('\n'),
        'r' => Some('\r'),
        't' => Some('\t'),
        'v' => Some('\x0b'),
        _ => None,
    }
}

fn wanted_digits(c: char) -> usize
    ensures count { result ≡ wanted_digits c }
    ensures few { result ≤ 8 }
{
    match c {
        'x' => 2,
        'u' => 4,
        'U' => 8,
        _ => 0,
    }
}

/// The value of at most eight hexadecimal digits.
fn hex_value(digits: &[char]) -> Option<u32>
    requires { length digits.now ≤ 8 }
    ensures { MatchOption result (list_all (λ c. is_digit c 16) digits.now ≡ false)
        (λ value. (list_all (λ c. is_digit c 16) digits.now ≡ true) × (value ≡ hex_value digits.now)) }
{
    let mut value = 0;
    for c in digits {
        match c.to_digit(16) {
            Some(digit) => value = value * 16 + digit,
            None => return None,
        }
    }
    Some(value)
}

/// The character whose code stands in hexadecimal digits.
fn code_at(count: usize, cs: &[char]) -> Option<char>
    requires { count ≤ 8 }
    ensures code { result ≡ code_at count cs.now }
    ensures within { IfSome result (λ _. count ≤ length cs.now) }
{
    if cs.len() < count {
        return None;
    }
    match hex_value(&cs[..count]) {
        Some(code) => char::from_u32(code),
        None => None,
    }
}

fn part_of(gives: Option<char>, taken: usize) -> Option<Part>
    ensures { result ≡ part_of gives taken }
{
    match gives {
        Some(c) => Some(Part {
            gives: Some(c),
            taken,
        }),
        None => None,
    }
}

/// The escape behind a backslash.
fn escape_at(c: char, cs: &[char]) -> Option<Part>
    ensures part { result ≡ escape_at c cs.now }
    ensures within { IfSome result (λ part. part.taken ≤ length cs.now + 2) }
{
    if c == '\n' {
        return Some(Part {
            gives: None,
            taken: 2,
        });
    }
    let wanted = wanted_digits(c);
    if wanted == 0 {
        part_of(letter_escape(c), 2)
    } else {
        part_of(code_at(wanted, cs), 2 + wanted)
    }
}

/// The part that characters begin with.
pub(crate) fn part_at(cs: &[char]) -> Option<Part>
    ensures part { result ≡ part_at cs.now }
    ensures within { IfSome result (λ part. (0 < part.taken) × (part.taken ≤ length cs.now)) }
{
    let (first, rest) = cs.split_first()?;
    if *first != '\\' {
        return Some(Part {
            gives: Some(*first),
            taken: 1,
        });
    }
    let (second, more) = rest.split_first()?;
    escape_at(*second, more)
}

fn put_char(out: &mut String, gives: Option<char>) -> Result<(), AllocError>
    ensures { OnOk result (string_bytes out.new ≡ string_bytes out.old ++ encode_utf8_all (option_to_list gives)) }
{
    match gives {
        Some(c) => out.push(c),
        None => Ok(()),
    }
}

/// What the characters of an inside stand for.
fn unescaped(alloc: Global, cs: &[char]) -> Result<Option<String>, AllocError>
    ensures { IfOk result (λ text. option_map string_bytes text ≡ option_map encode_utf8_all (unescaped 0 cs.now)) }
{
    let mut out = String::new(alloc);
    let mut at = 0;
    while at < cs.len() {
        match part_at(&cs[at..]) {
            Some(part) => {
                put_char(&mut out, part.gives)?;
                at += part.taken;
            }
            None => return Ok(None),
        }
    }
    Ok(Some(out))
}

fn chars_of(alloc: Global, text: &str) -> Result<Vec<char>, AllocError>
    ensures { IfOk result (λ cs. cs.items ≡ chars text.now) }
{
    text.chars().collect(alloc)
}

fn escaped_value(alloc: Global, inside: &str) -> Result<Option<Text>, OutOfMemory>
    ensures { IfOk result (λ value. value ≡ inside_value false inside.now) }
{
    let cs = chars_of(alloc, inside)?;
    let text = unescaped(alloc, &cs)?;
    match text {
        Some(text) => Ok(Some(Text::from_string(text))),
        None => Ok(None),
    }
}

/// Whether an inside may stand for another text than itself.
fn has_escapes(raw: bool, inside: &str) -> bool
    ensures escaped { IsTrue result → raw ≡ false }
    ensures plain { result ≡ false → inside_value raw inside.now ≡ Some inside.now }
{
    if raw {
        return false;
    }
    inside.contains('\\')
}

/// The text that the inside of a string stands for.
pub(crate) fn inside_value(
    alloc: Global,
    raw: bool,
    inside: &str,
) -> Result<Option<Text>, OutOfMemory>
    ensures { IfOk result (λ value. value ≡ inside_value raw inside.now) }
{
    if has_escapes(raw, inside) {
        return escaped_value(alloc, inside);
    }
    let text = Text::from_str(alloc, inside)?;
    Ok(Some(text))
}
