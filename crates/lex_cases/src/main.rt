//! Lexes each line of the files that the words name, and prints its tokens or its refusal. The expected lines stand in the
//! file `stdout`. With the word `count` before a file it lexes the file as it is and prints how many tokens it has.
//!
//! A line is a name, `|` and a text, in which `\n` `\r` `\t` `\\` and `\xhh` stand for bytes and `\{n}c` for n times c.
#![tactic(auto)]

use anyhow::{Result, anyhow, bail, ensure};
use cy_base::Stop;
use pyx_lex::{Token, TokenKind, lex};
use std::alloc::Global;
use std::rt::Runtime;
use std::{env, fs};

fn hex_byte(digits: &[u8]) -> Option<u8> {
    let [high, low] = digits else {
        return None;
    };
    let high = (*high as char).to_digit(16)?;
    let low = (*low as char).to_digit(16)?;
    u8::try_from(high * 16 + low).ok()
}

fn number(digits: &[u8]) -> Option<usize> {
    let mut value: usize = 0;
    for byte in digits {
        let digit = (*byte as char).to_digit(10)?;
        value = value.checked_mul(10)?.checked_add(digit as usize)?;
    }
    Some(value)
}

// What stands behind a backslash: its byte, how often it comes, and how much of the line it takes.
fn escaped(rest: &[u8]) -> Option<(u8, usize, usize)> {
    match rest.first()? {
        b'n' => Some((b'\n', 1, 1)),
        b'r' => Some((b'\r', 1, 1)),
        b't' => Some((b'\t', 1, 1)),
        b'\\' => Some((b'\\', 1, 1)),
        b'x' => Some((hex_byte(rest.get(1..3)?)?, 1, 3)),
        b'{' => {
            let end = rest.iter().position(|byte| *byte == b'}')?;
            let count = number(rest.get(1..end)?)?;
            let byte = rest.get(end + 1)?;
            Some((*byte, count, end + 2))
        }
        _ => None,
    }
}

fn text_of(alloc: Global, line: &[u8]) -> Result<Vec<u8>> {
    let mut text = Vec::new(alloc);
    let mut at = 0;
    while at < line.len() {
        let byte = line[at];
        at += 1;
        if byte != b'\\' {
            text.push(byte)?;
            continue;
        }
        let (byte, count, taken) = escaped(&line[at..]).ok_or(anyhow!("an unknown escape"))?;
        for _ in 0..count {
            text.push(byte)?;
        }
        at = at.saturating_add(taken);
    }
    Ok(text)
}

// The bytes as they stand in a line, with an escape for all but printable ASCII.
fn shown(alloc: Global, bytes: &[u8]) -> Result<String> {
    let mut out = String::new(alloc);
    for byte in bytes {
        if (b' '..=b'~').contains(byte) && *byte != b'\\' {
            out.push(*byte as char)?;
        } else {
            write!(out, "\\x{:02x}", *byte)?;
        }
    }
    Ok(out)
}

fn kind_of(alloc: Global, kind: &TokenKind) -> Result<String> {
    let (word, text) = match kind {
        TokenKind::Name(text) => ("name", text),
        TokenKind::Word(text) => ("word", text),
        TokenKind::Str(text) => ("string", text),
        TokenKind::Sign(text) => ("sign", text),
        TokenKind::Int(value) => return Ok(format!(in alloc; "int {value}")?),
        TokenKind::Newline => return Ok(String::from_str(alloc, "newline")?),
        TokenKind::Indent => return Ok(String::from_str(alloc, "indent")?),
        TokenKind::Dedent => return Ok(String::from_str(alloc, "dedent")?),
        TokenKind::End => return Ok(String::from_str(alloc, "end")?),
    };
    let bytes = shown(alloc, text.bytes())?;
    Ok(format!(in alloc; "{word} {bytes}")?)
}

fn print_token<R: Runtime + AllocGlobal>(rt: &R, token: &Token) -> Result<()> {
    let kind = kind_of(rt.alloc(), &token.kind)?;
    let (start, end) = (token.span.start, token.span.end);
    println!(rt; "{start}-{end} {kind}")?;
    Ok(())
}

fn run_case<R: Runtime + AllocGlobal>(rt: &R, name: &str, text: &[u8]) -> Result<()> {
    ensure!(text.len() < 0x1_0000_0000, "{name} is too long");
    match lex(rt.alloc(), 7, text) {
        Ok(tokens) => {
            println!(rt; "== {name}")?;
            for token in tokens.list.as_slice() {
                print_token(rt, token)?;
            }
            Ok(())
        }
        Err(Stop::Refused(refusal)) => {
            let (file, number, offset) = (refusal.file, refusal.rule.number, refusal.offset);
            println!(rt; "== {name}: refused L{number} file {file} byte {offset}")?;
            Ok(())
        }
        Err(Stop::Memory) => bail!("out of memory"),
    }
}

fn run_line<R: Runtime + AllocGlobal>(rt: &R, line: &str) -> Result<()> {
    if line.is_empty() || line.starts_with('#') {
        return Ok(());
    }
    let (name, text) = line.split_once('|').ok_or(anyhow!("a line without |"))?;
    let text = text_of(rt.alloc(), text.as_bytes())?;
    run_case(rt, name, text.as_slice())
}

fn count<R: Runtime + AllocGlobal>(rt: &R, name: &str) -> Result<()> {
    let text = fs::read(rt, name)?;
    ensure!(text.len() < 0x1_0000_0000, "{name} is too long");
    match lex(rt.alloc(), 0, text.as_slice()) {
        Ok(tokens) => {
            let count = tokens.list.len();
            println!(rt; "{count} tokens")?;
            Ok(())
        }
        Err(_) => bail!("{name} is refused"),
    }
}

fn main(rt: HostRuntime) -> Result<()> {
    let words = env::args(&rt)?;
    let mut counting = false;
    for name in words.skip(1) {
        if name.as_str() == "count" {
            counting = true;
        } else if counting {
            count(&rt, name.as_str())?;
        } else {
            let file = fs::read_to_string(&rt, name.as_str())?;
            for line in file.as_str().lines() {
                run_line(&rt, line)?;
            }
        }
    }
    Ok(())
}
