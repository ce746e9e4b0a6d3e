//! Parses each line of the files that the words name, and prints its tree, or the rule that it breaks and where; behind the
//! word `resolve` each line is a set of files, of which it prints what the scopes hold; behind `count` it parses the file
//! itself, and prints how many nodes it has. With the word `many` it does so for a hundred thousand functions, a sum with a
//! million operands, and a hundred and fifty thousand names. The expected lines stand in the file `stdout`, from a second
//! parser and a second resolver.
//!
//! A line is a name, `|`, `pyx` or `pxd`, `|` and a text, in which `\n` `\r` `\t` `\\` and `\xhh` stand for bytes and
//! `\{n}c` for n times c.
#![tactic(auto)]

mod sets;
mod shown;

ghost use Rattle.std.specs.Prelude.{◌≡◌, true};
ghost use Rattle.token_input.specs.Ended.{is_ended};

use anyhow::{Result, anyhow, bail};
use cy_base::{FileId, Phase, Stop};
use cy_tree::FileTree;
use pyx_decl::{definition, implementation};
use pyx_lex::{Tokens, lex};
use sets::{count_names, run_set};
use shown::put_tree;
use std::alloc::Global;
use std::rt::Runtime;
use std::{env, fs};
use token_input::ends;

const FILE: FileId = 7;

fn hex_byte(digits: &[u8]) -> Option<u8> {
    let [high, low] = digits else {
        return None;
    };
    let high = (*high as char).to_digit(16)?;
    let low = (*low as char).to_digit(16)?;
    u8::try_from(high * 16 + low).ok()
}

fn number(digits: &[u8]) -> Option<usize> {
    let mut value: usize = 0;
    for byte in digits {
        let digit = (*byte as char).to_digit(10)?;
        value = value.checked_mul(10)?.checked_add(digit as usize)?;
    }
    Some(value)
}

// What stands behind a backslash: its byte, how often it comes, and how much of the line it takes.
fn escaped(rest: &[u8]) -> Option<(u8, usize, usize)> {
    match rest.first()? {
        b'n' => Some((b'\n', 1, 1)),
        b'r' => Some((b'\r', 1, 1)),
        b't' => Some((b'\t', 1, 1)),
        b'\\' => Some((b'\\', 1, 1)),
        b'x' => Some((hex_byte(rest.get(1..3)?)?, 1, 3)),
        b'{' => {
            let end = rest.iter().position(|byte| *byte == b'}')?;
            let count = number(rest.get(1..end)?)?;
            let byte = rest.get(end + 1)?;
            Some((*byte, count, end + 2))
        }
        _ => None,
    }
}

fn text_of(alloc: Global, line: &[u8]) -> Result<Vec<u8>> {
    let mut text = Vec::new(alloc);
    let mut at = 0;
    while at < line.len() {
        let byte = line[at];
        at += 1;
        if byte != b'\\' {
            text.push(byte)?;
            continue;
        }
        let (byte, count, taken) = escaped(&line[at..]).ok_or(anyhow!("an unknown escape"))?;
        for _ in 0..count {
            text.push(byte)?;
        }
        at = at.saturating_add(taken);
    }
    Ok(text)
}

// The tree of a file, by the ending of its name.
fn tree(alloc: Global, ending: &str, tokens: &Tokens) -> Result<FileTree, Stop>
    requires { is_ended tokens.now.list ≡ true }
{
    if ending == "pxd" {
        definition(alloc, FILE, tokens)
    } else {
        implementation(alloc, FILE, tokens)
    }
}

fn print_stop<R: Runtime + AllocGlobal>(rt: &R, name: &str, stop: Stop) -> Result<()> {
    let Stop::Refused(refusal) = stop else {
        bail!("out of memory");
    };
    let phase = match refusal.rule.phase {
        Phase::Parse => 'P',
        _ => 'L',
    };
    let (file, number, offset) = (refusal.file, refusal.rule.number, refusal.offset);
    println!(rt; "{name}: refused {phase}{number} file {file} byte {offset}")?;
    Ok(())
}

fn print_tree<R: Runtime + AllocGlobal>(rt: &R, name: &str, tree: &FileTree) -> Result<()> {
    let mut out = String::new(rt.alloc());
    put_tree(tree, &mut out)?;
    println!(rt; "{name}: {out}")?;
    Ok(())
}

fn parse_case<R: Runtime + AllocGlobal>(
    rt: &R,
    name: &str,
    ending: &str,
    tokens: &Tokens,
) -> Result<()> {
    if !ends(tokens.list.as_slice()) {
        bail!("no end");
    }
    match tree(rt.alloc(), ending, tokens) {
        Ok(tree) => print_tree(rt, name, &tree),
        Err(stop) => print_stop(rt, name, stop),
    }
}

fn run_case<R: Runtime + AllocGlobal>(rt: &R, name: &str, ending: &str, text: &[u8]) -> Result<()> {
    if text.len() >= 0x1_0000_0000 {
        bail!("{name} is too long");
    }
    match lex(rt.alloc(), FILE, text) {
        Ok(tokens) => parse_case(rt, name, ending, &tokens),
        Err(stop) => print_stop(rt, name, stop),
    }
}

fn run_line<R: Runtime + AllocGlobal>(rt: &R, line: &str) -> Result<()> {
    let (name, rest) = line.split_once('|').ok_or(anyhow!("a line without |"))?;
    let (ending, text) = rest.split_once('|').ok_or(anyhow!("a line with one |"))?;
    let text = text_of(rt.alloc(), text.as_bytes())?;
    run_case(rt, name, ending, text.as_slice())
}

fn count_nodes<R: Runtime + AllocGlobal>(rt: &R, name: &str, tokens: &Tokens) -> Result<()> {
    if !ends(tokens.list.as_slice()) {
        bail!("no end");
    }
    let Ok(tree) = tree(rt.alloc(), "pyx", tokens) else {
        bail!("{name} is refused");
    };
    let nodes = tree.nodes();
    println!(rt; "{name}: {nodes} nodes")?;
    Ok(())
}

fn count<R: Runtime + AllocGlobal>(rt: &R, name: &str, text: &[u8]) -> Result<()> {
    if text.len() >= 0x1_0000_0000 {
        bail!("{name} is too long");
    }
    let Ok(tokens) = lex(rt.alloc(), FILE, text) else {
        bail!("{name} has no tokens");
    };
    count_nodes(rt, name, &tokens)
}

fn many<R: Runtime + AllocGlobal>(rt: &R) -> Result<()> {
    let mut functions = String::new(rt.alloc());
    for _ in 0..100_000 {
        functions.push_str("def f(): pass\n")?;
    }
    count(rt, "functions", functions.as_bytes())?;
    let mut sum = String::from_str(rt.alloc(), "1")?;
    for _ in 1..1_000_000 {
        sum.push_str(" + 1")?;
    }
    sum.push('\n')?;
    count(rt, "operands", sum.as_bytes())
}

// What is done with the files that the words name.
#[derive(Clone, Copy)]
enum Task {
    Parse,
    Resolve,
    Count,
}

fn run_file<R: Runtime + AllocGlobal>(rt: &R, task: Task, name: &str) -> Result<()> {
    let file = fs::read_to_string(rt, name)?;
    if let Task::Count = task {
        return count(rt, name, file.as_bytes());
    }
    for line in file.as_str().lines() {
        if line.is_empty() || line.starts_with('#') {
            continue;
        }
        match task {
            Task::Resolve => run_set(rt, line)?,
            _ => run_line(rt, line)?,
        }
    }
    Ok(())
}

fn main(rt: HostRuntime) -> Result<()> {
    let mut task = Task::Parse;
    for word in env::args(&rt)?.skip(1) {
        match word.as_str() {
            "resolve" => task = Task::Resolve,
            "count" => task = Task::Count,
            "many" => {
                many(&rt)?;
                count_names(&rt)?;
            }
            name => run_file(&rt, task, name)?,
        }
    }
    Ok(())
}
