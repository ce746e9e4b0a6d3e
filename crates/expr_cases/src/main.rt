//! Reads an expression or a target from each line of the files that the words name, and prints its tree and the number
//! of the token after it, or its refusal. The expected lines stand in the file `stdout`.
//!
//! With the word `count` before a file it reads one expression from the file as it is, and prints how many tokens it has.
//!
//! A line is `expression` or `target`, how many things are open before it, `|` and a text.
#![tactic(auto)]

mod tree;

use anyhow::{Result, anyhow, bail};
use cy_base::Stop;
use cy_tree::Expr;
use pyx_lex::{Tokens, lex};
use pyx_parse::{expression, target};
use std::rt::Runtime;
use std::{env, fs};
use token_input::ends;
use tree::write_tree;

fn print_answer<R: Runtime + AllocGlobal>(
    rt: &R,
    answer: Result<(Expr, usize), Stop>,
) -> Result<()> {
    match answer {
        Ok((tree, next)) => {
            let mut out = String::new(rt.alloc());
            write_tree(rt.alloc(), &tree, &mut out)?;
            println!(rt; "{next}: {out}")?;
            Ok(())
        }
        Err(Stop::Refused(refusal)) => {
            let (file, number, offset) = (refusal.file, refusal.rule.number, refusal.offset);
            println!(rt; "refused P{number} file {file} byte {offset}")?;
            Ok(())
        }
        Err(Stop::Memory) => bail!("out of memory"),
    }
}

fn run_case<R: Runtime + AllocGlobal>(
    rt: &R,
    form: &str,
    depth: u32,
    tokens: &Tokens,
) -> Result<()> {
    if depth > 100 || tokens.list.is_empty() || !ends(tokens.list.as_slice()) {
        bail!("no such case");
    }
    match form {
        "expression" => print_answer(rt, expression(rt.alloc(), 7, tokens, 0, depth)),
        "target" => print_answer(rt, target(rt.alloc(), 7, tokens, 0, depth)),
        _ => bail!("an unknown form"),
    }
}

fn run_line<R: Runtime + AllocGlobal>(rt: &R, line: &str) -> Result<()> {
    if line.is_empty() || line.starts_with('#') {
        return Ok(());
    }
    let (head, text) = line.split_once('|').ok_or(anyhow!("a line without |"))?;
    let (form, depth) = head
        .split_once(' ')
        .ok_or(anyhow!("a line without a depth"))?;
    let depth = depth.parse::<u32>()?;
    if text.len() >= 0x1_0000_0000 {
        bail!("too long");
    }
    println!(rt; "== {line}")?;
    match lex(rt.alloc(), 7, text.as_bytes()) {
        Ok(tokens) => run_case(rt, form, depth, &tokens),
        Err(_) => bail!("no tokens"),
    }
}

fn count_tokens<R: Runtime + AllocGlobal>(rt: &R, tokens: &Tokens) -> Result<()> {
    if tokens.list.is_empty() || !ends(tokens.list.as_slice()) {
        bail!("no tokens");
    }
    match expression(rt.alloc(), 0, tokens, 0, 0) {
        Ok((_tree, next)) => {
            println!(rt; "{next} tokens")?;
            Ok(())
        }
        Err(_) => bail!("no expression"),
    }
}

fn count<R: Runtime + AllocGlobal>(rt: &R, name: &str) -> Result<()> {
    let text = fs::read(rt, name)?;
    if text.len() >= 0x1_0000_0000 {
        bail!("{name} is too long");
    }
    match lex(rt.alloc(), 0, text.as_slice()) {
        Ok(tokens) => count_tokens(rt, &tokens),
        Err(_) => bail!("{name} is refused"),
    }
}

fn run_file<R: Runtime + AllocGlobal>(rt: &R, name: &str) -> Result<()> {
    let file = fs::read_to_string(rt, name)?;
    for line in file.as_str().lines() {
        run_line(rt, line)?;
    }
    Ok(())
}

fn main(rt: HostRuntime) -> Result<()> {
    let words = env::args(&rt)?;
    let mut counting = false;
    for name in words.skip(1) {
        if name.as_str() == "count" {
            counting = true;
        } else if counting {
            count(&rt, name.as_str())?;
        } else {
            run_file(&rt, name.as_str())?;
        }
    }
    Ok(())
}
