//! Reads C texts and prints what they hold, in the layout of the printer, or how many items stand before what is none.
//!
//! Words: `show FILE` reads each text of a file, where a line `-- name` stands before it; `count FILE` reads the text of
//! each line `number|name|text`, in which a grave accent stands for a line feed, and prints the number of its items;
//! `prefixes FILE` reads each prefix of a file; `many FILE COUNT` reads a text so many times over, then prints it and reads
//! it again; `build`, `read` and `print` do parts of that, for measurements. The expected lines stand in the file `stdout`.
#![tactic(auto)]

mod again;
mod copies;

use again::again;
use anyhow::{Result, anyhow, bail};
use c_printer::print;
use c_read::{CStop, read_c};
use copies::{Part, run_copies};
use std::rt::Runtime;
use std::{env, fs, str};

// What a text holds.
#[derive(Clone, Copy, PartialEq, Eq)]
enum Answer {
    Whole(usize),
    Refused(u32),
}

fn answer_of<R: Runtime + AllocGlobal>(rt: &R, text: &[u8]) -> Result<Answer> {
    if text.len() >= 0x1_0000_0000 {
        bail!("the text is too long");
    }
    match read_c(rt.alloc(), text) {
        Ok(file) => Ok(Answer::Whole(file.items.len())),
        Err(CStop::Refused { items }) => Ok(Answer::Refused(items)),
        Err(CStop::Memory) => bail!("out of memory"),
    }
}

// ---- texts that are shown

fn show_text<R: Runtime + AllocGlobal>(rt: &R, name: &str, text: &[u8]) -> Result<()> {
    if text.len() >= 0x1_0000_0000 {
        bail!("the text is too long");
    }
    println!(rt; "-- {name}")?;
    match read_c(rt.alloc(), text) {
        Ok(file) => {
            let printed = print(rt.alloc(), &file)?;
            let printed = str::from_utf8(printed.as_slice()).map_err(|_| anyhow!("no text"))?;
            print!(rt; "{printed}")?;
            again(rt.alloc(), &file)?;
        }
        Err(stop) => println!(rt; "{stop}")?,
    }
    Ok(())
}

fn show<R: Runtime + AllocGlobal>(rt: &R, file: &str) -> Result<()> {
    let mut name = String::new(rt.alloc());
    let mut text = String::new(rt.alloc());
    for line in file.lines() {
        if let Some(next) = line.strip_prefix("-- ") {
            if !name.is_empty() {
                show_text(rt, name.as_str(), text.as_bytes())?;
            }
            name.clear();
            name.push_str(next)?;
            text.clear();
            continue;
        }
        text.push_str(line)?;
        text.push('\n')?;
    }
    show_text(rt, name.as_str(), text.as_bytes())
}

// ---- texts whose items are counted

fn text_of<R: Runtime + AllocGlobal>(rt: &R, line: &str) -> Result<Vec<u8>> {
    let mut text = Vec::new(rt.alloc());
    for byte in line.as_bytes() {
        text.push(if *byte == b'`' { b'\n' } else { *byte })?;
    }
    Ok(text)
}

fn count_line<R: Runtime + AllocGlobal>(rt: &R, line: &str) -> Result<()> {
    let (_, rest) = line.split_once('|').ok_or(anyhow!("a line without |"))?;
    let (name, text) = rest.split_once('|').ok_or(anyhow!("a line with one |"))?;
    let text = text_of(rt, text)?;
    match answer_of(rt, text.as_slice())? {
        Answer::Whole(items) => println!(rt; "{name}: {items} items")?,
        Answer::Refused(items) => println!(rt; "{name}: refused after {items}")?,
    }
    Ok(())
}

fn count<R: Runtime + AllocGlobal>(rt: &R, file: &str) -> Result<()> {
    for line in file.lines() {
        if !line.is_empty() && !line.starts_with('#') {
            count_line(rt, line)?;
        }
    }
    Ok(())
}

// ---- prefixes

fn put_run<R: Runtime>(rt: &R, from: usize, to: usize, answer: Answer) -> Result<()> {
    match answer {
        Answer::Whole(items) => println!(rt; "bytes {from} to {to}: {items} items")?,
        Answer::Refused(items) => println!(rt; "bytes {from} to {to}: refused after {items}")?,
    }
    Ok(())
}

fn prefixes<R: Runtime + AllocGlobal>(rt: &R, text: &[u8]) -> Result<()> {
    let mut from = 0;
    let mut run = answer_of(rt, &text[..0])?;
    for to in 1..=text.len() {
        let next = answer_of(rt, &text[..to])?;
        if next != run {
            put_run(rt, from, to - 1, run)?;
            from = to;
            run = next;
        }
    }
    put_run(rt, from, text.len(), run)
}

fn part_of(word: &str) -> Option<Part> {
    match word {
        "build" => Some(Part::Build),
        "read" => Some(Part::Read),
        "print" => Some(Part::Print),
        "many" => Some(Part::Again),
        _ => None,
    }
}

fn run<R: Runtime + AllocGlobal>(rt: &R, task: &str, name: &str, count_word: &str) -> Result<()> {
    let file = fs::read_to_string(rt, name)?;
    let Some(part) = part_of(task) else {
        return match task {
            "show" => show(rt, file.as_str()),
            "count" => count(rt, file.as_str()),
            "prefixes" => prefixes(rt, file.as_bytes()),
            _ => bail!("an unknown word"),
        };
    };
    let copies: u32 = count_word.parse().map_err(|_| anyhow!("no number"))?;
    run_copies(rt, part, file.as_bytes(), copies)
}

fn main(rt: HostRuntime) -> Result<()> {
    let mut words = env::args(&rt)?.skip(1);
    for _ in 0..u64::MAX {
        let Some(task) = words.next() else {
            break;
        };
        let name = words.next().ok_or(anyhow!("no file"))?;
        let copies = words.next().ok_or(anyhow!("no count"))?;
        run(&rt, task.as_str(), name.as_str(), copies.as_str())?;
    }
    Ok(())
}
