//! Runs the machine over the C of thin files and over C with one change, and prints each trace, how the run came to
//! its end, which one more step doesn't change, and after how many steps. The cases stand in the files that the words
//! name, and the expected lines in the file `stdout`. A case is a line: a name, a change, a source and a script, and
//! the most steps where the usual don't do, with `|` between them; of such a case the events are only counted.
#![tactic(auto)]

mod changes;
mod long;
mod read;
mod show;

use anyhow::{Result, anyhow};
use std::alloc::Global;
use std::rt::Runtime;
use std::{env, fs};
use thin_mach::Machine;
use thin_sound::thin;
use thin_state::{Entry, Event, Step};

// More steps than any case takes.
const MOST_STEPS: u64 = 1_000;

fn told<R: Runtime + AllocGlobal>(rt: &R, events: &[Event], only_counts: bool) -> Result<()> {
    if only_counts {
        println!(rt; "{} events", events.len())?;
        return Ok(());
    }
    for event in events {
        println!(rt; "{}", show::event(rt.alloc(), event)?)?;
    }
    Ok(())
}

fn finished<R: Runtime + AllocGlobal>(
    rt: &R,
    machine: &mut Machine,
    script: &[Entry],
    given: Option<u64>,
) -> Result<()> {
    let mut events = Vec::new(rt.alloc());
    let mut steps: u64 = 0;
    let mut answer = Step::Went;
    for _ in 0..given.unwrap_or(MOST_STEPS) {
        answer = machine.step(script, &mut events);
        if answer != Step::Went {
            break;
        }
        steps = steps.saturating_add(1);
    }
    let made = events.len();
    if answer != Step::Went
        && (machine.step(script, &mut events) != answer || events.len() != made)
    {
        println!(rt; "another step after the last")?;
    }
    told(rt, events.as_slice(), given.is_some())?;
    println!(rt; "{}", show::end(rt.alloc(), answer, steps)?)?;
    Ok(())
}

fn run_case<R: Runtime + AllocGlobal>(rt: &R, line: &str) -> Result<()> {
    let mut parts = line.split('|');
    let name = parts.next().ok_or(anyhow!("no name"))?;
    let change = parts.next().ok_or(anyhow!("no change"))?;
    let source = parts.next().ok_or(anyhow!("no source"))?;
    let script = read::script(rt.alloc(), parts.next().ok_or(anyhow!("no script"))?)?;
    let given = match parts.next() {
        Some(word) => Some(word.parse::<u64>()?),
        None => None,
    };
    println!(rt; "== {name}")?;
    let text = format!(in rt.alloc(); "{source}\n")?;
    let files = thin(rt.alloc(), b"m", text.as_bytes())?.ok_or(anyhow!("not thin"))?;
    let files = changes::changed(rt.alloc(), files, change)?;
    let mut machine = Machine::new(rt.alloc(), files)?;
    finished(rt, &mut machine, script.as_slice(), given)
}

fn main(rt: HostRuntime) -> Result<()> {
    for name in env::args(&rt)?.skip(1) {
        let text = fs::read_to_string(&rt, name.as_str())?;
        for line in text.lines() {
            run_case(&rt, line)?;
        }
    }
    Ok(())
}
