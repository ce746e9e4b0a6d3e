//! Runs the program's call over files in memory, one for each file that the words name, and prints
//! what it answers and what it leaves. The expected lines stand in the file `stdout`.
#![tactic(auto)]

#[cfg(test)]
mod tests;

use anyhow::{Result, anyhow};
use cy_io::{SureFiles, SureSink};
use cyc_top::cyc;
use std::rt::Runtime;
use std::{env, fs};

fn print_file<R: Runtime + AllocGlobal>(rt: &R, files: &SureFiles, name: &str) -> Result<()> {
    if let Some(bytes) = files.get(name.as_bytes()) {
        println!(rt; "-- {name}")?;
        print!(rt; "{}", String::from_utf8_lossy(rt.alloc(), bytes)?)?;
    }
    Ok(())
}

fn run_case<R: Runtime + AllocGlobal>(rt: &R, name: &str) -> Result<()> {
    let bytes = fs::read(rt, name)?;
    let mut files = SureFiles::new(rt.alloc());
    files.add(name.as_bytes(), bytes.as_slice())?;
    let words = vec![in rt.alloc();
        String::from_str(rt.alloc(), "build")?,
        String::from_str(rt.alloc(), name)?,
    ]?;
    let mut out = SureSink::new(rt.alloc());
    let mut err = SureSink::new(rt.alloc());
    let status = cyc(rt.alloc(), words.as_slice(), &mut files, &mut out, &mut err);
    println!(rt; "== {name}: {}", status.number())?;
    print_file(rt, &files, "cyc_set.h")?;
    let module = name.strip_suffix(".pyx").ok_or(anyhow!("no .pyx"))?;
    print_file(rt, &files, format!(in rt.alloc(); "{module}.c")?.as_str())
}

fn main(rt: HostRuntime) -> Result<()> {
    for name in env::args(&rt)?.skip(1) {
        run_case(&rt, name.as_str())?;
    }
    Ok(())
}
