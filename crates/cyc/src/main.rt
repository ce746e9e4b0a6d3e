//! The program `cyc`: the words of the command line over the real files and streams.
#![tactic(auto)]

use cy_io::{DiskFiles, StdSink};
use cyc_top::{Status, cyc};
use std::alloc::{AllocError, Global};
use std::process::ExitCode;
use std::rt::Env;
use std::{env, io};

fn words<R: Env + AllocGlobal>(rt: &R) -> io::Result<Vec<String>> {
    let mut words = Vec::new(rt.alloc());
    for word in env::args(rt)?.skip(1) {
        words.push(word).map_err(AllocError::from)?;
    }
    Ok(words)
}

// A word that is no text makes no command.
fn status_of(error: &io::Error) -> Status {
    if error.kind() == io::ErrorKind::OutOfMemory {
        Status::Memory
    } else {
        Status::Usage
    }
}

fn main(rt: HostRuntime) -> ExitCode {
    let status = match words(&rt) {
        Ok(words) => cyc(
            rt.alloc(),
            words.as_slice(),
            &mut DiskFiles::new(&rt),
            &mut StdSink::new(rt.stdout()),
            &mut StdSink::new(rt.stderr()),
        ),
        Err(error) => status_of(&error),
    };
    ExitCode::from(status.number())
}
