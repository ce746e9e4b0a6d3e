//! A text many times over, which is read, printed and read again.
use crate::again::again;
use anyhow::{Result, bail};
use c_printer::print;
use c_read::read_c;
use std::rt::Runtime;

/// How far a text is taken.
#[derive(Clone, Copy)]
pub enum Part {
    Build,
    Read,
    Print,
    Again,
}

fn build<R: Runtime + AllocGlobal>(rt: &R, text: &[u8], copies: u32) -> Result<Vec<u8>> {
    let mut whole = Vec::new(rt.alloc());
    for _ in 0..copies {
        whole.extend_from_slice(text)?;
    }
    Ok(whole)
}

fn read<R: Runtime + AllocGlobal>(rt: &R, part: Part, text: &[u8]) -> Result<()> {
    if text.len() >= 0x1_0000_0000 {
        bail!("the text is too long");
    }
    let Ok(file) = read_c(rt.alloc(), text) else {
        bail!("the text is refused");
    };
    let items = file.items.len();
    println!(rt; "{items} items read")?;
    match part {
        Part::Print => {
            let printed = print(rt.alloc(), &file)?.len();
            println!(rt; "{printed} bytes printed")?;
        }
        Part::Again => {
            let items = again(rt.alloc(), &file)?.items.len();
            println!(rt; "{items} items read again")?;
        }
        _ => {}
    }
    Ok(())
}

/// Builds the text, and reads, prints and reads it again, as far as is asked.
pub fn run_copies<R: Runtime + AllocGlobal>(
    rt: &R,
    part: Part,
    text: &[u8],
    copies: u32,
) -> Result<()> {
    let whole = build(rt, text, copies)?;
    let bytes = whole.len();
    println!(rt; "{bytes} bytes")?;
    match part {
        Part::Build => Ok(()),
        _ => read(rt, part, whole.as_slice()),
    }
}
