//! Prints C trees: the header and the module that are written for one function of two parameters, `def f(a, b)`, which
//! gives their sum. The file `stdout` holds what the format asks for, and never what the program wrote.
#![tactic(auto)]

ghost use Rattle.c_tree.specs.Forms.{IsFile};

mod lines;
mod parts;

use anyhow::{Result, anyhow};
use c_printer::print;
use c_tree::CFile;
use std::rt::Runtime;
use std::str;

fn show<R: Runtime + AllocGlobal>(rt: &R, file: &CFile) -> Result<()>
    requires { IsFile file.now }
{
    let text = print(rt.alloc(), file)?;
    let text = str::from_utf8(text.as_slice()).map_err(|_| anyhow!("no text"))?;
    print!(rt; "{text}")?;
    Ok(())
}

fn main(rt: HostRuntime) -> Result<()> {
    show(&rt, &parts::header(rt.alloc())?)?;
    println!(rt; "--")?;
    show(&rt, &parts::module(rt.alloc())?)
}
