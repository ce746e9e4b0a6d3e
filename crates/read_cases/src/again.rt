//! What is printed is read again.
ghost use Rattle.std.specs.Prelude.{◌≡◌, IfOk};
ghost use Rattle.c_tree.specs.Forms.{IsFile};

use anyhow::{Result, bail};
use c_printer::print;
use c_read::read_c;
use c_tree::CFile;
use std::alloc::Global;

/// Prints a file and reads the text: it holds the same items, and is refused for no reason but its length or want of
/// memory.
pub fn again(alloc: Global, file: &CFile) -> Result<CFile>
    requires { IsFile file.now }
    ensures same { IfOk result (λ it. it.items ≡ file.now.items) }
    ensures form { IfOk result IsFile }
{
    let text = print(alloc, file)?;
    if text.len() >= 0x1_0000_0000 {
        bail!("the text is too long");
    }
    match read_c(alloc, text.as_slice()) {
        Ok(it) => Ok(it),
        Err(_) => bail!("out of memory"),
    }
}
