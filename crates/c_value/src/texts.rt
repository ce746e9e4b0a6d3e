//! Texts of C.
ghost use Rattle.std.specs.Prelude.{◌≡◌, IfOk};
ghost use Rattle.c_value.specs.Values.{c_string};

use c_token::Bytes;
use cy_base::OutOfMemory;
use std::alloc::Global;

/// What a text is to C: its bytes up to the first 0 (ISO/IEC 9899:2011 7.1.1).
pub fn c_string(alloc: Global, text: &[u8]) -> Result<Bytes, OutOfMemory>
    ensures { IfOk result (λ r. r ≡ c_string text.now) }
{
    let mut bytes = Vec::new(alloc);
    for byte in text {
        if *byte == 0 {
            return Ok(Bytes::new(bytes));
        }
        bytes.push(*byte)?;
    }
    Ok(Bytes::new(bytes))
}
