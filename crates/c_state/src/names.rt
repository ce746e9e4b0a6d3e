//! Names of classes.
ghost use Rattle.std.specs.Prelude.{◌≡◌, IfOk};
ghost use Rattle.c_state.specs.Reads.{before_dot, behind_dot, class_named};

use api_model::ClassName;
use c_token::Bytes;
use cy_base::OutOfMemory;
use std::alloc::Global;

fn before_dot(alloc: Global, name: &[u8]) -> Result<Bytes, OutOfMemory>
    ensures { IfOk result (λ r. r ≡ before_dot name.now) }
{
    let mut bytes = Vec::new(alloc);
    for byte in name {
        if *byte == b'.' {
            return Ok(Bytes::new(bytes));
        }
        bytes.push(*byte)?;
    }
    Ok(Bytes::new(bytes))
}

fn behind_dot(alloc: Global, name: &[u8]) -> Result<Bytes, OutOfMemory>
    ensures { IfOk result (λ r. r ≡ behind_dot name.now) }
{
    for (i, byte) in name.iter().enumerate() {
        if *byte == b'.' {
            return Ok(Bytes::new(Vec::from_slice(alloc, &name[i + 1..])?));
        }
    }
    Ok(Bytes::new(Vec::new(alloc)))
}

/// A name of two parts, `module.Class`: what stands before its first dot, and what behind it.
pub fn class_named(alloc: Global, name: &[u8]) -> Result<ClassName, OutOfMemory>
    ensures { IfOk result (λ r. r ≡ class_named name.now) }
{
    let module = before_dot(alloc, name)?;
    let class = behind_dot(alloc, name)?;
    Ok(ClassName { module, class })
}
