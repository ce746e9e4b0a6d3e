ghost use Rattle.std.specs.Prelude.{◌≡◌, IfOk};

use cy_base::OutOfMemory;
use cy_tree::NameKind;

/// A name, and what it means. The project's own.
#[derive(Clone, Copy)]
pub struct NamedEntry<'a> {
    pub name: &'a [u8],
    pub kind: NameKind,
}

/// A number of a name, a function or a module. No set has so many that their numbers don't fit.
pub fn number(count: usize) -> Result<u32, OutOfMemory>
    ensures { IfOk result (λ n. n ≡ count) }
{
    match u32::try_from(count) {
        Ok(n) => Ok(n),
        Err(_) => Err(OutOfMemory),
    }
}
