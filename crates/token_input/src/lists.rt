ghost use Rattle.std.specs.Prelude.{◌≡◌, ◌∷◌, IfOk};

use sqlite_items::Items;
use std::alloc::{AllocError, Global};

/// The list of a first item and those behind it.
pub fn joined<T: Drop>(alloc: Global, first: T, more: Items<T>) -> Result<Items<T>, AllocError>
    ensures { IfOk result (λ all. all ≡ first ∷ more) }
{
    let mut all = Items::new(alloc);
    all.push(first)?;
    all.append(more)?;
    Ok(all)
}
