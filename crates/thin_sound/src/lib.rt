//! The C of thin files, and that it means what its source means.
#![tactic(auto)]

mod laws;

ghost use Rattle.std.specs.Prelude.{◌≡◌, ◌≢◌, IfOk, IfSome, All, None};
ghost use Rattle.thin_state.specs.CReading.{IsFileInForm};
ghost use Rattle.cy_mean.specs.declared.ThinFunction.{ThinFunction};
ghost use Rattle.cy_mean.specs.Source.{thin_set};
ghost use Rattle.cy_mean.specs.Sound.{IsSound};
ghost use Rattle.thin_source.specs.Thin.{IsIdentifier, IsThin, thin_text};
ghost use Rattle.thin_code.specs.ThinC.{thin_files};

use cy_base::OutOfMemory;
pub use laws::thin_is_sound;
use std::alloc::Global;
use thin_code::compile;
use thin_source::parse_thin;
use thin_state::CFile;

/// The C trees of a thin file of the module `name`: the header and the module's own file.
/// None where the bytes are no thin file; the error only where memory is wanting.
pub fn thin(alloc: Global, name: &[u8], bytes: &[u8]) -> Result<Option<Vec<CFile>>, OutOfMemory>
    ensures found { IfOk result (λ found. IfSome found (λ files. (thin : ThinFunction)
        × IsThin thin × (bytes.now ≡ thin_text thin) × (files.items ≡ thin_files name.now thin))) }
    ensures in_form { IfOk result (λ found. IfSome found
        (λ files. IsIdentifier name.now → All IsFileInForm files.items)) }
    ensures not_found { IfOk result (λ found. found ≡ None
        → (thin : ThinFunction) → IsThin thin → bytes.now ≢ thin_text thin) }
    ensures sound { IfOk result (λ found. IfSome found (λ files. (thin : ThinFunction)
        × IsThin thin × (bytes.now ≡ thin_text thin)
        × IsSound (thin_set name.now thin) files.items)) }
{
    match parse_thin(alloc, bytes)? {
        Some(function) => Ok(Some(compile(alloc, name, &function)?)),
        None => Ok(None),
    }
}
