ghost use Rattle.std.specs.Prelude.{ℕ, List};
ghost use Rattle.cy_mean.specs.declared.ThinFunction.{ThinFunction};
ghost use Rattle.cy_mean.specs.Source.{thin_set};
ghost use Rattle.cy_mean.specs.Sound.{IsSound};
ghost use Rattle.thin_source.specs.Thin.{IsThin};
ghost use Rattle.thin_code.specs.ThinC.{thin_files};

/// The C of a thin file means what its source means: over every honest script its steps make the events of the
/// sources' meaning, all of them and no others, and none faults. A law; it does nothing.
pub fn thin_is_sound()
    ensures { (name : List ℕ) (thin : ThinFunction) → IsThin thin
        → IsSound (thin_set name thin) (thin_files name thin) }
{}
