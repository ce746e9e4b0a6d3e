//! What the rules share.
ghost use Rattle.std.specs.Prelude.{◌≡◌};
ghost use Rattle.declaration_rules.specs.Rules.{breaks, has_dims};

use cy_base::{FileId, Phase, Refusal, Rule};
use cy_tree::Dim;

pub(crate) type Least = Option<Refusal>;

pub(crate) fn breaks(file: FileId, number: u8, offset: u32) -> Refusal
    ensures { result ≡ breaks file number offset }
{
    let phase = Phase::Static;
    Refusal {
        rule: Rule { phase, number },
        file,
        offset,
    }
}

pub(crate) fn has_dims(dims: &[Dim]) -> bool
    ensures { result ≡ has_dims dims.now }
{
    match dims {
        [] => false,
        [_, ..] => true,
    }
}
