//! Changes that moves begin with.
ghost use Rattle.std.specs.Prelude.{◌≡◌};
ghost use Rattle.c_state.specs.Planned.{lending, nothing};

use api_model::Obj;
use c_value::{Change, ErrorChange, Flow, Remembering, SpaceChange};
use sqlite_items::Items;
use std::alloc::Global;

/// Nothing is changed.
pub fn nothing(alloc: Global) -> Change
    ensures { result ≡ nothing }
{
    Change {
        takes: false,
        event: None,
        flow: Flow::Stays,
        ends_loans: false,
        lends: Items::new(alloc),
        gains: Items::new(alloc),
        loses: Items::new(alloc),
        gets_back: Items::new(alloc),
        error: ErrorChange::Stays,
        lock: None,
        remembered: Remembering::Stays,
        space: SpaceChange::Stays,
        begins: None,
        course: None,
        gives: None,
    }
}

/// Loans are made, and nothing else.
pub fn lending(alloc: Global, objects: Items<Obj>) -> Change
    ensures { result ≡ lending objects }
{
    Change {
        lends: objects,
        ..nothing(alloc)
    }
}
