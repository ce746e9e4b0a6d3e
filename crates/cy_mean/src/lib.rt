//! What the sources mean: the trees of the sources and their events.
#![tactic(auto)]

mod laws;

use c_token::Bytes;
pub use laws::{
    c_events_end_once, more_budget_adds_events, more_steps_add_events, source_events_end_once,
};
use sqlite_items::Items;

/// `def NAME(P, ..): return X + Y`, where X and Y are among the parameters.
#[derive(Drop)]
pub struct ThinFunction {
    pub name: Bytes,
    pub parameters: Items<Bytes>,
    pub left: Bytes,
    pub right: Bytes,
}
