//! Items whose labels and statements are found, and cells that are found, without a search.
#![tactic(auto)]

mod cells;
mod conversion;
mod item;
mod jumps;
mod numbers;

pub use cells::Cells;
pub use conversion::{converted, wrap_int};
pub use item::{Following, LinkedItem};
