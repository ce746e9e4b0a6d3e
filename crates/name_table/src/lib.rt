//! Tables of names, each with what it means: maps that contracts see as lists of entries.
#![tactic(auto)]

mod entry;
mod laws;
mod table;

pub use entry::{NamedEntry, number};
pub use laws::first_entries_say_the_same;
pub use table::{NameTable, find};
