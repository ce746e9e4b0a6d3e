//! The least of many broken rules, by file, offset and rule.
#![tactic(auto)]

mod laws;
mod least;
#[cfg(test)]
mod tests;

pub use laws::{lists_are_joined, order_is_free, there_is_one_first};
pub use least::{note, note_if};
