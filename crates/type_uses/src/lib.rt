//! Types as they are written: where they stand in a file, the names that are declared with them, and what their words mean.
#![tactic(auto)]

#[cfg(test)]
mod tests;
mod walk;
mod words;

pub use walk::{TypeUse, note_uses};
pub use words::{contiguity, element, words_meant};
