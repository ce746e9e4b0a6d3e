//! Elements of a view: at which byte places they stand, and of which types. No call takes memory.
#![tactic(auto)]

mod format;
mod place;
#[cfg(test)]
mod tests;
mod window;

pub use format::matches;
pub use place::{is_element, is_element_place, tested_places_are_those_of_elements};
