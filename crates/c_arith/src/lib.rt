//! The operators of C on numbers with their types. No call takes memory.
#![tactic(auto)]

mod laws;
mod number;
mod operators;
mod results;
#[cfg(test)]
mod tests;

pub use laws::division_goes_towards_zero;
pub use number::{Computed, Number, number_of, number_type};
pub use operators::{compute, convert, invert};
