//! The machine that runs the C of the profile over a script: its state, what each statement does and which fault it
//! meets, the moves of the outside, and steps.
#![tactic(auto)]

mod arguments;
mod names;
mod planned;
mod state;
#[cfg(test)]
mod tests;

pub use arguments::is_tuple;
pub use names::class_named;
pub use planned::{lending, nothing};
pub use state::{Frame, Shared, State, Thread};
