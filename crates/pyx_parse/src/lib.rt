//! Expressions: the one tree of the longest run of tokens, or the first rule that is broken.
#![tactic(auto)]

mod answer;
mod atoms;
mod grammar;
mod nodes;
mod postfix;
mod reading;

pub use answer::{expression, target};
pub use reading::read;
