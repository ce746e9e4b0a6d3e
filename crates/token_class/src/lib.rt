//! The classes of tokens: what a grammar asks of a token before it looks at what the token holds.
#![tactic(auto)]

mod class;
#[cfg(test)]
mod tests;

pub use class::{TokenClass, class_of};
