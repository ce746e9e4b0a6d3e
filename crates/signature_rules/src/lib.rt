//! The rules on parameters alone: their defaults, and the first one of a method.
#![tactic(auto)]

mod file;
mod function;
mod param;
mod place;
#[cfg(test)]
mod tests;

pub use file::signature;
