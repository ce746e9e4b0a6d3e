//! The rules on statements alone: what stands outside a loop, a function or a handler, or inside a compound statement.
#![tactic(auto)]

mod around;
mod file;
mod leaf;
#[cfg(test)]
mod tests;
mod walk;

pub use file::control;
