//! The tokens of a C text.
#![tactic(auto)]

mod byte;
mod lex;
mod mode;
#[cfg(test)]
mod tests;

pub use lex::tokens;
