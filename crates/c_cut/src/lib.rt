//! C tokens, and the cutting of a file's tokens into items.
#![tactic(auto)]

mod items;
mod place;
#[cfg(test)]
mod tests;
mod token;

pub use items::cut;
pub use token::Token;
