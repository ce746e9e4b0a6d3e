//! The tokens of a source text, or the first rule on tokens that it breaks.
#![tactic(auto)]

mod blanks;
mod escape;
mod lines;
mod name;
mod number;
mod pass;
mod piece;
mod sign;
mod string;
mod token;

pub use lines::lists_open_widths;
pub use pass::lex;
pub use token::{Token, TokenKind, Tokens};
