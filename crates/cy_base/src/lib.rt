//! Small types that every layer shares: places in files, rules and refusals, texts, and want of memory.
#![tactic(auto)]

mod error;
mod place;
#[cfg(test)]
mod tests;
mod text;

pub use error::{OutOfMemory, Stop, TextStop};
pub use place::{FileId, Phase, Refusal, Rule, Span};
pub use text::Text;
