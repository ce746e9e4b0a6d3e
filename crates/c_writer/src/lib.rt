//! What writes C text token by token.
#![tactic(auto)]

mod writer;

pub use writer::Writer;
