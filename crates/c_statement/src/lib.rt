//! C statements and lines, read from C tokens.
#![tactic(auto)]

mod assigned;
mod body;
mod buffers;
mod calls;
mod jumps;
mod object_tests;
mod operands;
mod places;
mod seen;
mod source;
mod source_kind;
mod sources;
mod statement_kind;
mod statements;
mod store;
mod written;

pub use body::{line, lines};
pub use statements::statement;
