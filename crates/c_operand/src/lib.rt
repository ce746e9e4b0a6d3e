//! Operands, operators, types and arguments, read from C tokens.
#![tactic(auto)]

mod calls;
mod kinds;
mod objects;
mod operators;
mod values;

pub use calls::{argument, arguments};
pub use kinds::{result_type, types};
pub use operators::operator;
pub use values::value;
