//! Statements and suites (Python language reference, 8; `with nogil` and `with gil` are Cython's): the one tree of what
//! stands at the front, or the first rule that is broken.
#![tactic(auto)]

mod compound;
mod handling;
mod nesting;
mod parts;
mod statements;
mod suites;

pub use nesting::{body, statement};
