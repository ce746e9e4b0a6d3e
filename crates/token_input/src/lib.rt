//! The tokens that are left to read, and the forms of the grammar that hold no expression.
#![tactic(auto)]

mod halt;
mod input;
mod lists;
mod operators;
mod set;
mod types;
mod words;

pub use halt::Halt;
pub use input::{Input, Taken, classes_of, ends};
pub use lists::joined;
pub use operators::comparison;
pub use set::TokenSet;
pub use types::{dims, member, type_name, type_node, view};
pub use words::ExprSet;
