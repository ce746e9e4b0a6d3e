//! What modules and functions declare, and the scopes of a set.
#![tactic(auto)]

mod declare;
mod files;
mod known;
mod local;
mod scopes;

pub use files::{items, tops};
pub use known::{Known, kind_from, kind_through, known_of, module_names};
pub use local::{function_names, seen};
pub use scopes::scopes_with;
