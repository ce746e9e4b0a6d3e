//! Functions, read from C tokens.
#![tactic(auto)]

mod declared;
mod fixed;
mod functions;
mod heads;
mod listing;

pub use declared::declarations;
pub use functions::function;
pub use heads::head;
