//! Items, read from their tokens.
#![tactic(auto)]

mod declared;
mod fixed;
mod kinds;
mod opening;
mod typed;
mod whole;

pub use whole::item;
