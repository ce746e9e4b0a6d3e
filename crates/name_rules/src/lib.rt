//! The rules on names, and the first that a set breaks.
#![tactic(auto)]

mod function;
mod given;
mod mention;
mod module;
mod second;
mod sooner;

pub use module::refusals_with;
pub use sooner::first;
