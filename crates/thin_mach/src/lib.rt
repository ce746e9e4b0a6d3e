//! The machine that runs C trees over a script, a statement a step.
#![tactic(auto)]

mod linking;
mod machine;
mod step;

pub use machine::Machine;
