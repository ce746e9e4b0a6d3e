//! What a statement of C comes to, before anything is changed.
#![tactic(auto)]

pub mod effects;
pub mod entering;
pub mod plans;
pub mod scenes;
pub mod statements;
