//! What effects and turns change, once nothing can fail.
#![tactic(auto)]

pub mod apply;
pub mod parts;
