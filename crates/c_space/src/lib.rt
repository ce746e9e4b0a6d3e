//! The instances and the places of all files, as they are changed.
#![tactic(auto)]

mod instances;
mod places;
#[cfg(test)]
mod tests;

pub use instances::Instances;
pub use places::Places;
