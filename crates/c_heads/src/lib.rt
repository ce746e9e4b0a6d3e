//! The parameters, types and results of functions, by their heads.
#![tactic(auto)]

mod heads;
#[cfg(test)]
mod tests;

pub use heads::{kinds_in, kinds_of, parameters, result_by, result_kind, same_kinds, same_result};
