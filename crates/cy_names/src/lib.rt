//! What names mean: the scopes of a set's modules and functions, or the first rule on names that it breaks.
#![tactic(auto)]

mod lookup;
mod naming;
#[cfg(test)]
mod tests;

pub use lookup::resolve;
pub use naming::resolve_set;
