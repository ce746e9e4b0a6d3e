//! Who owns which references: each frame, beside what was lent to it, and the loans.
#![tactic(auto)]

mod ledger;
mod objects;
#[cfg(test)]
mod tests;

pub use ledger::Ledger;
pub use objects::{counts, has, is_permanent, lose, same_obj};
