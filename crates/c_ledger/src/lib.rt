//! Who owns which references: each frame, beside what was lent to it, and the loans.
#![tactic(auto)]

mod laws;
mod ledger;
mod objects;
#[cfg(test)]
mod tests;

pub use laws::{newest_frames_come_first, references_are_counted};
pub use ledger::{Account, Ledger};
pub use objects::has;
