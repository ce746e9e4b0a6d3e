//! What the machine reads: copies, lookups, and the tests over what operands give.
#![tactic(auto)]

pub mod copies;
pub mod lookups;
pub mod operands;
pub mod parts;
pub mod readings;
