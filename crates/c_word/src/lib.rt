//! What the words of C texts mean: numbers, and the names that the written C has.
#![tactic(auto)]

mod functions;
mod keywords;
mod literals;
mod names;
mod numbers;
#[cfg(test)]
mod tests;

pub use functions::{callee, function};
pub use keywords::is_keyword;
pub use literals::magnitude;
pub use names::{exception, table, variable};
pub use numbers::{lettered, number, numbered, of_field};
