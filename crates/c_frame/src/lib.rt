//! What is found without a search: the lines of a function, the variables of a frame, the places of a file.
#![tactic(auto)]

mod cells;
mod code;
mod fixed;
mod function;
mod jumps;
mod numbers;
mod places;
mod spots;
#[cfg(test)]
mod tests;

pub use cells::Cells;
pub use code::Code;
pub use function::LinkedFunction;
pub use spots::Spots;
