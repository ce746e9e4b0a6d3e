//! The printer of C trees.
#![tactic(auto)]

mod fixed;
mod function;
mod head;
mod item;
mod mark;
mod name;
mod place;
mod statement;
mod structs;
mod tables;
mod types;
mod value;

pub use item::print;
