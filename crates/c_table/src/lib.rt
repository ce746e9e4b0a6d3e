//! Items that are structs and tables of the API.
#![tactic(auto)]

mod kinds;
mod members;
mod modules;
mod parts;
mod rows;
mod structs;
mod tables;
mod types;

pub use members::{mapping, sequence};
pub use modules::definition;
pub use structs::instance_struct;
pub use tables::{methods, properties};
pub use types::type_object;
