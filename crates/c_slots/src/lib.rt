//! Structs of method tables, and method tables, read from C tokens.
#![tactic(auto)]

mod base;
mod functions;
mod numbering;
mod slot;
mod structs;
mod tables;

pub use structs::{TableStruct, table_struct};
pub use tables::method_table;
