//! The parts of C statements that name places: fields, method tables, memory views and their elements.
#![tactic(auto)]

mod buffers;
mod elements;
mod fields;
mod tables;
mod views;

pub use buffers::{buffer_of, view_number};
pub use elements::{ElementPlace, element};
pub use fields::field;
pub use tables::{Method, method_of, table_of};
pub use views::{extent, view};
