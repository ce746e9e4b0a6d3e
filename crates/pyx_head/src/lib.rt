//! The heads of functions, and fields: parameters, exception clauses, `nogil`, types and names.
#![tactic(auto)]

mod heads;
mod params;

pub use heads::{IN_FILE, Typed, heading, heading_line, names_of_line, open_names, typed_in_file};
pub use params::{header, parameters};
