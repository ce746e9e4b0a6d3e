//! The rules on declarations as they are written: views, `void`, special methods, and the forms of types.
#![tactic(auto)]

mod declaration;
mod file;
mod place;
mod special;
#[cfg(test)]
mod tests;
mod types;
mod views;

pub use declaration::{Declaration, note_declarations};
pub use file::written;
