//! The C tokens that are left to read.
#![tactic(auto)]

mod addresses;
mod input;
mod literals;
mod operands;
mod piece;
mod quoted;
mod signed;
mod types;

pub use addresses::{address, class_object};
pub use input::Input;
pub use operands::stored;
pub use piece::{Piece, behind, is_piece};
pub use signed::literal;
pub use types::kind;
