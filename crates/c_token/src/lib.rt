//! What the C of every version is made of: texts, tokens and where items end, exceptions and types of numbers.
#![tactic(auto)]

mod bytes;
mod exception;
mod number_type;

pub use bytes::Bytes;
pub use exception::Exception;
pub use number_type::NumberType;
