//! What is known around an expression: what its names mean, the types of variables, the functions and members that it
//! may use, and the coercions.
#![tactic(auto)]

mod around;
mod callable;
mod member;

pub use around::Around;
pub use callable::Callable;
pub use member::MemberSaid;
