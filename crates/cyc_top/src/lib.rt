//! The compiler's top: from the words of the command line to the written files.
#![tactic(auto)]

mod build;
mod command;
mod status;
mod top;

pub use status::Status;
pub use top::cyc;
