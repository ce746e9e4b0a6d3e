//! The reader of C text: the trees that its bytes spell.
#![tactic(auto)]

mod read;
mod stop;

pub use read::read_c;
pub use stop::CStop;
