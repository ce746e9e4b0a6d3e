//! Files of both kinds: the one tree of the tokens, or the first rule that is broken.
#![tactic(auto)]

mod class;
mod files;
mod functions;
mod pxd_class;
mod pxd_file;
mod pyx_file;

pub use files::{definition, implementation};
