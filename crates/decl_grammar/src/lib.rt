//! The grammar of statements, declarations, classes and files with its limits, what reads it, and their laws.
#![tactic(auto)]

mod laws;

pub use laws::{
    factored_forms_are_alike, files_are_read, files_have_one_answer, files_spell_one_tree,
};
