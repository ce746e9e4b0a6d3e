//! What expressions, statements and declarations say of names, and the names that they declare.
#![tactic(auto)]

mod function;
mod mention;
mod names;
mod said;

pub use function::{FunctionRef, note_all_functions, note_functions};
pub use mention::{Mention, note_all};
pub use names::{
    bound_name, note_all_cimport_names, note_all_top_names, note_all_variables, note_cimport_names,
    note_class_names, note_declarations, note_def_names, note_item_cimports, note_item_names,
    note_locals, note_made_global, note_parameters, note_shared_names, note_top_cimports,
};
pub use said::{note_items, note_module};
