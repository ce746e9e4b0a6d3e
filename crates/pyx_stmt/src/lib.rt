//! What statements and declarations are made of: names, imported names, names behind types, lists of expressions; simple
//! statements, and lines of them.
#![tactic(auto)]

mod assign;
mod exprs;
mod lines;
mod names;
mod sets;
mod simple;

pub use exprs::{all_declared, expr, expr_list, target, value_if_any, values};
pub use lines::{line, more_simples};
pub use names::{alias, import_item, import_items, more_names, name_list, typed_name};
pub use sets::StmtSet;
pub use simple::imported;
