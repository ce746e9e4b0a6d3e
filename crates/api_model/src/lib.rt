//! The object space: objects, operations, script entries and their answers, trace lines, and the rows of the CPython API.
#![tactic(auto)]

mod answers;
mod entry;
mod event;
mod info;
mod laws;
mod object;
mod op;
mod rows;
#[cfg(test)]
mod tests;
mod views;

pub use answers::answer;
pub use entry::Entry;
pub use event::Event;
pub use info::Info;
pub use laws::{
    answers_are_in_form, entries_need_the_lock, functions_are_distinct, one_object_is_an_equal_one,
    rows_are_clean, rows_need_the_lock,
};
pub use object::{Allocation, Callee, ClassName, FunctionPath, MemberPath, Obj};
pub use op::{Answer, BinaryOp, Change, Comparison, Make, Op, UnaryOp};
pub use rows::{ApiRow, Fails, Gives, row};
pub use views::is_view;
