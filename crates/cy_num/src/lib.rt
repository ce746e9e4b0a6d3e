//! The C numbers of the profile, computed over whole numbers. No call takes memory.
#![tactic(auto)]

mod arithmetic;
mod division;
mod laws;
#[cfg(test)]
mod tests;
mod types;
mod wrapping;

pub use arithmetic::{arith, shift};
pub use division::{NumFault, floor_div, floor_mod};
pub use laws::{
    bitwise_operations_go_bit_by_bit, common_does_not_depend_on_order, floor_division_is_unique,
    floor_division_splits, range_turns_go_by_the_step, range_turns_lie_before_the_end,
    wrap_is_congruent, wrap_is_idempotent, wrap_is_unique, wrap_keeps_values,
};
pub use types::{Arith, CNum, common, greatest, least, promote};
pub use wrapping::{convert, wrap};
