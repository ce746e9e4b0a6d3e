//! What the machine is made of: types, values, places, instances, changes; their names compared, tests and copies. What
//! takes memory says so.
#![tactic(auto)]

mod api;
mod change;
mod copies;
mod frame;
mod held;
mod kind;
mod kinds;
mod names;
mod parts;
mod space;
mod step;
#[cfg(test)]
mod tests;
mod texts;
mod value;
mod values;
mod view;

pub use api::Api;
pub use change::{
    Asking, Change, Entering, ErrorChange, Flow, Handing, Planned, Remembered, Remembering,
    SpaceChange,
};
pub use copies::{copied_bytes, copied_instance, copied_objects, copied_reading, copied_value};
pub use frame::{Cell, Doing, Entered, Making};
pub use held::Parts;
pub use kind::Kind;
pub use kinds::{
    are_pointers, converts, has_objects, initial_value, is_number, is_object, is_pointer, is_view,
    kind_of, same_kind, unset_of, zero_of,
};
pub use names::{
    same_field, same_fixed, same_function, same_item, same_number, same_place, same_table,
    same_variable,
};
pub use parts::{as_memory, extent_at, extents_of, memory_value, with_extent, with_extents};
pub use space::{Course, Instance, Part, Spot};
pub use step::{FaultKind, Step};
pub use texts::c_string;
pub use value::{Buffer, Extents, ItemPlace, Memory, Reading, Value, ViewValue};
pub use values::{
    all_set, converted, fits, is_null, is_set, is_view_set, object_of, objects_in, passed,
    passed_with, same_pointer, values_of, wrapped,
};
pub use view::ViewInfo;
