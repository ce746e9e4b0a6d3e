//! The parts of a `cyc_view`.
ghost use Rattle.std.specs.Prelude.{◌≡◌, IfOk};
ghost use Rattle.c_value.specs.Values.{as_memory, extents_at, extents_of, memory_value, with_extent, with_extents};

use crate::{Extents, Memory, Value, ViewValue};
use c_tree::Extent;
use cy_base::OutOfMemory;
use std::alloc::Global;

pub fn memory_value(alloc: Global, memory: &Memory) -> Result<Value, OutOfMemory>
    ensures { IfOk result (λ r. r ≡ memory_value memory.now) }
{
    match memory {
        Memory::Unset => Ok(Value::Unset),
        Memory::Null => Ok(Value::Null),
        Memory::Object(object) => Ok(Value::Object(object.copied(alloc)?)),
    }
}

/// A value that `mv` can hold.
pub fn as_memory(alloc: Global, value: &Value) -> Result<Option<Memory>, OutOfMemory>
    ensures { IfOk result (λ r. r ≡ as_memory value.now) }
{
    match value {
        Value::Null => Ok(Some(Memory::Null)),
        Value::Object(object) => Ok(Some(Memory::Object(object.copied(alloc)?))),
        _ => Ok(None),
    }
}

/// `n[J]` or `s[J]`, where J is below 3.
pub fn extent_at(extents: Extents, number: u32) -> Option<Option<i128>>
    ensures { result ≡ extents_at extents number }
{
    match number {
        0 => Some(extents.first),
        1 => Some(extents.second),
        2 => Some(extents.third),
        _ => None,
    }
}

pub fn with_extent(extents: Extents, number: u32, value: i128) -> Extents
    ensures { result ≡ with_extent extents number value }
{
    match number {
        0 => Extents {
            first: Some(value),
            ..extents
        },
        1 => Extents {
            second: Some(value),
            ..extents
        },
        2 => Extents {
            third: Some(value),
            ..extents
        },
        _ => extents,
    }
}

pub fn extents_of(view: &ViewValue, extent: Extent) -> Extents
    ensures { result ≡ extents_of view.now extent }
{
    match extent {
        Extent::Length => view.lengths,
        Extent::Stride => view.strides,
    }
}

pub fn with_extents(view: ViewValue, extent: Extent, extents: Extents) -> ViewValue
    ensures { result ≡ with_extents view extent extents }
{
    let mut view = view;
    match extent {
        Extent::Length => view.lengths = extents,
        Extent::Stride => view.strides = extents,
    }
    view
}
