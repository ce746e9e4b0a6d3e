//! Values: what they are, the objects in them, and what they become where they meet a type.
ghost use Rattle.std.specs.Prelude.{◌≡◌, ◌∷◌, [], IfOk};
ghost use Rattle.std.specs.Option.{option_copied};
ghost use Rattle.c_value.specs.Values.{all_set, converted, fits, is_buffer_set, is_extent_set, is_memory_set, is_null, is_set, is_view_set, object_of, objects_in, objects_in_memory, passed, passed_with, same_allocation, same_pointer, values_of, wrapped};

use crate::copies::{copied_objects, copied_value};
use crate::kinds::converts;
use crate::names::same_item;
use crate::{Buffer, Extents, Kind, Memory, Reading, Value, ViewValue};
use api_model::{Allocation, Obj};
use cy_base::OutOfMemory;
use cy_num::{CNum, wrap};
use sqlite_items::Items;
use std::alloc::Global;

/// A number as it is where it meets a number type; every other value stays.
pub fn wrapped(kind: CNum, value: Value) -> Value
    ensures { result ≡ wrapped kind value }
{
    match value {
        Value::Number(number) => Value::Number(wrap(kind, number)),
        other => other,
    }
}

/// A value as it is where it meets a type.
pub fn converted(kind: Kind, value: Value) -> Value
    ensures { result ≡ converted kind value }
{
    match kind {
        Kind::Number(number) => wrapped(number, value),
        _ => value,
    }
}

fn is_memory_set(memory: &Memory) -> bool
    ensures { result ≡ is_memory_set memory.now }
{
    !matches!(memory, Memory::Unset)
}

fn is_buffer_set(buffer: Buffer) -> bool
    ensures { result ≡ is_buffer_set buffer }
{
    !matches!(buffer, Buffer::Unset)
}

fn is_extent_set(extents: Extents) -> bool
    ensures { result ≡ is_extent_set extents }
{
    extents.first.is_some() || extents.second.is_some() || extents.third.is_some()
}

/// Whether a part of a view was stored into.
pub fn is_view_set(view: &ViewValue) -> bool
    ensures { result ≡ is_view_set view.now }
{
    is_memory_set(&view.memory)
        || is_buffer_set(view.buffer)
        || is_extent_set(view.lengths)
        || is_extent_set(view.strides)
}

/// Whether a variable has a value; a view has one once a part of it was stored into (ISO/IEC 9899:2011 6.3.2.1).
pub fn is_set(value: &Value) -> bool
    ensures { result ≡ is_set value.now }
{
    match value {
        Value::Unset => false,
        Value::View(view) => is_view_set(view),
        _ => true,
    }
}

pub fn is_null(value: &Value) -> bool
    ensures { result ≡ is_null value.now }
{
    matches!(value, Value::Null)
}

/// The object that a value is.
pub fn object_of(value: &Value) -> Option<&Obj>
    ensures { option_copied result ≡ object_of value.now }
{
    match value {
        Value::Object(object) => Some(object),
        _ => None,
    }
}

fn one_object(alloc: Global, object: &Obj) -> Result<Items<Obj>, OutOfMemory>
    ensures { IfOk result (λ r. r ≡ object.now ∷ []) }
{
    let mut objects = Items::new(alloc);
    objects.push(object.copied(alloc)?)?;
    Ok(objects)
}

fn objects_in_memory(alloc: Global, memory: &Memory) -> Result<Items<Obj>, OutOfMemory>
    ensures { IfOk result (λ r. r ≡ objects_in_memory memory.now) }
{
    match memory {
        Memory::Object(object) => one_object(alloc, object),
        _ => Ok(Items::new(alloc)),
    }
}

/// The objects in a value: itself, or `mv` of a view.
pub fn objects_in(alloc: Global, value: &Value) -> Result<Items<Obj>, OutOfMemory>
    ensures { IfOk result (λ r. r ≡ objects_in value.now) }
{
    match value {
        Value::Object(object) => one_object(alloc, object),
        Value::View(view) => objects_in_memory(alloc, &view.memory),
        _ => Ok(Items::new(alloc)),
    }
}

/// The objects that are passed with a value.
pub fn passed_with(alloc: Global, value: &Value) -> Result<Items<Obj>, OutOfMemory>
    ensures { IfOk result (λ r. r ≡ passed_with value.now) }
{
    match value {
        Value::Arguments(objects) => copied_objects(alloc, objects.as_slice()),
        Value::Tuple(objects) => copied_objects(alloc, objects.as_slice()),
        _ => objects_in(alloc, value),
    }
}

/// The objects that are passed with operands.
pub fn passed(alloc: Global, readings: &[Reading]) -> Result<Items<Obj>, OutOfMemory>
    ensures { IfOk result (λ r. r ≡ passed readings.now) }
{
    let mut objects = Items::new(alloc);
    for reading in readings {
        objects.append(passed_with(alloc, &reading.value)?)?;
    }
    Ok(objects)
}

pub fn all_set(readings: &[Reading]) -> bool
    ensures { result ≡ all_set readings.now }
{
    for reading in readings {
        if !is_set(&reading.value) {
            return false;
        }
    }
    true
}

fn same_allocation(a: Allocation, b: Allocation) -> bool
    ensures { result ≡ same_allocation a b }
{
    match (a, b) {
        (Allocation::Static, Allocation::Static) => true,
        (Allocation::Heap, Allocation::Heap) => true,
        _ => false,
    }
}

/// Whether two pointers are equal.
pub fn same_pointer(a: &Value, b: &Value) -> bool
    ensures { result ≡ same_pointer a.now b.now }
{
    match (a, b) {
        (Value::Object(x), Value::Object(y)) => x.is(y),
        (Value::TypeObject(s, x), Value::TypeObject(t, y)) => {
            same_item(*s, *t) && same_allocation(*x, *y)
        }
        (Value::ThreadState, Value::ThreadState) => true,
        (Value::Tuple(_), Value::Tuple(_)) => true,
        (Value::Arguments(_), Value::Arguments(_)) => true,
        (Value::Null, Value::Null) => true,
        _ => false,
    }
}

/// The values of operands.
pub fn values_of(alloc: Global, readings: &[Reading]) -> Result<Items<Value>, OutOfMemory>
    ensures { IfOk result (λ r. r ≡ values_of readings.now) }
{
    let mut values = Items::new(alloc);
    for reading in readings {
        values.push(copied_value(alloc, &reading.value)?)?;
    }
    Ok(values)
}

/// Whether operands have the number and the types that are wanted.
#[tactic(auto, using(crate::proofs::Fitting::fits_ends))]
pub fn fits(kinds: &[Kind], readings: &[Reading]) -> bool
    ensures { result ≡ fits kinds.now readings.now }
{
    for (i, kind) in kinds.iter().enumerate() {
        let Some(reading) = readings.get(i) else {
            return false;
        };
        if !converts(reading.kind, *kind) {
            return false;
        }
    }
    readings.len() == kinds.len()
}
