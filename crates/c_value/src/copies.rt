//! Copies.
ghost use Rattle.std.specs.Prelude.{◌≡◌, IfOk};

use crate::{Instance, Kind, Memory, Part, Parts, Reading, Value, ViewValue};
use api_model::Obj;
use c_token::Bytes;
use cy_base::OutOfMemory;
use sqlite_items::Items;
use std::alloc::Global;

pub fn copied_bytes(alloc: Global, bytes: &Bytes) -> Result<Bytes, OutOfMemory>
    ensures { IfOk result (λ r. r ≡ bytes.now) }
{
    Ok(Bytes::new(Vec::from_slice(alloc, bytes.as_slice())?))
}

pub fn copied_objects(alloc: Global, objects: &[Obj]) -> Result<Items<Obj>, OutOfMemory>
    ensures { IfOk result (λ r. r ≡ objects.now) }
{
    let mut copies = Items::new(alloc);
    for object in objects {
        copies.push(object.copied(alloc)?)?;
    }
    Ok(copies)
}

fn copied_memory(alloc: Global, memory: &Memory) -> Result<Memory, OutOfMemory>
    ensures { IfOk result (λ r. r ≡ memory.now) }
{
    match memory {
        Memory::Unset => Ok(Memory::Unset),
        Memory::Null => Ok(Memory::Null),
        Memory::Object(object) => Ok(Memory::Object(object.copied(alloc)?)),
    }
}

fn copied_view(alloc: Global, view: &ViewValue) -> Result<ViewValue, OutOfMemory>
    ensures { IfOk result (λ r. r ≡ view.now) }
{
    Ok(ViewValue {
        memory: copied_memory(alloc, &view.memory)?,
        buffer: view.buffer,
        lengths: view.lengths,
        strides: view.strides,
    })
}

pub fn copied_value(alloc: Global, value: &Value) -> Result<Value, OutOfMemory>
    ensures { IfOk result (λ r. r ≡ value.now) }
{
    match value {
        Value::Unset => Ok(Value::Unset),
        Value::Null => Ok(Value::Null),
        Value::Object(object) => Ok(Value::Object(object.copied(alloc)?)),
        Value::Number(number) => Ok(Value::Number(*number)),
        Value::View(view) => Ok(Value::View(copied_view(alloc, view)?)),
        Value::ThreadState => Ok(Value::ThreadState),
        Value::LockState(number) => Ok(Value::LockState(*number)),
        Value::TypeObject(place, allocation) => Ok(Value::TypeObject(*place, *allocation)),
        Value::Arguments(objects) => Ok(Value::Arguments(copied_objects(
            alloc,
            objects.as_slice(),
        )?)),
        Value::Tuple(objects) => Ok(Value::Tuple(copied_objects(alloc, objects.as_slice())?)),
        Value::Text(bytes) => Ok(Value::Text(copied_bytes(alloc, bytes)?)),
        Value::Definition(bytes) => Ok(Value::Definition(copied_bytes(alloc, bytes)?)),
    }
}

/// What a variable or a place gives as an operand.
pub fn copied_reading(alloc: Global, kind: Kind, value: &Value) -> Result<Reading, OutOfMemory>
    ensures { IfOk result (λ r. r ≡ record { kind = kind; value = value.now }) }
{
    let value = copied_value(alloc, value)?;
    Ok(Reading { kind, value })
}

fn copied_fields(
    alloc: Global,
    fields: &[(Kind, Value)],
) -> Result<Items<(Kind, Value)>, OutOfMemory>
    ensures { IfOk result (λ r. r ≡ fields.now) }
{
    let mut copies = Items::new(alloc);
    for field in fields {
        copies.push((field.0, copied_value(alloc, &field.1)?))?;
    }
    Ok(copies)
}

fn copied_parts(alloc: Global, parts: &[Part]) -> Result<Parts, OutOfMemory>
    ensures { IfOk result (λ r. r ≡ parts.now) }
{
    let mut copies = Vec::new(alloc);
    for part in parts {
        let class = part.class;
        let fields = copied_fields(alloc, part.fields.as_slice())?;
        copies.push(Part { class, fields })?;
    }
    Ok(Parts::from_vec(copies))
}

pub fn copied_instance(alloc: Global, instance: &Instance) -> Result<Instance, OutOfMemory>
    ensures { IfOk result (λ r. r ≡ instance.now) }
{
    Ok(Instance {
        class: instance.class,
        allocation: instance.allocation,
        alive: instance.alive,
        table: instance.table,
        parts: copied_parts(alloc, instance.parts.as_slice())?,
    })
}
