//! Copies of the small things that a statement or an event holds.
ghost use Rattle.std.specs.Prelude.{◌≡◌, ◌∷◌, IfOk};
ghost use Rattle.thin_state.specs.declared.space.Op.TheVariants as op;

use c_token::Bytes;
use cy_base::OutOfMemory;
use sqlite_items::Items;
use std::alloc::Global;
use thin_state::{BinaryOp, Callee, ClassName, FunctionPath, MemberPath, Obj, Op, Value};

pub fn copy_bytes(alloc: Global, bytes: &Bytes) -> Result<Bytes, OutOfMemory>
    ensures { IfOk result (λ r. r ≡ bytes.now) }
{
    Ok(Bytes::new(Vec::from_slice(alloc, bytes.as_slice())?))
}

fn copy_class(alloc: Global, class: &ClassName) -> Result<ClassName, OutOfMemory>
    ensures { IfOk result (λ r. r ≡ class.now) }
{
    Ok(ClassName {
        module: copy_bytes(alloc, &class.module)?,
        class: copy_bytes(alloc, &class.class)?,
    })
}

pub fn copy_obj(alloc: Global, object: &Obj) -> Result<Obj, OutOfMemory>
    ensures { IfOk result (λ r. r ≡ object.now) }
{
    match object {
        Obj::Foreign(k) => Ok(Obj::Foreign(*k)),
        Obj::Inst(k) => Ok(Obj::Inst(*k)),
        Obj::View(k) => Ok(Obj::View(*k)),
        Obj::Class(class) => Ok(Obj::Class(copy_class(alloc, class)?)),
        Obj::ExceptionType(exception) => Ok(Obj::ExceptionType(*exception)),
        Obj::NoneNode => Ok(Obj::NoneNode),
        Obj::TrueNode => Ok(Obj::TrueNode),
        Obj::FalseNode => Ok(Obj::FalseNode),
    }
}

pub fn copy_objs(alloc: Global, objects: &[Obj]) -> Result<Items<Obj>, OutOfMemory>
    ensures { IfOk result (λ r. r ≡ objects.now) }
{
    let mut copies = Items::new(alloc);
    for object in objects {
        copies.push(copy_obj(alloc, object)?)?;
    }
    Ok(copies)
}

/// The objects with another one before them.
pub fn with_first(alloc: Global, first: Obj, rest: &[Obj]) -> Result<Items<Obj>, OutOfMemory>
    ensures { IfOk result (λ r. r ≡ first ∷ rest.now) }
{
    let mut copies = Items::new(alloc);
    copies.push(first)?;
    for object in rest {
        copies.push(copy_obj(alloc, object)?)?;
    }
    Ok(copies)
}

pub fn copy_value(alloc: Global, value: &Value) -> Result<Value, OutOfMemory>
    ensures { IfOk result (λ r. r ≡ value.now) }
{
    match value {
        Value::Unset => Ok(Value::Unset),
        Value::Null => Ok(Value::Null),
        Value::Object(object) => Ok(Value::Object(copy_obj(alloc, object)?)),
        Value::Number(number) => Ok(Value::Number(*number)),
        Value::Arguments(objects) => Ok(Value::Arguments(copy_objs(alloc, objects.as_slice())?)),
        Value::Text(bytes) => Ok(Value::Text(copy_bytes(alloc, bytes)?)),
        Value::Definition(bytes) => Ok(Value::Definition(copy_bytes(alloc, bytes)?)),
    }
}

fn copy_path(alloc: Global, path: &FunctionPath) -> Result<FunctionPath, OutOfMemory>
    ensures { IfOk result (λ r. r ≡ path.now) }
{
    Ok(FunctionPath {
        module: copy_bytes(alloc, &path.module)?,
        name: copy_bytes(alloc, &path.name)?,
    })
}

fn copy_member(alloc: Global, path: &MemberPath) -> Result<MemberPath, OutOfMemory>
    ensures { IfOk result (λ r. r ≡ path.now) }
{
    Ok(MemberPath {
        module: copy_bytes(alloc, &path.module)?,
        class: copy_bytes(alloc, &path.class)?,
        name: copy_bytes(alloc, &path.name)?,
    })
}

pub fn copy_callee(alloc: Global, callee: &Callee) -> Result<Callee, OutOfMemory>
    ensures { IfOk result (λ r. r ≡ callee.now) }
{
    match callee {
        Callee::Function(path) => Ok(Callee::Function(copy_path(alloc, path)?)),
        Callee::Method(path) => Ok(Callee::Method(copy_member(alloc, path)?)),
    }
}

pub fn copy_op(alloc: Global, op: &Op) -> Result<Op, OutOfMemory>
    ensures { IfOk result (λ r. r ≡ op.now) }
{
    match op {
        Op::Module(name) => Ok(Op::Module(copy_bytes(alloc, name)?)),
        Op::Dict(object) => Ok(Op::Dict(copy_obj(alloc, object)?)),
        Op::Import(name) => Ok(Op::Import(copy_bytes(alloc, name)?)),
        Op::Binary(binary, left, right) => copy_binary(alloc, *binary, left, right),
        Op::Fail(object, text) => {
            let object = copy_obj(alloc, object)?;
            Ok(Op::Fail(object, copy_bytes(alloc, text)?))
        }
    }
}

fn copy_binary(alloc: Global, binary: BinaryOp, left: &Obj, right: &Obj) -> Result<Op, OutOfMemory>
    ensures { IfOk result (λ r. r ≡ op.Binary binary left.now right.now) }
{
    let left = copy_obj(alloc, left)?;
    Ok(Op::Binary(binary, left, copy_obj(alloc, right)?))
}
