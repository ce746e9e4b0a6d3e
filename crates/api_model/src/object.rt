//! Objects of the object space, and the dotted names of what a script enters.
ghost use Rattle.std.specs.Prelude.{◌≡◌, IfOk};
ghost use Rattle.api_model.specs.Objects.{is_permanent, same_class, same_obj};

use c_token::{Bytes, Exception};
use cy_base::OutOfMemory;
use std::alloc::Global;

/// The dotted name of an extension class, `module.Class`.
#[derive(Drop)]
pub struct ClassName {
    pub module: Bytes,
    pub class: Bytes,
}

fn copied(alloc: Global, bytes: &Bytes) -> Result<Bytes, OutOfMemory>
    ensures { IfOk result (λ r. r ≡ bytes.now) }
{
    Ok(Bytes::new(Vec::from_slice(alloc, bytes.as_slice())?))
}

impl ClassName {
    /// A copy of the name.
    pub fn copied(&self, alloc: Global) -> Result<ClassName, OutOfMemory>
        ensures { IfOk result (λ r. r ≡ self.now) }
    {
        Ok(ClassName {
            module: copied(alloc, &self.module)?,
            class: copied(alloc, &self.class)?,
        })
    }

    fn is(&self, other: &ClassName) -> bool
        ensures { result ≡ same_class self.now other.now }
    {
        self.module.as_slice() == other.module.as_slice()
            && self.class.as_slice() == other.class.as_slice()
    }
}

/// The dotted name of a function of a module, `module.f`.
#[derive(Drop)]
pub struct FunctionPath {
    pub module: Bytes,
    pub name: Bytes,
}

/// The dotted name of a method or a field, `module.Class.m`.
#[derive(Drop)]
pub struct MemberPath {
    pub module: Bytes,
    pub class: Bytes,
    pub name: Bytes,
}

/// What can be called by its name from outside.
#[derive(Drop)]
pub enum Callee {
    Function(FunctionPath),
    Method(MemberPath),
}

/// An object of the object space. Instances and views are numbered as they are made.
#[derive(Drop)]
pub enum Obj {
    Foreign(u32),
    Inst(u32),
    View(u32),
    Class(ClassName),
    ExceptionType(Exception),
    NoneNode,
    TrueNode,
    FalseNode,
}

impl Obj {
    /// Whether both are one object.
    pub fn is(&self, other: &Obj) -> bool
        ensures { result ≡ same_obj self.now other.now }
    {
        match (self, other) {
            (Obj::Foreign(k), Obj::Foreign(j)) => *k == *j,
            (Obj::Inst(k), Obj::Inst(j)) => *k == *j,
            (Obj::View(k), Obj::View(j)) => *k == *j,
            (Obj::Class(a), Obj::Class(b)) => a.is(b),
            (Obj::ExceptionType(a), Obj::ExceptionType(b)) => *a as u8 == *b as u8,
            (Obj::NoneNode, Obj::NoneNode) => true,
            (Obj::TrueNode, Obj::TrueNode) => true,
            (Obj::FalseNode, Obj::FalseNode) => true,
            _ => false,
        }
    }

    /// Whether the object is never released: None, True, False, an exception type or a class object.
    pub fn is_permanent(&self) -> bool
        ensures { result ≡ is_permanent self.now }
    {
        match self {
            Obj::NoneNode | Obj::TrueNode | Obj::FalseNode => true,
            Obj::ExceptionType(_) | Obj::Class(_) => true,
            Obj::Foreign(_) | Obj::Inst(_) | Obj::View(_) => false,
        }
    }

    /// A copy of the object.
    pub fn copied(&self, alloc: Global) -> Result<Obj, OutOfMemory>
        ensures { IfOk result (λ r. r ≡ self.now) }
    {
        match self {
            Obj::Foreign(number) => Ok(Obj::Foreign(*number)),
            Obj::Inst(number) => Ok(Obj::Inst(*number)),
            Obj::View(number) => Ok(Obj::View(*number)),
            Obj::Class(name) => Ok(Obj::Class(name.copied(alloc)?)),
            Obj::ExceptionType(exception) => Ok(Obj::ExceptionType(*exception)),
            Obj::NoneNode => Ok(Obj::NoneNode),
            Obj::TrueNode => Ok(Obj::TrueNode),
            Obj::FalseNode => Ok(Obj::FalseNode),
        }
    }
}

/// Whether an instance is of the class itself, or of a heap type below it.
#[derive(Clone, Copy, Debug, PartialEq, Eq)]
pub enum Allocation {
    Static,
    Heap,
}
