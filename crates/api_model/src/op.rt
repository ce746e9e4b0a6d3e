//! Operations, and what they come to.
use crate::object::{ClassName, Obj};
use c_token::Bytes;
use sqlite_items::Items;

/// The operations of two objects (Python/C API manual, "Number Protocol").
#[derive(Clone, Copy, Debug, PartialEq, Eq)]
pub enum BinaryOp {
    Add,
    Sub,
    Mul,
    FloorDiv,
    TrueDiv,
    Mod,
    Lshift,
    Rshift,
    And,
    Or,
    Xor,
}

/// The operations of one object (Python/C API manual, "Number Protocol").
#[derive(Clone, Copy, Debug, PartialEq, Eq)]
pub enum UnaryOp {
    Neg,
    Pos,
    Inv,
}

/// The comparisons, in the order of their numbers from 0 (Python/C API manual, "Object Protocol").
#[derive(Clone, Copy, Debug, PartialEq, Eq)]
pub enum Comparison {
    Lt,
    Le,
    Eq,
    Ne,
    Gt,
    Ge,
}

/// What makes an object from C values and objects: `int`, `uint`, `bigint` of decimal digits, `str`, `tuple`,
/// `list` of a length, `newdict`, `import` and `module` of a name.
#[derive(Drop)]
pub enum Make {
    Int(i64),
    Uint(u64),
    BigInt(Bytes),
    Str(Bytes),
    TupleOf(Items<Obj>),
    ListOfLength(i64),
    EmptyDict,
    Import(Bytes),
    Module(Bytes),
}

/// What changes an object and gives 0. `AddObject` has the module, the name and the object added.
#[derive(Drop)]
pub enum Change {
    SetAttr(Obj, Obj, Obj),
    DelAttr(Obj, Obj),
    SetItem(Obj, Obj, Obj),
    DelItem(Obj, Obj),
    DictSet(Obj, Obj, Obj),
    DictDel(Obj, Obj),
    Ready(ClassName),
    AddObject(Obj, Bytes, Obj),
}

/// An operation that asks the outside for an answer, with the arguments that a trace shows, save `Unraisable`, of which it
/// shows None. Arguments stand in the order of C: a container before what is looked for in it, an instance before its
/// class, the exception before what it is compared with. `IsClass` asks for a class of exceptions. `Call` has what is called
/// and its arguments, `Native` the object and the method's name, `Fail` the exception type and the text.
#[derive(Drop)]
pub enum Op {
    Binary(BinaryOp, Obj, Obj),
    InPlace(BinaryOp, Obj, Obj),
    Unary(UnaryOp, Obj),
    GetAttr(Obj, Obj),
    GetItem(Obj, Obj),
    Iter(Obj),
    Compare(Comparison, Obj, Obj),
    Call(Obj, Items<Obj>),
    Make(Make),
    View(Obj),
    Alloc(ClassName),
    Next(Obj),
    DictGet(Obj, Obj),
    Dict(Obj),
    Change(Change),
    AsLong(Obj),
    AsUlong(Obj),
    IsTrue(Obj),
    Contains(Obj, Obj),
    IsInstance(Obj, Obj),
    Matches(Obj, Obj),
    IsClass(Obj),
    Native(Obj, Bytes),
    Fail(Obj, Bytes),
    Unraisable,
}

/// What an operation comes to. `Plain` is the answer of `Unraisable`.
#[derive(Drop)]
pub enum Answer {
    Object(Obj),
    Number(i128),
    Missing,
    Raised(Obj),
    Plain,
}
