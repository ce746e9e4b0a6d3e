use c_token::{Bytes, Exception, NumberType};
use sqlite_items::Items;

/// The dotted name of an extension class, `module.Class`.
#[derive(Drop)]
pub struct ClassName {
    pub module: Bytes,
    pub class: Bytes,
}

/// The dotted name of a function of a module, `module.f`.
#[derive(Drop)]
pub struct FunctionPath {
    pub module: Bytes,
    pub name: Bytes,
}

/// The dotted name of a method or a field, `module.Class.m`.
#[derive(Drop)]
pub struct MemberPath {
    pub module: Bytes,
    pub class: Bytes,
    pub name: Bytes,
}

/// What can be called by its name from outside.
#[derive(Drop)]
pub enum Callee {
    Function(FunctionPath),
    Method(MemberPath),
}

/// An object of the object space. Instances and views are numbered as they are made.
#[derive(Drop)]
pub enum Obj {
    Foreign(u32),
    Inst(u32),
    View(u32),
    Class(ClassName),
    ExceptionType(Exception),
    NoneNode,
    TrueNode,
    FalseNode,
}

/// What a taken buffer says of itself. Lengths and strides are in bytes where C counts bytes.
#[derive(Drop)]
pub struct Info {
    pub letter: Option<u8>,
    pub at_sign: bool,
    pub item: u32,
    pub readonly: bool,
    pub indirect: bool,
    pub shape: Items<i64>,
    pub strides: Items<i64>,
}

/// Whether an instance is of the class itself, or of a heap type below it.
#[derive(Clone, Copy, Debug, PartialEq, Eq)]
pub enum Allocation {
    Static,
    Heap,
}

/// One line of a script.
#[derive(Drop)]
pub enum Entry {
    OkNode(Obj),
    Num(i128),
    Raise(Obj),
    Missing,
    Made,
    View(Info),
    Enter(Callee, Items<Obj>),
    New(ClassName, Allocation),
    Get(MemberPath, Obj),
    Set(MemberPath, Obj, Obj),
    Unset(MemberPath, Obj),
    Die(u32),
}

/// The operations of two objects that give a new one.
#[derive(Clone, Copy, Debug, PartialEq, Eq)]
pub enum BinaryOp {
    Add,
}

/// An operation that asks the outside for an answer.
#[derive(Drop)]
pub enum Op {
    Module(Bytes),
    Dict(Obj),
    Import(Bytes),
    Binary(BinaryOp, Obj, Obj),
    Fail(Obj, Bytes),
}

/// What an operation comes to.
#[derive(Drop)]
pub enum Answer {
    Object(Obj),
    Number(i128),
    Missing,
    Raised(Obj),
    Plain,
}

/// One line of a trace. Byte places count from the start of the view's buffer.
#[derive(Drop)]
pub enum Event {
    Init(Bytes),
    Ask(Op),
    Answer(Answer),
    Enter(Callee, Items<Obj>),
    EnterNew(ClassName, Allocation),
    EnterGet(MemberPath, Obj),
    EnterSet(MemberPath, Obj, Obj),
    EnterUnset(MemberPath, Obj),
    Leave(Obj),
    LeaveNum(i128),
    LeaveRaise(Obj),
    Save,
    Restore,
    Get(u32, i128, NumberType, i128),
    Put(u32, i128, NumberType, i128),
    Item(Obj, i128, Obj),
    End,
    Stop,
}
