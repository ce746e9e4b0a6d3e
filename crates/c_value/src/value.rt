use crate::Kind;
use api_model::{Allocation, Obj};
use c_token::Bytes;
use sqlite_items::Items;

/// Where an item stands: the number of its file, and its own in the file.
#[derive(Clone, Copy, Debug, PartialEq, Eq)]
pub struct ItemPlace {
    pub file: u32,
    pub item: u32,
}

/// `mv` of a `cyc_view`: nothing yet, NULL, or an object.
#[derive(Drop)]
pub enum Memory {
    Unset,
    Null,
    Object(Obj),
}

/// `buf` of a `cyc_view`: nothing yet, NULL, or a byte place from the start of the buffer of a view, by its number.
#[derive(Clone, Copy, Debug, PartialEq, Eq)]
pub enum Buffer {
    Unset,
    Null,
    At(u32, i128),
}

/// `n` or `s` of a `cyc_view`: three numbers of `Py_ssize_t`, or nothing yet.
#[derive(Clone, Copy, Debug, PartialEq, Eq)]
pub struct Extents {
    pub first: Option<i128>,
    pub second: Option<i128>,
    pub third: Option<i128>,
}

/// What a `cyc_view` holds.
#[derive(Drop)]
pub struct ViewValue {
    pub memory: Memory,
    pub buffer: Buffer,
    pub lengths: Extents,
    pub strides: Extents,
}

/// What a variable, a field or a place holds, or an operand gives. The arguments of an `__init__` are a tuple, which is no
/// object of the object space. A state of the lock has the number of the call that gave it.
#[derive(Drop)]
pub enum Value {
    Unset,
    Null,
    Object(Obj),
    Number(i128),
    View(ViewValue),
    ThreadState,
    LockState(u64),
    TypeObject(ItemPlace, Allocation),
    Arguments(Items<Obj>),
    Tuple(Items<Obj>),
    Text(Bytes),
    Definition(Bytes),
}

/// What an operand gives, with its type.
#[derive(Drop)]
pub struct Reading {
    pub kind: Kind,
    pub value: Value,
}
