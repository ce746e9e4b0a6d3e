use crate::{ApiRow, Obj, Op, Place, Variable};
use c_token::Bytes;
use sqlite_items::Items;

/// What a statement does that a program may not do. Where several are met, the first in this order counts.
#[derive(Clone, Copy, Debug, PartialEq, Eq)]
pub enum FaultKind {
    /// the statement names what isn't there, or its operands don't fit
    Stuck,
    /// a field, table or `tp_free` of what isn't an instance with that struct
    BadField,
    /// an element access at no element place of its view, or of another type
    OutOfView,
    /// a variable without a value is read
    Undefined,
    /// what needs the lock is done without it
    Unlocked,
    /// what needs that no exception is set is done with one set
    ErrorSet,
    /// a failure without an exception, or an exception set over another
    ErrorLost,
    /// an object is used that the function doesn't hold
    Unheld,
    /// a return with other references than the result
    Unbalanced,
}

/// What a step comes to.
#[derive(Clone, Copy, Debug, PartialEq, Eq)]
pub enum Step {
    Went,
    Ended,
    Stopped,
    Fault(FaultKind),
    Memory,
}

/// The types of operands: those of variables and places, that of `args`, and those of literals.
#[derive(Clone, Copy, Debug, PartialEq, Eq)]
pub enum Kind {
    Int,
    PySsizeT,
    PyObject,
    Arguments,
    Text,
    Definition,
    Null,
}

/// What a variable or a place holds, or an operand gives.
#[derive(Drop)]
pub enum Value {
    Unset,
    Null,
    Object(Obj),
    Number(i128),
    Arguments(Items<Obj>),
    Text(Bytes),
    Definition(Bytes),
}

/// What an operand gives, with its type.
#[derive(Drop)]
pub struct Reading {
    pub kind: Kind,
    pub value: Value,
}

/// A variable of a frame.
#[derive(Drop)]
pub struct Cell {
    pub variable: Variable,
    pub kind: Kind,
    pub value: Value,
}

/// A place of a file, and whether it was stored into.
#[derive(Drop)]
pub struct Spot {
    pub place: Place,
    pub kind: Kind,
    pub value: Value,
    pub stored: bool,
}

/// Who entered a function.
#[derive(Clone, Copy, Debug, PartialEq, Eq)]
pub enum Entered {
    FromC,
    FromOutside,
    ForInitialisation,
}

/// Whether a frame runs, asks the outside, or waits for a function that it called.
#[derive(Drop)]
pub enum Doing {
    Runs,
    Asks(Op, ApiRow, Option<Variable>),
    Waits(Option<Variable>),
}

/// Whether the run goes on, an initialisation failed, or `end` or `stop` was made.
#[derive(Clone, Copy, Debug, PartialEq, Eq)]
pub enum Course {
    Goes,
    Failed,
    Ended,
    Stopped,
}
