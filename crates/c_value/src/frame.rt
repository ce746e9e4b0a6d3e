use crate::{ItemPlace, Kind, Value};
use api_model::{Allocation, ApiRow, Op};
use c_tree::Variable;

/// A variable of a frame.
#[derive(Drop)]
pub struct Cell {
    pub variable: Variable,
    pub kind: Kind,
    pub value: Value,
}

/// Who entered a function: C, the outside, the start of a module, or the destruction of an instance.
#[derive(Clone, Copy, Debug, PartialEq, Eq)]
pub enum Entered {
    FromC,
    FromOutside,
    ForInitialisation,
    ForDestruction,
}

/// What an operation adds where it is answered by an object that wasn't there: nothing, a view, an instance of a class.
#[derive(Clone, Copy, Debug, PartialEq, Eq)]
pub enum Making {
    Nothing,
    View,
    Instance(ItemPlace, Allocation),
}

/// Whether a frame runs, asks the outside, or waits for a function that it called; where the result goes.
#[derive(Drop)]
pub enum Doing {
    Runs,
    Asks(Op, ApiRow, Making, Option<Variable>),
    Waits(Option<Variable>),
}
