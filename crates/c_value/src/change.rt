use crate::{Course, Entered, FaultKind, ItemPlace, Making, Value, ViewInfo};
use api_model::{Allocation, ApiRow, Event, Obj, Op};
use c_tree::{Numbered, Variable};
use sqlite_items::Items;

/// How a function is entered: with which values of its parameters, with which objects lent to it, and by whom.
#[derive(Drop)]
pub struct Entering {
    pub function: ItemPlace,
    pub values: Items<Value>,
    pub lent: Items<Obj>,
    pub by: Entered,
}

/// What becomes of the exception that is set.
#[derive(Drop)]
pub enum ErrorChange {
    Stays,
    Clears,
    Sets(Obj),
}

/// A state of the lock that is remembered: the number of the call that asked for it, and whether the lock was held.
#[derive(Clone, Copy, Debug, PartialEq, Eq)]
pub struct Remembered {
    pub number: u64,
    pub held: bool,
}

/// What becomes of the states of the lock that are remembered: one more, or the newest less.
#[derive(Clone, Copy, Debug, PartialEq, Eq)]
pub enum Remembering {
    Stays,
    Adds(Remembered),
    Forgets,
}

/// What becomes of instances and views: a field of an instance gets a value, an instance a method table, one is freed, one
/// is made, or a view is made.
#[derive(Drop)]
pub enum SpaceChange {
    Stays,
    Field(u32, Numbered, u32, Value),
    Table(u32, Numbered),
    Freed(u32),
    Made(ItemPlace, Allocation),
    Viewed(ViewInfo),
}

/// Where the run goes on: as before, behind a label, in a function that the newest frame calls, in one that the outside
/// enters, in the frame that waited for the newest one, or in the newest one, which asked.
#[derive(Drop)]
pub enum Flow {
    Stays,
    Jumps(u32),
    /// where the result goes, and the function
    Calls(Option<Variable>, Entering),
    Enters(Entering),
    Resumes,
    Runs,
}

/// What a move changes, in the order of the fields; what isn't told here stays. The newest frame is the one that is there
/// after one was left and before one is entered.
#[derive(Drop)]
pub struct Change {
    /// whether an entry of the script is taken
    pub takes: bool,
    /// the trace line
    pub event: Option<Event>,
    pub flow: Flow,
    pub ends_loans: bool,
    pub lends: Items<Obj>,
    /// references that the newest frame gets, gives away, and gets out of a place or a field
    pub gains: Items<Obj>,
    pub loses: Items<Obj>,
    pub gets_back: Items<Obj>,
    pub error: ErrorChange,
    pub lock: Option<bool>,
    pub remembered: Remembering,
    pub space: SpaceChange,
    /// the file whose initialisation begins
    pub begins: Option<u32>,
    pub course: Option<Course>,
    /// what a variable of the newest frame, or a place of its file, gets
    pub gives: Option<(Variable, Value)>,
}

/// An operation that the newest frame asks: all loans end.
#[derive(Drop)]
pub struct Asking {
    pub op: Op,
    pub row: ApiRow,
    pub making: Making,
    pub target: Option<Variable>,
    /// whether the exception that is set is cleared
    pub clears: bool,
}

/// A frame that C didn't call is left: all loans end.
#[derive(Drop)]
pub struct Handing {
    pub event: Option<Event>,
    /// whether the exception that is set is handed over
    pub clears: bool,
    /// whether the initialisation of a module has failed
    pub fails: bool,
}

/// What a move comes to.
#[derive(Drop)]
pub enum Planned {
    Fault(FaultKind),
    Does(Change),
    Asks(Asking),
    Hands(Handing),
}
