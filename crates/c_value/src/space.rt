use crate::{ItemPlace, Kind, Parts, Value};
use api_model::Allocation;
use c_tree::{Numbered, Place};
use sqlite_items::Items;

/// A place of a file, and whether it was stored into.
#[derive(Drop)]
pub struct Spot {
    pub place: Place,
    pub kind: Kind,
    pub value: Value,
    pub stored: bool,
}

/// What an instance holds of the struct of one class: the type and the value of each field.
#[derive(Drop)]
pub struct Part {
    pub class: Numbered,
    pub fields: Items<(Kind, Value)>,
}

/// An instance: its class, whether it is of a heap type below it, whether it wasn't freed, its method table once one is
/// stored, and what it holds, the struct of its own class first.
#[derive(Drop)]
pub struct Instance {
    pub class: ItemPlace,
    pub allocation: Allocation,
    pub alive: bool,
    pub table: Option<Numbered>,
    pub parts: Parts,
}

/// Whether a run goes on, or `end` or `stop` was made.
#[derive(Clone, Copy, Debug, PartialEq, Eq)]
pub enum Course {
    Goes,
    Ended,
    Stopped,
}
