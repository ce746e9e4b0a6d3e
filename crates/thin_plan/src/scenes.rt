use sqlite_items::Items;
use std::alloc::Global;
use thin_look::parts::{Activation, LinkedFile};
use thin_state::{Obj, Spot};

/// The parts of the machine that a statement reads: its frame, and the one that called it.
#[derive(Clone, Copy)]
pub struct Scene<'a> {
    pub alloc: Global,
    pub files: &'a [LinkedFile],
    pub places: &'a [Items<Spot>],
    pub lock: bool,
    pub error: &'a Option<Obj>,
    pub loans: &'a [Obj],
    pub here: &'a Activation,
    pub caller: Option<&'a Activation>,
}
