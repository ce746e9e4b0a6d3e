//! What the machine holds.
use sqlite_items::Items;
use std::alloc::Global;
use thin_look::parts::{Activation, LinkedFile};
use thin_state::{Course, Obj, Spot};

/// The machine's parts. The newest frame and the newest loan come last.
#[derive(Drop)]
pub struct Core {
    pub alloc: Global,
    pub files: Vec<LinkedFile>,
    pub taken: usize,
    pub instances: u32,
    pub views: u32,
    pub frames: Vec<Activation>,
    pub places: Vec<Items<Spot>>,
    pub begun: usize,
    pub course: Course,
    pub error: Option<Obj>,
    pub lock: bool,
    pub loans: Vec<Obj>,
}
