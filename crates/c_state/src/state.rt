use api_model::Obj;
use c_frame::{Cells, Code, LinkedFunction};
use c_ledger::Ledger;
use c_space::{Instances, Places};
use c_value::{Course, Doing, Entered, Remembered, ViewInfo};
use sqlite_items::Items;
use std::collections::LinkedList;

/// A function that was entered, with the lines that are left, and whether the lock was held at its entry.
#[derive(Drop)]
pub struct Frame {
    pub file: u32,
    pub function: LinkedFunction,
    pub code: Code,
    pub variables: Cells,
    pub entered: Entered,
    pub doing: Doing,
    pub lock: bool,
}

/// What several threads share: the instances and the views, by their numbers; the places of each file; the number of the
/// file behind the one whose initialisation began last, and whether one has failed; whether the lock is held.
#[derive(Drop)]
pub struct Shared {
    pub instances: Instances,
    pub views: Items<ViewInfo>,
    pub places: Places,
    pub begun: usize,
    pub failed: bool,
    pub lock: bool,
}

/// What is one thread's own: the frames, the newest first; the ledger; the exception that is set; the states of the lock
/// that are remembered, the newest first, and how many were asked for; how many entries of the script are taken; whether
/// the run is at its end.
#[derive(Drop)]
pub struct Thread {
    pub frames: LinkedList<Frame>,
    pub ledger: Ledger,
    pub error: Option<Obj>,
    pub remembered: LinkedList<Remembered>,
    pub ensured: u64,
    pub taken: usize,
    pub course: Course,
}

/// The state. Where it isn't strict, ownership and the lock are no faults, and no entry destroys an instance.
#[derive(Drop)]
pub struct State {
    pub shared: Shared,
    pub thread: Thread,
    pub strict: bool,
}
