//! The machine as callers see it.
ghost use Rattle.std.specs.Prelude.{◌≡◌, IfOk};
ghost use Rattle.thin_mach.specs.Runs.{linked_run, IsStepOf, IsKept};

use crate::linking::{first_places, linked_files};
use crate::step::step;
use cy_base::OutOfMemory;
use std::alloc::Global;
use std::marker::Model;
use thin_apply::parts::Core;
use thin_state::{CFile, Course, Entry, Event, Step};

/// The machine that runs the C of the files over a script. Contracts see it as its files, the number of entries that it
/// has taken, and its state.
#[derive(Drop)]
pub struct Machine {
    core: Core,
}

impl Model for Machine {
    ghost use Rattle.std.specs.Prelude.{IsTrue};
    ghost use Rattle.thin_mach.specs.Runs.{Run};

    ghost Value = { Run };

    ghost use Rattle.thin_mach.specs.Deciding.{is_resting};
    ghost use Rattle.thin_apply.specs.Applied.{last_of};
    ghost use Rattle.thin_mach.specs.Held.{run_of};

    ghost view = { λ m. run_of m.core };

    ghost invariant = { λ m. IsTrue (is_resting m.core.course (last_of m.core.frames.items)) };
}

impl Machine {
    /// The machine before the first initialisation.
    pub fn new(alloc: Global, files: Vec<CFile>) -> Result<Machine, OutOfMemory>
        ensures { IfOk result (λ m. m ≡ linked_run files.items) }
    {
        let files = linked_files(alloc, files)?;
        let places = first_places(alloc, files.as_slice())?;
        Ok(Machine {
            core: Core {
                alloc,
                files,
                taken: 0,
                instances: 0,
                views: 0,
                frames: Vec::new(alloc),
                places,
                begun: 0,
                course: Course::Goes,
                error: None,
                lock: true,
                loans: Vec::new(alloc),
            },
        })
    }

    /// Runs one C statement, with the moves of the outside before and after it, and appends its events. It answers
    /// `Ended` or `Stopped` where an entry is wanted and none is left, at top level or inside a call, and `Ended` after
    /// a failed initialisation. At `Fault` and `Memory` neither the machine nor the events change.
    pub fn step(&mut self, script: &[Entry], events: &mut Vec<Event>) -> Step
        ensures step { IsStepOf self.old script.now events.old.items result self.new events.new.items }
        ensures kept { IsKept result self.old self.new events.old.items events.new.items }
        ensures files { self.new.files ≡ self.old.files }
    {
        step(&mut self.core, script, events)
    }
}
