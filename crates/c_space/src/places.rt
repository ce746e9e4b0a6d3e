//! Places.
ghost use Rattle.std.specs.Prelude.{◌≡◌, ◌∷◌, [], ◌++◌, OnOk};
ghost use Rattle.std.specs.Option.{option_copied};
ghost use Rattle.c_frame.specs.Spots.{spot};
ghost use Rattle.c_space.specs.Places.{put_at, spots_of};

use c_frame::Spots;
use c_tree::Place;
use c_value::{Spot, Value};
use cy_base::OutOfMemory;
use std::alloc::Global;
use std::marker::Model;

/// The places of all files, by the numbers of the files from 0. Contracts see the list of their lists.
#[derive(Drop)]
pub struct Places {
    files: Vec<Spots>,
}

impl Model for Places {
    ghost use Rattle.std.specs.Prelude.{List};
    ghost use Rattle.c_value.specs.declared.space.Spot.{Spot};

    ghost Value = { List (List Spot) };

    ghost view = { λ it. it.files.items };
}

// A value that goes nowhere.
fn let_go(_value: Value) {}

impl Places {
    /// Of no file.
    pub fn new(alloc: Global) -> Places
        ensures { result ≡ [] }
    {
        Places {
            files: Vec::new(alloc),
        }
    }

    /// Those of one more file.
    pub fn push(&mut self, spots: Spots) -> Result<(), OutOfMemory>
        ensures { OnOk result (self.new ≡ self.old ++ spots ∷ []) }
    {
        self.files.push(spots)?;
        Ok(())
    }

    /// The places of each file.
    pub fn as_slice(&self) -> &[Spots]
        ensures { result.now ≡ self.now }
    {
        self.files.as_slice()
    }

    /// A place of a file by its name.
    pub fn find(&self, file: usize, place: Place) -> Option<&Spot>
        ensures { option_copied result ≡ spot (spots_of self.now file) place }
    {
        match self.files.get(file) {
            Some(spots) => spots.find(place),
            None => None,
        }
    }

    /// Gives a place of a file a value. A place that isn't there is left out.
    pub fn put(&mut self, file: usize, place: Place, value: Value)
        ensures { self.new ≡ put_at file place value self.old }
    {
        if file < self.files.len() {
            self.files[file].put(place, value);
        } else {
            let_go(value);
        }
    }
}
