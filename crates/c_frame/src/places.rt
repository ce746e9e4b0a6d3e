//! Which cell or spot is that of a place.
ghost use Rattle.std.specs.Prelude.{◌≡◌, IfOk, OnOk};
ghost use Rattle.c_frame.specs.Tables.{AreSpots, IsPlaceNoted, knows_no_place, place_number};

use c_tree::Place;
use c_value::Spot;
use cy_base::OutOfMemory;
use std::alloc::Global;
use std::collections::HashMap;

/// The number of the first cell or spot of each place.
#[derive(Drop)]
pub struct PlaceNumbers {
    module_object: Option<usize>,
    dictionary: Option<usize>,
    builtins: Option<usize>,
    ready: Option<usize>,
    constants: HashMap<u32, usize>,
    globals: HashMap<u32, usize>,
}

impl PlaceNumbers {
    pub fn none(alloc: Global) -> PlaceNumbers
        ensures { knows_no_place result }
    {
        PlaceNumbers {
            module_object: None,
            dictionary: None,
            builtins: None,
            ready: None,
            constants: HashMap::new(alloc),
            globals: HashMap::new(alloc),
        }
    }

    pub fn note(&mut self, place: Place, at: usize) -> Result<(), OutOfMemory>
        ensures { OnOk result (IsPlaceNoted self.old place at self.new) }
    {
        match place {
            Place::Module => self.module_object = Some(at),
            Place::Dictionary => self.dictionary = Some(at),
            Place::Builtins => self.builtins = Some(at),
            Place::Ready => self.ready = Some(at),
            Place::Constant(number) => {
                self.constants.insert(number, at)?;
            }
            Place::Global(number) => {
                self.globals.insert(number, at)?;
            }
        }
        Ok(())
    }

    /// The numbers of all spots; of two of one place the first counts.
    pub fn of_spots(alloc: Global, spots: &[Spot]) -> Result<PlaceNumbers, OutOfMemory>
        ensures { IfOk result (λ numbers. AreSpots spots.now numbers) }
    {
        let mut numbers = PlaceNumbers::none(alloc);
        for at in (0..spots.len()).rev() {
            numbers.note(spots[at].place, at)?;
        }
        Ok(numbers)
    }

    pub fn find(&self, place: Place) -> Option<usize>
        ensures { result ≡ place_number self.now place }
    {
        match place {
            Place::Module => self.module_object,
            Place::Dictionary => self.dictionary,
            Place::Builtins => self.builtins,
            Place::Ready => self.ready,
            Place::Constant(number) => self.constants.get(&number).copied(),
            Place::Global(number) => self.globals.get(&number).copied(),
        }
    }
}
