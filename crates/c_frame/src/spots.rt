//! The places of a file, found without a search.
ghost use Rattle.std.specs.Prelude.{◌≡◌, ◌<◌, Some, IfOk, length, slice_get, slice_set};
ghost use Rattle.std.specs.Option.{option_copied};
ghost use Rattle.c_value.specs.declared.space.Spot.{Spot};
ghost use Rattle.c_frame.specs.Spots.{put_spot, spot};
ghost use Rattle.c_frame.specs.Tables.{place_number, spot_with};

use crate::places::PlaceNumbers;
use c_tree::Place;
use c_value::{Spot, Value, converted};
use cy_base::OutOfMemory;
use sqlite_items::{Boxed, Items};
use std::alloc::Global;
use std::marker::Model;

/// The places of a file. Contracts see their list.
#[derive(Drop)]
pub struct Spots {
    spots: Items<Spot>,
    // Behind a pointer, so that what holds spots holds no table in itself.
    numbers: Boxed<PlaceNumbers>,
}

impl Model for Spots {
    ghost use Rattle.std.specs.Prelude.{List};
    ghost use Rattle.c_value.specs.declared.space.Spot.{Spot};
    ghost use Rattle.c_frame.specs.Tables.{AreSpots};

    ghost Value = { List Spot };

    ghost view = { λ it. it.spots };

    ghost invariant = { λ it. AreSpots it.spots it.numbers };
}

fn find(numbers: &Boxed<PlaceNumbers>, place: Place) -> Option<usize>
    ensures { result ≡ place_number numbers.now place }
{
    numbers.get().find(place)
}

fn spot_with(spot: &Spot, value: Value) -> Spot
    ensures { result ≡ spot_with value spot.now }
{
    Spot {
        place: spot.place,
        kind: spot.kind,
        value: converted(spot.kind, value),
        stored: true,
    }
}

fn set_value(spots: &mut Items<Spot>, number: usize, value: Value)
    requires within { number < length spots.old }
    ensures { (spot : Spot) → slice_get spots.old number ≡ Some spot → spots.new ≡ slice_set spots.old number (spot_with value spot) }
{
    let spot = spot_with(&spots.as_slice()[number], value);
    spots.set(number, spot);
}

impl Spots {
    /// Places with the table of their numbers, or memory is wanting.
    pub fn new(alloc: Global, spots: Items<Spot>) -> Result<Spots, OutOfMemory>
        ensures { IfOk result (λ it. it ≡ spots) }
    {
        let numbers = Boxed::new(alloc, PlaceNumbers::of_spots(alloc, spots.as_slice())?)?;
        Ok(Spots { spots, numbers })
    }

    /// The places in order.
    pub fn as_slice(&self) -> &[Spot]
        ensures { result.now ≡ self.now }
    {
        self.spots.as_slice()
    }

    /// A place by its name; of two the first counts.
    pub fn find(&self, place: Place) -> Option<&Spot>
        ensures { option_copied result ≡ spot self.entry.now place }
    {
        match find(&self.numbers, place) {
            None => None,
            Some(number) => self.spots.get(number),
        }
    }

    /// Stores a value, as it is where it meets the place's type. A place that isn't there is left out.
    pub fn put(&mut self, place: Place, value: Value)
        ensures { self.new ≡ put_spot self.old place value }
    {
        if let Some(number) = find(&self.numbers, place) {
            set_value(&mut self.spots, number, value);
        }
    }
}
