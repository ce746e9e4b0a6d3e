//! Linking: the places of the files before anything ran.
ghost use Rattle.std.specs.Prelude.{◌≡◌, false, IfOk};
ghost use Rattle.thin_state.specs.State.{kind_of, first_value, first_spots, first_places};

use cy_base::OutOfMemory;
use sqlite_items::Items;
use std::alloc::Global;
use thin_look::parts::LinkedFile;
use thin_look::readings::kind_of;
use thin_state::{CFile, CItem, CType, Kind, Place, Spot, Value};
use thin_tables::LinkedItem;

// What a place holds before the first store.
fn first_value(kind: Kind) -> Value
    ensures { result ≡ first_value kind }
{
    match kind {
        Kind::Int | Kind::PySsizeT => Value::Number(0),
        Kind::PyObject | Kind::Arguments | Kind::Text | Kind::Definition | Kind::Null => {
            Value::Null
        }
    }
}

fn first_spot(kind: CType, place: Place) -> Spot
    ensures { result ≡ record { place = place; kind = kind_of kind; value = first_value (kind_of kind); stored = false } }
{
    let kind = kind_of(kind);
    Spot {
        place,
        kind,
        value: first_value(kind),
        stored: false,
    }
}

fn first_spots(alloc: Global, items: &[LinkedItem]) -> Result<Items<Spot>, OutOfMemory>
    ensures { IfOk result (λ l. l ≡ first_spots items.now) }
{
    let mut spots = Items::new(alloc);
    for item in items {
        if let CItem::Static(kind, place) = item.item() {
            spots.push(first_spot(*kind, *place))?;
        }
    }
    Ok(spots)
}

/// The places of each file.
pub fn first_places(alloc: Global, files: &[LinkedFile]) -> Result<Vec<Items<Spot>>, OutOfMemory>
    ensures { IfOk result (λ v. v.items ≡ first_places files.now) }
{
    let mut places = Vec::new(alloc);
    for file in files {
        places.push(first_spots(alloc, file.items())?)?;
    }
    Ok(places)
}

/// The files with their tables.
pub fn linked_files(alloc: Global, files: Vec<CFile>) -> Result<Vec<LinkedFile>, OutOfMemory>
    ensures { IfOk result (λ v. v.items ≡ files.items) }
{
    let mut linked = Vec::new(alloc);
    for file in files {
        linked.push(LinkedFile::new(alloc, file)?)?;
    }
    Ok(linked)
}
