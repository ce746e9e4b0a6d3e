//! What operands read.
ghost use Rattle.std.specs.Prelude.{◌≡◌, pos, IfOk};
ghost use Rattle.std.specs.Option.{option_copied};
ghost use Rattle.thin_state.specs.State.{same_place, spot, wrap_int};
ghost use Rattle.thin_state.specs.Reads.{cell_reading, spot_reading, argument_of, argument_at, definition_reading, module_name};
ghost use Rattle.thin_look.specs.Readings.{operand_in, operands_in};

use crate::copies::{copy_bytes, copy_obj, copy_value};
use c_token::Bytes;
use cy_base::OutOfMemory;
use sqlite_items::Items;
use std::alloc::Global;
use thin_state::{CItem, CValue, Cell, Kind, Obj, Place, Reading, Spot, Value, Variable};
use thin_tables::{Cells, LinkedItem, wrap_int};

type Read = Result<Option<Reading>, OutOfMemory>;

pub fn same_place(x: Place, y: Place) -> bool
    ensures { result ≡ same_place x y }
{
    match (x, y) {
        (Place::Module, Place::Module) => true,
        (Place::Dictionary, Place::Dictionary) => true,
        (Place::Builtins, Place::Builtins) => true,
        (Place::Ready, Place::Ready) => true,
        (Place::Constant(i), Place::Constant(j)) => i == j,
        (Place::Global(i), Place::Global(j)) => i == j,
        _ => false,
    }
}

pub fn find_spot(spots: &[Spot], place: Place) -> Option<&Spot>
    ensures { option_copied result ≡ spot spots.now place }
{
    for spot in spots {
        if same_place(spot.place, place) {
            return Some(spot);
        }
    }
    None
}

pub fn find_module(items: &[LinkedItem]) -> Option<&Bytes>
    ensures { option_copied result ≡ module_name items.now }
{
    for item in items {
        if let CItem::ModuleDefinition(name) = item.item() {
            return Some(name);
        }
    }
    None
}

fn int_reading(n: u32) -> Reading
    ensures { result ≡ record { kind = Kind.Int; value = Value.Number (wrap_int (pos n)) } }
{
    Reading {
        kind: Kind::Int,
        value: Value::Number(wrap_int(i128::from(n))),
    }
}

fn cell_reading(alloc: Global, cell: Option<&Cell>) -> Read
    ensures { IfOk result (λ r. r ≡ cell_reading (option_copied cell.entry)) }
{
    match cell {
        None => Ok(None),
        Some(cell) => {
            let value = copy_value(alloc, &cell.value)?;
            Ok(Some(Reading {
                kind: cell.kind,
                value,
            }))
        }
    }
}

fn spot_reading(alloc: Global, spot: Option<&Spot>) -> Read
    ensures { IfOk result (λ r. r ≡ spot_reading (option_copied spot.entry)) }
{
    match spot {
        None => Ok(None),
        Some(spot) => {
            let value = copy_value(alloc, &spot.value)?;
            Ok(Some(Reading {
                kind: spot.kind,
                value,
            }))
        }
    }
}

fn object_reading(alloc: Global, object: &Obj) -> Result<Reading, OutOfMemory>
    ensures { IfOk result (λ r. r ≡ record { kind = Kind.PyObject; value = Value.Object object.now }) }
{
    Ok(Reading {
        kind: Kind::PyObject,
        value: Value::Object(copy_obj(alloc, object)?),
    })
}

fn argument_of(alloc: Global, value: &Value, j: u32) -> Read
    ensures { IfOk result (λ r. r ≡ argument_of value.now j) }
{
    let Value::Arguments(objects) = value else {
        return Ok(None);
    };
    match objects.get(j as usize) {
        None => Ok(None),
        Some(object) => Ok(Some(object_reading(alloc, object)?)),
    }
}

fn argument_at(alloc: Global, cell: Option<&Cell>, j: u32) -> Read
    ensures { IfOk result (λ r. r ≡ argument_at (option_copied cell.entry) j) }
{
    match cell {
        None => Ok(None),
        Some(cell) => argument_of(alloc, &cell.value, j),
    }
}

fn definition_reading(alloc: Global, name: Option<&Bytes>) -> Read
    ensures { IfOk result (λ r. r ≡ definition_reading (option_copied name.entry)) }
{
    match name {
        None => Ok(None),
        Some(name) => {
            let name = copy_bytes(alloc, name)?;
            Ok(Some(Reading {
                kind: Kind::Definition,
                value: Value::Definition(name),
            }))
        }
    }
}

fn text_reading(alloc: Global, text: &Bytes) -> Result<Reading, OutOfMemory>
    ensures { IfOk result (λ r. r ≡ record { kind = Kind.Text; value = Value.Text text.now }) }
{
    Ok(Reading {
        kind: Kind::Text,
        value: Value::Text(copy_bytes(alloc, text)?),
    })
}

/// What an operand gives, with its type; None where it names what isn't there.
pub fn operand(
    alloc: Global,
    items: &[LinkedItem],
    spots: &[Spot],
    cells: &Cells,
    k: &CValue,
) -> Read
    ensures { IfOk result (λ r. r ≡ operand_in items.now spots.now cells.now k.now) }
{
    match k {
        CValue::Variable(x) => cell_reading(alloc, cells.find(*x)),
        CValue::Place(place) => spot_reading(alloc, find_spot(spots, *place)),
        CValue::Argument(j) => argument_at(alloc, cells.find(Variable::Arguments), *j),
        CValue::Int(n) => Ok(Some(int_reading(*n))),
        CValue::Str(text) => Ok(Some(text_reading(alloc, text)?)),
        CValue::Null => Ok(Some(Reading {
            kind: Kind::Null,
            value: Value::Null,
        })),
        CValue::ExceptionType(exception) => Ok(Some(Reading {
            kind: Kind::PyObject,
            value: Value::Object(Obj::ExceptionType(*exception)),
        })),
        CValue::Definition => definition_reading(alloc, find_module(items)),
    }
}

/// What operands give, with their types; None where one names what isn't there.
pub fn operands(
    alloc: Global,
    items: &[LinkedItem],
    spots: &[Spot],
    cells: &Cells,
    ks: &[CValue],
) -> Result<Option<Items<Reading>>, OutOfMemory>
    ensures { IfOk result (λ r. r ≡ operands_in items.now spots.now cells.now ks.now) }
{
    let mut readings = Items::new(alloc);
    for k in ks {
        match operand(alloc, items, spots, cells, k)? {
            None => return Ok(None),
            Some(reading) => readings.push(reading)?,
        }
    }
    Ok(Some(readings))
}
