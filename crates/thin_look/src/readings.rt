//! Tests over readings: types, values that are set, loans, and what is held.
ghost use Rattle.std.specs.Prelude.{◌≡◌, [], IfOk};
ghost use Rattle.std.specs.Option.{option_copied};
ghost use Rattle.thin_state.specs.State.{is_number, is_object, is_arguments, converts, kind_of, is_constant, is_module_variable, value_is, among_spots, among_places};
ghost use Rattle.thin_state.specs.Reads.{reads_module_variable, object_in, lends, is_set, all_set, is_null, any_null, passed_with, passed, fits, accepts, receives};
ghost use Rattle.thin_state.specs.Statements.{may_store, comparable, same_int, same_value, by_comparison, owns_just, owns_none, same_lock};
ghost use Rattle.thin_look.specs.Readings.{may_read_with, may_write_with, held_in, all_held_in};

use crate::copies::{copy_obj, copy_objs, with_first};
use crate::parts::Activation;
use cy_base::OutOfMemory;
use sqlite_items::Items;
use std::alloc::Global;
use thin_ledger::{has, is_permanent, same_obj};
use thin_state::{
    CType, CValue, Cell, Comparison, Kind, Obj, Place, Reading, Spot, Value, Variable,
};
use thin_tables::Cells;

pub fn is_constant(place: Place) -> bool
    ensures { result ≡ is_constant place }
{
    match place {
        Place::Module | Place::Dictionary | Place::Builtins | Place::Constant(_) => true,
        Place::Ready | Place::Global(_) => false,
    }
}

pub fn kind_of(kind: CType) -> Kind
    ensures { result ≡ kind_of kind }
{
    match kind {
        CType::Int => Kind::Int,
        CType::PySsizeT => Kind::PySsizeT,
        CType::PyObject => Kind::PyObject,
    }
}

fn is_number(kind: Kind) -> bool
    ensures { result ≡ is_number kind }
{
    match kind {
        Kind::Int | Kind::PySsizeT => true,
        Kind::PyObject | Kind::Arguments | Kind::Text | Kind::Definition | Kind::Null => false,
    }
}

fn is_object(kind: Kind) -> bool
    ensures { result ≡ is_object kind }
{
    match kind {
        Kind::PyObject | Kind::Null => true,
        Kind::Int | Kind::PySsizeT | Kind::Arguments | Kind::Text | Kind::Definition => false,
    }
}

fn is_arguments(kind: Kind) -> bool
    ensures { result ≡ is_arguments kind }
{
    match kind {
        Kind::Arguments | Kind::Null => true,
        Kind::Int | Kind::PySsizeT | Kind::PyObject | Kind::Text | Kind::Definition => false,
    }
}

/// Whether a value of the first type may stand where the second is wanted.
pub fn converts(from: Kind, to: Kind) -> bool
    ensures { result ≡ converts from to }
{
    match to {
        Kind::Int | Kind::PySsizeT => is_number(from),
        Kind::PyObject => is_object(from),
        Kind::Arguments => is_arguments(from),
        Kind::Text => matches!(from, Kind::Text),
        Kind::Definition => matches!(from, Kind::Definition),
        Kind::Null => false,
    }
}

pub fn is_module_variable(place: Place, kind: Kind) -> bool
    ensures { result ≡ is_module_variable place kind }
{
    match (place, kind) {
        (Place::Global(_), Kind::PyObject) => true,
        _ => false,
    }
}

pub fn reads_module_variable(k: &CValue, v: &Reading) -> bool
    ensures { result ≡ reads_module_variable k.now v.now }
{
    match k {
        CValue::Place(place) => is_module_variable(*place, v.kind),
        _ => false,
    }
}

pub fn may_read(lock: bool, k: &CValue, v: &Reading) -> bool
    ensures { result ≡ may_read_with lock k.now v.now }
{
    !reads_module_variable(k, v) || lock
}

pub fn may_write(lock: bool, spot: &Spot) -> bool
    ensures { result ≡ may_write_with lock spot.now }
{
    !is_module_variable(spot.place, spot.kind) || lock
}

pub fn may_store(spot: &Spot) -> bool
    ensures { result ≡ may_store spot.now }
{
    !is_constant(spot.place) || !spot.stored
}

/// The loan that reading an operand makes.
pub fn lends(alloc: Global, k: &CValue, v: &Reading) -> Result<Items<Obj>, OutOfMemory>
    ensures { IfOk result (λ lent. lent ≡ lends k.now v.now) }
{
    if !reads_module_variable(k, v) {
        return Ok(Items::new(alloc));
    }
    objects_in(alloc, &v.value)
}

fn objects_in(alloc: Global, value: &Value) -> Result<Items<Obj>, OutOfMemory>
    ensures { IfOk result (λ lent. lent ≡ object_in value.now) }
{
    let mut lent = Items::new(alloc);
    if let Value::Object(object) = value {
        lent.push(copy_obj(alloc, object)?)?;
    }
    Ok(lent)
}

pub fn is_set(value: &Value) -> bool
    ensures { result ≡ is_set value.now }
{
    !matches!(value, Value::Unset)
}

pub fn all_set(readings: &[Reading]) -> bool
    ensures { result ≡ all_set readings.now }
{
    for reading in readings {
        if !is_set(&reading.value) {
            return false;
        }
    }
    true
}

pub fn is_null(value: &Value) -> bool
    ensures { result ≡ is_null value.now }
{
    matches!(value, Value::Null)
}

pub fn any_null(readings: &[Reading]) -> bool
    ensures { result ≡ any_null readings.now }
{
    for reading in readings {
        if is_null(&reading.value) {
            return true;
        }
    }
    false
}

fn accepts(cell: Option<&Cell>, kind: Kind) -> bool
    ensures { result ≡ accepts (option_copied cell.entry) kind }
{
    match cell {
        None => false,
        Some(cell) => converts(kind, cell.kind),
    }
}

/// Whether a result of a type can go to a variable, where it goes to one.
pub fn receives(cells: &Cells, x: Option<Variable>, kind: Kind) -> bool
    ensures { result ≡ receives cells.now x kind }
{
    match x {
        None => true,
        Some(x) => accepts(cells.find(x), kind),
    }
}

fn value_is(value: &Value, object: &Obj) -> bool
    ensures { result ≡ value_is value.now object.now }
{
    match value {
        Value::Object(other) => same_obj(other, object),
        _ => false,
    }
}

fn among_spots(spots: &[Spot], object: &Obj) -> bool
    ensures { result ≡ among_spots spots.now object.now }
{
    for spot in spots {
        if is_constant(spot.place) && value_is(&spot.value, object) {
            return true;
        }
    }
    false
}

/// Whether a constant place of a file holds the object.
fn among_places(places: &[Items<Spot>], object: &Obj) -> bool
    ensures { result ≡ among_places places.now object.now }
{
    for spots in places {
        if among_spots(spots.as_slice(), object) {
            return true;
        }
    }
    false
}

/// Whether a frame owns an object, it was lent to it, a constant place holds it, or it is permanent.
pub fn is_held(places: &[Items<Spot>], here: &Activation, object: &Obj) -> bool
    ensures { result ≡ held_in places.now here.now object.now }
{
    has(here.own.as_slice(), object)
        || has(here.lent.as_slice(), object)
        || among_places(places, object)
        || is_permanent(object)
}

pub fn all_held(places: &[Items<Spot>], here: &Activation, objects: &[Obj]) -> bool
    ensures { result ≡ all_held_in places.now here.now objects.now }
{
    for object in objects {
        if !is_held(places, here, object) {
            return false;
        }
    }
    true
}

/// `==` and `!=` of objects by identity, of NULL, and of numbers.
pub fn comparable(a: Kind, b: Kind) -> bool
    ensures { result ≡ comparable a b }
{
    is_object(a) && is_object(b) || is_number(a) && is_number(b)
}

pub fn same_value(v: &Value, w: &Value) -> bool
    ensures { result ≡ same_value v.now w.now }
{
    match (v, w) {
        (Value::Object(x), Value::Object(y)) => same_obj(x, y),
        (Value::Number(a), Value::Number(b)) => same_int(*a, *b),
        (Value::Null, Value::Null) => true,
        _ => false,
    }
}

fn same_int(a: i128, b: i128) -> bool
    ensures { result ≡ same_int a b }
{
    a == b
}

pub fn by_comparison(comparison: Comparison, same: bool) -> bool
    ensures { result ≡ by_comparison comparison same }
{
    match comparison {
        Comparison::Equal => same,
        Comparison::NotEqual => !same,
    }
}

pub fn owns_just(own: &[Obj], object: &Obj) -> bool
    ensures { result ≡ owns_just own.now object.now }
{
    match own {
        [other] => same_obj(other, object),
        _ => false,
    }
}

pub fn owns_none(own: &[Obj]) -> bool
    ensures { result ≡ owns_none own.now }
{
    own.is_empty()
}

pub fn same_lock(lock: bool, other: bool) -> bool
    ensures { result ≡ same_lock lock other }
{
    lock == other
}

fn passed_with(alloc: Global, value: &Value) -> Result<Items<Obj>, OutOfMemory>
    ensures { IfOk result (λ l. l ≡ passed_with value.now) }
{
    match value {
        Value::Object(object) => with_first(alloc, copy_obj(alloc, object)?, &[]),
        Value::Arguments(objects) => copy_objs(alloc, objects.as_slice()),
        _ => Ok(Items::new(alloc)),
    }
}

/// The objects that are passed with the values.
pub fn passed(alloc: Global, vs: &[Reading]) -> Result<Items<Obj>, OutOfMemory>
    ensures { IfOk result (λ l. l ≡ passed vs.now) }
{
    let mut objects = Items::new(alloc);
    for v in vs {
        objects.append(passed_with(alloc, &v.value)?)?;
    }
    Ok(objects)
}

#[tactic(auto, using(crate::proofs::Fits::fits_ends))]
/// Whether operands have the number and the types that are wanted.
pub fn fits(kinds: &[Kind], vs: &[Reading]) -> bool
    ensures { result ≡ fits kinds.now vs.now }
{
    for (i, kind) in kinds.iter().enumerate() {
        let Some(v) = vs.get(i) else {
            return false;
        };
        if !converts(v.kind, *kind) {
            return false;
        }
    }
    vs.len() == kinds.len()
}
