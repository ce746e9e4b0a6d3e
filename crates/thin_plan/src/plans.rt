//! What a statement comes to: its faults in their order, and its effect. Nothing is changed here.
ghost use Rattle.std.specs.Prelude.{◌≡◌, is_none, ◌∷◌, [], Option, Some, None, IfOk};
ghost use Rattle.thin_state.specs.declared.space.Event.TheVariants as event;
ghost use Rattle.std.specs.Option.{option_copied};
ghost use Rattle.thin_state.specs.State.{lose};
ghost use Rattle.thin_state.specs.Reads.{passed, fits};
ghost use Rattle.thin_state.specs.Statements.{takes, object_of, text_of, definition_of, binary_op, module_op, dict_op, import_op, fail_op, op_of, error_fault, moved_out, owns_just, owns_none};
ghost use Rattle.thin_plan.specs.Plans.{checked, after, write_fault, write_plan, unowned, store_fault, own_after_store, store_plan, row_accepts, row_fault, ask_fault, row_plan, counted_fault, gain_of, gain_plan, loss_of, loss_plan, branch_fault, taken_line, branch_plan, jump_plan, return_fault, hand_by, hand_plan, object_plan, null_plan, null_with, result_plan, return_plan};

use crate::effects::Effect;
use c_token::Bytes;
use cy_base::OutOfMemory;
use sqlite_items::Items;
use std::alloc::Global;
use thin_ledger::{has, lose};
use thin_look::copies::{copy_bytes, copy_obj, copy_objs, copy_op, copy_value, with_first};
use thin_look::parts::Activation;
use thin_look::readings::{
    all_held, all_set, any_null, by_comparison, comparable, converts, fits, is_held, is_null,
    is_set, lends, may_read, may_store, may_write, owns_just, owns_none, passed, receives,
    same_lock, same_value,
};
use thin_state::{
    ApiRow, BinaryOp, CValue, Cell, Comparison, Doing, Entered, Event, FaultKind, Kind, Obj, Op,
    Place, Reading, Spot, Value, Variable,
};
use thin_tables::{Cells, converted};

type Planned = Result<Effect, OutOfMemory>;

fn write_fault(lock: bool, k: &CValue, v: &Reading, to: Kind) -> Option<FaultKind>
    ensures { result ≡ write_fault lock k.now v.now to }
{
    if !converts(v.kind, to) {
        return Some(FaultKind::Stuck);
    }
    if !is_set(&v.value) {
        return Some(FaultKind::Undefined);
    }
    if !may_read(lock, k, v) {
        return Some(FaultKind::Unlocked);
    }
    None
}

/// `x = k;` at a variable.
pub fn write_plan(
    alloc: Global,
    lock: bool,
    x: Variable,
    k: &CValue,
    v: &Reading,
    cell: Option<&Cell>,
) -> Planned
    ensures { IfOk result (λ e. e ≡ write_plan lock x k.now v.now (option_copied cell.entry)) }
{
    let Some(cell) = cell else {
        return Ok(Effect::Fault(FaultKind::Stuck));
    };
    if let Some(fault) = write_fault(lock, k, v, cell.kind) {
        return Ok(Effect::Fault(fault));
    }
    let value = copy_value(alloc, &v.value)?;
    Ok(Effect::Write(x, value, lends(alloc, k, v)?))
}

fn unowned(own: &[Obj], value: &Value) -> Option<FaultKind>
    ensures { result ≡ unowned own.now value.now }
{
    match value {
        Value::Object(object) => {
            if has(own, object) {
                None
            } else {
                Some(FaultKind::Unheld)
            }
        }
        _ => None,
    }
}

fn store_fault(lock: bool, own: &[Obj], k: &CValue, v: &Reading, spot: &Spot) -> Option<FaultKind>
    ensures { result ≡ store_fault lock own.now k.now v.now spot.now }
{
    if !converts(v.kind, spot.kind) {
        return Some(FaultKind::Stuck);
    }
    if !may_store(spot) {
        return Some(FaultKind::Stuck);
    }
    if !is_set(&v.value) {
        return Some(FaultKind::Undefined);
    }
    if !(may_read(lock, k, v) && may_write(lock, spot)) {
        return Some(FaultKind::Unlocked);
    }
    unowned(own, &v.value)
}

fn moved_out(alloc: Global, old: &Value, own: Items<Obj>) -> Result<Items<Obj>, OutOfMemory>
    ensures { IfOk result (λ l. l ≡ moved_out old.now own) }
{
    match old {
        Value::Object(object) => {
            let object = copy_obj(alloc, object)?;
            with_first(alloc, object, own.as_slice())
        }
        _ => Ok(own),
    }
}

/// The objects without the first that is the given one.
fn without(alloc: Global, own: &[Obj], object: &Obj) -> Result<Items<Obj>, OutOfMemory>
    ensures { IfOk result (λ l. l ≡ lose own.now object.now) }
{
    let mut kept = copy_objs(alloc, own)?;
    lose(&mut kept, object);
    Ok(kept)
}

fn own_after_store(
    alloc: Global,
    own: &[Obj],
    old: &Value,
    value: &Value,
) -> Result<Items<Obj>, OutOfMemory>
    ensures { IfOk result (λ l. l ≡ own_after_store own.now old.now value.now) }
{
    match value {
        Value::Object(object) => moved_out(alloc, old, without(alloc, own, object)?),
        _ => moved_out(alloc, old, copy_objs(alloc, own)?),
    }
}

/// `p = k;` at a place: the value moves in, and what was there moves out.
pub fn store_plan(
    alloc: Global,
    lock: bool,
    own: &[Obj],
    place: Place,
    k: &CValue,
    v: &Reading,
    spot: Option<&Spot>,
) -> Planned
    ensures { IfOk result (λ e. e ≡ store_plan lock own.now place k.now v.now (option_copied spot.entry)) }
{
    let Some(spot) = spot else {
        return Ok(Effect::Fault(FaultKind::Stuck));
    };
    if let Some(fault) = store_fault(lock, own, k, v, spot) {
        return Ok(Effect::Fault(fault));
    }
    let value = copy_value(alloc, &v.value)?;
    let own = own_after_store(alloc, own, &spot.value, &v.value)?;
    Ok(Effect::Store(place, value, own, lends(alloc, k, v)?))
}

/// The operands that a row takes.
fn takes(row: ApiRow) -> &'static [Kind]
    ensures { result.now ≡ takes row }
{
    match row {
        ApiRow::Number(_) => &[Kind::PyObject, Kind::PyObject],
        ApiRow::ModuleCreate => &[Kind::Definition],
        ApiRow::ModuleGetDict => &[Kind::PyObject],
        ApiRow::ImportModule => &[Kind::Text],
        ApiRow::ErrSetString => &[Kind::PyObject, Kind::Text],
    }
}

fn row_accepts(row: ApiRow, cells: &Cells, x: Option<Variable>) -> bool
    ensures { result ≡ row_accepts row cells.now x }
{
    match row {
        ApiRow::ErrSetString => x.is_none(),
        _ => receives(cells, x, Kind::PyObject),
    }
}

fn row_fault(cells: &Cells, x: Option<Variable>, row: ApiRow, vs: &[Reading]) -> Option<FaultKind>
    ensures { result ≡ row_fault cells.now x row vs.now }
{
    if !fits(takes(row), vs) {
        return Some(FaultKind::Stuck);
    }
    if any_null(vs) {
        return Some(FaultKind::Stuck);
    }
    if !row_accepts(row, cells, x) {
        return Some(FaultKind::Stuck);
    }
    if !all_set(vs) {
        return Some(FaultKind::Undefined);
    }
    None
}

fn error_fault(row: ApiRow) -> FaultKind
    ensures { result ≡ error_fault row }
{
    match row {
        ApiRow::ErrSetString => FaultKind::ErrorLost,
        _ => FaultKind::ErrorSet,
    }
}

fn object_of(alloc: Global, v: Option<&Reading>) -> Result<Option<Obj>, OutOfMemory>
    ensures { IfOk result (λ o. o ≡ object_of (option_copied v.entry)) }
{
    let Some(v) = v else { return Ok(None) };
    match &v.value {
        Value::Object(object) => Ok(Some(copy_obj(alloc, object)?)),
        _ => Ok(None),
    }
}

fn text_of(alloc: Global, v: Option<&Reading>) -> Result<Option<Bytes>, OutOfMemory>
    ensures { IfOk result (λ o. o ≡ text_of (option_copied v.entry)) }
{
    let Some(v) = v else { return Ok(None) };
    match &v.value {
        Value::Text(text) => Ok(Some(copy_bytes(alloc, text)?)),
        _ => Ok(None),
    }
}

fn definition_of(alloc: Global, v: Option<&Reading>) -> Result<Option<Bytes>, OutOfMemory>
    ensures { IfOk result (λ o. o ≡ definition_of (option_copied v.entry)) }
{
    let Some(v) = v else { return Ok(None) };
    match &v.value {
        Value::Definition(name) => Ok(Some(copy_bytes(alloc, name)?)),
        _ => Ok(None),
    }
}

fn binary_op(binary: BinaryOp, x: Option<Obj>, y: Option<Obj>) -> Option<Op>
    ensures { result ≡ binary_op binary x y }
{
    match (x, y) {
        (Some(x), Some(y)) => Some(Op::Binary(binary, x, y)),
        _ => None,
    }
}

fn fail_op(x: Option<Obj>, text: Option<Bytes>) -> Option<Op>
    ensures { result ≡ fail_op x text }
{
    match (x, text) {
        (Some(x), Some(text)) => Some(Op::Fail(x, text)),
        _ => None,
    }
}

fn module_op(name: Option<Bytes>) -> Option<Op>
    ensures { result ≡ module_op name }
{
    match name {
        Some(name) => Some(Op::Module(name)),
        None => None,
    }
}

fn dict_op(object: Option<Obj>) -> Option<Op>
    ensures { result ≡ dict_op object }
{
    match object {
        Some(object) => Some(Op::Dict(object)),
        None => None,
    }
}

fn import_op(name: Option<Bytes>) -> Option<Op>
    ensures { result ≡ import_op name }
{
    match name {
        Some(name) => Some(Op::Import(name)),
        None => None,
    }
}

/// The operation that a row asks.
fn op_of(alloc: Global, row: ApiRow, vs: &[Reading]) -> Result<Option<Op>, OutOfMemory>
    ensures { IfOk result (λ o. o ≡ op_of row vs.now) }
{
    match row {
        ApiRow::Number(binary) => {
            let x = object_of(alloc, vs.get(0))?;
            Ok(binary_op(binary, x, object_of(alloc, vs.get(1))?))
        }
        ApiRow::ModuleCreate => Ok(module_op(definition_of(alloc, vs.get(0))?)),
        ApiRow::ModuleGetDict => Ok(dict_op(object_of(alloc, vs.get(0))?)),
        ApiRow::ImportModule => Ok(import_op(text_of(alloc, vs.get(0))?)),
        ApiRow::ErrSetString => {
            let x = object_of(alloc, vs.get(0))?;
            Ok(fail_op(x, text_of(alloc, vs.get(1))?))
        }
    }
}

fn ask_fault(
    alloc: Global,
    lock: bool,
    error: &Option<Obj>,
    places: &[Items<Spot>],
    here: &Activation,
    row: ApiRow,
    vs: &[Reading],
) -> Result<Option<FaultKind>, OutOfMemory>
    ensures { IfOk result (λ f. f ≡ ask_fault lock error.now places.now here.now row vs.now) }
{
    if !lock {
        return Ok(Some(FaultKind::Unlocked));
    }
    if error.is_some() {
        return Ok(Some(error_fault(row)));
    }
    let objects = passed(alloc, vs)?;
    if all_held(places, here, objects.as_slice()) {
        Ok(None)
    } else {
        Ok(Some(FaultKind::Unheld))
    }
}

fn asked(alloc: Global, op: Op, row: ApiRow, x: Option<Variable>) -> Planned
    ensures { IfOk result (λ e. e ≡ Effect.Ask op row x (event.Ask op)) }
{
    let event = Event::Ask(copy_op(alloc, &op)?);
    Ok(Effect::Ask(op, row, x, event))
}

/// `x = Py..(k, ..);`
pub fn row_plan(
    alloc: Global,
    lock: bool,
    error: &Option<Obj>,
    places: &[Items<Spot>],
    here: &Activation,
    x: Option<Variable>,
    row: ApiRow,
    vs: &[Reading],
) -> Planned
    ensures { IfOk result (λ e. e ≡ row_plan lock error.now places.now here.now x row vs.now) }
{
    if let Some(fault) = row_fault(&here.variables, x, row, vs) {
        return Ok(Effect::Fault(fault));
    }
    let Some(op) = op_of(alloc, row, vs)? else {
        return Ok(Effect::Fault(FaultKind::Stuck));
    };
    if let Some(fault) = ask_fault(alloc, lock, error, places, here, row, vs)? {
        return Ok(Effect::Fault(fault));
    }
    asked(alloc, op, row, x)
}

fn counted_fault(lock: bool, v: &Reading) -> Option<FaultKind>
    ensures { result ≡ counted_fault lock v.now }
{
    if !converts(v.kind, Kind::PyObject) {
        return Some(FaultKind::Stuck);
    }
    if is_null(&v.value) {
        return Some(FaultKind::Stuck);
    }
    if !is_set(&v.value) {
        return Some(FaultKind::Undefined);
    }
    if !lock {
        return Some(FaultKind::Unlocked);
    }
    None
}

fn gain_of(
    alloc: Global,
    places: &[Items<Spot>],
    loans: &[Obj],
    here: &Activation,
    k: &CValue,
    v: &Reading,
    object: &Obj,
) -> Planned
    ensures { IfOk result (λ e. e ≡ gain_of places.now loans.now here.now k.now v.now (Value.Object object.now)) }
{
    let lent = lends(alloc, k, v)?;
    if !(is_held(places, here, object) || has(lent.as_slice(), object) || has(loans, object)) {
        return Ok(Effect::Fault(FaultKind::Unheld));
    }
    let object = copy_obj(alloc, object)?;
    Ok(Effect::Gain(with_first(alloc, object, here.own.as_slice())?, lent))
}

/// `Py_INCREF(k);`
pub fn gain_plan(
    alloc: Global,
    lock: bool,
    places: &[Items<Spot>],
    loans: &[Obj],
    here: &Activation,
    k: &CValue,
    v: &Reading,
) -> Planned
    ensures { IfOk result (λ e. e ≡ gain_plan lock places.now loans.now here.now k.now v.now) }
{
    if let Some(fault) = counted_fault(lock, v) {
        return Ok(Effect::Fault(fault));
    }
    match &v.value {
        Value::Object(object) => gain_of(alloc, places, loans, here, k, v, object),
        _ => Ok(Effect::Fault(FaultKind::Stuck)),
    }
}

fn loss_of(alloc: Global, own: &[Obj], object: &Obj) -> Planned
    ensures { IfOk result (λ e. e ≡ loss_of own.now (Value.Object object.now)) }
{
    if !has(own, object) {
        return Ok(Effect::Fault(FaultKind::Unheld));
    }
    Ok(Effect::Lose(copy_obj(alloc, object)?))
}

/// `Py_DECREF(k);`
pub fn loss_plan(alloc: Global, lock: bool, own: &[Obj], v: &Reading) -> Planned
    ensures { IfOk result (λ e. e ≡ loss_plan lock own.now v.now) }
{
    if let Some(fault) = counted_fault(lock, v) {
        return Ok(Effect::Fault(fault));
    }
    match &v.value {
        Value::Object(object) => loss_of(alloc, own, object),
        _ => Ok(Effect::Fault(FaultKind::Stuck)),
    }
}

fn branch_fault(lock: bool, a: &CValue, v: &Reading, b: &CValue, w: &Reading) -> Option<FaultKind>
    ensures { result ≡ branch_fault lock a.now v.now b.now w.now }
{
    if !comparable(v.kind, w.kind) {
        return Some(FaultKind::Stuck);
    }
    if !(is_set(&v.value) && is_set(&w.value)) {
        return Some(FaultKind::Undefined);
    }
    if !(may_read(lock, a, v) && may_read(lock, b, w)) {
        return Some(FaultKind::Unlocked);
    }
    None
}

fn taken_line(taken: bool, line: usize) -> Option<usize>
    ensures { result ≡ taken_line taken line }
{
    if taken { Some(line) } else { None }
}

/// An operand with what it read.
#[derive(Clone, Copy)]
pub struct Side<'a> {
    pub operand: &'a CValue,
    pub reading: &'a Reading,
}

/// `if (k == k) goto L;`
pub fn branch_plan(
    alloc: Global,
    lock: bool,
    left: Side<'_>,
    comparison: Comparison,
    right: Side<'_>,
    line: Option<usize>,
) -> Planned
    ensures { IfOk result (λ e. e ≡ branch_plan lock left.entry.operand.now left.entry.reading.now comparison right.entry.operand.now right.entry.reading.now line) }
{
    let Some(line) = line else {
        return Ok(Effect::Fault(FaultKind::Stuck));
    };
    if let Some(fault) = branch_fault(
        lock,
        left.operand,
        left.reading,
        right.operand,
        right.reading,
    ) {
        return Ok(Effect::Fault(fault));
    }
    let same = same_value(&left.reading.value, &right.reading.value);
    let taken = taken_line(by_comparison(comparison, same), line);
    let mut lent = lends(alloc, right.operand, right.reading)?;
    lent.append(lends(alloc, left.operand, left.reading)?)?;
    Ok(Effect::Jump(taken, lent))
}

/// `goto L;`
pub fn jump_plan(alloc: Global, line: Option<usize>) -> Effect
    ensures { result ≡ jump_plan line }
{
    match line {
        None => Effect::Fault(FaultKind::Stuck),
        Some(line) => Effect::Jump(Some(line), Items::new(alloc)),
    }
}

fn return_fault(
    lock: bool,
    here: &Activation,
    to: Kind,
    k: &CValue,
    v: &Reading,
) -> Option<FaultKind>
    ensures { result ≡ return_fault lock here.now to k.now v.now }
{
    if !converts(v.kind, to) {
        return Some(FaultKind::Stuck);
    }
    if !is_set(&v.value) {
        return Some(FaultKind::Undefined);
    }
    if !(may_read(lock, k, v) && same_lock(lock, here.lock)) {
        return Some(FaultKind::Unlocked);
    }
    None
}

// Hands a value to the caller, which then owns the given objects.
fn hand(doing: &Doing, value: Value, own: Items<Obj>, lent: Items<Obj>) -> Effect
    ensures { result ≡ hand_by doing.now own value [] lent }
{
    match doing {
        Doing::Waits(x) => Effect::Hand(*x, value, own, lent),
        _ => Effect::Fault(FaultKind::Stuck),
    }
}

fn hand_plan(alloc: Global, caller: Option<&Activation>, value: Value, lent: Items<Obj>) -> Planned
    ensures { IfOk result (λ e. e ≡ hand_plan (option_copied caller.entry) value [] lent) }
{
    let Some(caller) = caller else {
        return Ok(Effect::Fault(FaultKind::Stuck));
    };
    let own = copy_objs(alloc, caller.own.as_slice())?;
    Ok(hand(&caller.doing, value, own, lent))
}

fn hand_object(
    alloc: Global,
    caller: Option<&Activation>,
    object: &Obj,
    lent: Items<Obj>,
) -> Planned
    ensures { IfOk result (λ e. e ≡ hand_plan (option_copied caller.entry) (Value.Object object.now) (object.now ∷ []) lent) }
{
    let Some(caller) = caller else {
        return Ok(Effect::Fault(FaultKind::Stuck));
    };
    let own = with_first(alloc, copy_obj(alloc, object)?, caller.own.as_slice())?;
    let value = Value::Object(copy_obj(alloc, object)?);
    Ok(hand(&caller.doing, value, own, lent))
}

fn object_plan(
    alloc: Global,
    caller: Option<&Activation>,
    entered: Entered,
    object: &Obj,
    lent: Items<Obj>,
) -> Planned
    ensures { IfOk result (λ e. e ≡ object_plan (option_copied caller.entry) entered object.now lent) }
{
    match entered {
        Entered::FromC => hand_object(alloc, caller, object, lent),
        Entered::FromOutside | Entered::ForInitialisation => {
            Ok(Effect::Leave(copy_obj(alloc, object)?, lent))
        }
    }
}

fn null_plan(
    alloc: Global,
    caller: Option<&Activation>,
    entered: Entered,
    error: &Obj,
    lent: Items<Obj>,
) -> Planned
    ensures { IfOk result (λ e. e ≡ null_plan (option_copied caller.entry) entered error.now lent) }
{
    match entered {
        Entered::FromC => hand_plan(alloc, caller, Value::Null, lent),
        Entered::FromOutside => Ok(Effect::LeaveRaise(copy_obj(alloc, error)?, false, lent)),
        Entered::ForInitialisation => Ok(Effect::LeaveRaise(copy_obj(alloc, error)?, true, lent)),
    }
}

fn null_with(
    alloc: Global,
    caller: Option<&Activation>,
    here: &Activation,
    error: &Option<Obj>,
    lent: Items<Obj>,
) -> Planned
    ensures { IfOk result (λ e. e ≡ null_with (option_copied caller.entry) here.now error.now lent) }
{
    let Some(error) = error else {
        return Ok(Effect::Fault(FaultKind::ErrorLost));
    };
    if !owns_none(here.own.as_slice()) {
        return Ok(Effect::Fault(FaultKind::Unbalanced));
    }
    null_plan(alloc, caller, here.entered, error, lent)
}

fn object_fault(error: &Option<Obj>, own: &[Obj], object: &Obj) -> Option<FaultKind>
    ensures { result ≡ checked (is_none error.now) FaultKind.ErrorSet (checked (owns_just own.now object.now) FaultKind.Unbalanced None) }
{
    if error.is_some() {
        return Some(FaultKind::ErrorSet);
    }
    if !owns_just(own, object) {
        return Some(FaultKind::Unbalanced);
    }
    None
}

fn object_with(
    alloc: Global,
    error: &Option<Obj>,
    caller: Option<&Activation>,
    here: &Activation,
    object: &Obj,
    lent: Items<Obj>,
) -> Planned
    ensures { IfOk result (λ e. e ≡ after (checked (is_none error.now) FaultKind.ErrorSet (checked (owns_just here.now.own object.now) FaultKind.Unbalanced None)) (object_plan (option_copied caller.entry) here.now.entered object.now lent)) }
{
    if let Some(fault) = object_fault(error, here.own.as_slice(), object) {
        return Ok(Effect::Fault(fault));
    }
    object_plan(alloc, caller, here.entered, object, lent)
}

fn number_with(
    alloc: Global,
    caller: Option<&Activation>,
    here: &Activation,
    value: Value,
    lent: Items<Obj>,
) -> Planned
    ensures { IfOk result (λ e. e ≡ after (checked (owns_none here.now.own) FaultKind.Unbalanced None) (hand_plan (option_copied caller.entry) value [] lent)) }
{
    if !owns_none(here.own.as_slice()) {
        return Ok(Effect::Fault(FaultKind::Unbalanced));
    }
    hand_plan(alloc, caller, value, lent)
}

fn result_plan(
    alloc: Global,
    error: &Option<Obj>,
    caller: Option<&Activation>,
    here: &Activation,
    to: Kind,
    value: &Value,
    lent: Items<Obj>,
) -> Planned
    ensures { IfOk result (λ e. e ≡ result_plan error.now (option_copied caller.entry) here.now to value.now lent) }
{
    match value {
        Value::Object(object) => object_with(alloc, error, caller, here, object, lent),
        Value::Null => null_with(alloc, caller, here, error, lent),
        _ => {
            let value = converted(to, copy_value(alloc, value)?);
            number_with(alloc, caller, here, value, lent)
        }
    }
}

/// `return k;`
pub fn return_plan(
    alloc: Global,
    lock: bool,
    error: &Option<Obj>,
    caller: Option<&Activation>,
    here: &Activation,
    to: Kind,
    k: &CValue,
    v: &Reading,
) -> Planned
    ensures { IfOk result (λ e. e ≡ return_plan lock error.now (option_copied caller.entry) here.now to k.now v.now) }
{
    if let Some(fault) = return_fault(lock, here, to, k, v) {
        return Ok(Effect::Fault(fault));
    }
    let lent = lends(alloc, k, v)?;
    result_plan(alloc, error, caller, here, to, &v.value, lent)
}
