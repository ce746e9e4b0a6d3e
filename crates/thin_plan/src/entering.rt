//! Calls of C functions, and the frames of functions that are entered.
ghost use Rattle.std.specs.Prelude.{◌≡◌, not, ◌||◌, Option, Some, None, IfOk, map, reverse};
ghost use Rattle.thin_state.specs.Reads.{any_module_variable, fits, receives, all_set, parameter_kinds_of, parameter_kinds, result_kind, values_of, zero_of, initial_value, declared_cell, plain_cells, wrapper_cells, parameter_cells, passed};
ghost use Rattle.thin_look.specs.Views.{activated};
ghost use Rattle.thin_plan.specs.Plans.{loans_in, checked, after, call_of, call_plan};
ghost use Rattle.thin_look.specs.Readings.{all_held_in};

use crate::effects::Effect;
use cy_base::OutOfMemory;
use sqlite_items::Items;
use std::alloc::Global;
use thin_look::copies::copy_value;
use thin_look::lookups::function_there;
use thin_look::parts::{Activation, LinkedFile, Standing, turned};
use thin_look::readings::{
    all_held, all_set, fits, kind_of, lends, passed, reads_module_variable, receives,
};
use thin_state::{
    CFunction, CHead, CValue, Cell, Declaration, Doing, Entered, FaultKind, InitialValue, Kind,
    Obj, Parameter, Reading, Spot, Value, Variable,
};
use thin_tables::{Cells, converted};

#[tactic(auto, using(crate::proofs::Pairs::pairs_end))]
fn any_module_variable(ks: &[CValue], vs: &[Reading]) -> bool
    ensures { result ≡ any_module_variable ks.now vs.now }
{
    for (i, k) in ks.iter().enumerate() {
        let Some(v) = vs.get(i) else {
            return false;
        };
        if reads_module_variable(k, v) {
            return true;
        }
    }
    false
}

/// The loans that operands make, the oldest first.
#[tactic(auto, using(crate::proofs::Pairs::pairs_end))]
fn loans_in(alloc: Global, ks: &[CValue], vs: &[Reading]) -> Result<Items<Obj>, OutOfMemory>
    ensures { IfOk result (λ l. l ≡ loans_in ks.now vs.now) }
{
    let mut lent = Items::new(alloc);
    for (i, k) in ks.iter().enumerate() {
        let Some(v) = vs.get(i) else {
            return Ok(lent);
        };
        lent.append(lends(alloc, k, v)?)?;
    }
    Ok(lent)
}

fn parameter_kinds_of(alloc: Global, parameters: &[Parameter]) -> Result<Items<Kind>, OutOfMemory>
    ensures { IfOk result (λ l. l ≡ parameter_kinds_of parameters.now) }
{
    let mut kinds = Items::new(alloc);
    for parameter in parameters {
        kinds.push(kind_of(parameter.kind))?;
    }
    Ok(kinds)
}

/// The types of a function's parameters.
fn parameter_kinds(alloc: Global, head: &CHead) -> Result<Items<Kind>, OutOfMemory>
    ensures { IfOk result (λ l. l ≡ parameter_kinds head.now) }
{
    match head {
        CHead::Plain(_, _, _, parameters) => parameter_kinds_of(alloc, parameters.as_slice()),
        CHead::Wrapper(_, _) => Ok(Items::from_slice(
            alloc,
            &[Kind::PyObject, Kind::Arguments, Kind::PySsizeT],
        )?),
        CHead::Initializer(_) => Ok(Items::new(alloc)),
    }
}

/// The type of a function's result.
pub fn result_kind(head: &CHead) -> Kind
    ensures { result ≡ result_kind head.now }
{
    match head {
        CHead::Plain(_, _, kind, _) => kind_of(*kind),
        CHead::Wrapper(_, _) => Kind::PyObject,
        CHead::Initializer(_) => Kind::PyObject,
    }
}

fn values_of(alloc: Global, vs: &[Reading]) -> Result<Items<Value>, OutOfMemory>
    ensures { IfOk result (λ l. l ≡ values_of vs.now) }
{
    let mut values = Items::new(alloc);
    for v in vs {
        values.push(copy_value(alloc, &v.value)?)?;
    }
    Ok(values)
}

fn zero_of(kind: Kind) -> Value
    ensures { result ≡ zero_of kind }
{
    match kind {
        Kind::Int | Kind::PySsizeT => Value::Number(0),
        Kind::PyObject | Kind::Arguments | Kind::Text | Kind::Definition | Kind::Null => {
            Value::Null
        }
    }
}

fn initial_value(kind: Kind, initial: InitialValue) -> Value
    ensures { result ≡ initial_value kind initial }
{
    match initial {
        InitialValue::Nothing => Value::Unset,
        InitialValue::Null | InitialValue::Zero => zero_of(kind),
    }
}

fn declared_cell(declaration: Declaration) -> Cell
    ensures { result ≡ declared_cell declaration }
{
    let kind = kind_of(declaration.kind);
    Cell {
        variable: declaration.variable,
        kind,
        value: initial_value(kind, declaration.initial),
    }
}

fn declared_cells(alloc: Global, declarations: &[Declaration]) -> Result<Vec<Cell>, OutOfMemory>
    ensures { IfOk result (λ l. l.items ≡ map declared_cell declarations.now) }
{
    let mut cells = Vec::new(alloc);
    for declaration in declarations {
        cells.push(declared_cell(*declaration))?;
    }
    Ok(cells)
}

#[tactic(auto, using(crate::proofs::Pairs::pairs_end))]
fn plain_cells(
    alloc: Global,
    parameters: &[Parameter],
    values: &[Value],
) -> Result<Vec<Cell>, OutOfMemory>
    ensures { IfOk result (λ l. l.items ≡ plain_cells parameters.now values.now) }
{
    let mut cells = Vec::new(alloc);
    for (i, parameter) in parameters.iter().enumerate() {
        let Some(value) = values.get(i) else {
            return Ok(cells);
        };
        let kind = kind_of(parameter.kind);
        let value = converted(kind, copy_value(alloc, value)?);
        cells.push(Cell {
            variable: Variable::Parameter(parameter.number),
            kind,
            value,
        })?;
    }
    Ok(cells)
}

fn cell(alloc: Global, variable: Variable, kind: Kind, value: &Value) -> Result<Cell, OutOfMemory>
    ensures { IfOk result (λ c. c ≡ record { variable = variable; kind = kind; value = value.now }) }
{
    let value = copy_value(alloc, value)?;
    Ok(Cell {
        variable,
        kind,
        value,
    })
}

fn wrapper_cells(alloc: Global, values: &[Value]) -> Result<Vec<Cell>, OutOfMemory>
    ensures { IfOk result (λ l. l.items ≡ wrapper_cells values.now) }
{
    let mut cells = Vec::new(alloc);
    if let [a, b, c] = values {
        cells.push(cell(alloc, Variable::SelfObject, Kind::PyObject, a)?)?;
        cells.push(cell(alloc, Variable::Arguments, Kind::Arguments, b)?)?;
        cells.push(cell(alloc, Variable::ArgumentCount, Kind::PySsizeT, c)?)?;
    }
    Ok(cells)
}

fn parameter_cells(alloc: Global, head: &CHead, values: &[Value]) -> Result<Vec<Cell>, OutOfMemory>
    ensures { IfOk result (λ l. l.items ≡ parameter_cells head.now values.now) }
{
    match head {
        CHead::Plain(_, _, _, parameters) => plain_cells(alloc, parameters.as_slice(), values),
        CHead::Wrapper(_, _) => wrapper_cells(alloc, values),
        CHead::Initializer(_) => Ok(Vec::new(alloc)),
    }
}

fn call_enter(
    alloc: Global,
    entrance: Entrance,
    x: Option<Variable>,
    ks: &[CValue],
    vs: &[Reading],
    function: &CFunction,
    lent: Items<Obj>,
) -> Result<Effect, OutOfMemory>
    ensures { IfOk result (λ e. e ≡ Effect.Call (activated entrance.standing.file entrance.standing.item function.now (values_of vs.now) lent entrance.entered entrance.lock) x (reverse (loans_in ks.now vs.now))) }
{
    let values = values_of(alloc, vs)?;
    let frame = activate(alloc, entrance, function, values.as_slice(), lent)?;
    let lent = loans_in(alloc, ks, vs)?;
    Ok(Effect::Call(frame, x, turned(alloc, lent)?))
}

fn call_held(
    alloc: Global,
    lock: bool,
    places: &[Items<Spot>],
    here: &Activation,
    x: Option<Variable>,
    ks: &[CValue],
    vs: &[Reading],
    standing: Standing,
    function: &CFunction,
) -> Result<Effect, OutOfMemory>
    ensures { IfOk result (λ e. e ≡ after (checked (all_held_in places.now here.now (passed vs.now)) FaultKind.Unheld None)
        (Effect.Call (activated standing.file standing.item function.now (values_of vs.now) (passed vs.now) Entered.FromC lock) x (reverse (loans_in ks.now vs.now)))) }
{
    let lent = passed(alloc, vs)?;
    if !all_held(places, here, lent.as_slice()) {
        return Ok(Effect::Fault(FaultKind::Unheld));
    }
    let entrance = Entrance {
        standing,
        entered: Entered::FromC,
        lock,
    };
    call_enter(alloc, entrance, x, ks, vs, function, lent)
}

fn call_of(
    alloc: Global,
    lock: bool,
    places: &[Items<Spot>],
    here: &Activation,
    x: Option<Variable>,
    ks: &[CValue],
    vs: &[Reading],
    standing: Standing,
    function: &CFunction,
) -> Result<Effect, OutOfMemory>
    ensures { IfOk result (λ e. e ≡ call_of lock places.now here.now x ks.now vs.now standing function.now) }
{
    let kinds = parameter_kinds(alloc, &function.head)?;
    if let Some(fault) = call_fault(lock, here, x, kinds.as_slice(), ks, vs, &function.head) {
        return Ok(Effect::Fault(fault));
    }
    call_held(alloc, lock, places, here, x, ks, vs, standing, function)
}

/// `x = cyc_f_M_K(k, ..);`
pub fn call_plan(
    alloc: Global,
    files: &[LinkedFile],
    lock: bool,
    places: &[Items<Spot>],
    here: &Activation,
    x: Option<Variable>,
    ks: &[CValue],
    vs: &[Reading],
    standing: Option<Standing>,
) -> Result<Effect, OutOfMemory>
    ensures { IfOk result (λ e. e ≡ call_plan files.now lock places.now here.now x ks.now vs.now standing) }
{
    let Some(standing) = standing else {
        return Ok(Effect::Fault(FaultKind::Stuck));
    };
    match function_there(files, standing.file, standing.item) {
        None => Ok(Effect::Fault(FaultKind::Stuck)),
        Some(function) => call_of(alloc, lock, places, here, x, ks, vs, standing, function),
    }
}

/// How a function is entered.
#[derive(Clone, Copy)]
pub struct Entrance {
    pub standing: Standing,
    pub entered: Entered,
    pub lock: bool,
}

/// The frame of a function: its variables before its parameters.
pub fn activate(
    alloc: Global,
    entrance: Entrance,
    function: &CFunction,
    values: &[Value],
    lent: Items<Obj>,
) -> Result<Activation, OutOfMemory>
    ensures { IfOk result (λ a. a ≡ activated entrance.standing.file entrance.standing.item function.now values.now lent entrance.entered entrance.lock) }
{
    let mut variables = declared_cells(alloc, function.declarations.as_slice())?;
    variables.append(&mut parameter_cells(alloc, &function.head, values)?)?;
    Ok(Activation {
        file: entrance.standing.file,
        item: entrance.standing.item,
        line: 0,
        variables: Cells::new(alloc, variables)?,
        own: Items::new(alloc),
        lent,
        entered: entrance.entered,
        doing: Doing::Runs,
        lock: entrance.lock,
    })
}

fn call_fault(
    lock: bool,
    here: &Activation,
    x: Option<Variable>,
    kinds: &[Kind],
    ks: &[CValue],
    vs: &[Reading],
    head: &CHead,
) -> Option<FaultKind>
    ensures { result ≡ checked (fits kinds.now vs.now) FaultKind.Stuck
        (checked (receives here.now.variables x (result_kind head.now)) FaultKind.Stuck
        (checked (all_set vs.now) FaultKind.Undefined
        (checked (not (any_module_variable ks.now vs.now) || lock) FaultKind.Unlocked None))) }
{
    if !fits(kinds, vs) {
        return Some(FaultKind::Stuck);
    }
    if !receives(&here.variables, x, result_kind(head)) {
        return Some(FaultKind::Stuck);
    }
    if !all_set(vs) {
        return Some(FaultKind::Undefined);
    }
    if !(!any_module_variable(ks, vs) || lock) {
        return Some(FaultKind::Unlocked);
    }
    None
}
