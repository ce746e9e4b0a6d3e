//! What a statement comes to, from the parts of the machine that it reads.
ghost use Rattle.std.specs.Prelude.{◌≡◌, drop, Option, Some, None, IfOk};
ghost use Rattle.thin_state.specs.declared.state.Reading.{Reading};
ghost use Rattle.thin_state.specs.Reads.{result_kind};
ghost use Rattle.thin_look.specs.Views.{function_at};
ghost use Rattle.thin_tables.specs.Lines.{label_line};
ghost use Rattle.thin_plan.specs.Plans.{Scene, function_here, operand_here, operands_here, read_then, assign_plan, row_plan, call_plan, gain_plan, loss_plan, branch_plan, jump_plan, return_plan, plan};
ghost use Rattle.thin_plan.specs.Running.{running_effect, effect_here, lines_after, next_here};
ghost use Rattle.thin_plan.specs.Scenes.{scene_of};
ghost use Rattle.thin_state.specs.declared.tree.CStmt.TheVariants as stmt;

use crate::effects::Effect;
use crate::entering::{call_plan, result_kind};
use crate::plans::{
    Side, branch_plan, gain_plan, jump_plan, loss_plan, return_plan, row_plan, store_plan,
    write_plan,
};
use crate::scenes::Scene;
use cy_base::OutOfMemory;
use sqlite_items::{Boxed, Items};
use thin_look::lookups::{
    find_function, find_label, find_statement, function_there, items_at, spots_at,
};
use thin_look::operands::{find_spot, operand, operands};
use thin_look::parts::{Activation, LinkedFile};
use thin_state::{
    ApiRow, CStmt, CValue, Comparison, Doing, FaultKind, FunctionName, Kind, Line, Reading, Target,
    Variable,
};

type Plan = Result<Effect, OutOfMemory>;

fn lines_here<'a>(files: &'a [LinkedFile], here: &Activation) -> &'a [Line]
    ensures { result.now ≡ (function_at files.now here.now.file here.now.item).lines }
{
    match function_there(files, here.file, here.item) {
        Some(function) => function.lines.as_slice(),
        None => &[],
    }
}

fn kind_here(files: &[LinkedFile], here: &Activation) -> Kind
    ensures { result ≡ result_kind (function_at files.now here.now.file here.now.item).head }
{
    match function_there(files, here.file, here.item) {
        Some(function) => result_kind(&function.head),
        None => Kind::PyObject,
    }
}

fn read(scene: &Scene<'_>, k: &CValue) -> Result<Option<Reading>, OutOfMemory>
    ensures { IfOk result (λ r. r ≡ operand_here (scene_of scene.now) k.now) }
{
    let items = items_at(scene.files, scene.here.file);
    let spots = spots_at(scene.places, scene.here.file);
    operand(scene.alloc, items, spots, &scene.here.variables, k)
}

fn read_each(scene: &Scene<'_>, ks: &[CValue]) -> Result<Option<Items<Reading>>, OutOfMemory>
    ensures { IfOk result (λ r. r ≡ operands_here (scene_of scene.now) ks.now) }
{
    let items = items_at(scene.files, scene.here.file);
    let spots = spots_at(scene.places, scene.here.file);
    operands(scene.alloc, items, spots, &scene.here.variables, ks)
}

fn assign_read(scene: &Scene<'_>, target: Target, k: &CValue, v: &Reading) -> Plan
    ensures { IfOk result (λ e. e ≡ assign_plan (scene_of scene.now) target k.now v.now) }
{
    let alloc = scene.alloc;
    match target {
        Target::Variable(x) => {
            let cell = scene.here.variables.find(x);
            write_plan(alloc, scene.lock, x, k, v, cell)
        }
        Target::Place(place) => {
            let spot = find_spot(spots_at(scene.places, scene.here.file), place);
            store_plan(
                alloc,
                scene.lock,
                scene.here.own.as_slice(),
                place,
                k,
                v,
                spot,
            )
        }
    }
}

fn assign(scene: &Scene<'_>, target: Target, k: &CValue) -> Plan
    ensures { IfOk result (λ e. e ≡ read_then (operand_here (scene_of scene.now) k.now) (assign_plan (scene_of scene.now) target k.now)) }
{
    match read(scene, k)? {
        None => Ok(Effect::Fault(FaultKind::Stuck)),
        Some(v) => assign_read(scene, target, k, &v),
    }
}

fn row(scene: &Scene<'_>, x: Option<Variable>, row: ApiRow, ks: &[CValue]) -> Plan
    ensures { IfOk result (λ e. e ≡ plan (scene_of scene.now) (stmt.Api x row ks.now)) }
{
    let Some(vs) = read_each(scene, ks)? else {
        return Ok(Effect::Fault(FaultKind::Stuck));
    };
    row_plan(
        scene.alloc,
        scene.lock,
        scene.error,
        scene.places,
        scene.here,
        x,
        row,
        vs.as_slice(),
    )
}

fn call(scene: &Scene<'_>, x: Option<Variable>, name: &FunctionName, ks: &[CValue]) -> Plan
    ensures { IfOk result (λ e. e ≡ plan (scene_of scene.now) (stmt.Call x name.now ks.now)) }
{
    let Some(vs) = read_each(scene, ks)? else {
        return Ok(Effect::Fault(FaultKind::Stuck));
    };
    call_plan(
        scene.alloc,
        scene.files,
        scene.lock,
        scene.places,
        scene.here,
        x,
        ks,
        vs.as_slice(),
        find_function(scene.files, scene.here.file, name),
    )
}

fn increment(scene: &Scene<'_>, k: &CValue) -> Plan
    ensures { IfOk result (λ e. e ≡ plan (scene_of scene.now) (stmt.Incref k.now)) }
{
    match read(scene, k)? {
        None => Ok(Effect::Fault(FaultKind::Stuck)),
        Some(v) => gain_plan(
            scene.alloc,
            scene.lock,
            scene.places,
            scene.loans,
            scene.here,
            k,
            &v,
        ),
    }
}

fn decrement(scene: &Scene<'_>, k: &CValue) -> Plan
    ensures { IfOk result (λ e. e ≡ plan (scene_of scene.now) (stmt.Decref k.now)) }
{
    match read(scene, k)? {
        None => Ok(Effect::Fault(FaultKind::Stuck)),
        Some(v) => loss_plan(scene.alloc, scene.lock, scene.here.own.as_slice(), &v),
    }
}

fn branch_read(
    scene: &Scene<'_>,
    left: Side<'_>,
    comparison: Comparison,
    b: &CValue,
    label: u32,
) -> Plan
    ensures { IfOk result (λ e. e ≡ read_then (operand_here (scene_of scene.now) b.now)
        (λ w. branch_plan scene.now.lock left.entry.operand.now left.entry.reading.now comparison b.now w (label_line (function_here (scene_of scene.now)).lines label))) }
{
    let Some(w) = read(scene, b)? else {
        return Ok(Effect::Fault(FaultKind::Stuck));
    };
    let line = find_label(scene.files, scene.here.file, scene.here.item, label);
    let right = Side {
        operand: b,
        reading: &w,
    };
    branch_plan(scene.alloc, scene.lock, left, comparison, right, line)
}

fn branch(scene: &Scene<'_>, a: &CValue, comparison: Comparison, b: &CValue, label: u32) -> Plan
    ensures { IfOk result (λ e. e ≡ plan (scene_of scene.now) (stmt.GotoIf a.now comparison b.now label)) }
{
    let Some(v) = read(scene, a)? else {
        return Ok(Effect::Fault(FaultKind::Stuck));
    };
    let left = Side {
        operand: a,
        reading: &v,
    };
    branch_read(scene, left, comparison, b, label)
}

fn jump(scene: &Scene<'_>, label: u32) -> Effect
    ensures { result ≡ plan (scene_of scene.now) (stmt.Goto label) }
{
    let line = find_label(scene.files, scene.here.file, scene.here.item, label);
    jump_plan(scene.alloc, line)
}

fn give_back(scene: &Scene<'_>, k: &CValue) -> Plan
    ensures { IfOk result (λ e. e ≡ plan (scene_of scene.now) (stmt.Return k.now)) }
{
    let Some(v) = read(scene, k)? else {
        return Ok(Effect::Fault(FaultKind::Stuck));
    };
    return_plan(
        scene.alloc,
        scene.lock,
        scene.error,
        scene.caller,
        scene.here,
        kind_here(scene.files, scene.here),
        k,
        &v,
    )
}

/// What a statement comes to.
pub fn plan(scene: &Scene<'_>, statement: &CStmt) -> Plan
    ensures { IfOk result (λ e. e ≡ plan (scene_of scene.now) statement.now) }
{
    match statement {
        CStmt::Assign(target, k) => assign(scene, *target, k),
        CStmt::Api(x, r, ks) => row(scene, *x, *r, ks.as_slice()),
        CStmt::Call(x, name, ks) => call(scene, *x, name, ks.as_slice()),
        CStmt::Incref(k) => increment(scene, k),
        CStmt::Decref(k) => decrement(scene, k),
        CStmt::GotoIf(a, comparison, b, label) => branch(scene, a, *comparison, b, *label),
        CStmt::Goto(label) => Ok(jump(scene, *label)),
        CStmt::Return(k) => give_back(scene, k),
    }
}

/// The number of the line after a frame's next statement, and what that statement comes to, behind a pointer, so that
/// what holds a plan isn't dropped effect by effect.
#[derive(Drop)]
pub struct Planned {
    pub line: usize,
    pub effect: Boxed<Effect>,
}

#[tactic(auto, using(crate::proofs::Running::stuck))]
/// What a frame comes to, which runs or waits: a body that ends without a return is stuck.
pub fn plan_here(scene: &Scene<'_>) -> Result<Planned, OutOfMemory>
    ensures effect { IfOk result (λ d. d.effect ≡ effect_here (scene_of scene.now)) }
    ensures line { IfOk result (λ d. drop d.line (function_here (scene_of scene.now)).lines ≡ lines_after (next_here (scene_of scene.now))) }
{
    let here = scene.here;
    match find_statement(scene.files, here.file, here.item, here.line) {
        None => Ok(Planned {
            line: lines_here(scene.files, here).len(),
            effect: Boxed::new(scene.alloc, Effect::Fault(FaultKind::Stuck))?,
        }),
        Some(next) => Ok(Planned {
            line: next.after,
            effect: Boxed::new(scene.alloc, running(scene, next.statement)?)?,
        }),
    }
}

// What a statement of the frame comes to, if the frame runs.
fn running(scene: &Scene<'_>, statement: &CStmt) -> Plan
    ensures { IfOk result (λ e. e ≡ running_effect scene.now.here.now.doing (plan (scene_of scene.now) statement.now)) }
{
    match &scene.here.doing {
        Doing::Runs => plan(scene, statement),
        _ => Ok(Effect::Fault(FaultKind::Stuck)),
    }
}
