//! The turn that the outside takes: it starts initialisations, takes entries, enters functions and answers operations.
ghost use Rattle.std.specs.Prelude.{◌≡◌, ◌∷◌, [], ◌+◌, ◌^◌, ◌<◌, suc, pos, length, Option, Some, None, IfOk, drop};
ghost use Rattle.std.specs.Option.{option_copied};
ghost use Rattle.thin_state.specs.declared.tree.CHead.{CHead};
ghost use Rattle.thin_state.specs.Objects.{read_obj, read_objs, answer, raised, unfit, fits_of, new_result, sure_result};
ghost use Rattle.thin_state.specs.Outside.{how};
ghost use Rattle.thin_state.specs.Reads.{initializer_name};
ghost use Rattle.thin_look.specs.Views.{found_at, function_there, activated};
ghost use Rattle.thin_look.specs.Lookups.{standing_entered};
ghost use Rattle.thin_turn.specs.Turns.{living, is_found, fitting, delivery_new, delivery_by, answer_turn, enter_turn, enter_or, entry_turn, ask_go, top_entry, top_go, idle_go, doing_go, newest_go, failed_go, effect_go};
ghost use Rattle.thin_turn.specs.Moves.{stage_of, go_of};

use crate::parts::{Delivery, Turn};
use c_token::Bytes;
use cy_base::OutOfMemory;
use sqlite_items::{Boxed, Items};
use std::alloc::Global;
use thin_look::copies::{copy_bytes, copy_callee, copy_obj, copy_objs, with_first};
use thin_look::lookups::{find_entered, find_initializer, function_there};
use thin_look::parts::{Activation, LinkedFile, Standing};
use thin_plan::effects::Effect;
use thin_plan::entering::{Entrance, activate};
use thin_state::{
    Answer, ApiRow, CFunction, CHead, Callee, Doing, Entered, Entry, Obj, Op, Spot, Value, Variable,
};

/// The parts of the machine that the outside reads.
#[derive(Clone, Copy)]
pub struct Stage<'a> {
    pub alloc: Global,
    pub files: &'a [LinkedFile],
    pub places: &'a [Items<Spot>],
    pub lock: bool,
    pub instances: u32,
    pub views: u32,
    pub begun: usize,
}

/// A turn of the outside, and the number of entries that were taken. The turn is behind a pointer, so that what holds a
/// move isn't dropped turn by turn.
#[derive(Drop)]
pub struct Move {
    pub turn: Boxed<Turn>,
    pub taken: usize,
}

/// The frame that asks: its operation, its row, where the result goes, and what it owns.
#[derive(Clone, Copy)]
pub struct Asker<'a> {
    pub op: &'a Op,
    pub row: ApiRow,
    pub to: Option<Variable>,
    pub own: &'a [Obj],
}

type Turned = Result<Turn, OutOfMemory>;

type Moved = Result<Move, OutOfMemory>;

/// What a script names: an instance or view that isn't made yet reads as None.
fn read_obj(alloc: Global, instances: u32, views: u32, object: &Obj) -> Result<Obj, OutOfMemory>
    ensures { IfOk result (λ o. o ≡ read_obj instances views object.now) }
{
    match object {
        Obj::Inst(k) => Ok(if *k < instances {
            Obj::Inst(*k)
        } else {
            Obj::NoneNode
        }),
        Obj::View(k) => Ok(if *k < views {
            Obj::View(*k)
        } else {
            Obj::NoneNode
        }),
        other => copy_obj(alloc, other),
    }
}

fn read_objs(
    alloc: Global,
    instances: u32,
    views: u32,
    objects: &[Obj],
) -> Result<Items<Obj>, OutOfMemory>
    ensures { IfOk result (λ l. l ≡ read_objs instances views objects.now) }
{
    let mut read = Items::new(alloc);
    for object in objects {
        read.push(read_obj(alloc, instances, views, object)?)?;
    }
    Ok(read)
}

fn raised(op: &Op, object: Obj) -> Answer
    ensures { result ≡ raised (fits_of op.now) object }
{
    match op {
        Op::Module(_) | Op::Import(_) | Op::Binary(_, _, _) => Answer::Raised(object),
        Op::Dict(_) => Answer::Object(Obj::Foreign(0)),
        Op::Fail(_, _) => Answer::Object(object),
    }
}

fn unfit(op: &Op) -> Answer
    ensures { result ≡ unfit (fits_of op.now) }
{
    match op {
        Op::Module(_) | Op::Import(_) | Op::Binary(_, _, _) => Answer::Raised(Obj::Foreign(0)),
        Op::Dict(_) | Op::Fail(_, _) => Answer::Object(Obj::Foreign(0)),
    }
}

/// What an entry answers to an operation. An entry that doesn't fit is a raise of Foreign 0, or the default of an
/// operation that never fails.
fn answer(
    alloc: Global,
    op: &Op,
    entry: &Entry,
    instances: u32,
    views: u32,
) -> Result<Answer, OutOfMemory>
    ensures { IfOk result (λ a. a ≡ answer op.now entry.now instances views) }
{
    match entry {
        Entry::OkNode(object) => Ok(Answer::Object(read_obj(alloc, instances, views, object)?)),
        Entry::Raise(object) => Ok(raised(op, read_obj(alloc, instances, views, object)?)),
        _ => Ok(unfit(op)),
    }
}

fn sure_result(alloc: Global, answer: &Answer) -> Result<Obj, OutOfMemory>
    ensures { IfOk result (λ o. o ≡ sure_result answer.now) }
{
    match answer {
        Answer::Object(object) => copy_obj(alloc, object),
        Answer::Raised(object) => copy_obj(alloc, object),
        _ => Ok(Obj::Foreign(0)),
    }
}

fn delivery_new(alloc: Global, own: &[Obj], answer: &Answer) -> Result<Delivery, OutOfMemory>
    ensures { IfOk result (λ d. d ≡ delivery_new own.now (new_result answer.now)) }
{
    match answer {
        Answer::Object(object) => {
            let own = with_first(alloc, copy_obj(alloc, object)?, own)?;
            Ok(Delivery::New(own, copy_obj(alloc, object)?))
        }
        Answer::Raised(object) => Ok(Delivery::Raised(copy_obj(alloc, object)?)),
        _ => Ok(Delivery::Raised(Obj::Foreign(0))),
    }
}

fn delivery(
    alloc: Global,
    row: ApiRow,
    own: &[Obj],
    answer: &Answer,
) -> Result<Delivery, OutOfMemory>
    ensures { IfOk result (λ d. d ≡ delivery_by (how row) own.now answer.now) }
{
    match row {
        ApiRow::Number(_) | ApiRow::ModuleCreate | ApiRow::ImportModule => {
            delivery_new(alloc, own, answer)
        }
        ApiRow::ModuleGetDict => {
            let object = sure_result(alloc, answer)?;
            Ok(Delivery::Borrowed(object, sure_result(alloc, answer)?))
        }
        ApiRow::ErrSetString => Ok(Delivery::SetsError(sure_result(alloc, answer)?)),
    }
}

fn answer_turn(stage: &Stage<'_>, asker: Asker<'_>, entry: &Entry) -> Turned
    ensures { IfOk result (λ t. t ≡ answer_turn asker.entry.row asker.entry.to asker.entry.own.now (answer asker.entry.op.now entry.now stage.now.instances stage.now.views)) }
{
    let answer = answer(stage.alloc, asker.op, entry, stage.instances, stage.views)?;
    let delivery = delivery(stage.alloc, asker.row, asker.own, &answer)?;
    Ok(Turn::Answer(answer, asker.to, delivery))
}

fn outside_values(alloc: Global, args: &[Obj]) -> Result<Items<Value>, OutOfMemory>
    ensures { IfOk result (λ l. l ≡ Value.Null ∷ Value.Arguments args.now ∷ Value.Number (pos (length args.now)) ∷ []) }
{
    let mut values = Items::new(alloc);
    values.push(Value::Null)?;
    values.push(Value::Arguments(copy_objs(alloc, args)?))?;
    values.push(Value::Number(args.len() as i128))?;
    Ok(values)
}

fn enter_turn(
    stage: &Stage<'_>,
    callee: &Callee,
    args: Items<Obj>,
    standing: Standing,
    function: &CFunction,
) -> Turned
    ensures { IfOk result (λ t. t ≡ enter_turn (stage_of stage.now) callee.now args standing function.now) }
{
    let alloc = stage.alloc;
    let values = outside_values(alloc, args.as_slice())?;
    let lent = copy_objs(alloc, args.as_slice())?;
    let entrance = Entrance {
        standing,
        entered: Entered::FromOutside,
        lock: stage.lock,
    };
    let frame = activate(alloc, entrance, function, values.as_slice(), lent)?;
    Ok(Turn::Enter(copy_callee(alloc, callee)?, args, frame))
}

fn called_turn(
    stage: &Stage<'_>,
    asker: Asker<'_>,
    entry: &Entry,
    callee: &Callee,
    args: &[Obj],
) -> Turned
    ensures { IfOk result (λ t. t ≡ enter_or (stage_of stage.now) callee.now (read_objs stage.now.instances stage.now.views args.now)
        (answer_turn asker.entry.row asker.entry.to asker.entry.own.now (answer asker.entry.op.now entry.now stage.now.instances stage.now.views))
        (standing_entered stage.now.files.now stage.now.places.now callee.now)) }
{
    let Some(at) = find_entered(stage.files, stage.places, callee) else {
        return answer_turn(stage, asker, entry);
    };
    match function_there(stage.files, at.file, at.item) {
        None => answer_turn(stage, asker, entry),
        Some(function) => {
            let args = read_objs(stage.alloc, stage.instances, stage.views, args)?;
            enter_turn(stage, callee, args, at, function)
        }
    }
}

// The turn at an entry inside an operation, where no instance died.
fn entry_turn(stage: &Stage<'_>, asker: Asker<'_>, entry: &Entry) -> Turned
    ensures { IfOk result (λ t. t ≡ entry_turn (stage_of stage.now) asker.entry.op.now asker.entry.row asker.entry.to asker.entry.own.now entry.now) }
{
    match entry {
        Entry::Enter(callee, args) => called_turn(stage, asker, entry, callee, args.as_slice()),
        _ => answer_turn(stage, asker, entry),
    }
}

/// The first entry from a number on that says something else than that an instance died.
fn find_living(script: &[Entry], from: usize) -> usize
    ensures { drop result script.now ≡ living (drop from script.now) }
{
    for i in from..script.len() {
        if !matches!(script[i], Entry::Die(_)) {
            return i;
        }
    }
    script.len()
}

/// The turn inside an operation: with no entry left the run stops.
pub fn ask_go(stage: &Stage<'_>, asker: Asker<'_>, script: &[Entry], taken: usize) -> Moved
    ensures { IfOk result (λ m. go_of script.now m ≡ ask_go (stage_of stage.now) asker.entry.op.now asker.entry.row asker.entry.to asker.entry.own.now (drop taken script.now)) }
{
    let at = find_living(script, taken);
    match script.get(at) {
        None => Ok(Move {
            turn: Boxed::new(stage.alloc, Turn::Stop)?,
            taken: at,
        }),
        Some(entry) => Ok(Move {
            turn: Boxed::new(stage.alloc, entry_turn(stage, asker, entry)?)?,
            taken: at + 1,
        }),
    }
}

fn is_entered(stage: &Stage<'_>, callee: &Callee) -> bool
    ensures { result ≡ is_found (found_at stage.now.files.now (standing_entered stage.now.files.now stage.now.places.now callee.now)) }
{
    match find_entered(stage.files, stage.places, callee) {
        None => false,
        Some(at) => function_there(stage.files, at.file, at.item).is_some(),
    }
}

/// The first entry from a number on that enters a function.
fn find_fitting(stage: &Stage<'_>, script: &[Entry], from: usize) -> usize
    ensures { drop result script.now ≡ fitting stage.now.files.now stage.now.places.now (drop from script.now) }
{
    for i in from..script.len() {
        if let Entry::Enter(callee, _) = &script[i] {
            if is_entered(stage, callee) {
                return i;
            }
        }
    }
    script.len()
}

fn top_called(stage: &Stage<'_>, callee: &Callee, args: &[Obj]) -> Turned
    ensures { IfOk result (λ t. t ≡ enter_or (stage_of stage.now) callee.now (read_objs stage.now.instances stage.now.views args.now)
        Turn.Nothing (standing_entered stage.now.files.now stage.now.places.now callee.now)) }
{
    let Some(at) = find_entered(stage.files, stage.places, callee) else {
        return Ok(Turn::Nothing);
    };
    match function_there(stage.files, at.file, at.item) {
        None => Ok(Turn::Nothing),
        Some(function) => {
            let args = read_objs(stage.alloc, stage.instances, stage.views, args)?;
            enter_turn(stage, callee, args, at, function)
        }
    }
}

fn top_entry(stage: &Stage<'_>, entry: &Entry) -> Turned
    ensures { IfOk result (λ t. t ≡ top_entry (stage_of stage.now) entry.now) }
{
    match entry {
        Entry::Enter(callee, args) => top_called(stage, callee, args.as_slice()),
        _ => Ok(Turn::Nothing),
    }
}

/// The turn at top level: entries that enter nothing are skipped, and with none left the run ends.
fn top_go(stage: &Stage<'_>, script: &[Entry], taken: usize) -> Moved
    ensures { IfOk result (λ m. go_of script.now m ≡ top_go (stage_of stage.now) (drop taken script.now)) }
{
    let at = find_fitting(stage, script, taken);
    match script.get(at) {
        None => Ok(Move {
            turn: Boxed::new(stage.alloc, Turn::End)?,
            taken: at,
        }),
        Some(entry) => Ok(Move {
            turn: Boxed::new(stage.alloc, top_entry(stage, entry)?)?,
            taken: at + 1,
        }),
    }
}

fn initializer_name(alloc: Global, head: &CHead) -> Result<Bytes, OutOfMemory>
    ensures { IfOk result (λ n. n ≡ initializer_name head.now) }
{
    match head {
        CHead::Initializer(name) => copy_bytes(alloc, name),
        _ => Ok(Bytes::new(Vec::new(alloc))),
    }
}

fn begin_turn(stage: &Stage<'_>, standing: Standing, function: &CFunction) -> Turned
    requires { standing.file + 1 < 2 ^ 64 }
    ensures { IfOk result (λ t. t ≡ Turn.Begin (initializer_name function.now.head) (suc standing.file)
        (activated standing.file standing.item function.now [] [] Entered.ForInitialisation stage.now.lock)) }
{
    let alloc = stage.alloc;
    let entrance = Entrance {
        standing,
        entered: Entered::ForInitialisation,
        lock: stage.lock,
    };
    let frame = activate(alloc, entrance, function, &[], Items::new(alloc))?;
    Ok(Turn::Begin(
        initializer_name(alloc, &function.head)?,
        standing.file + 1,
        frame,
    ))
}

#[tactic(auto, using(thin_look::proofs::Searches::functions_within))]
/// The turn where no function runs: the next initialisation, if there is one.
pub fn idle_go(stage: &Stage<'_>, script: &[Entry], taken: usize) -> Moved
    ensures { IfOk result (λ m. go_of script.now m ≡ idle_go (stage_of stage.now) (drop taken script.now)) }
{
    let Some(at) = find_initializer(stage.files, stage.begun) else {
        return top_go(stage, script, taken);
    };
    match function_there(stage.files, at.file, at.item) {
        None => top_go(stage, script, taken),
        Some(function) => Ok(Move {
            turn: Boxed::new(stage.alloc, begin_turn(stage, at, function)?)?,
            taken,
        }),
    }
}

fn doing_go(stage: &Stage<'_>, newest: &Activation, script: &[Entry], taken: usize) -> Moved
    ensures { IfOk result (λ m. go_of script.now m ≡ doing_go (stage_of stage.now) newest.now.own (drop taken script.now) newest.now.doing) }
{
    match &newest.doing {
        Doing::Asks(op, row, to) => {
            let asker = Asker {
                op,
                row: *row,
                to: *to,
                own: newest.own.as_slice(),
            };
            ask_go(stage, asker, script, taken)
        }
        _ => Ok(Move {
            turn: Boxed::new(stage.alloc, Turn::Nothing)?,
            taken,
        }),
    }
}

/// The turn over the newest frame, if there is one.
fn newest_go(
    stage: &Stage<'_>,
    newest: Option<&Activation>,
    script: &[Entry],
    taken: usize,
) -> Moved
    ensures { IfOk result (λ m. go_of script.now m ≡ newest_go (stage_of stage.now) (option_copied newest.entry) (drop taken script.now)) }
{
    match newest {
        None => idle_go(stage, script, taken),
        Some(newest) => doing_go(stage, newest, script, taken),
    }
}

/// The turn after an effect of a frame that owns so much, with the frame below it.
pub fn effect_go(
    stage: &Stage<'_>,
    own: &[Obj],
    caller: Option<&Activation>,
    script: &[Entry],
    taken: usize,
    effect: &Effect,
) -> Moved
    ensures { IfOk result (λ m. go_of script.now m ≡ effect_go (stage_of stage.now) own.now (option_copied caller.entry) (drop taken script.now) effect.now) }
{
    match effect {
        Effect::Ask(op, row, to, _) => {
            let asker = Asker {
                op,
                row: *row,
                to: *to,
                own,
            };
            ask_go(stage, asker, script, taken)
        }
        Effect::Leave(_, _) => newest_go(stage, caller, script, taken),
        Effect::LeaveRaise(_, failed, _) => failed_go(stage, *failed, caller, script, taken),
        _ => Ok(Move {
            turn: Boxed::new(stage.alloc, Turn::Nothing)?,
            taken,
        }),
    }
}

fn failed_go(
    stage: &Stage<'_>,
    failed: bool,
    caller: Option<&Activation>,
    script: &[Entry],
    taken: usize,
) -> Moved
    ensures { IfOk result (λ m. go_of script.now m ≡ failed_go failed (stage_of stage.now) (option_copied caller.entry) (drop taken script.now)) }
{
    if failed {
        return Ok(Move {
            turn: Boxed::new(stage.alloc, Turn::End)?,
            taken,
        });
    }
    newest_go(stage, caller, script, taken)
}
