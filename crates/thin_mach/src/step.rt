//! One step: what is decided while nothing is changed, and then what is changed while nothing can fail.
ghost use Rattle.std.specs.Prelude.{◌≡◌, ◌∷◌, [], ◌++◌, ◌+◌, ◌<◌, ◌≤◌, is_ok, if◌then◌else◌, MatchOption, IfOk, OnOk, IsTrue, List, drop, vec_len, vec_capacity};
ghost use Rattle.std.specs.Option.{option_copied};
ghost use Rattle.thin_state.specs.declared.space.Entry.{Entry};
ghost use Rattle.thin_look.specs.Views.{function_at};
ghost use Rattle.thin_apply.specs.Applied.{parts_of, fixed, applied, effect_events, lends_of, moved_on, turn_events, last_of, NoFault};
ghost use Rattle.thin_turn.specs.Turns.{effect_go};
ghost use Rattle.thin_turn.specs.Moves.{stage_of, go_of};
ghost use Rattle.thin_plan.specs.Running.{lines_after, next_here, effect_here};
ghost use Rattle.thin_mach.specs.Deciding.{scene_at, stage_at, is_resting, finished, finished_events, IsDecided, IsFirst, Starts, Ends, IsStep};

use cy_base::OutOfMemory;
use sqlite_items::Boxed;
use thin_apply::apply::{apply_effect, apply_turn, put};
use thin_apply::parts::Core;
use thin_look::parts::Activation;
use thin_plan::effects::Effect;
use thin_plan::scenes::Scene;
use thin_plan::statements::plan_here;
use thin_state::{Course, Entry, Event, FaultKind, Step};
use thin_turn::outside::{Move, Stage, effect_go, idle_go};
use thin_turn::parts::Turn;

/// What is decided for a frame: the number of its next line, the effect of its statement, and the outside's move.
#[derive(Drop)]
struct Decision {
    line: usize,
    effect: Boxed<Effect>,
    next: Move,
}

/// Decides for a frame above those of the machine, while so many files have begun and so many entries are taken.
fn decide(
    core: &Core,
    here: &Activation,
    script: &[Entry],
    begun: usize,
    taken: usize,
) -> Result<Decision, OutOfMemory>
    ensures effect { IfOk result (λ d. d.effect ≡ effect_here (scene_at (fixed core.now) (parts_of core.now) here.now)) }
    ensures line { IfOk result (λ d. drop d.line (function_at core.now.files.items here.now.file here.now.item).lines ≡ lines_after (next_here (scene_at (fixed core.now) (parts_of core.now) here.now))) }
    ensures next { IfOk result (λ d. go_of script.now d.next ≡ effect_go (record (stage_at (fixed core.now) (parts_of core.now)) { begun = begun }) here.now.own (last_of core.now.frames.items) (drop taken script.now) d.effect) }
{
    let caller = newest(core.frames.as_slice());
    let scene = Scene {
        alloc: core.alloc,
        files: core.files.as_slice(),
        places: core.places.as_slice(),
        lock: core.lock,
        error: &core.error,
        loans: core.loans.as_slice(),
        here,
        caller,
    };
    let planned = plan_here(&scene)?;
    let stage = stage(core, begun);
    let next = effect_go(
        &stage,
        here.own.as_slice(),
        caller,
        script,
        taken,
        planned.effect.get(),
    )?;
    Ok(Decision {
        line: planned.line,
        effect: planned.effect,
        next,
    })
}

/// What the outside reads, while so many files have begun.
fn stage(core: &Core, begun: usize) -> Stage<'_>
    ensures { stage_of result ≡ record (stage_at (fixed core.now) (parts_of core.now)) { begun = begun } }
{
    Stage {
        alloc: core.alloc,
        files: core.files.as_slice(),
        places: core.places.as_slice(),
        lock: core.lock,
        instances: core.instances,
        views: core.views,
        begun,
    }
}

/// The newest of the frames.
#[tactic(auto, using(thin_apply::proofs::Puts::lasts))]
fn newest(frames: &[Activation]) -> Option<&Activation>
    ensures { option_copied result ≡ last_of frames.now }
{
    frames.last()
}

fn lends_of(effect: &Effect) -> usize
    ensures { result ≡ lends_of effect.now }
{
    match effect {
        Effect::Write(_, _, lent) => lent.len(),
        Effect::Store(_, _, _, lent) => lent.len(),
        Effect::Call(_, _, lent) => lent.len(),
        Effect::Gain(_, lent) => lent.len(),
        Effect::Jump(_, lent) => lent.len(),
        Effect::Hand(_, _, _, lent) => lent.len(),
        Effect::Leave(_, lent) => lent.len(),
        Effect::LeaveRaise(_, _, lent) => lent.len(),
        Effect::Fault(_) | Effect::Ask(_, _, _, _) | Effect::Lose(_) => 0,
    }
}

/// Makes room for what a decision changes; nothing else changes.
fn make_room(core: &mut Core, events: &mut Vec<Event>, lent: usize) -> Result<(), OutOfMemory>
    ensures parts { parts_of core.new ≡ parts_of core.old }
    ensures fixed { fixed core.new ≡ fixed core.old }
    ensures frames_more { vec_capacity core.old.frames ≤ vec_capacity core.new.frames }
    ensures frames_len { vec_len core.new.frames ≡ vec_len core.old.frames }
    ensures events { events.new.items ≡ events.old.items }
    ensures frames_room { OnOk result (vec_len core.new.frames + 3 ≤ vec_capacity core.new.frames) }
    ensures loans_room { OnOk result (vec_len core.new.loans + lent + 1 ≤ vec_capacity core.new.loans) }
    ensures events_room { OnOk result (vec_len events.new + 3 ≤ vec_capacity events.new) }
{
    let Some(loans) = lent.checked_add(1) else {
        return Err(OutOfMemory);
    };
    core.frames.reserve(3)?;
    core.loans.reserve(loans)?;
    events.reserve(3)?;
    Ok(())
}

/// Changes what was decided for a frame.
fn finish(core: &mut Core, events: &mut Vec<Event>, top: Activation, decision: Decision)
    requires frames_room { vec_len core.old.frames + 3 ≤ vec_capacity core.old.frames }
    requires loans_room { vec_len core.old.loans + lends_of decision.effect + 1 ≤ vec_capacity core.old.loans }
    requires events_room { vec_len events.old + 2 ≤ vec_capacity events.old }
    ensures parts { parts_of core.new ≡ moved_on decision.next.taken decision.next.turn (applied (parts_of core.old) (record top { line = decision.line }) decision.effect) }
    ensures events { events.new.items ≡ (events.old.items ++ effect_events decision.effect) ++ turn_events decision.next.turn }
    ensures fixed { fixed core.new ≡ fixed core.old }
{
    let mut top = top;
    let Decision { line, effect, next } = decision;
    let Move { turn, taken } = next;
    top.line = line;
    apply_effect(core, events, top, effect.into_inner());
    apply_turn(core, events, turn.into_inner(), taken);
}

// The same, as one fact on the parts and one on the events.
fn complete(core: &mut Core, events: &mut Vec<Event>, top: Activation, decision: Decision)
    requires frames_room { vec_len core.old.frames + 3 ≤ vec_capacity core.old.frames }
    requires loans_room { vec_len core.old.loans + lends_of decision.effect + 1 ≤ vec_capacity core.old.loans }
    requires events_room { vec_len events.old + 2 ≤ vec_capacity events.old }
    ensures parts { parts_of core.new ≡ finished (parts_of core.old) top decision.line decision.effect decision.next.taken decision.next.turn }
    ensures events { events.new.items ≡ finished_events events.old.items decision.effect decision.next.turn }
    ensures fixed { fixed core.new ≡ fixed core.old }
{
    finish(core, events, top, decision);
}

// The same, as one fact.
fn decided(
    core: &Core,
    here: &Activation,
    script: &[Entry],
    begun: usize,
    taken: usize,
) -> Result<Decision, OutOfMemory>
    ensures { IfOk result (λ d. IsDecided (fixed core.now) (parts_of core.now) script.now begun taken here.now d.line d.effect d.next.taken d.next.turn) }
{
    let decision = decide(core, here, script, begun, taken)?;
    Ok(decision)
}

/// Decides for a frame, and makes room for what is decided.
fn prepare(
    core: &mut Core,
    here: &Activation,
    script: &[Entry],
    events: &mut Vec<Event>,
    begun: usize,
    taken: usize,
) -> Result<Decision, OutOfMemory>
    ensures decided { IfOk result (λ d. IsDecided (fixed core.old) (parts_of core.old) script.now begun taken here.now d.line d.effect d.next.taken d.next.turn) }
    ensures parts { parts_of core.new ≡ parts_of core.old }
    ensures fixed { fixed core.new ≡ fixed core.old }
    ensures frames_more { vec_capacity core.old.frames ≤ vec_capacity core.new.frames }
    ensures frames_len { vec_len core.new.frames ≡ vec_len core.old.frames }
    ensures events { events.new.items ≡ events.old.items }
    ensures frames_room { OnOk result (vec_len core.new.frames + 3 ≤ vec_capacity core.new.frames) }
    ensures loans_room { IfOk result (λ d. vec_len core.new.loans + lends_of d.effect + 1 ≤ vec_capacity core.new.loans) }
    ensures events_room { OnOk result (vec_len events.new + 3 ≤ vec_capacity events.new) }
{
    let decision = decided(core, here, script, begun, taken)?;
    make_room(core, events, lends_of(decision.effect.get()))?;
    Ok(decision)
}

fn fault_in(effect: &Effect) -> Option<FaultKind>
    ensures { MatchOption result (NoFault effect.now) (λ k. effect.now ≡ Effect.Fault k) }
{
    match effect {
        Effect::Fault(fault) => Some(*fault),
        _ => None,
    }
}

fn fault_of(decision: &Decision) -> Option<FaultKind>
    ensures { MatchOption result (NoFault decision.now.effect) (λ k. decision.now.effect ≡ Effect.Fault k) }
{
    fault_in(decision.effect.get())
}

// Drops what was decided.
fn let_go(_decision: Decision) {}

/// A step of the newest frame.
fn go_on(core: &mut Core, script: &[Entry], events: &mut Vec<Event>) -> Step
    requires goes { core.old.course ≡ Course.Goes }
    requires rests { IsTrue (is_resting core.old.course (last_of core.old.frames.items)) }
    requires some { 0 < vec_len core.old.frames }
    ensures step { IsStep (fixed core.old) (parts_of core.old) script.now events.old.items result (parts_of core.new) events.new.items }
    ensures fixed { fixed core.new ≡ fixed core.old }
    ensures rests { IsTrue (is_resting core.new.course (last_of core.new.frames.items)) }
{
    let begun = core.begun;
    let taken = core.taken;
    let Some(top) = core.frames.pop() else {
        return Step::Memory;
    };
    let Ok(decision) = prepare(core, &top, script, events, begun, taken) else {
        put(&mut core.frames, top);
        return Step::Memory;
    };
    match fault_of(&decision) {
        Some(fault) => {
            let_go(decision);
            put(&mut core.frames, top);
            Step::Fault(fault)
        }
        None => {
            complete(core, events, top, decision);
            Step::Went
        }
    }
}

/// The outside's move where no function runs, and the number of entries that are taken with it.
#[derive(Drop)]
struct First {
    turn: Turn,
    taken: usize,
}

fn first_move(core: &Core, script: &[Entry]) -> Result<First, OutOfMemory>
    ensures { IfOk result (λ m. IsFirst (fixed core.now) (parts_of core.now) script.now m.taken m.turn) }
{
    let stage = stage(core, core.begun);
    let first = idle_go(&stage, script, core.taken)?;
    Ok(First {
        turn: first.turn.into_inner(),
        taken: first.taken,
    })
}

// Drops what isn't begun after all.
fn let_start_go(_event: Event, _frame: Activation) {}

/// A step that begins with a frame where none runs, with its event.
fn begin_with(
    core: &mut Core,
    script: &[Entry],
    events: &mut Vec<Event>,
    event: Event,
    frame: Activation,
    begun: usize,
    taken: usize,
) -> Step
    requires goes { core.old.course ≡ Course.Goes }
    requires empty { core.old.frames.items ≡ [] }
    requires starts { Starts (fixed core.old) (parts_of core.old) script.now events.old.items event frame begun taken }
    ensures step { IsStep (fixed core.old) (parts_of core.old) script.now events.old.items result (parts_of core.new) events.new.items }
    ensures fixed { fixed core.new ≡ fixed core.old }
    ensures rests { IsTrue (is_resting core.new.course (last_of core.new.frames.items)) }
{
    let Ok(decision) = prepare(core, &frame, script, events, begun, taken) else {
        let_start_go(event, frame);
        return Step::Memory;
    };
    match fault_of(&decision) {
        Some(fault) => {
            let_go(decision);
            let_start_go(event, frame);
            Step::Fault(fault)
        }
        None => {
            core.begun = begun;
            core.taken = taken;
            put(events, event);
            complete(core, events, frame, decision);
            Step::Went
        }
    }
}

/// Ends the run, once so many entries are taken.
fn end(core: &mut Core, events: &mut Vec<Event>, taken: usize) -> Result<(), OutOfMemory>
    ensures parts { parts_of core.new ≡ (if is_ok result then moved_on taken Turn.End (parts_of core.old) else parts_of core.old) }
    ensures events { events.new.items ≡ (if is_ok result then events.old.items ++ Event.End ∷ [] else events.old.items) }
    ensures fixed { fixed core.new ≡ fixed core.old }
{
    events.push(Event::End)?;
    core.taken = taken;
    core.course = Course::Ended;
    Ok(())
}

/// The step in which the run ends, once so many entries are taken.
fn end_run(core: &mut Core, events: &mut Vec<Event>, taken: usize) -> Step
    requires { IsTrue (is_resting core.old.course (last_of core.old.frames.items)) }
    ensures step { (script : List Entry) → Ends (fixed core.old) (parts_of core.old) script events.old.items taken → IsStep (fixed core.old) (parts_of core.old) script events.old.items result (parts_of core.new) events.new.items }
    ensures fixed { fixed core.new ≡ fixed core.old }
    ensures rests { IsTrue (is_resting core.new.course (last_of core.new.frames.items)) }
{
    match end(core, events, taken) {
        Ok(()) => Step::Ended,
        Err(_) => Step::Memory,
    }
}

/// A step where no function runs.
fn start(core: &mut Core, script: &[Entry], events: &mut Vec<Event>) -> Step
    requires goes { core.old.course ≡ Course.Goes }
    requires empty { core.old.frames.items ≡ [] }
    ensures step { IsStep (fixed core.old) (parts_of core.old) script.now events.old.items result (parts_of core.new) events.new.items }
    ensures fixed { fixed core.new ≡ fixed core.old }
    ensures rests { IsTrue (is_resting core.new.course (last_of core.new.frames.items)) }
{
    let Ok(first) = first_move(core, script) else {
        return Step::Memory;
    };
    let First { turn, taken } = first;
    match turn {
        Turn::Begin(name, begun, frame) => {
            begin_with(core, script, events, Event::Init(name), frame, begun, taken)
        }
        Turn::Enter(callee, args, frame) => {
            let begun = core.begun;
            let event = Event::Enter(callee, args);
            begin_with(core, script, events, event, frame, begun, taken)
        }
        Turn::End => end_run(core, events, taken),
        Turn::Nothing => unreachable!(),
        Turn::Stop => unreachable!(),
        Turn::Answer(_, _, _) => unreachable!(),
    }
}

/// One step.
pub fn step(core: &mut Core, script: &[Entry], events: &mut Vec<Event>) -> Step
    requires { IsTrue (is_resting core.old.course (last_of core.old.frames.items)) }
    ensures step { IsStep (fixed core.old) (parts_of core.old) script.now events.old.items result (parts_of core.new) events.new.items }
    ensures fixed { fixed core.new ≡ fixed core.old }
    ensures rests { IsTrue (is_resting core.new.course (last_of core.new.frames.items)) }
{
    match core.course {
        Course::Ended => Step::Ended,
        Course::Stopped => Step::Stopped,
        Course::Failed => {
            let taken = core.taken;
            end_run(core, events, taken)
        }
        Course::Goes => {
            if core.frames.is_empty() {
                start(core, script, events)
            } else {
                go_on(core, script, events)
            }
        }
    }
}
