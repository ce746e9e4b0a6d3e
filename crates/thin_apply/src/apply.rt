//! Effects and turns, once nothing can fail: the memory is there before.
ghost use Rattle.std.specs.Prelude.{◌≡◌, ◌∷◌, ◌++◌, [], ◌+◌, ◌<◌, ◌≤◌, length, reverse, Some, None, vec_len, vec_capacity};
ghost use Rattle.thin_plan.specs.Effects.{course_after};
ghost use Rattle.thin_state.specs.State.{put, put_to, put_spot, spots_at, set_spots};
ghost use Rattle.thin_apply.specs.Applied.{parts_of, fixed, above, lent_to, on_last, stored, given, applied, effect_events, lends_of, answered_to, runs, delivered_in, moved_on, turn_events};

use crate::parts::Core;
use sqlite_items::Items;
use thin_ledger::lose;
use thin_look::operands::same_place;
use thin_look::parts::Activation;
use thin_plan::effects::Effect;
use thin_state::{ApiRow, Course, Doing, Event, Obj, Op, Place, Spot, Value, Variable};
use thin_tables::{Cells, converted};
use thin_turn::parts::{Delivery, Turn};

/// Puts an item at the end, where there is room for it.
pub fn put<T: Drop>(items: &mut Vec<T>, item: T)
    requires { vec_len items.old < vec_capacity items.old }
    ensures items { items.new.items ≡ items.old.items ++ item ∷ [] }
    ensures len { vec_len items.new ≡ vec_len items.old + 1 }
    ensures capacity { vec_capacity items.old ≤ vec_capacity items.new }
{
    match items.push(item) {
        Ok(()) => {}
        Err(_) => {}
    }
}

/// Puts the objects at the end, the last of them first.
fn put_all(loans: &mut Vec<Obj>, lent: Items<Obj>)
    requires { vec_len loans.old + length lent ≤ vec_capacity loans.old }
    ensures items { loans.new.items ≡ loans.old.items ++ reverse lent }
    ensures len { vec_len loans.new ≡ vec_len loans.old + length lent }
    ensures capacity { vec_capacity loans.old ≤ vec_capacity loans.new }
{
    let mut lent = lent;
    while let Some(object) = lent.pop() {
        put(loans, object);
    }
}

fn put_result(cells: &mut Cells, x: Option<Variable>, value: Value)
    ensures { cells.new ≡ put_to cells.old x value }
{
    if let Some(x) = x {
        cells.put(x, value);
    }
}

/// A value for the first place of that name.
fn put_spot(spots: &mut Items<Spot>, place: Place, value: Value)
    ensures { spots.new ≡ put_spot spots.old place value }
{
    for i in 0..spots.len() {
        let spot = &spots.as_slice()[i];
        let (name, kind) = (spot.place, spot.kind);
        if same_place(name, place) {
            let value = converted(kind, value);
            spots.set(
                i,
                Spot {
                    place: name,
                    kind,
                    value,
                    stored: true,
                },
            );
            return;
        }
    }
}

fn store_in(places: &mut Vec<Items<Spot>>, file: usize, place: Place, value: Value)
    ensures { places.new.items ≡ set_spots places.old.items file (put_spot (spots_at places.old.items file) place value) }
{
    if file < places.len() {
        put_spot(&mut places[file], place, value);
    }
}

fn write(core: &mut Core, top: Activation, x: Variable, value: Value, lent: Items<Obj>)
    requires frames_room { vec_len core.old.frames + 1 ≤ vec_capacity core.old.frames }
    requires loans_room { vec_len core.old.loans + length lent ≤ vec_capacity core.old.loans }
    ensures parts { parts_of core.new ≡ applied (parts_of core.old) top (Effect.Write x value lent) }
    ensures fixed { fixed core.new ≡ fixed core.old }
    ensures frames { vec_len core.new.frames ≤ vec_len core.old.frames + 1 }
    ensures frames_capacity { vec_capacity core.old.frames ≤ vec_capacity core.new.frames }
    ensures loans { vec_len core.new.loans ≤ vec_len core.old.loans + length lent }
    ensures loans_capacity { vec_capacity core.old.loans ≤ vec_capacity core.new.loans }
{
    let mut top = top;
    top.variables.put(x, value);
    put_all(&mut core.loans, lent);
    put(&mut core.frames, top);
}

fn store(
    core: &mut Core,
    top: Activation,
    place: Place,
    value: Value,
    own: Items<Obj>,
    lent: Items<Obj>,
)
    requires frames_room { vec_len core.old.frames + 1 ≤ vec_capacity core.old.frames }
    requires loans_room { vec_len core.old.loans + length lent ≤ vec_capacity core.old.loans }
    ensures parts { parts_of core.new ≡ applied (parts_of core.old) top (Effect.Store place value own lent) }
    ensures fixed { fixed core.new ≡ fixed core.old }
    ensures frames { vec_len core.new.frames ≤ vec_len core.old.frames + 1 }
    ensures frames_capacity { vec_capacity core.old.frames ≤ vec_capacity core.new.frames }
    ensures loans { vec_len core.new.loans ≤ vec_len core.old.loans + length lent }
    ensures loans_capacity { vec_capacity core.old.loans ≤ vec_capacity core.new.loans }
{
    let mut top = top;
    top.own = own;
    store_in(&mut core.places, top.file, place, value);
    put_all(&mut core.loans, lent);
    put(&mut core.frames, top);
}

fn call(
    core: &mut Core,
    top: Activation,
    entered: Activation,
    to: Option<Variable>,
    lent: Items<Obj>,
)
    requires frames_room { vec_len core.old.frames + 2 ≤ vec_capacity core.old.frames }
    requires loans_room { vec_len core.old.loans + length lent ≤ vec_capacity core.old.loans }
    ensures parts { parts_of core.new ≡ applied (parts_of core.old) top (Effect.Call entered to lent) }
    ensures fixed { fixed core.new ≡ fixed core.old }
    ensures frames { vec_len core.new.frames ≤ vec_len core.old.frames + 2 }
    ensures frames_capacity { vec_capacity core.old.frames ≤ vec_capacity core.new.frames }
    ensures loans { vec_len core.new.loans ≤ vec_len core.old.loans + length lent }
    ensures loans_capacity { vec_capacity core.old.loans ≤ vec_capacity core.new.loans }
{
    let mut top = top;
    let mut entered = entered;
    top.doing = Doing::Waits(to);
    entered.doing = Doing::Runs;
    put_all(&mut core.loans, lent);
    put(&mut core.frames, top);
    put(&mut core.frames, entered);
}

fn gain(core: &mut Core, top: Activation, own: Items<Obj>, lent: Items<Obj>)
    requires frames_room { vec_len core.old.frames + 1 ≤ vec_capacity core.old.frames }
    requires loans_room { vec_len core.old.loans + length lent ≤ vec_capacity core.old.loans }
    ensures parts { parts_of core.new ≡ applied (parts_of core.old) top (Effect.Gain own lent) }
    ensures fixed { fixed core.new ≡ fixed core.old }
    ensures frames { vec_len core.new.frames ≤ vec_len core.old.frames + 1 }
    ensures frames_capacity { vec_capacity core.old.frames ≤ vec_capacity core.new.frames }
    ensures loans { vec_len core.new.loans ≤ vec_len core.old.loans + length lent }
    ensures loans_capacity { vec_capacity core.old.loans ≤ vec_capacity core.new.loans }
{
    let mut top = top;
    top.own = own;
    put_all(&mut core.loans, lent);
    put(&mut core.frames, top);
}

fn decrement(core: &mut Core, top: Activation, object: &Obj)
    requires frames_room { vec_len core.old.frames + 1 ≤ vec_capacity core.old.frames }
    ensures parts { parts_of core.new ≡ applied (parts_of core.old) top (Effect.Lose object.now) }
    ensures fixed { fixed core.new ≡ fixed core.old }
    ensures frames { vec_len core.new.frames ≤ vec_len core.old.frames + 1 }
    ensures frames_capacity { vec_capacity core.old.frames ≤ vec_capacity core.new.frames }
    ensures loans { vec_len core.new.loans ≤ vec_len core.old.loans }
    ensures loans_capacity { vec_capacity core.old.loans ≤ vec_capacity core.new.loans }
{
    let mut top = top;
    lose(&mut top.own, object);
    core.loans.clear();
    put(&mut core.frames, top);
}

fn jump(core: &mut Core, top: Activation, line: Option<usize>, lent: Items<Obj>)
    requires frames_room { vec_len core.old.frames + 1 ≤ vec_capacity core.old.frames }
    requires loans_room { vec_len core.old.loans + length lent ≤ vec_capacity core.old.loans }
    ensures parts { parts_of core.new ≡ applied (parts_of core.old) top (Effect.Jump line lent) }
    ensures fixed { fixed core.new ≡ fixed core.old }
    ensures frames { vec_len core.new.frames ≤ vec_len core.old.frames + 1 }
    ensures frames_capacity { vec_capacity core.old.frames ≤ vec_capacity core.new.frames }
    ensures loans { vec_len core.new.loans ≤ vec_len core.old.loans + length lent }
    ensures loans_capacity { vec_capacity core.old.loans ≤ vec_capacity core.new.loans }
{
    let mut top = top;
    if let Some(line) = line {
        top.line = line;
    }
    put_all(&mut core.loans, lent);
    put(&mut core.frames, top);
}

fn ask(core: &mut Core, top: Activation, op: Op, row: ApiRow, to: Option<Variable>)
    requires frames_room { vec_len core.old.frames + 1 ≤ vec_capacity core.old.frames }
    ensures parts { parts_of core.new ≡ above (record top { doing = Doing.Asks op row to }) (record (parts_of core.old) { loans = [] }) }
    ensures fixed { fixed core.new ≡ fixed core.old }
    ensures frames { vec_len core.new.frames ≤ vec_len core.old.frames + 1 }
    ensures frames_capacity { vec_capacity core.old.frames ≤ vec_capacity core.new.frames }
    ensures loans { vec_len core.new.loans ≤ vec_len core.old.loans }
    ensures loans_capacity { vec_capacity core.old.loans ≤ vec_capacity core.new.loans }
{
    let mut top = top;
    top.doing = Doing::Asks(op, row, to);
    let loans = &mut core.loans;
    loans.clear();
    put(&mut core.frames, top);
}

#[tactic(auto, using(crate::proofs::Puts::lasts))]
/// The newest frame runs on; what it owns, and where the value goes.
fn give(frames: &mut Vec<Activation>, to: Option<Variable>, value: Value, own: Items<Obj>)
    ensures items { frames.new.items ≡ on_last (given to value own) frames.old.items }
    ensures len { vec_len frames.new ≡ vec_len frames.old }
    ensures capacity { vec_capacity frames.old ≤ vec_capacity frames.new }
{
    if let Some(newest) = frames.pop() {
        let mut newest = newest;
        newest.doing = Doing::Runs;
        newest.own = own;
        put_result(&mut newest.variables, to, value);
        put(frames, newest);
    }
}

fn hand(core: &mut Core, to: Option<Variable>, value: Value, own: Items<Obj>, lent: Items<Obj>)
    requires loans_room { vec_len core.old.loans + length lent ≤ vec_capacity core.old.loans }
    ensures parts { parts_of core.new ≡ lent_to lent (record (parts_of core.old) { frames = on_last (given to value own) core.old.frames.items }) }
    ensures fixed { fixed core.new ≡ fixed core.old }
    ensures frames { vec_len core.new.frames ≤ vec_len core.old.frames }
    ensures frames_capacity { vec_capacity core.old.frames ≤ vec_capacity core.new.frames }
    ensures loans { vec_len core.new.loans ≤ vec_len core.old.loans + length lent }
    ensures loans_capacity { vec_capacity core.old.loans ≤ vec_capacity core.new.loans }
{
    give(&mut core.frames, to, value, own);
    put_all(&mut core.loans, lent);
}

fn leave(core: &mut Core, lent: Items<Obj>)
    requires loans_room { vec_len core.old.loans + length lent ≤ vec_capacity core.old.loans }
    ensures parts { parts_of core.new ≡ lent_to lent (parts_of core.old) }
    ensures fixed { fixed core.new ≡ fixed core.old }
    ensures frames { vec_len core.new.frames ≤ vec_len core.old.frames }
    ensures frames_capacity { vec_capacity core.old.frames ≤ vec_capacity core.new.frames }
    ensures loans { vec_len core.new.loans ≤ vec_len core.old.loans + length lent }
    ensures loans_capacity { vec_capacity core.old.loans ≤ vec_capacity core.new.loans }
{
    put_all(&mut core.loans, lent);
}

fn leave_raise(core: &mut Core, failed: bool, lent: Items<Obj>)
    requires loans_room { vec_len core.old.loans + length lent ≤ vec_capacity core.old.loans }
    ensures parts { parts_of core.new ≡ record (lent_to lent (parts_of core.old)) { error = None; course = course_after failed core.old.course } }
    ensures fixed { fixed core.new ≡ fixed core.old }
    ensures frames { vec_len core.new.frames ≤ vec_len core.old.frames }
    ensures frames_capacity { vec_capacity core.old.frames ≤ vec_capacity core.new.frames }
    ensures loans { vec_len core.new.loans ≤ vec_len core.old.loans + length lent }
    ensures loans_capacity { vec_capacity core.old.loans ≤ vec_capacity core.new.loans }
{
    put_all(&mut core.loans, lent);
    core.error = None;
    if failed {
        core.course = Course::Failed;
    }
}

/// What an effect changes, and its event.
pub fn apply_effect(core: &mut Core, events: &mut Vec<Event>, top: Activation, effect: Effect)
    requires frames_room { vec_len core.old.frames + 2 ≤ vec_capacity core.old.frames }
    requires loans_room { vec_len core.old.loans + lends_of effect ≤ vec_capacity core.old.loans }
    requires events_room { vec_len events.old < vec_capacity events.old }
    ensures parts { parts_of core.new ≡ applied (parts_of core.old) top effect }
    ensures fixed { fixed core.new ≡ fixed core.old }
    ensures frames { vec_len core.new.frames ≤ vec_len core.old.frames + 2 }
    ensures frames_capacity { vec_capacity core.old.frames ≤ vec_capacity core.new.frames }
    ensures loans { vec_len core.new.loans ≤ vec_len core.old.loans + lends_of effect }
    ensures loans_capacity { vec_capacity core.old.loans ≤ vec_capacity core.new.loans }
    ensures events { events.new.items ≡ events.old.items ++ effect_events effect }
    ensures events_len { vec_len events.new ≤ vec_len events.old + 1 }
    ensures events_capacity { vec_capacity events.old ≤ vec_capacity events.new }
{
    match effect {
        Effect::Fault(_) => put(&mut core.frames, top),
        Effect::Write(x, value, lent) => write(core, top, x, value, lent),
        Effect::Store(place, value, own, lent) => store(core, top, place, value, own, lent),
        Effect::Ask(op, row, to, event) => {
            put(events, event);
            ask(core, top, op, row, to);
        }
        Effect::Call(entered, to, lent) => call(core, top, entered, to, lent),
        Effect::Gain(own, lent) => gain(core, top, own, lent),
        Effect::Lose(object) => decrement(core, top, &object),
        Effect::Jump(line, lent) => jump(core, top, line, lent),
        Effect::Hand(to, value, own, lent) => hand(core, to, value, own, lent),
        Effect::Leave(object, lent) => {
            put(events, Event::Leave(object));
            leave(core, lent);
        }
        Effect::LeaveRaise(error, failed, lent) => {
            put(events, Event::LeaveRaise(error));
            leave_raise(core, failed, lent);
        }
    }
}

#[tactic(auto, using(crate::proofs::Puts::lasts))]
fn give_value(frames: &mut Vec<Activation>, to: Option<Variable>, value: Value)
    ensures items { frames.new.items ≡ on_last (answered_to to value) frames.old.items }
    ensures len { vec_len frames.new ≡ vec_len frames.old }
    ensures capacity { vec_capacity frames.old ≤ vec_capacity frames.new }
{
    if let Some(newest) = frames.pop() {
        let mut newest = newest;
        newest.doing = Doing::Runs;
        put_result(&mut newest.variables, to, value);
        put(frames, newest);
    }
}

#[tactic(auto, using(crate::proofs::Puts::lasts))]
fn run_on(frames: &mut Vec<Activation>)
    ensures items { frames.new.items ≡ on_last runs frames.old.items }
    ensures len { vec_len frames.new ≡ vec_len frames.old }
    ensures capacity { vec_capacity frames.old ≤ vec_capacity frames.new }
{
    if let Some(newest) = frames.pop() {
        let mut newest = newest;
        newest.doing = Doing::Runs;
        put(frames, newest);
    }
}

/// An answer reaches the frame that asked.
fn deliver(core: &mut Core, to: Option<Variable>, delivery: Delivery)
    requires { vec_len core.old.loans < vec_capacity core.old.loans }
    ensures parts { parts_of core.new ≡ delivered_in to delivery (parts_of core.old) }
    ensures fixed { fixed core.new ≡ fixed core.old }
{
    match delivery {
        Delivery::New(own, object) => give(&mut core.frames, to, Value::Object(object), own),
        Delivery::Raised(error) => {
            give_value(&mut core.frames, to, Value::Null);
            core.error = Some(error);
        }
        Delivery::Borrowed(object, loan) => {
            give_value(&mut core.frames, to, Value::Object(object));
            put(&mut core.loans, loan);
        }
        Delivery::SetsError(error) => {
            run_on(&mut core.frames);
            core.error = Some(error);
        }
    }
}

fn begin(core: &mut Core, begun: usize, frame: Activation)
    requires { vec_len core.old.frames < vec_capacity core.old.frames }
    ensures parts { parts_of core.new ≡ record (parts_of core.old) { begun = begun; frames = frame ∷ [] } }
    ensures fixed { fixed core.new ≡ fixed core.old }
{
    core.begun = begun;
    core.frames.clear();
    put(&mut core.frames, frame);
}

/// What a turn changes, and its event.
pub fn apply_turn(core: &mut Core, events: &mut Vec<Event>, turn: Turn, taken: usize)
    requires frames_room { vec_len core.old.frames < vec_capacity core.old.frames }
    requires loans_room { vec_len core.old.loans < vec_capacity core.old.loans }
    requires events_room { vec_len events.old < vec_capacity events.old }
    ensures parts { parts_of core.new ≡ moved_on taken turn (parts_of core.old) }
    ensures fixed { fixed core.new ≡ fixed core.old }
    ensures events { events.new.items ≡ events.old.items ++ turn_events turn }
{
    core.taken = taken;
    match turn {
        Turn::Nothing => {}
        Turn::Stop => {
            put(events, Event::Stop);
            core.course = Course::Stopped;
        }
        Turn::End => {
            put(events, Event::End);
            core.course = Course::Ended;
        }
        Turn::Answer(answer, to, delivery) => {
            put(events, Event::Answer(answer));
            deliver(core, to, delivery);
        }
        Turn::Enter(callee, args, frame) => {
            put(events, Event::Enter(callee, args));
            put(&mut core.frames, frame);
        }
        Turn::Begin(name, begun, frame) => {
            put(events, Event::Init(name));
            begin(core, begun, frame);
        }
    }
}
