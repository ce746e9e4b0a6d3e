//! What a statement comes to.
use sqlite_items::Items;
use thin_look::parts::Activation;
use thin_state::{ApiRow, Event, FaultKind, Obj, Op, Place, Value, Variable};

/// What a statement comes to. The objects that it lends come last, the newest of them first.
#[derive(Drop)]
pub enum Effect {
    Fault(FaultKind),
    /// a variable gets a value
    Write(Variable, Value, Items<Obj>),
    /// a place gets a value; what the frame then owns
    Store(Place, Value, Items<Obj>, Items<Obj>),
    /// an operation is asked, and the event that says so
    Ask(Op, ApiRow, Option<Variable>, Event),
    /// a function is entered, whose result goes to the variable
    Call(Activation, Option<Variable>, Items<Obj>),
    /// what the frame owns after an increment
    Gain(Items<Obj>, Items<Obj>),
    /// a decrement
    Lose(Obj),
    /// a jump to a line, or to the next
    Jump(Option<usize>, Items<Obj>),
    /// a result goes to a variable of the caller; what the caller then owns
    Hand(Option<Variable>, Value, Items<Obj>, Items<Obj>),
    /// a result goes to the outside
    Leave(Obj, Items<Obj>),
    /// an exception goes to the outside, from an initialisation or not
    LeaveRaise(Obj, bool, Items<Obj>),
}
