//! The moves of the outside.
use c_token::Bytes;
use sqlite_items::Items;
use thin_look::parts::Activation;
use thin_state::{Answer, Callee, Obj, Variable};

/// How an answer reaches the frame that asked.
#[derive(Drop)]
pub enum Delivery {
    /// a new reference; what the frame then owns
    New(Items<Obj>, Obj),
    Raised(Obj),
    /// a borrowed reference, and its loan
    Borrowed(Obj, Obj),
    SetsError(Obj),
}

/// A move of the outside.
#[derive(Drop)]
pub enum Turn {
    Nothing,
    Stop,
    End,
    Answer(Answer, Option<Variable>, Delivery),
    Enter(Callee, Items<Obj>, Activation),
    /// with the number of the next file that may begin
    Begin(Bytes, usize, Activation),
}
