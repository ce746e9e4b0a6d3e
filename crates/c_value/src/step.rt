/// What a statement does that a program may not do. Where several are met, the first in this order counts.
/// The project's own.
#[derive(Clone, Copy, Debug, PartialEq, Eq)]
pub enum FaultKind {
    /// the statement names what isn't there, or its operands don't fit
    Stuck,
    /// a field, table or `tp_free` of what isn't an instance with that struct
    BadField,
    /// an element access at no element place of its view, or of another type
    OutOfView,
    /// arithmetic that C leaves undefined, or a variable without a value is read
    Undefined,
    /// what needs the lock is done without it, or the lock isn't as it was at the function's entry
    Unlocked,
    /// what needs that no exception is set is done with one set
    ErrorSet,
    /// a failure without an exception, or an exception set over another
    ErrorLost,
    /// an object is used, or given away, that the function doesn't hold
    Unheld,
    /// a return with other references than the result, or an instance freed that still holds some
    Unbalanced,
}

/// What a step comes to.
#[derive(Clone, Copy, Debug, PartialEq, Eq)]
pub enum Step {
    Went,
    Ended,
    Stopped,
    Fault(FaultKind),
    Memory,
}
