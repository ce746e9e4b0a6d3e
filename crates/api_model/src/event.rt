//! Trace lines.
use crate::object::{Allocation, Callee, ClassName, MemberPath, Obj};
use crate::op::{Answer, Op};
use c_token::Bytes;
use cy_num::CNum;
use sqlite_items::Items;

/// One line of a trace. `Get` and `Put` have the view, the byte place from the start of its buffer, the element's
/// type and its value, `Item` the list, the place in it and the item.
#[derive(Drop)]
pub enum Event {
    Init(Bytes),
    Ask(Op),
    Answer(Answer),
    Enter(Callee, Items<Obj>),
    EnterNew(ClassName, Allocation),
    EnterGet(MemberPath, Obj),
    EnterSet(MemberPath, Obj, Obj),
    EnterUnset(MemberPath, Obj),
    Leave(Obj),
    LeaveNum(i128),
    LeaveRaise(Obj),
    Save,
    Restore,
    Get(u32, i128, CNum, i128),
    Put(u32, i128, CNum, i128),
    Item(Obj, i128, Obj),
    End,
    Stop,
}
