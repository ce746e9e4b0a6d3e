//! Script entries.
use crate::info::Info;
use crate::object::{Allocation, Callee, ClassName, MemberPath, Obj};
use sqlite_items::Items;

/// One entry of a script. `Set` has the instance and then the value; a destroyed instance is named by its number.
#[derive(Drop)]
pub enum Entry {
    OkNode(Obj),
    Num(i128),
    Raise(Obj),
    Missing,
    Made,
    View(Info),
    Enter(Callee, Items<Obj>),
    New(ClassName, Allocation),
    Get(MemberPath, Obj),
    Set(MemberPath, Obj, Obj),
    Unset(MemberPath, Obj),
    Die(u32),
}
