//! C trees of the profile, the object space, and the machine that runs such C over a script.
#![tactic(auto)]

mod space;
mod state;
mod tree;

pub use space::{
    Allocation, Answer, BinaryOp, Callee, ClassName, Entry, Event, FunctionPath, Info, MemberPath,
    Obj, Op,
};
pub use state::{Cell, Course, Doing, Entered, FaultKind, Kind, Reading, Spot, Step, Value};
pub use tree::{
    ApiRow, CFile, CFunction, CHead, CItem, CStmt, CType, CValue, Comparison, Declaration,
    FunctionName, InitialValue, Line, MethodRow, Parameter, Place, Target, Variable,
};
