//! C trees: what the written files hold, and how each tree is spelled as C tokens. A tree has what its text says, and
//! nothing else; its names are structured, so that none outside the profile can be built.
#![tactic(auto)]

mod item;
mod name;
mod statement;
mod value;

pub use item::{
    Base, CFile, CFunction, CHead, CItem, Declaration, InitialValue, Line, MethodRow, Parameter,
    PropertyRow, Slot, StructTable, TableBase, TypeObject,
};
pub use name::{FieldNumber, FixedParameter, FunctionName, Numbered, Place, TableName, Variable};
pub use statement::{
    Argument, BinaryOp, CStmt, CTest, Callee, Extent, FieldPlace, ViewNumber, ViewPlace,
};
pub use value::{CResult, CType, CValue, Literal};
