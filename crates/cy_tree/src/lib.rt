//! The syntax trees of both kinds of files, their types, and the numbers of their nodes.
#![tactic(auto)]

mod content;
mod decl;
mod expr;
mod file;
mod laws;
mod node;
mod set;
mod stmt;
#[cfg(test)]
mod tests;
mod ty;
mod types;

pub use content::Content;
pub use decl::{
    Access, CFunction, CKind, Cimport, Class, ClassBase, ClauseNode, Def, Header, Heading,
    ImportItem, Member, Param, PxdClass, PxdItem, PxdMember, Top, Variables,
};
pub use expr::{
    Comparison, Expr, Index, Operand, Pair, Part, ShiftOp, ShiftOperand, SumOp, SumOperand, TermOp,
    TermOperand, UnaryOp,
};
pub use file::FileTree;
pub use laws::{
    a_number_is_that_of_one_node, children_follow_in_order, nodes_count_themselves_and_those_inside,
};
pub use node::Node;
pub use set::{
    ModuleFiles, NameKind, NamedSet, NodeId, NodeInfo, ParsedFile, Scope, ScopeId, SourceSet,
    TypedSet,
};
pub use stmt::{Arm, AugOp, Declared, Handler, Line, LockWord, Simple, Stmt, Suite};
pub use ty::{ClassId, Clause, Coercion, FnId, Signature, Ty, ViewTy};
pub use types::{Dim, Ident, NumberWords, TypeName, TypeNode};
