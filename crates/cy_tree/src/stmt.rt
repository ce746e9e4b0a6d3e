use crate::decl::ImportItem;
use crate::expr::Expr;
use crate::types::{Ident, TypeNode};
use sqlite_items::{Boxed, Items};

/// The operators of augmented assignments (Python language reference, 7.2.1).
#[derive(Clone, Copy, Debug, PartialEq, Eq)]
pub enum AugOp {
    Add,
    Subtract,
    Multiply,
    Divide,
    FloorDivide,
    Remainder,
    LeftShift,
    RightShift,
    BitAnd,
    BitOr,
    BitXor,
}

/// `nogil` and `gil` behind `with` (Cython documentation, "Cython and the GIL").
#[derive(Clone, Copy, Debug, PartialEq, Eq)]
pub enum LockWord {
    Nogil,
    Gil,
}

/// `NAME`, or `NAME = value` (Cython documentation, "Declaring C variables").
#[derive(Drop)]
pub struct Declared {
    pub name: Ident,
    pub value: Option<Expr>,
}

/// A simple statement (Python language reference, 7; `cdef` is Cython's). The first number of a variant is
/// the first byte of its first word; that of an assignment is that of its first target.
#[derive(Drop)]
pub enum Simple {
    Pass(u32),
    Break(u32),
    Continue(u32),
    ReturnNode(u32, Option<Expr>),
    Raise(u32, Option<Expr>),
    Del(u32, Items<Expr>),
    Global(u32, Items<Ident>),
    Import(u32, Items<ImportItem>),
    FromImport(u32, Ident, Items<ImportItem>),
    Cdef(u32, Option<TypeNode>, Items<Declared>),
    Expression(Expr),
    /// the target, the operator and its first byte, the operand
    Augmented(Expr, AugOp, u32, Expr),
    /// the targets from left to right, and the value
    Assign(Items<Expr>, Expr),
}

/// Simple statements on one line.
#[derive(Drop)]
pub struct Line {
    pub simples: Items<Simple>,
}

/// A statement (Python language reference, 8; `with nogil` and `with gil` are Cython's). A compound one has
/// the first byte of its word.
#[cycle(statements)]
#[derive(Drop)]
pub enum Stmt {
    Simples(Line),
    /// the arm of `if`, those of `elif`, and the suite of `else`
    IfNode(u32, Items<Arm>, Option<Boxed<Suite>>),
    WhileNode(u32, Expr, Boxed<Suite>, Option<Boxed<Suite>>),
    /// the target, what is gone over, the suite, and that of `else`
    ForNode(u32, Expr, Expr, Boxed<Suite>, Option<Boxed<Suite>>),
    /// the suite, the handlers, the suite of `else`, and that of `finally`
    Try(u32, Boxed<Suite>, Items<Handler>, Option<Boxed<Suite>>, Option<Boxed<Suite>>),
    With(u32, LockWord, Boxed<Suite>),
}

/// What stands behind a colon: simple statements on its line, or an indented block.
#[cycle(statements)]
#[derive(Drop)]
pub enum Suite {
    Inline(Line),
    Block(Items<Stmt>),
}

/// `if test: suite`, or the same with `elif`.
#[cycle(statements)]
#[derive(Drop)]
pub struct Arm {
    pub at: u32,
    pub test: Expr,
    pub body: Boxed<Suite>,
}

/// `except: suite`, `except type: suite` or `except type as name: suite`.
#[cycle(statements)]
#[derive(Drop)]
pub struct Handler {
    pub at: u32,
    pub kind: Option<Expr>,
    pub name: Option<Ident>,
    pub body: Boxed<Suite>,
}
