use crate::types::{Ident, TypeNode};
use cy_base::Text;
use sqlite_items::{Boxed, Items};

/// The operators of `cmp` (Python language reference, 6.10).
#[derive(Clone, Copy, Debug, PartialEq, Eq)]
pub enum Comparison {
    Less,
    LessEqual,
    Equal,
    NotEqual,
    Greater,
    GreaterEqual,
    Is,
    IsNot,
    In,
    NotIn,
}

/// `<<` and `>>` (Python language reference, 6.8).
#[derive(Clone, Copy, Debug, PartialEq, Eq)]
pub enum ShiftOp {
    Left,
    Right,
}

/// `+` and `-` (Python language reference, 6.7).
#[derive(Clone, Copy, Debug, PartialEq, Eq)]
pub enum SumOp {
    Add,
    Subtract,
}

/// `*`, `/`, `//` and `%` (Python language reference, 6.7).
#[derive(Clone, Copy, Debug, PartialEq, Eq)]
pub enum TermOp {
    Multiply,
    Divide,
    FloorDivide,
    Remainder,
}

/// `-`, `+` and `~` before their operand (Python language reference, 6.6).
#[derive(Clone, Copy, Debug, PartialEq, Eq)]
pub enum UnaryOp {
    Negate,
    Plus,
    Invert,
}

/// An expression (Python language reference, 6; casts are Cython's). The first number of a variant is its
/// first byte. A level, as a sum, has two operands or more; with one it is the operand itself.
#[cycle(expressions)]
#[derive(Drop)]
pub enum Expr {
    /// `value if test else otherwise`
    Conditional(u32, Boxed<Expr>, Boxed<Expr>, Boxed<Expr>),
    Or(u32, Items<Expr>),
    And(u32, Items<Expr>),
    Not(u32, Boxed<Expr>),
    /// the left operand, the operator and its first byte, the right operand
    Compare(u32, Boxed<Expr>, Comparison, u32, Boxed<Expr>),
    BitOr(u32, Boxed<Expr>, Items<Operand>),
    BitXor(u32, Boxed<Expr>, Items<Operand>),
    BitAnd(u32, Boxed<Expr>, Items<Operand>),
    Shift(u32, Boxed<Expr>, Items<ShiftOperand>),
    Sum(u32, Boxed<Expr>, Items<SumOperand>),
    Term(u32, Boxed<Expr>, Items<TermOperand>),
    Unary(u32, UnaryOp, Boxed<Expr>),
    /// `<T>e`, and `<T?>e` where it is checked
    Cast(u32, TypeNode, bool, Boxed<Expr>),
    Postfix(u32, Boxed<Expr>, Items<Part>),
    Name(Ident),
    Int(u32, u128),
    /// adjacent strings, joined
    Str(u32, Text),
    NoneNode(u32),
    TrueNode(u32),
    FalseNode(u32),
    Tuple(u32, Items<Expr>),
    ListNode(u32, Items<Expr>),
    Dict(u32, Items<Pair>),
}

/// An operand of `|`, `^` or `&`: the first byte of its operator, and the operand.
pub type Operand = (u32, Expr);

/// An operand of a shift, a sum or a term: its operator, the operator's first byte, and the operand.
pub type ShiftOperand = (ShiftOp, u32, Expr);

pub type SumOperand = (SumOp, u32, Expr);

pub type TermOperand = (TermOp, u32, Expr);

/// A key and its value in a dictionary display.
pub type Pair = (Expr, Expr);

/// What stands behind an atom: `.NAME`, `(..)` or `[..]`, with the first byte of its dot or bracket.
#[cycle(expressions)]
#[derive(Drop)]
pub enum Part {
    Attribute(u32, Ident),
    Call(u32, Items<Expr>),
    Item(u32, Items<Index>),
}

/// An index, or a slice with the first byte of its own.
#[cycle(expressions)]
#[derive(Drop)]
pub enum Index {
    One(Expr),
    Slice(u32, Option<Boxed<Expr>>, Option<Boxed<Expr>>),
}
