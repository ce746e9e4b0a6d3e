use crate::expr::Expr;
use crate::stmt::{Declared, Stmt, Suite};
use crate::types::{Ident, TypeNode};
use cy_base::Text;
use sqlite_items::Items;

/// `NAME` or `NAME as NAME`.
#[derive(Drop)]
pub struct ImportItem {
    pub name: Ident,
    pub alias: Option<Ident>,
}

/// A cimport, with its first byte (Cython documentation, "Sharing Declarations Between Cython Modules").
#[derive(Drop)]
pub enum Cimport {
    /// `cimport m` or `cimport m as n`
    Module(u32, ImportItem),
    /// `from m cimport ..`
    From(u32, Ident, Items<ImportItem>),
}

/// A parameter: `[type] NAME [not None] [= default]`, with the first byte of `not`.
#[derive(Drop)]
pub struct Param {
    pub kind: Option<TypeNode>,
    pub name: Ident,
    pub not_none: Option<u32>,
    pub default: Option<Expr>,
}

/// An exception clause as it is written (Cython documentation, "Error return values"). The first number is the
/// first byte of `except` or `noexcept`.
#[derive(Drop)]
pub enum ClauseNode {
    /// `except *`
    Star(u32),
    /// `except V`, or `except? V` where it is `maybe`; the value's first byte, its sign and its digits
    Value {
        at: u32,
        maybe: bool,
        value_at: u32,
        negative: bool,
        value: u128,
    },
    Noexcept(u32),
}

/// The head of a C function behind its name. `nogil` is given by its first byte.
#[derive(Drop)]
pub struct Header {
    pub params: Items<Param>,
    pub clause: Option<ClauseNode>,
    pub nogil: Option<u32>,
}

/// `cdef` and `cpdef` (Cython documentation, "Python functions vs. C functions").
#[derive(Clone, Copy, Debug, PartialEq, Eq)]
pub enum CKind {
    Cdef,
    Cpdef,
}

/// `cdef [type] NAME header`, without a suite.
#[derive(Drop)]
pub struct Heading {
    pub at: u32,
    pub kind: CKind,
    pub result: Option<TypeNode>,
    pub name: Ident,
    pub header: Header,
}

/// A `cdef` or `cpdef` function or method with its suite.
#[derive(Drop)]
pub struct CFunction {
    pub heading: Heading,
    pub body: Suite,
}

/// A `def` function or method, with its first byte.
#[derive(Drop)]
pub struct Def {
    pub at: u32,
    pub name: Ident,
    pub params: Items<Param>,
    pub body: Suite,
}

/// `cdef [type] NAME [= value], ..` at module level, with its first byte.
#[derive(Drop)]
pub struct Variables {
    pub at: u32,
    pub kind: Option<TypeNode>,
    pub names: Items<Declared>,
}

/// `public` and `readonly` (Cython documentation, "Extension types", static attributes).
#[derive(Clone, Copy, Debug, PartialEq, Eq)]
pub enum Access {
    Public,
    Readonly,
}

/// The base of a class: `A`, or `m.A`.
#[derive(Drop)]
pub enum ClassBase {
    Named(Ident),
    Member(Ident, Ident),
}

/// A member of a class, with its first byte.
#[derive(Drop)]
pub enum Member {
    Pass(u32),
    Docstring(u32, Text),
    Def(Def),
    /// `cdef public type NAME, ..`
    OpenFields(u32, Access, TypeNode, Items<Ident>),
    /// `cdef [type] NAME, ..`
    Fields(u32, Option<TypeNode>, Items<Ident>),
    Method(CFunction),
}

/// `cdef class NAME(base): ..`, with its first byte (Cython documentation, "Extension Types").
#[derive(Drop)]
pub struct Class {
    pub at: u32,
    pub name: Ident,
    pub base: Option<ClassBase>,
    pub members: Items<Member>,
}

/// What stands at the top of a `.pyx` file.
#[derive(Drop)]
pub enum Top {
    Cimport(Cimport),
    Class(Class),
    Function(CFunction),
    Variables(Variables),
    Def(Def),
    Stmt(Stmt),
}

/// A member of a class in a `.pxd` file, with its first byte.
#[derive(Drop)]
pub enum PxdMember {
    Pass(u32),
    OpenFields(u32, Access, TypeNode, Items<Ident>),
    Fields(u32, Option<TypeNode>, Items<Ident>),
    Method(Heading),
}

/// A class of a `.pxd` file, with its first byte.
#[derive(Drop)]
pub struct PxdClass {
    pub at: u32,
    pub name: Ident,
    pub base: Option<ClassBase>,
    pub members: Items<PxdMember>,
}

/// What stands at the top of a `.pxd` file.
#[derive(Drop)]
pub enum PxdItem {
    Cimport(Cimport),
    Pass(u32),
    Class(PxdClass),
    Function(Heading),
}
