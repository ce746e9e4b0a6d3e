//! What stands behind `x =`, up to the `;`.

use c_place::{ElementPlace, Method};
use c_token::Bytes;
use c_tree::{
    Argument, BinaryOp, CType, CValue, Callee, Extent, FieldPlace, Numbered, Variable, ViewNumber,
    ViewPlace,
};
use sqlite_items::Items;

/// A call: what it names, and the arguments.
#[derive(Drop)]
pub struct Call {
    pub callee: Callee,
    pub arguments: Items<Argument>,
}

/// A call of a method through its table.
#[derive(Drop)]
pub struct MethodCall {
    pub method: Method,
    pub arguments: Items<Argument>,
}

/// What stands behind `x =`.
#[derive(Drop)]
pub enum Source {
    /// `k`
    Value(CValue),
    /// `k + k`
    Binary(CValue, BinaryOp, CValue),
    /// `~k`
    Invert(CValue),
    /// `(T)k`
    Cast(CType, CValue),
    /// `F(k, ..)`
    Call(Call),
    /// `((struct cyc_o_0_1 *)y)->f2`
    Field(FieldPlace),
    /// `((const struct cyc_vt_0_1 *)((struct cyc_root *)y)->vt)->m2(k, ..)`
    Method(MethodCall),
    /// `PyCFunction_Check(y) && PyCFunction_GetFunction(y) == (PyCFunction)(void (*)(void))cyc_w_0_1`
    Native(Variable, Numbered),
    /// `PyType_HasFeature(Py_TYPE(y), Py_TPFLAGS_HEAPTYPE)`
    HeapType(Variable),
    /// `PyMemoryView_GET_BUFFER(y)->ndim`
    Number(Variable, ViewNumber),
    /// `PyMemoryView_GET_BUFFER(y)->suboffsets != NULL`
    Indirect(Variable),
    /// `cyc_fmt(PyMemoryView_GET_BUFFER(y)->format, "lqn")`
    Format(Variable, Bytes),
    /// `v.mv`
    Memory(ViewPlace),
    /// `v.n[0]`
    Extent(ViewPlace, Extent, u32),
    /// `*(T *)(v.buf + y)`
    Element(ElementPlace),
}
