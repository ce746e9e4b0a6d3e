use crate::{CType, CValue, FunctionName, Numbered, Variable};
use c_token::Bytes;
use sqlite_items::Items;

/// The sixteen operators between two operands (ISO/IEC 9899:2011 6.5.5 to 6.5.12).
#[derive(Clone, Copy, Debug, PartialEq, Eq)]
pub enum BinaryOp {
    Add,
    Subtract,
    Multiply,
    Divide,
    Remainder,
    BitAnd,
    BitOr,
    BitXor,
    ShiftLeft,
    ShiftRight,
    Less,
    LessEqual,
    Equal,
    NotEqual,
    Greater,
    GreaterEqual,
}

/// What a call names: a function of the compiler, or any other name that is no keyword of C.
#[derive(Drop)]
pub enum Callee {
    Function(FunctionName),
    Named(Bytes),
}

/// An argument of a call: an operand, or a string literal.
#[derive(Drop)]
pub enum Argument {
    Value(CValue),
    Str(Bytes),
}

/// A field of an instance: `((struct cyc_o_0_1 *)y)->f2`.
#[derive(Clone, Copy, Debug, PartialEq, Eq)]
pub struct FieldPlace {
    pub object: Variable,
    pub class: Numbered,
    pub field: u32,
}

/// Where a view is: a variable, or a field.
#[derive(Clone, Copy, Debug, PartialEq, Eq)]
pub enum ViewPlace {
    Variable(Variable),
    Field(FieldPlace),
}

/// `n`, the lengths of a view's dimensions, or `s`, its strides.
#[derive(Clone, Copy, Debug, PartialEq, Eq)]
pub enum Extent {
    Length,
    Stride,
}

/// A number that a memory view tells (Python/C API manual, "Buffer Protocol").
#[derive(Clone, Copy, Debug, PartialEq, Eq)]
pub enum ViewNumber {
    /// `ndim`
    Dimensions,
    /// `itemsize`
    ItemSize,
    /// `readonly`
    Readonly,
    /// `shape[0]`
    Shape(u32),
    /// `strides[0]`
    Stride(u32),
}

/// What stands before a `goto`: `if (k == k)`, `if (PyErr_Occurred())`, or nothing.
#[derive(Clone, Copy, Debug, PartialEq, Eq)]
pub enum CTest {
    Compare(CValue, BinaryOp, CValue),
    ErrorSet,
    Always,
}

/// A statement. Each is one step. The letters x and y are variables, v and w views.
#[derive(Drop)]
pub enum CStmt {
    /// `x = k;`
    Assign(Variable, CValue),
    /// `x = k + k;`
    Binary(Variable, CValue, BinaryOp, CValue),
    /// `x = ~k;`
    Invert(Variable, CValue),
    /// `x = (T)k;`
    Cast(Variable, CType, CValue),
    /// `x = F(k, ..);`, with `x =` or without
    Call(Option<Variable>, Callee, Items<Argument>),
    /// `x = ((struct cyc_o_0_1 *)y)->f2;`
    LoadField(Variable, FieldPlace),
    /// `((struct cyc_o_0_1 *)y)->f2 = k;`
    StoreField(FieldPlace, CValue),
    /// `((struct cyc_root *)y)->vt = &cyc_t_0_1;`
    StoreTable(Variable, Numbered),
    /// `x = ((const struct cyc_vt_0_1 *)((struct cyc_root *)y)->vt)->m2(k, ..);`, with `x =` or without
    CallMethod(Option<Variable>, Numbered, Variable, u32, Items<Argument>),
    /// `x = PyCFunction_Check(y) && PyCFunction_GetFunction(y) == (PyCFunction)(void (*)(void))cyc_w_0_1;`
    IsNative(Variable, Variable, Numbered),
    /// `x = PyType_HasFeature(Py_TYPE(y), Py_TPFLAGS_HEAPTYPE);`
    HasHeapType(Variable, Variable),
    /// `if (k == k) goto L0;`, `if (PyErr_Occurred()) goto L0;`, `goto L0;`
    Goto(CTest, u32),
    /// `return;`, `return k;`
    Return(Option<CValue>),
    /// `Py_TYPE(x)->tp_free(x);`
    Free(Variable),
    /// `x = PyMemoryView_GET_BUFFER(y)->ndim;`
    ViewNumber(Variable, Variable, ViewNumber),
    /// `x = PyMemoryView_GET_BUFFER(y)->suboffsets != NULL;`
    IsIndirect(Variable, Variable),
    /// `x = cyc_fmt(PyMemoryView_GET_BUFFER(y)->format, "lqn");`
    HasFormat(Variable, Variable, Bytes),
    /// `v.buf = (char *)PyMemoryView_GET_BUFFER(y)->buf;`
    TakeBuffer(ViewPlace, Variable),
    /// `v.buf = w.buf;`
    CopyBuffer(ViewPlace, ViewPlace),
    /// `v.buf = v.buf + k;`
    MoveBuffer(ViewPlace, CValue),
    /// `v.mv = k;`
    StoreMemory(ViewPlace, CValue),
    /// `x = v.mv;`
    LoadMemory(Variable, ViewPlace),
    /// `v.n[0] = k;`
    StoreExtent(ViewPlace, Extent, u32, CValue),
    /// `x = v.n[0];`
    LoadExtent(Variable, ViewPlace, Extent, u32),
    /// `x = *(T *)(v.buf + y);`
    LoadElement(Variable, CType, Variable, Variable),
    /// `*(T *)(v.buf + y) = k;`
    StoreElement(CType, Variable, Variable, CValue),
}
