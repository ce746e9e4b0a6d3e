use crate::{Numbered, Variable};
use c_token::Exception;

/// The C types of variables, parameters, results, fields and elements (ISO/IEC 9899:2011 6.2.5; Python/C API manual).
#[derive(Clone, Copy, Debug, PartialEq, Eq)]
pub enum CType {
    SignedChar,
    UnsignedChar,
    Short,
    UnsignedShort,
    Int,
    UnsignedInt,
    Long,
    UnsignedLong,
    /// `Py_ssize_t`, which is as `long`
    PySsizeT,
    /// `PyObject *`
    Object,
    /// `cyc_view`
    View,
    /// `PyThreadState *`
    ThreadState,
    /// `PyGILState_STATE`
    LockState,
    /// `PyTypeObject *`
    TypeObject,
}

/// What a function gives: nothing, or a value.
#[derive(Clone, Copy, Debug, PartialEq, Eq)]
pub enum CResult {
    Void,
    Value(CType),
}

/// An integer literal, by its suffix: none, `u`, `L`, `uL` (ISO/IEC 9899:2011 6.4.4.1). A negative one is in brackets.
#[derive(Clone, Copy, Debug, PartialEq, Eq)]
pub enum Literal {
    Int(i32),
    Unsigned(u32),
    Long(i64),
    UnsignedLong(u64),
}

/// An operand.
#[derive(Clone, Copy, Debug, PartialEq, Eq)]
pub enum CValue {
    Variable(Variable),
    /// `args[0]`
    Argument(u32),
    Literal(Literal),
    Null,
    /// `Py_None`
    NoneObject,
    /// `Py_True`
    TrueObject,
    /// `Py_False`
    FalseObject,
    /// `PyExc_Name`
    Exception(Exception),
    /// `(PyObject *)&cyc_ty_0_1`
    ClassObject(Numbered),
    /// `&cyc_ty_0_1`
    TypeAddress(Numbered),
    /// `&cyc_def`
    Definition,
}
