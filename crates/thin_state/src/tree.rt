use crate::BinaryOp;
use c_token::{Bytes, Exception};
use sqlite_items::Items;

/// The C types of variables, parameters, results and places (ISO/IEC 9899:2011 6.7.2).
#[derive(Clone, Copy, Debug, PartialEq, Eq)]
pub enum CType {
    Int,
    PySsizeT,
    PyObject,
}

/// A variable of a function: `p0`, `v0`, `t0`, `r`, and `self`, `args`, `nargs` of a wrapper.
#[derive(Clone, Copy, Debug, PartialEq, Eq)]
pub enum Variable {
    Parameter(u32),
    Local(u32),
    Temporary(u32),
    Returned,
    SelfObject,
    Arguments,
    ArgumentCount,
}

/// A place of a file: `cyc_m`, `cyc_d`, `cyc_b`, `cyc_r`, `cyc_c_0`, `cyc_g_0`.
#[derive(Clone, Copy, Debug, PartialEq, Eq)]
pub enum Place {
    Module,
    Dictionary,
    Builtins,
    Ready,
    Constant(u32),
    Global(u32),
}

/// `cyc_f_0_1`, `cyc_w_0_1` (module and index), and `PyInit_name`.
#[derive(Drop)]
pub enum FunctionName {
    Plain(u32, u32),
    Wrapper(u32, u32),
    Initializer(Bytes),
}

/// The functions of the Python/C API that ask the outside for an answer.
#[derive(Clone, Copy, Debug, PartialEq, Eq)]
pub enum ApiRow {
    Number(BinaryOp),
    ModuleCreate,
    ModuleGetDict,
    ImportModule,
    ErrSetString,
}

/// An operand: a variable, a place, `args[0]`, an integer, a string, `NULL`, `PyExc_Name`, `&cyc_def`.
#[derive(Drop)]
pub enum CValue {
    Variable(Variable),
    Place(Place),
    Argument(u32),
    Int(u32),
    Str(Bytes),
    Null,
    ExceptionType(Exception),
    Definition,
}

#[derive(Clone, Copy, Debug, PartialEq, Eq)]
pub enum Comparison {
    Equal,
    NotEqual,
}

/// What an assignment writes to.
#[derive(Clone, Copy, Debug, PartialEq, Eq)]
pub enum Target {
    Variable(Variable),
    Place(Place),
}

/// A statement. Each is one step.
#[derive(Drop)]
pub enum CStmt {
    /// `x = k;`
    Assign(Target, CValue),
    /// `x = PyNumber_Add(k, k);`, with `x =` or without
    Api(Option<Variable>, ApiRow, Items<CValue>),
    /// `x = cyc_f_0_0(k, ..);`, with `x =` or without
    Call(Option<Variable>, FunctionName, Items<CValue>),
    /// `Py_INCREF(k);`
    Incref(CValue),
    /// `Py_DECREF(k);`
    Decref(CValue),
    /// `if (k == k) goto L0;`
    GotoIf(CValue, Comparison, CValue, u32),
    /// `goto L0;`
    Goto(u32),
    /// `return k;`
    Return(CValue),
}

/// A label, which is no step, or a statement.
#[derive(Drop)]
pub enum Line {
    Label(u32),
    Statement(CStmt),
}

#[derive(Clone, Copy, Debug, PartialEq, Eq)]
pub enum InitialValue {
    Nothing,
    Null,
    Zero,
}

/// `T x;`, `T x = NULL;` or `T x = 0;`
#[derive(Clone, Copy, Debug, PartialEq, Eq)]
pub struct Declaration {
    pub kind: CType,
    pub variable: Variable,
    pub initial: InitialValue,
}

/// A parameter `T p0` of a C function.
#[derive(Clone, Copy, Debug, PartialEq, Eq)]
pub struct Parameter {
    pub kind: CType,
    pub number: u32,
}

/// The head of a function: that of a C function, and the fixed ones of a wrapper and an initialiser.
#[derive(Drop)]
pub enum CHead {
    /// `T cyc_f_0_1(T p0, ..)`
    Plain(u32, u32, CType, Items<Parameter>),
    /// `static PyObject *cyc_w_0_1(PyObject *self, PyObject *const *args, Py_ssize_t nargs)`
    Wrapper(u32, u32),
    /// `PyMODINIT_FUNC PyInit_name(void)`
    Initializer(Bytes),
}

#[derive(Drop)]
pub struct CFunction {
    pub head: CHead,
    pub declarations: Items<Declaration>,
    pub lines: Items<Line>,
}

/// A row `{"f", (PyCFunction)(void (*)(void))cyc_w_0_0, METH_FASTCALL, NULL}` of a method table.
#[derive(Drop)]
pub struct MethodRow {
    pub name: Bytes,
    pub module: u32,
    pub index: u32,
}

/// An item of a file.
#[derive(Drop)]
pub enum CItem {
    /// `#define PY_SSIZE_T_CLEAN`
    DefineClean,
    /// `#include <Python.h>`
    IncludePython,
    /// `#include "cyc_set.h"`
    IncludeSet,
    /// the type `cyc_view`
    ViewType,
    /// `struct cyc_root`
    RootStruct,
    /// the function `cyc_fmt`
    FormatTest,
    /// `T cyc_f_0_0(T, ..);`
    Prototype(CType, u32, u32, Items<CType>),
    /// `static T cyc_m;`
    Static(CType, Place),
    Function(CFunction),
    /// `static PyMethodDef cyc_md[] = { .. };`
    Methods(Items<MethodRow>),
    /// `static struct PyModuleDef cyc_def = { .. };`
    ModuleDefinition(Bytes),
}

/// A file: its items in order.
#[derive(Drop)]
pub struct CFile {
    pub items: Items<CItem>,
}
