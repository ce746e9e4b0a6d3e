use crate::{
    CResult, CStmt, CType, FieldNumber, FunctionName, Numbered, Place, TableName, Variable,
};
use c_token::Bytes;
use sqlite_items::Items;

/// A label, which is no step, or a statement.
#[derive(Drop)]
pub enum Line {
    Label(u32),
    Statement(CStmt),
}

/// What a variable begins with: nothing, `0`, `NULL`, `{0}`.
#[derive(Clone, Copy, Debug, PartialEq, Eq)]
pub enum InitialValue {
    Nothing,
    Zero,
    Null,
    Zeros,
}

/// `T x;`, `T x = 0;`, `T x = NULL;` or `T x = {0};`
#[derive(Clone, Copy, Debug, PartialEq, Eq)]
pub struct Declaration {
    pub kind: CType,
    pub variable: Variable,
    pub initial: InitialValue,
}

/// A parameter `T p0` of a C function.
#[derive(Clone, Copy, Debug, PartialEq, Eq)]
pub struct Parameter {
    pub kind: CType,
    pub number: u32,
}

/// The head of a function. All but those of C functions are fixed (Python/C API manual, "Common Object Structures",
/// "Type Objects", "Initializing C modules").
#[derive(Drop)]
pub enum CHead {
    /// `R cyc_f_0_1(T p0, ..)`
    Plain(Numbered, CResult, Items<Parameter>),
    /// `R cyc_x_0_1(T p0, ..)`
    Overridable(Numbered, CResult, Items<Parameter>),
    /// `static PyObject *cyc_w_0_1(PyObject *self, PyObject *const *args, Py_ssize_t nargs)`
    Wrapper(Numbered),
    /// `static PyObject *cyc_new_0_1(PyTypeObject *type, PyObject *args, PyObject *kwds)`
    New(Numbered),
    /// `static int cyc_init_0_1(PyObject *self, PyObject *args, PyObject *kwds)`
    Init(Numbered),
    /// `static void cyc_dealloc_0_1(PyObject *self)`
    Dealloc(Numbered),
    /// `static Py_ssize_t cyc_len_0_1(PyObject *self)`
    Len(Numbered),
    /// `static PyObject *cyc_item_0_1(PyObject *self, PyObject *k)`
    Item(Numbered),
    /// `static int cyc_has_0_1(PyObject *self, PyObject *k)`
    Has(Numbered),
    /// `static PyObject *cyc_get_0_1_2(PyObject *self, void *closure)`
    Getter(FieldNumber),
    /// `static int cyc_set_0_1_2(PyObject *self, PyObject *value, void *closure)`
    Setter(FieldNumber),
    /// `static int cyc_body(void)`
    Body,
    /// `PyMODINIT_FUNC PyInit_name(void)`
    Initializer(Bytes),
}

#[derive(Drop)]
pub struct CFunction {
    pub head: CHead,
    pub declarations: Items<Declaration>,
    pub lines: Items<Line>,
}

/// What the struct of an instance begins with: `struct cyc_root`, or that of the base.
#[derive(Clone, Copy, Debug, PartialEq, Eq)]
pub enum Base {
    Root,
    Class(Numbered),
}

/// What the struct of a method table begins with: the class's name, or the table of the base.
#[derive(Clone, Copy, Debug, PartialEq, Eq)]
pub enum TableBase {
    Name,
    Class(Numbered),
}

/// A slot `R (*m0)(T, ..);` of a method table.
#[derive(Drop)]
pub struct Slot {
    pub result: CResult,
    pub number: u32,
    pub parameters: Items<CType>,
}

/// A method table: the class's dotted name, the functions that stand beside it innermost, and those of each table
/// around it.
#[derive(Drop)]
pub struct StructTable {
    pub class: Numbered,
    pub name: Bytes,
    pub inner: Items<FunctionName>,
    pub outer: Items<Items<FunctionName>>,
}

/// A row `{"f", (PyCFunction)(void (*)(void))cyc_w_0_0, METH_FASTCALL, NULL}` of a table of methods.
#[derive(Drop)]
pub struct MethodRow {
    pub name: Bytes,
    pub wrapper: Numbered,
}

/// A row `{"f", cyc_get_0_1_2, cyc_set_0_1_2, NULL, NULL}` of a table of properties; without a setter, `NULL` stands there.
#[derive(Drop)]
pub struct PropertyRow {
    pub name: Bytes,
    pub getter: FieldNumber,
    pub setter: Option<FieldNumber>,
}

/// A type object; what isn't there is left out (Python/C API manual, "Type Objects").
#[derive(Drop)]
pub struct TypeObject {
    pub class: Numbered,
    pub name: Bytes,
    /// whose struct's size an instance has
    pub size: Numbered,
    pub base: Option<Numbered>,
    pub new: Option<Numbered>,
    pub init: Option<Numbered>,
    pub dealloc: Option<Numbered>,
    pub methods: Option<Numbered>,
    pub properties: Option<Numbered>,
    pub sequence: Option<Numbered>,
    pub mapping: Option<Numbered>,
}

/// An item of a file. The flag of a table says whether `static` stands before it.
#[derive(Drop)]
pub enum CItem {
    /// `#define PY_SSIZE_T_CLEAN`
    DefineClean,
    /// `#include <Python.h>`
    IncludePython,
    /// `#include "cyc_set.h"`
    IncludeSet,
    /// the type `cyc_view`
    ViewType,
    /// `struct cyc_root`
    RootStruct,
    /// the function `cyc_fmt`
    FormatTest,
    /// `struct cyc_o_0_1 { BASE b; T f0; .. };`
    InstanceStruct(Numbered, Base, Items<CType>),
    /// `struct cyc_vt_0_1 { BASE R (*m0)(T, ..); .. };`
    TableStruct(Numbered, TableBase, Items<Slot>),
    /// `const struct cyc_vt_0_1 cyc_t_0_1 = { .. };`
    Table(StructTable),
    /// `R NAME(T, ..);`
    Prototype(CResult, FunctionName, Items<CType>),
    /// `static T NAME(T, ..);`
    StaticPrototype(CType, FunctionName, Items<CType>),
    /// `extern PyTypeObject cyc_ty_0_1;`
    ExternType(Numbered),
    /// `static T cyc_m;`
    Static(CType, Place),
    /// `PyMethodDef cyc_md[] = { .. };`
    Methods(bool, TableName, Items<MethodRow>),
    /// `PyGetSetDef cyc_gs_0_1[] = { .. };`
    Properties(bool, Numbered, Items<PropertyRow>),
    /// `PySequenceMethods cyc_sq_0_1 = { .sq_length = cyc_len_0_1, .sq_contains = cyc_has_0_1 };`
    Sequence(bool, Numbered, Option<Numbered>, Option<Numbered>),
    /// `PyMappingMethods cyc_mp_0_1 = { .mp_length = cyc_len_0_1, .mp_subscript = cyc_item_0_1 };`
    Mapping(bool, Numbered, Option<Numbered>, Option<Numbered>),
    /// `PyTypeObject cyc_ty_0_1 = { .. };`
    Type(bool, TypeObject),
    /// `struct PyModuleDef cyc_def = { .. };`
    ModuleDefinition(bool, Bytes),
    Function(CFunction),
}

/// A file: its items in order.
#[derive(Drop)]
pub struct CFile {
    pub items: Items<CItem>,
}
