//! The rows of the functions of the Python/C API. The table is the project's own, written after the manual.
ghost use Rattle.std.specs.Prelude.{◌≡◌, ℕ, Some};
ghost use Rattle.api_model.specs.Rows.{asked, unasked, made, done, with_error, without_lock, stealing, row_in, row_of, sums, shifts, sums_in_place, shifts_in_place, protocols, numbers_and_texts, containers_and_modules, objects, changes, numbers, handlers, counts, errors, locks, reads, made_rows, asked_rows, unasked_rows};

/// What a call gives. `Number` also stands for what is neither an object nor nothing. The project's own.
#[derive(Clone, Copy, Debug, PartialEq, Eq)]
pub enum Gives {
    New,
    Borrowed,
    Number,
    Nothing,
}

/// How a call signals failure. With `Set` at the end the value counts only where an exception is set.
/// The project's own.
#[derive(Clone, Copy, Debug, PartialEq, Eq)]
pub enum Fails {
    Null,
    NullSet,
    MinusOne,
    MinusOneSet,
    GreatestSet,
    Never,
}

/// What one function of the API gives, how it signals failure, the number of the argument that it steals, from 0, whether
/// the script is asked, and whether it needs the lock and that no exception is set. `PyErr_Occurred` and
/// `PyErr_GetRaisedException` may give NULL, which is no failure. The project's own, after the Python/C API manual,
/// "Reference Counts", "Exceptions" and "Thread State and the Global Interpreter Lock".
#[derive(Clone, Copy, Debug, PartialEq, Eq)]
pub struct ApiRow {
    pub gives: Gives,
    pub fails: Fails,
    pub steals: Option<u32>,
    pub entry: bool,
    pub lock: bool,
    pub clean: bool,
}

// A row that asks the script.
fn asked(gives: Gives, fails: Fails) -> ApiRow
    ensures { result ≡ asked gives fails }
{
    ApiRow {
        gives,
        fails,
        steals: None,
        entry: true,
        lock: true,
        clean: true,
    }
}

// A row that asks nothing and never fails.
fn unasked(gives: Gives) -> ApiRow
    ensures { result ≡ unasked gives }
{
    ApiRow {
        gives,
        fails: Fails::Never,
        steals: None,
        entry: false,
        lock: true,
        clean: true,
    }
}

// A row that may be called with an exception set.
fn with_error(row: ApiRow) -> ApiRow
    ensures { result ≡ with_error row }
{
    ApiRow {
        clean: false,
        ..row
    }
}

// A row that may be called without the lock.
fn without_lock(row: ApiRow) -> ApiRow
    ensures { result ≡ without_lock row }
{
    ApiRow { lock: false, ..row }
}

// A row that takes over a reference to the argument with this number, from 0.
fn stealing(argument: u32, row: ApiRow) -> ApiRow
    ensures { result ≡ stealing argument row }
{
    ApiRow {
        steals: Some(argument),
        ..row
    }
}

// A new object, or NULL.
fn made() -> ApiRow
    ensures { result ≡ made }
{
    asked(Gives::New, Fails::Null)
}

// 0, or -1.
fn done() -> ApiRow
    ensures { result ≡ done }
{
    asked(Gives::Number, Fails::MinusOne)
}

// The pieces of the table, in its order, a function each.
#[tactic(auto, unfolding(crate::specs::Rows::sums))]
fn sums(name: &[u8]) -> Option<ApiRow>
    ensures { result ≡ row_in sums name.now }
{
    if name == b"PyNumber_Add".as_slice()
        || name == b"PyNumber_Subtract".as_slice()
        || name == b"PyNumber_Multiply".as_slice()
        || name == b"PyNumber_FloorDivide".as_slice()
        || name == b"PyNumber_TrueDivide".as_slice()
        || name == b"PyNumber_Remainder".as_slice()
    {
        return Some(made());
    }
    None
}

#[tactic(auto, unfolding(crate::specs::Rows::shifts))]
fn shifts(name: &[u8]) -> Option<ApiRow>
    ensures { result ≡ row_in shifts name.now }
{
    if name == b"PyNumber_Lshift".as_slice()
        || name == b"PyNumber_Rshift".as_slice()
        || name == b"PyNumber_And".as_slice()
        || name == b"PyNumber_Or".as_slice()
        || name == b"PyNumber_Xor".as_slice()
    {
        return Some(made());
    }
    None
}

#[tactic(auto, unfolding(crate::specs::Rows::sums_in_place))]
fn sums_in_place(name: &[u8]) -> Option<ApiRow>
    ensures { result ≡ row_in sums_in_place name.now }
{
    if name == b"PyNumber_InPlaceAdd".as_slice()
        || name == b"PyNumber_InPlaceSubtract".as_slice()
        || name == b"PyNumber_InPlaceMultiply".as_slice()
        || name == b"PyNumber_InPlaceFloorDivide".as_slice()
        || name == b"PyNumber_InPlaceTrueDivide".as_slice()
        || name == b"PyNumber_InPlaceRemainder".as_slice()
    {
        return Some(made());
    }
    None
}

#[tactic(auto, unfolding(crate::specs::Rows::shifts_in_place))]
fn shifts_in_place(name: &[u8]) -> Option<ApiRow>
    ensures { result ≡ row_in shifts_in_place name.now }
{
    if name == b"PyNumber_InPlaceLshift".as_slice()
        || name == b"PyNumber_InPlaceRshift".as_slice()
        || name == b"PyNumber_InPlaceAnd".as_slice()
        || name == b"PyNumber_InPlaceOr".as_slice()
        || name == b"PyNumber_InPlaceXor".as_slice()
    {
        return Some(made());
    }
    None
}

#[tactic(auto, unfolding(crate::specs::Rows::protocols))]
fn protocols(name: &[u8]) -> Option<ApiRow>
    ensures { result ≡ row_in protocols name.now }
{
    if name == b"PyNumber_Negative".as_slice()
        || name == b"PyNumber_Positive".as_slice()
        || name == b"PyNumber_Invert".as_slice()
        || name == b"PyObject_GetAttr".as_slice()
        || name == b"PyObject_GetItem".as_slice()
        || name == b"PyObject_GetIter".as_slice()
        || name == b"PyObject_RichCompare".as_slice()
        || name == b"PyObject_CallFunctionObjArgs".as_slice()
    {
        return Some(made());
    }
    None
}

#[tactic(auto, unfolding(crate::specs::Rows::numbers_and_texts))]
fn numbers_and_texts(name: &[u8]) -> Option<ApiRow>
    ensures { result ≡ row_in numbers_and_texts name.now }
{
    if name == b"PyLong_FromLong".as_slice()
        || name == b"PyLong_FromUnsignedLong".as_slice()
        || name == b"PyLong_FromString".as_slice()
        || name == b"PyUnicode_FromStringAndSize".as_slice()
        || name == b"PyTuple_Pack".as_slice()
    {
        return Some(made());
    }
    None
}

#[tactic(auto, unfolding(crate::specs::Rows::containers_and_modules))]
fn containers_and_modules(name: &[u8]) -> Option<ApiRow>
    ensures { result ≡ row_in containers_and_modules name.now }
{
    if name == b"PyList_New".as_slice()
        || name == b"PyDict_New".as_slice()
        || name == b"PyImport_ImportModule".as_slice()
        || name == b"PyModule_Create".as_slice()
    {
        return Some(made());
    }
    None
}

#[tactic(auto, unfolding(crate::specs::Rows::objects))]
fn objects(name: &[u8]) -> Option<ApiRow>
    ensures { result ≡ row_in objects name.now }
{
    if name == b"PyMemoryView_FromObject".as_slice() || name == b"PyType_GenericAlloc".as_slice() {
        return Some(made());
    }
    if name == b"PyIter_Next".as_slice() {
        return Some(asked(Gives::New, Fails::NullSet));
    }
    if name == b"PyDict_GetItemWithError".as_slice() {
        return Some(asked(Gives::Borrowed, Fails::NullSet));
    }
    if name == b"PyModule_GetDict".as_slice() {
        return Some(asked(Gives::Borrowed, Fails::Never));
    }
    None
}

#[tactic(auto, unfolding(crate::specs::Rows::changes))]
fn changes(name: &[u8]) -> Option<ApiRow>
    ensures { result ≡ row_in changes name.now }
{
    if name == b"PyObject_SetAttr".as_slice()
        || name == b"PyObject_DelAttr".as_slice()
        || name == b"PyObject_SetItem".as_slice()
        || name == b"PyObject_DelItem".as_slice()
        || name == b"PyDict_SetItem".as_slice()
        || name == b"PyDict_DelItem".as_slice()
        || name == b"PyType_Ready".as_slice()
        || name == b"PyModule_AddObjectRef".as_slice()
    {
        return Some(done());
    }
    None
}

#[tactic(auto, unfolding(crate::specs::Rows::numbers))]
fn numbers(name: &[u8]) -> Option<ApiRow>
    ensures { result ≡ row_in numbers name.now }
{
    if name == b"PyLong_AsLong".as_slice() {
        return Some(asked(Gives::Number, Fails::MinusOneSet));
    }
    if name == b"PyLong_AsUnsignedLong".as_slice() {
        return Some(asked(Gives::Number, Fails::GreatestSet));
    }
    if name == b"PyObject_IsTrue".as_slice()
        || name == b"PySequence_Contains".as_slice()
        || name == b"PyObject_IsInstance".as_slice()
    {
        return Some(asked(Gives::Number, Fails::MinusOne));
    }
    None
}

#[tactic(auto, unfolding(crate::specs::Rows::handlers))]
fn handlers(name: &[u8]) -> Option<ApiRow>
    ensures { result ≡ row_in handlers name.now }
{
    if name == b"PyErr_GivenExceptionMatches".as_slice() {
        return Some(with_error(asked(Gives::Number, Fails::Never)));
    }
    if name == b"PyExceptionClass_Check".as_slice() {
        return Some(asked(Gives::Number, Fails::Never));
    }
    if name == b"PyErr_SetString".as_slice() || name == b"PyErr_WriteUnraisable".as_slice() {
        return Some(with_error(asked(Gives::Nothing, Fails::Never)));
    }
    None
}

#[tactic(auto, unfolding(crate::specs::Rows::counts))]
fn counts(name: &[u8]) -> Option<ApiRow>
    ensures { result ≡ row_in counts name.now }
{
    if name == b"Py_INCREF".as_slice()
        || name == b"Py_DECREF".as_slice()
        || name == b"Py_XDECREF".as_slice()
    {
        return Some(with_error(unasked(Gives::Nothing)));
    }
    if name == b"PyList_SET_ITEM".as_slice() {
        return Some(stealing(2, unasked(Gives::Nothing)));
    }
    None
}

#[tactic(auto, unfolding(crate::specs::Rows::errors))]
fn errors(name: &[u8]) -> Option<ApiRow>
    ensures { result ≡ row_in errors name.now }
{
    if name == b"PyErr_Occurred".as_slice() {
        return Some(with_error(unasked(Gives::Borrowed)));
    }
    if name == b"PyErr_GetRaisedException".as_slice() {
        return Some(with_error(unasked(Gives::New)));
    }
    if name == b"PyErr_SetRaisedException".as_slice() {
        return Some(stealing(0, with_error(unasked(Gives::Nothing))));
    }
    None
}

#[tactic(auto, unfolding(crate::specs::Rows::locks))]
fn locks(name: &[u8]) -> Option<ApiRow>
    ensures { result ≡ row_in locks name.now }
{
    if name == b"PyEval_SaveThread".as_slice() {
        return Some(with_error(unasked(Gives::Number)));
    }
    if name == b"PyEval_RestoreThread".as_slice() {
        return Some(without_lock(with_error(unasked(Gives::Nothing))));
    }
    if name == b"PyGILState_Ensure".as_slice() {
        return Some(without_lock(with_error(unasked(Gives::Number))));
    }
    if name == b"PyGILState_Release".as_slice() {
        return Some(with_error(unasked(Gives::Nothing)));
    }
    None
}

#[tactic(auto, unfolding(crate::specs::Rows::reads))]
fn reads(name: &[u8]) -> Option<ApiRow>
    ensures { result ≡ row_in reads name.now }
{
    if name == b"PyObject_TypeCheck".as_slice()
        || name == b"PyType_HasFeature".as_slice()
        || name == b"PyMemoryView_GET_BUFFER".as_slice()
        || name == b"PyTuple_GET_SIZE".as_slice()
    {
        return Some(unasked(Gives::Number));
    }
    if name == b"PyTuple_GET_ITEM".as_slice() {
        return Some(unasked(Gives::Borrowed));
    }
    None
}

// The rows that give a new object.
#[tactic(auto, unfolding(crate::specs::Rows::made_rows), using(crate::proofs::Appended::appended))]
fn made_row(name: &[u8]) -> Option<ApiRow>
    ensures { result ≡ row_in made_rows name.now }
{
    if let Some(row) = sums(name) {
        return Some(row);
    }
    if let Some(row) = shifts(name) {
        return Some(row);
    }
    if let Some(row) = sums_in_place(name) {
        return Some(row);
    }
    if let Some(row) = shifts_in_place(name) {
        return Some(row);
    }
    if let Some(row) = protocols(name) {
        return Some(row);
    }
    if let Some(row) = numbers_and_texts(name) {
        return Some(row);
    }
    containers_and_modules(name)
}

// The other rows with an entry.
#[tactic(auto, unfolding(crate::specs::Rows::asked_rows), using(crate::proofs::Appended::appended))]
fn asked_row(name: &[u8]) -> Option<ApiRow>
    ensures { result ≡ row_in asked_rows name.now }
{
    if let Some(row) = objects(name) {
        return Some(row);
    }
    if let Some(row) = changes(name) {
        return Some(row);
    }
    if let Some(row) = numbers(name) {
        return Some(row);
    }
    handlers(name)
}

// The rows without an entry.
#[tactic(auto, unfolding(crate::specs::Rows::unasked_rows), using(crate::proofs::Appended::appended))]
fn unasked_row(name: &[u8]) -> Option<ApiRow>
    ensures { result ≡ row_in unasked_rows name.now }
{
    if let Some(row) = counts(name) {
        return Some(row);
    }
    if let Some(row) = errors(name) {
        return Some(row);
    }
    if let Some(row) = locks(name) {
        return Some(row);
    }
    reads(name)
}

/// The row of the function with this name, or none where the table lacks it. The check for a function of the set
/// (`PyCFunction_Check` and what stands behind it) is a form of a statement, and has no row.
#[tactic(auto, unfolding(crate::specs::Rows::row_of, crate::specs::Rows::api_table), using(crate::proofs::Appended::appended))]
pub fn row(name: &[u8]) -> Option<ApiRow>
    ensures { result ≡ row_of name.now }
{
    if let Some(row) = made_row(name) {
        return Some(row);
    }
    if let Some(row) = asked_row(name) {
        return Some(row);
    }
    unasked_row(name)
}
