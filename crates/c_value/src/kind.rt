use cy_num::CNum;

/// The types of variables, places, fields and operands (ISO/IEC 9899:2011 6.2.5): numbers, `PyObject *`, `cyc_view`,
/// `PyThreadState *`, `PyGILState_STATE`, `PyTypeObject *`, `PyObject *const *`, `void *`, strings, the address of a module
/// definition, and `NULL`.
#[derive(Clone, Copy, Debug, PartialEq, Eq)]
pub enum Kind {
    Number(CNum),
    Object,
    View,
    ThreadState,
    LockState,
    TypeObject,
    Arguments,
    Closure,
    Text,
    Definition,
    Null,
}
