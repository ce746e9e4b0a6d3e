//! Types.
ghost use Rattle.std.specs.Prelude.{◌≡◌};
ghost use Rattle.c_value.specs.Values.{are_pointers, converts, has_objects, initial_value, is_number, is_object, is_pointer, is_view, kind_of, same_kind, same_number_type, unset_of, unset_view, zero_extents, zero_of, zero_view, no_extents};

use crate::{Buffer, Extents, Kind, Memory, Value, ViewValue};
use c_tree::{CType, InitialValue};
use cy_num::CNum;

/// The type of what a C type says.
pub fn kind_of(kind: CType) -> Kind
    ensures { result ≡ kind_of kind }
{
    match kind {
        CType::SignedChar => Kind::Number(CNum::I8),
        CType::UnsignedChar => Kind::Number(CNum::U8),
        CType::Short => Kind::Number(CNum::I16),
        CType::UnsignedShort => Kind::Number(CNum::U16),
        CType::Int => Kind::Number(CNum::I32),
        CType::UnsignedInt => Kind::Number(CNum::U32),
        CType::Long => Kind::Number(CNum::I64),
        CType::UnsignedLong => Kind::Number(CNum::U64),
        CType::PySsizeT => Kind::Number(CNum::I64),
        CType::Object => Kind::Object,
        CType::View => Kind::View,
        CType::ThreadState => Kind::ThreadState,
        CType::LockState => Kind::LockState,
        CType::TypeObject => Kind::TypeObject,
    }
}

pub fn is_number(kind: Kind) -> bool
    ensures { result ≡ is_number kind }
{
    matches!(kind, Kind::Number(_))
}

/// Whether it is `PyObject *`, or NULL.
pub fn is_object(kind: Kind) -> bool
    ensures { result ≡ is_object kind }
{
    matches!(kind, Kind::Object | Kind::Null)
}

pub fn is_view(kind: Kind) -> bool
    ensures { result ≡ is_view kind }
{
    matches!(kind, Kind::View)
}

/// Whether variables of the type hold objects.
pub fn has_objects(kind: Kind) -> bool
    ensures { result ≡ has_objects kind }
{
    matches!(kind, Kind::Object | Kind::View)
}

/// Whether a value of the first type may stand where the second is wanted (ISO/IEC 9899:2011 6.5.16.1).
pub fn converts(from: Kind, to: Kind) -> bool
    ensures { result ≡ converts from to }
{
    match to {
        Kind::Number(_) => is_number(from),
        Kind::Object => is_object(from),
        Kind::View => matches!(from, Kind::View),
        Kind::ThreadState => matches!(from, Kind::ThreadState | Kind::Null),
        Kind::LockState => matches!(from, Kind::LockState),
        Kind::TypeObject => matches!(from, Kind::TypeObject | Kind::Null),
        Kind::Arguments => matches!(from, Kind::Arguments | Kind::Null),
        Kind::Closure => matches!(from, Kind::Closure | Kind::Null),
        Kind::Text => matches!(from, Kind::Text | Kind::Null),
        Kind::Definition => matches!(from, Kind::Definition),
        Kind::Null => matches!(from, Kind::Null),
    }
}

fn same_number_type(a: CNum, b: CNum) -> bool
    ensures { result ≡ same_number_type a b }
{
    match (a, b) {
        (CNum::I8, CNum::I8) => true,
        (CNum::U8, CNum::U8) => true,
        (CNum::I16, CNum::I16) => true,
        (CNum::U16, CNum::U16) => true,
        (CNum::I32, CNum::I32) => true,
        (CNum::U32, CNum::U32) => true,
        (CNum::I64, CNum::I64) => true,
        (CNum::U64, CNum::U64) => true,
        _ => false,
    }
}

/// Whether both are one type.
pub fn same_kind(a: Kind, b: Kind) -> bool
    ensures { result ≡ same_kind a b }
{
    match (a, b) {
        (Kind::Number(t), Kind::Number(u)) => same_number_type(t, u),
        (Kind::Number(_), _) => false,
        (_, Kind::Number(_)) => false,
        _ => converts(a, b) && converts(b, a),
    }
}

pub fn is_pointer(kind: Kind) -> bool
    ensures { result ≡ is_pointer kind }
{
    matches!(
        kind,
        Kind::Object
            | Kind::ThreadState
            | Kind::TypeObject
            | Kind::Closure
            | Kind::Arguments
            | Kind::Null
    )
}

/// Whether two pointers may be compared.
pub fn are_pointers(a: Kind, b: Kind) -> bool
    ensures { result ≡ are_pointers a b }
{
    is_pointer(a) && is_pointer(b) && (converts(a, b) || converts(b, a))
}

fn no_extents() -> Extents
    ensures { result ≡ no_extents }
{
    Extents {
        first: None,
        second: None,
        third: None,
    }
}

fn zero_extents() -> Extents
    ensures { result ≡ zero_extents }
{
    Extents {
        first: Some(0),
        second: Some(0),
        third: Some(0),
    }
}

fn unset_view() -> ViewValue
    ensures { result ≡ unset_view }
{
    ViewValue {
        memory: Memory::Unset,
        buffer: Buffer::Unset,
        lengths: no_extents(),
        strides: no_extents(),
    }
}

fn zero_view() -> ViewValue
    ensures { result ≡ zero_view }
{
    ViewValue {
        memory: Memory::Null,
        buffer: Buffer::Null,
        lengths: zero_extents(),
        strides: zero_extents(),
    }
}

/// What a place, a field, or a variable with an initial value starts with.
pub fn zero_of(kind: Kind) -> Value
    ensures { result ≡ zero_of kind }
{
    match kind {
        Kind::Number(_) => Value::Number(0),
        Kind::View => Value::View(zero_view()),
        Kind::LockState => Value::Number(0),
        _ => Value::Null,
    }
}

/// What a variable without an initial value starts with.
pub fn unset_of(kind: Kind) -> Value
    ensures { result ≡ unset_of kind }
{
    match kind {
        Kind::View => Value::View(unset_view()),
        _ => Value::Unset,
    }
}

pub fn initial_value(kind: Kind, initial: InitialValue) -> Value
    ensures { result ≡ initial_value kind initial }
{
    match initial {
        InitialValue::Nothing => unset_of(kind),
        _ => zero_of(kind),
    }
}
