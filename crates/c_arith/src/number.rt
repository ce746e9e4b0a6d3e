//! Numbers of C with their types.
ghost use Rattle.std.specs.Prelude.{◌≡◌};
ghost use Rattle.c_arith.specs.Numbers.{IsNumber, number_of, number_type};

use c_tree::{CType, Literal};
use cy_num::CNum;

/// A number of C: its type, and its value (ISO/IEC 9899:2011 6.2.5).
#[derive(Clone, Copy, Debug, PartialEq, Eq)]
pub struct Number {
    pub kind: CNum,
    pub value: i128,
}

/// What an operator comes to: a number, or nothing that C defines (ISO/IEC 9899:2011 3.4.3).
#[derive(Clone, Copy, Debug, PartialEq, Eq)]
pub enum Computed {
    Value(Number),
    Undefined,
}

/// The number type that a C type is, or none (ISO/IEC 9899:2011 6.2.5).
pub fn number_type(kind: CType) -> Option<CNum>
    ensures { result ≡ number_type kind }
{
    match kind {
        CType::SignedChar => Some(CNum::I8),
        CType::UnsignedChar => Some(CNum::U8),
        CType::Short => Some(CNum::I16),
        CType::UnsignedShort => Some(CNum::U16),
        CType::Int => Some(CNum::I32),
        CType::UnsignedInt => Some(CNum::U32),
        CType::Long | CType::PySsizeT => Some(CNum::I64),
        CType::UnsignedLong => Some(CNum::U64),
        CType::Object | CType::View | CType::ThreadState | CType::LockState | CType::TypeObject =>
            None,
    }
}

/// The number that a literal is, of the type that its suffix says (ISO/IEC 9899:2011 6.4.4.1).
pub fn number_of(literal: Literal) -> Number
    ensures same { result ≡ number_of literal }
    ensures number { IsNumber result }
{
    match literal {
        Literal::Int(value) => make_number(CNum::I32, value as i128),
        Literal::Unsigned(value) => make_number(CNum::U32, value as i128),
        Literal::Long(value) => make_number(CNum::I64, value as i128),
        Literal::UnsignedLong(value) => make_number(CNum::U64, value as i128),
    }
}

fn make_number(kind: CNum, value: i128) -> Number
    ensures { result ≡ record { kind = kind; value = value } }
{
    Number { kind, value }
}
