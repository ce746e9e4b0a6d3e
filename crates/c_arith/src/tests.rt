use crate::{
    Computed, Number, compute, convert, division_goes_towards_zero, invert, number_of, number_type,
};
use c_tree::{BinaryOp, CType, Literal};
use cy_num::{CNum, greatest, least};
use std::process::Abort;
use std::test::Fail;

const INT_MIN: i128 = -2147483648;

const INT_MAX: i128 = 2147483647;

const LONG_MIN: i128 = -9223372036854775808;

const LONG_MAX: i128 = 9223372036854775807;

const UINT_MAX: i128 = 4294967295;

const ULONG_MAX: i128 = 18446744073709551615;

fn number(kind: CNum, value: i128) -> Number {
    Number { kind, value }
}

fn value(number: Number) -> Computed {
    Computed::Value(number)
}

fn int(value: i128) -> Number {
    number(CNum::I32, value)
}

fn unsigned(value: i128) -> Number {
    number(CNum::U32, value)
}

fn long(value: i128) -> Number {
    number(CNum::I64, value)
}

fn ulong(value: i128) -> Number {
    number(CNum::U64, value)
}

fn assert_computed(
    rt: &impl Abort,
    left: Number,
    operator: BinaryOp,
    right: Number,
    expected: Computed,
) {
    assert!(rt; least(left.kind) <= left.value && left.value <= greatest(left.kind));
    assert!(rt; least(right.kind) <= right.value && right.value <= greatest(right.kind));
    assert_eq!(rt; compute(operator, left, right), expected);
}

// What C says of operands at the ends of their types, and of operands of two types (ISO/IEC 9899:2011 6.3.1.8, 6.5).
#[test]
fn operators_on_numbers(rt: HostRuntime) -> Result<(), Fail> {
    let table = [
        (int(-1), BinaryOp::Less, unsigned(1), value(int(0))),
        (int(-1), BinaryOp::Greater, unsigned(1), value(int(1))),
        (int(-1), BinaryOp::Less, long(1), value(int(1))),
        (long(-1), BinaryOp::Less, unsigned(1), value(int(1))),
        (long(-1), BinaryOp::Less, ulong(1), value(int(0))),
        (int(3), BinaryOp::LessEqual, int(3), value(int(1))),
        (int(3), BinaryOp::GreaterEqual, int(4), value(int(0))),
        (int(-1), BinaryOp::Equal, unsigned(UINT_MAX), value(int(1))),
        (int(-1), BinaryOp::NotEqual, ulong(ULONG_MAX), value(int(0))),
        (int(INT_MAX), BinaryOp::Add, int(1), Computed::Undefined),
        (
            int(INT_MAX),
            BinaryOp::Add,
            long(1),
            value(long(2147483648)),
        ),
        (
            unsigned(UINT_MAX),
            BinaryOp::Add,
            int(1),
            value(unsigned(0)),
        ),
        (
            int(INT_MIN),
            BinaryOp::Subtract,
            int(1),
            Computed::Undefined,
        ),
        (
            int(0),
            BinaryOp::Subtract,
            unsigned(1),
            value(unsigned(UINT_MAX)),
        ),
        (
            long(LONG_MIN),
            BinaryOp::Add,
            unsigned(1),
            value(long(LONG_MIN + 1)),
        ),
        (
            long(LONG_MIN),
            BinaryOp::Subtract,
            unsigned(1),
            Computed::Undefined,
        ),
        (
            int(65536),
            BinaryOp::Multiply,
            int(32768),
            Computed::Undefined,
        ),
        (
            int(-65536),
            BinaryOp::Multiply,
            int(32768),
            value(int(INT_MIN)),
        ),
        (
            long(LONG_MIN),
            BinaryOp::Multiply,
            int(-1),
            Computed::Undefined,
        ),
        (
            ulong(ULONG_MAX),
            BinaryOp::Multiply,
            ulong(ULONG_MAX),
            value(ulong(1)),
        ),
        (
            number(CNum::U8, 255),
            BinaryOp::Add,
            number(CNum::U8, 255),
            value(int(510)),
        ),
        (
            number(CNum::U16, 65535),
            BinaryOp::Multiply,
            number(CNum::U16, 65535),
            Computed::Undefined,
        ),
        (
            number(CNum::I8, -128),
            BinaryOp::Subtract,
            number(CNum::I8, 127),
            value(int(-255)),
        ),
        (int(-7), BinaryOp::Divide, int(2), value(int(-3))),
        (int(-7), BinaryOp::Remainder, int(2), value(int(-1))),
        (int(7), BinaryOp::Divide, int(-2), value(int(-3))),
        (int(7), BinaryOp::Remainder, int(-2), value(int(1))),
        (
            int(-7),
            BinaryOp::Divide,
            unsigned(2),
            value(unsigned(2147483644)),
        ),
        (int(1), BinaryOp::Divide, int(0), Computed::Undefined),
        (ulong(1), BinaryOp::Remainder, int(0), Computed::Undefined),
        (int(INT_MIN), BinaryOp::Divide, int(-1), Computed::Undefined),
        (
            int(INT_MIN),
            BinaryOp::Remainder,
            int(-1),
            Computed::Undefined,
        ),
        (
            int(INT_MIN),
            BinaryOp::Divide,
            long(-1),
            value(long(2147483648)),
        ),
        (
            int(-1),
            BinaryOp::BitAnd,
            unsigned(240),
            value(unsigned(240)),
        ),
        (int(-2), BinaryOp::BitOr, int(1), value(int(-1))),
        (int(-1), BinaryOp::BitXor, long(1), value(long(-2))),
        (int(1), BinaryOp::ShiftLeft, int(31), Computed::Undefined),
        (int(1), BinaryOp::ShiftLeft, int(30), value(int(1073741824))),
        (
            unsigned(1),
            BinaryOp::ShiftLeft,
            int(31),
            value(unsigned(2147483648)),
        ),
        (
            unsigned(3),
            BinaryOp::ShiftLeft,
            long(31),
            value(unsigned(2147483648)),
        ),
        (int(1), BinaryOp::ShiftLeft, int(32), Computed::Undefined),
        (int(1), BinaryOp::ShiftLeft, int(-1), Computed::Undefined),
        (int(-1), BinaryOp::ShiftLeft, int(0), Computed::Undefined),
        (
            long(1),
            BinaryOp::ShiftLeft,
            int(62),
            value(long(4611686018427387904)),
        ),
        (
            number(CNum::U8, 255),
            BinaryOp::ShiftLeft,
            int(8),
            value(int(65280)),
        ),
        (int(-7), BinaryOp::ShiftRight, int(1), value(int(-4))),
        (
            unsigned(UINT_MAX),
            BinaryOp::ShiftRight,
            ulong(31),
            value(unsigned(1)),
        ),
        (
            int(7),
            BinaryOp::ShiftRight,
            ulong(ULONG_MAX),
            Computed::Undefined,
        ),
        (
            long(LONG_MAX),
            BinaryOp::ShiftRight,
            int(62),
            value(long(1)),
        ),
    ];
    for (left, operator, right, expected) in table {
        assert_computed(&rt, left, operator, right, expected);
    }
    Ok(())
}

fn assert_inverted(rt: &impl Abort, operand: Number, expected: Number) {
    assert!(rt; least(operand.kind) <= operand.value && operand.value <= greatest(operand.kind));
    assert_eq!(rt; invert(operand), expected);
}

// `~`, conversions, literals and types (6.5.3.3, 6.3.1.3, 6.4.4.1).
#[test]
fn operands(rt: HostRuntime) -> Result<(), Fail> {
    assert_inverted(&rt, number(CNum::U8, 0), int(-1));
    assert_inverted(&rt, unsigned(0), unsigned(UINT_MAX));
    assert_inverted(&rt, long(LONG_MAX), long(LONG_MIN));
    assert_eq!(rt; convert(CNum::U8, int(-1)), number(CNum::U8, 255));
    assert_eq!(rt; convert(CNum::I8, int(200)), number(CNum::I8, -56));
    assert_eq!(rt; convert(CNum::I64, ulong(ULONG_MAX)), long(-1));
    assert_eq!(rt; number_of(Literal::Int(-5)), int(-5));
    assert_eq!(rt; number_of(Literal::Unsigned(5)), unsigned(5));
    assert_eq!(rt; number_of(Literal::Long(5)), long(5));
    assert_eq!(rt; number_of(Literal::UnsignedLong(5)), ulong(5));
    assert_eq!(rt; number_type(CType::PySsizeT), Some(CNum::I64));
    assert_eq!(rt; number_type(CType::UnsignedShort), Some(CNum::U16));
    assert_eq!(rt; number_type(CType::Object), None);
    division_goes_towards_zero();
    Ok(())
}
