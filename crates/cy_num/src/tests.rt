ghost use Rattle.cy_num.specs.Types.{IsValue};

use crate::{
    Arith, CNum, NumFault, arith, common, convert, floor_div, floor_mod, greatest, least, promote,
    shift, wrap,
};
use std::process::Abort;
use std::test::Fail;

fn assert_value(rt: &impl Abort, t: CNum, v: i128)
    ensures { IsValue t v }
{
    assert!(rt; least(t) <= v && v <= greatest(t));
}

// The type, its least and greatest value, and what lies beside them, as Python's ctypes wraps it.
#[test]
fn extremes_of_each_type(rt: HostRuntime) -> Result<(), Fail> {
    let table = [
        (CNum::I8, -128, 127, 127, -128),
        (CNum::U8, 0, 255, 255, 0),
        (CNum::I16, -32768, 32767, 32767, -32768),
        (CNum::U16, 0, 65535, 65535, 0),
        (CNum::I32, -2147483648, 2147483647, 2147483647, -2147483648),
        (CNum::U32, 0, 4294967295, 4294967295, 0),
        (
            CNum::I64,
            -9223372036854775808,
            9223372036854775807,
            9223372036854775807,
            -9223372036854775808,
        ),
        (CNum::U64, 0, 18446744073709551615, 18446744073709551615, 0),
    ];
    for (t, low, high, below, above) in table {
        assert_eq!(rt; least(t), low);
        assert_eq!(rt; greatest(t), high);
        assert_eq!(rt; wrap(t, low.saturating_sub(1)), below);
        assert_eq!(rt; wrap(t, high.saturating_add(1)), above);
        assert_eq!(rt; convert(t, low), low);
        assert_eq!(rt; convert(t, high), high);
        assert_eq!(rt; wrap(t, i128::MIN), 0);
        assert_eq!(rt; wrap(t, i128::MAX), if low < 0 { -1 } else { high });
    }
    Ok(())
}

fn assert_arith(rt: &impl Abort, t: CNum, a: i128, b: i128, results: [i128; 6]) {
    assert_value(rt, t, a);
    assert_value(rt, t, b);
    let [sum, difference, product, and, or, xor] = results;
    assert_eq!(rt; arith(Arith::Add, t, a, b), sum);
    assert_eq!(rt; arith(Arith::Sub, t, a, b), difference);
    assert_eq!(rt; arith(Arith::Mul, t, a, b), product);
    assert_eq!(rt; arith(Arith::And, t, a, b), and);
    assert_eq!(rt; arith(Arith::Or, t, a, b), or);
    assert_eq!(rt; arith(Arith::Xor, t, a, b), xor);
}

// Two values of a type, and their sum, difference, product, `&`, `|` and `^`, by Python and ctypes.
#[test]
fn operations_wrap(rt: HostRuntime) -> Result<(), Fail> {
    let table = [
        (CNum::I8, -128, 127, [-1, 1, -128, 0, -1, -1]),
        (CNum::I8, 127, 127, [-2, 0, 1, 127, 127, 0]),
        (CNum::I8, -128, -128, [0, 0, 0, -128, -128, 0]),
        (CNum::U8, 0, 255, [255, 1, 0, 0, 255, 255]),
        (CNum::U8, 255, 255, [254, 0, 1, 255, 255, 0]),
        (CNum::U8, 100, 156, [0, 200, 240, 4, 252, 248]),
        (CNum::I16, -32768, 32767, [-1, 1, -32768, 0, -1, -1]),
        (CNum::I16, 32767, 32767, [-2, 0, 1, 32767, 32767, 0]),
        (CNum::I16, -32768, -32768, [0, 0, 0, -32768, -32768, 0]),
        (CNum::U16, 0, 65535, [65535, 1, 0, 0, 65535, 65535]),
        (CNum::U16, 65535, 65535, [65534, 0, 1, 65535, 65535, 0]),
        (CNum::U16, 100, 156, [256, 65480, 15600, 4, 252, 248]),
        (
            CNum::I32,
            -2147483648,
            2147483647,
            [-1, 1, -2147483648, 0, -1, -1],
        ),
        (
            CNum::I32,
            2147483647,
            2147483647,
            [-2, 0, 1, 2147483647, 2147483647, 0],
        ),
        (
            CNum::I32,
            -2147483648,
            -2147483648,
            [0, 0, 0, -2147483648, -2147483648, 0],
        ),
        (
            CNum::U32,
            0,
            4294967295,
            [4294967295, 1, 0, 0, 4294967295, 4294967295],
        ),
        (
            CNum::U32,
            4294967295,
            4294967295,
            [4294967294, 0, 1, 4294967295, 4294967295, 0],
        ),
        (CNum::U32, 100, 156, [256, 4294967240, 15600, 4, 252, 248]),
        (
            CNum::I64,
            -9223372036854775808,
            9223372036854775807,
            [-1, 1, -9223372036854775808, 0, -1, -1],
        ),
        (
            CNum::I64,
            9223372036854775807,
            9223372036854775807,
            [-2, 0, 1, 9223372036854775807, 9223372036854775807, 0],
        ),
        (
            CNum::I64,
            -9223372036854775808,
            -9223372036854775808,
            [0, 0, 0, -9223372036854775808, -9223372036854775808, 0],
        ),
        (
            CNum::U64,
            0,
            18446744073709551615,
            [
                18446744073709551615,
                1,
                0,
                0,
                18446744073709551615,
                18446744073709551615,
            ],
        ),
        (
            CNum::U64,
            18446744073709551615,
            18446744073709551615,
            [
                18446744073709551614,
                0,
                1,
                18446744073709551615,
                18446744073709551615,
                0,
            ],
        ),
        (
            CNum::U64,
            100,
            156,
            [256, 18446744073709551560, 15600, 4, 252, 248],
        ),
    ];
    for (t, a, b, results) in table {
        assert_arith(&rt, t, a, b, results);
    }
    Ok(())
}

fn assert_division(
    rt: &impl Abort,
    t: CNum,
    pair: (i128, i128),
    quotient: Result<i128, NumFault>,
    remainder: Result<i128, NumFault>,
) {
    let (a, b) = pair;
    assert_value(rt, t, a);
    assert_value(rt, t, b);
    assert_eq!(rt; floor_div(t, a, b), quotient);
    assert_eq!(rt; floor_mod(t, a, b), remainder);
}

// Two values of a type, and what Python's `//` and `%` say.
#[test]
fn floor_division(rt: HostRuntime) -> Result<(), Fail> {
    let zero = Err(NumFault::ZeroDivisor);
    let table = [
        (CNum::I32, (7, -2), Ok(-4), Ok(-1)),
        (CNum::I32, (-2147483648, -1), Err(NumFault::TooLarge), Ok(0)),
        (CNum::I32, (7, 0), zero, zero),
        (CNum::I32, (-7, 2), Ok(-4), Ok(1)),
        (CNum::I32, (-7, -2), Ok(3), Ok(-1)),
        (CNum::I32, (7, 2), Ok(3), Ok(1)),
        (CNum::I32, (-6, 2), Ok(-3), Ok(0)),
        (CNum::I32, (0, -5), Ok(0), Ok(0)),
        (CNum::I32, (1, -2147483648), Ok(-1), Ok(-2147483647)),
        (CNum::I8, (-128, 127), Ok(-2), Ok(126)),
        (CNum::I8, (127, 2), Ok(63), Ok(1)),
        (CNum::I8, (-128, 0), zero, zero),
        (CNum::I8, (-128, -1), Err(NumFault::TooLarge), Ok(0)),
        (CNum::I8, (127, -1), Ok(-127), Ok(0)),
        (CNum::I8, (127, -128), Ok(-1), Ok(-1)),
        (CNum::I8, (-128, -128), Ok(1), Ok(0)),
        (CNum::I8, (-1, 127), Ok(-1), Ok(126)),
        (CNum::U8, (0, 255), Ok(0), Ok(0)),
        (CNum::U8, (255, 2), Ok(127), Ok(1)),
        (CNum::U8, (0, 0), zero, zero),
        (CNum::U8, (255, 255), Ok(1), Ok(0)),
        (CNum::I16, (-32768, 32767), Ok(-2), Ok(32766)),
        (CNum::I16, (32767, 2), Ok(16383), Ok(1)),
        (CNum::I16, (-32768, 0), zero, zero),
        (CNum::I16, (-32768, -1), Err(NumFault::TooLarge), Ok(0)),
        (CNum::I16, (32767, -1), Ok(-32767), Ok(0)),
        (CNum::I16, (32767, -32768), Ok(-1), Ok(-1)),
        (CNum::I16, (-32768, -32768), Ok(1), Ok(0)),
        (CNum::I16, (-1, 32767), Ok(-1), Ok(32766)),
        (CNum::U16, (0, 65535), Ok(0), Ok(0)),
        (CNum::U16, (65535, 2), Ok(32767), Ok(1)),
        (CNum::U16, (0, 0), zero, zero),
        (CNum::U16, (65535, 65535), Ok(1), Ok(0)),
        (CNum::I32, (-2147483648, 2147483647), Ok(-2), Ok(2147483646)),
        (CNum::I32, (2147483647, 2), Ok(1073741823), Ok(1)),
        (CNum::I32, (-2147483648, 0), zero, zero),
        (CNum::I32, (2147483647, -1), Ok(-2147483647), Ok(0)),
        (CNum::I32, (2147483647, -2147483648), Ok(-1), Ok(-1)),
        (CNum::I32, (-2147483648, -2147483648), Ok(1), Ok(0)),
        (CNum::I32, (-1, 2147483647), Ok(-1), Ok(2147483646)),
        (CNum::U32, (0, 4294967295), Ok(0), Ok(0)),
        (CNum::U32, (4294967295, 2), Ok(2147483647), Ok(1)),
        (CNum::U32, (0, 0), zero, zero),
        (CNum::U32, (4294967295, 4294967295), Ok(1), Ok(0)),
        (
            CNum::I64,
            (-9223372036854775808, 9223372036854775807),
            Ok(-2),
            Ok(9223372036854775806),
        ),
        (
            CNum::I64,
            (9223372036854775807, 2),
            Ok(4611686018427387903),
            Ok(1),
        ),
        (CNum::I64, (-9223372036854775808, 0), zero, zero),
        (
            CNum::I64,
            (-9223372036854775808, -1),
            Err(NumFault::TooLarge),
            Ok(0),
        ),
        (
            CNum::I64,
            (9223372036854775807, -1),
            Ok(-9223372036854775807),
            Ok(0),
        ),
        (
            CNum::I64,
            (9223372036854775807, -9223372036854775808),
            Ok(-1),
            Ok(-1),
        ),
        (
            CNum::I64,
            (-9223372036854775808, -9223372036854775808),
            Ok(1),
            Ok(0),
        ),
        (
            CNum::I64,
            (-1, 9223372036854775807),
            Ok(-1),
            Ok(9223372036854775806),
        ),
        (CNum::U64, (0, 18446744073709551615), Ok(0), Ok(0)),
        (
            CNum::U64,
            (18446744073709551615, 2),
            Ok(9223372036854775807),
            Ok(1),
        ),
        (CNum::U64, (0, 0), zero, zero),
        (
            CNum::U64,
            (18446744073709551615, 18446744073709551615),
            Ok(1),
            Ok(0),
        ),
    ];
    for (t, pair, quotient, remainder) in table {
        assert_division(&rt, t, pair, quotient, remainder);
    }
    Ok(())
}

fn assert_shifts(
    rt: &impl Abort,
    t: CNum,
    a: i128,
    count: i128,
    left: Result<i128, NumFault>,
    right: Result<i128, NumFault>,
) {
    assert_value(rt, t, a);
    assert_eq!(rt; shift(true, t, a, count), left);
    assert_eq!(rt; shift(false, t, a, count), right);
}

// A value of a type and a count, and what Python's `<<` and `>>` say, wrapped by ctypes.
#[test]
fn shifts(rt: HostRuntime) -> Result<(), Fail> {
    let bad = Err(NumFault::ShiftCount);
    let table = [
        (CNum::I32, -2147483648, 1, Ok(0), Ok(-1073741824)),
        (CNum::I32, 2147483647, 1, Ok(-2), Ok(1073741823)),
        (CNum::I32, 2147483647, 31, Ok(-2147483648), Ok(0)),
        (CNum::I32, 3, 30, Ok(-1073741824), Ok(0)),
        (CNum::I32, 1, 32, bad, bad),
        (CNum::I32, 1, -1, bad, bad),
        (CNum::I32, 1, 0, Ok(1), Ok(1)),
        (CNum::I32, -1, 31, Ok(-2147483648), Ok(-1)),
        (CNum::I32, -5, 1, Ok(-10), Ok(-3)),
        (CNum::U32, 0, 1, Ok(0), Ok(0)),
        (CNum::U32, 4294967295, 1, Ok(4294967294), Ok(2147483647)),
        (CNum::U32, 4294967295, 31, Ok(2147483648), Ok(1)),
        (CNum::U32, 3, 30, Ok(3221225472), Ok(0)),
        (CNum::U32, 1, 32, bad, bad),
        (CNum::U32, 1, -1, bad, bad),
        (CNum::U32, 1, 0, Ok(1), Ok(1)),
        (
            CNum::I64,
            -9223372036854775808,
            1,
            Ok(0),
            Ok(-4611686018427387904),
        ),
        (
            CNum::I64,
            9223372036854775807,
            1,
            Ok(-2),
            Ok(4611686018427387903),
        ),
        (
            CNum::I64,
            9223372036854775807,
            63,
            Ok(-9223372036854775808),
            Ok(0),
        ),
        (CNum::I64, 3, 62, Ok(-4611686018427387904), Ok(0)),
        (CNum::I64, 1, 64, bad, bad),
        (CNum::I64, 1, -1, bad, bad),
        (CNum::I64, 1, 0, Ok(1), Ok(1)),
        (CNum::I64, -1, 63, Ok(-9223372036854775808), Ok(-1)),
        (CNum::I64, -5, 1, Ok(-10), Ok(-3)),
        (CNum::U64, 0, 1, Ok(0), Ok(0)),
        (
            CNum::U64,
            18446744073709551615,
            1,
            Ok(18446744073709551614),
            Ok(9223372036854775807),
        ),
        (
            CNum::U64,
            18446744073709551615,
            63,
            Ok(9223372036854775808),
            Ok(1),
        ),
        (CNum::U64, 3, 62, Ok(13835058055282163712), Ok(0)),
        (CNum::U64, 1, 64, bad, bad),
        (CNum::U64, 1, -1, bad, bad),
        (CNum::U64, 1, 0, Ok(1), Ok(1)),
        (CNum::I32, 1, -9223372036854775808, bad, bad),
        (CNum::I32, 1, 18446744073709551615, bad, bad),
        (CNum::I8, -128, 7, Ok(0), Ok(-1)),
        (CNum::U16, 65535, 15, Ok(32768), Ok(1)),
        (CNum::I8, 1, 8, bad, bad),
    ];
    for (t, a, count, left, right) in table {
        assert_shifts(&rt, t, a, count, left, right);
    }
    Ok(())
}

// The common type of each two types, the second in the order of the enum (ISO/IEC 9899:2011 6.3.1.8).
#[test]
fn common_types(rt: HostRuntime) -> Result<(), Fail> {
    let types = [
        CNum::I8,
        CNum::U8,
        CNum::I16,
        CNum::U16,
        CNum::I32,
        CNum::U32,
        CNum::I64,
        CNum::U64,
    ];
    let table = [
        [
            CNum::I32,
            CNum::I32,
            CNum::I32,
            CNum::I32,
            CNum::I32,
            CNum::U32,
            CNum::I64,
            CNum::U64,
        ],
        [
            CNum::I32,
            CNum::I32,
            CNum::I32,
            CNum::I32,
            CNum::I32,
            CNum::U32,
            CNum::I64,
            CNum::U64,
        ],
        [
            CNum::I32,
            CNum::I32,
            CNum::I32,
            CNum::I32,
            CNum::I32,
            CNum::U32,
            CNum::I64,
            CNum::U64,
        ],
        [
            CNum::I32,
            CNum::I32,
            CNum::I32,
            CNum::I32,
            CNum::I32,
            CNum::U32,
            CNum::I64,
            CNum::U64,
        ],
        [
            CNum::I32,
            CNum::I32,
            CNum::I32,
            CNum::I32,
            CNum::I32,
            CNum::U32,
            CNum::I64,
            CNum::U64,
        ],
        [
            CNum::U32,
            CNum::U32,
            CNum::U32,
            CNum::U32,
            CNum::U32,
            CNum::U32,
            CNum::I64,
            CNum::U64,
        ],
        [
            CNum::I64,
            CNum::I64,
            CNum::I64,
            CNum::I64,
            CNum::I64,
            CNum::I64,
            CNum::I64,
            CNum::U64,
        ],
        [
            CNum::U64,
            CNum::U64,
            CNum::U64,
            CNum::U64,
            CNum::U64,
            CNum::U64,
            CNum::U64,
            CNum::U64,
        ],
    ];
    for (a, row) in types.iter().zip(&table) {
        assert_eq!(rt; promote(*a), common(*a, CNum::I8));
        for (b, wanted) in types.iter().zip(row) {
            assert_eq!(rt; common(*a, *b), *wanted);
        }
    }
    Ok(())
}

// `-1 < u` where u is an unsigned int of value 1.
#[test]
fn minus_one_against_unsigned(rt: HostRuntime) -> Result<(), Fail> {
    let t = common(CNum::I32, CNum::U32);
    assert_eq!(rt; t, CNum::U32);
    assert_eq!(rt; convert(t, -1), 4294967295);
    assert!(rt; convert(t, -1) >= convert(t, 1));
    Ok(())
}
