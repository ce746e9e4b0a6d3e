//! What becomes of a value that meets a place of a type.
ghost use Rattle.std.specs.Prelude.{◌≡◌};
ghost use Rattle.thin_state.specs.State.{as_int, converted, high_half, low_half, wrap_int};

use thin_state::{Kind, Value};

fn low_half(m: u32) -> i128
    ensures { result ≡ low_half m }
{
    if m < 2_147_483_648 {
        i128::from(m)
    } else {
        i128::from(m) - 4_294_967_296
    }
}

fn high_half(m: u32) -> i128
    ensures { result ≡ high_half m }
{
    if m < 2_147_483_648 {
        -1 - i128::from(m)
    } else {
        i128::from(4_294_967_295 - m)
    }
}

/// The value of `int` that differs by a multiple of 2^32 (ISO/IEC 9899:2011 6.3.1.3, as gcc and clang define it).
pub fn wrap_int(number: i128) -> i128
    ensures { result ≡ wrap_int number }
{
    if 0 <= number {
        low_half((number as u128 % 4_294_967_296) as u32)
    } else {
        high_half(((-1 - number) as u128 % 4_294_967_296) as u32)
    }
}

fn as_int(value: Value) -> Value
    ensures { result ≡ as_int value }
{
    match value {
        Value::Number(number) => Value::Number(wrap_int(number)),
        other => other,
    }
}

/// A value that meets a place of a type.
pub fn converted(kind: Kind, value: Value) -> Value
    ensures { result ≡ converted kind value }
{
    match kind {
        Kind::Int => as_int(value),
        _ => value,
    }
}
