ghost use Rattle.std.specs.Prelude.{◌≡◌};
ghost use Rattle.cy_num.specs.Types.{IsValue};
ghost use Rattle.cy_num.specs.Wrapping.{modulus, wrap};

use crate::types::{CNum, greatest};

/// The value of `t` that differs from `v` by a multiple of 2^bits (ISO/IEC 9899:2011 6.3.1.3).
pub fn wrap(t: CNum, v: i128) -> i128
    ensures same { result ≡ wrap t v }
    ensures value { IsValue t result }
{
    let turn = modulus(t);
    let rest = v.rem_euclid(turn);
    if rest > greatest(t) {
        rest - turn
    } else {
        rest
    }
}

/// A number of any C type as a value of the type `to` (ISO/IEC 9899:2011 6.3.1.3).
pub fn convert(to: CNum, v: i128) -> i128
    ensures same { result ≡ wrap to v }
    ensures value { IsValue to result }
{
    wrap(to, v)
}

fn modulus(t: CNum) -> i128
    ensures { result ≡ modulus t }
{
    match t {
        CNum::I8 | CNum::U8 => 1 << 8,
        CNum::I16 | CNum::U16 => 1 << 16,
        CNum::I32 | CNum::U32 => 1 << 32,
        CNum::I64 | CNum::U64 => 1 << 64,
    }
}
