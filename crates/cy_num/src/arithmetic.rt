ghost use Rattle.std.specs.Prelude.{◌≡◌, ◌<◌, ◌↔◌, IsErrOf, IfOk};
ghost use Rattle.cy_num.specs.Arithmetic.{IsBadCount, arith_result, shift, shifted};
ghost use Rattle.cy_num.specs.Types.{IsValue, bits};

use crate::division::NumFault;
use crate::types::{Arith, CNum, width};
use crate::wrapping::wrap;

/// The result of an operation on two values of `t`, as a value of `t`.
pub fn arith(op: Arith, t: CNum, a: i128, b: i128) -> i128
    requires a_value { IsValue t a }
    requires b_value { IsValue t b }
    ensures same { result ≡ arith_result op t a b }
    ensures value { IsValue t result }
{
    match op {
        Arith::Add => wrap(t, a + b),
        Arith::Sub => wrap(t, a - b),
        // 2^128 is a multiple of each 2^bits.
        Arith::Mul => wrap(t, a.wrapping_mul(b)),
        Arith::And => wrap(t, a & b),
        Arith::Or => wrap(t, a | b),
        Arith::Xor => wrap(t, a ^ b),
    }
}

/// `a << count`, which wraps, where `left`, and else `a >> count`, which floors, of a value of `t`
/// (ISO/IEC 9899:2011 6.5.7): `ShiftCount` where the count is below 0 or not below the width.
#[tactic(auto, unfolding(crate::specs::Arithmetic::shift))]
pub fn shift(left: bool, t: CNum, a: i128, count: i128) -> Result<i128, NumFault>
    requires { IsValue t a }
    ensures same { result ≡ shift left t a count }
    ensures value { IfOk result (IsValue t) }
    ensures bad_count { IsErrOf result NumFault.ShiftCount ↔ IsBadCount t count }
{
    if count < 0 || count >= width(t) as i128 {
        return Err(NumFault::ShiftCount);
    }
    Ok(shifted(left, t, a, count as u32))
}

fn shifted(left: bool, t: CNum, a: i128, count: u32) -> i128
    requires bounded { count < bits t }
    requires a_value { IsValue t a }
    ensures same { result ≡ shifted left t a count }
    ensures value { IsValue t result }
{
    if left {
        wrap(t, a << count)
    } else {
        a >> count
    }
}
