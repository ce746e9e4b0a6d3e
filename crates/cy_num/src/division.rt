ghost use Rattle.std.specs.Prelude.{◌≡◌, ◌≢◌, ◌↔◌, ◌<ℤ◌, pos, neg_ℤ, FitsSigned, IsErrOf, IsTrue, IfOk, Err};
ghost use Rattle.std.specs.Int.{w128};
ghost use Rattle.cy_num.specs.Division.{IsTooLarge, floor_div, floor_mod, floor_quotient, floor_remainder, is_too_large};
ghost use Rattle.cy_num.specs.Types.{IsValue};

use crate::types::{CNum, least};

/// Why a division or a shift gives no number. The project's own.
#[derive(Clone, Copy, Debug, PartialEq, Eq)]
pub enum NumFault {
    /// A division by 0.
    ZeroDivisor,
    /// The result is above the greatest value.
    TooLarge,
    /// A shift by less than 0, or by the width or more.
    ShiftCount,
}

/// `a // b` of two values of `t`, rounded down (Python language reference 6.7): `ZeroDivisor` by 0,
/// `TooLarge` where the least value of a signed type is divided by -1.
#[tactic(auto, unfolding(crate::specs::Division::floor_div))]
pub fn floor_div(t: CNum, a: i128, b: i128) -> Result<i128, NumFault>
    requires a_value { IsValue t a }
    requires b_value { IsValue t b }
    ensures same { result ≡ floor_div t a b }
    ensures value { IfOk result (IsValue t) }
    ensures zero { IsErrOf result NumFault.ZeroDivisor ↔ (b ≡ pos 0) }
    ensures too_large { IsErrOf result NumFault.TooLarge ↔ IsTooLarge t a b }
{
    if b == 0 {
        return Err(NumFault::ZeroDivisor);
    }
    if is_too_large(t, a, b) {
        return Err(NumFault::TooLarge);
    }
    Ok(quotient(a, b))
}

/// `a % b` of two values of `t`, with the sign of `b` (Python language reference 6.7): `ZeroDivisor` by 0.
#[tactic(auto, unfolding(crate::specs::Division::floor_mod))]
pub fn floor_mod(t: CNum, a: i128, b: i128) -> Result<i128, NumFault>
    requires a_value { IsValue t a }
    requires b_value { IsValue t b }
    ensures same { result ≡ floor_mod a b }
    ensures value { IfOk result (IsValue t) }
    ensures zero { IsErrOf result NumFault.ZeroDivisor ↔ (b ≡ pos 0) }
    ensures not_too_large { result ≢ Err NumFault.TooLarge }
{
    if b == 0 {
        return Err(NumFault::ZeroDivisor);
    }
    Ok(remainder(a, b))
}

fn is_too_large(t: CNum, a: i128, b: i128) -> bool
    requires { IsValue t b }
    ensures same { result ≡ is_too_large t a b }
    ensures meaning { IsTrue result ↔ IsTooLarge t a b }
{
    b == -1 && a == least(t)
}

fn quotient(a: i128, b: i128) -> i128
    requires not_zero { b ≢ pos 0 }
    requires negated { FitsSigned w128 (neg_ℤ a) × FitsSigned w128 (neg_ℤ b) }
    ensures { result ≡ floor_quotient a b }
{
    if b > 0 {
        a.div_euclid(b)
    } else {
        (-a).div_euclid(-b)
    }
}

fn remainder(a: i128, b: i128) -> i128
    requires not_zero { b ≢ pos 0 }
    requires negated { FitsSigned w128 (neg_ℤ a) × FitsSigned w128 (neg_ℤ b) }
    ensures { result ≡ floor_remainder a b }
{
    if b > 0 {
        a.rem_euclid(b)
    } else {
        -(-a).rem_euclid(-b)
    }
}
