//! What an operator comes to on two values of one type.
ghost use Rattle.std.specs.Prelude.{◌≡◌, ◌≢◌, ◌≤ℤ◌, pos, false, IsTrue, int_div, int_rem};
ghost use Rattle.std.specs.Ordering.{int_eq};
ghost use Rattle.cy_num.specs.Arithmetic.{is_bad_count};
ghost use Rattle.c_arith.specs.Numbers.{IfNumber};
ghost use Rattle.c_arith.specs.Operators.{and_of, difference_of, fitted, has_quotient, is_value, or_of, overflows, product_of, quotient_of, remainder_of, shifted_left, shifted_right, sum_of, truth, value_of, xor_of};
ghost use Rattle.cy_num.specs.Types.{IsValue, is_signed};

use crate::number::{Computed, Number};
use cy_num::{Arith, CNum, arith, greatest, least, shift, wrap};

pub fn is_signed(kind: CNum) -> bool
    ensures { result ≡ is_signed kind }
{
    match kind {
        CNum::I8 | CNum::I16 | CNum::I32 | CNum::I64 => true,
        CNum::U8 | CNum::U16 | CNum::U32 | CNum::U64 => false,
    }
}

fn is_value(kind: CNum, value: i128) -> bool
    ensures { result ≡ is_value kind value }
{
    least(kind) <= value && value <= greatest(kind)
}

fn value_of(kind: CNum, value: i128) -> Computed
    requires { IsValue kind value }
    ensures same { result ≡ value_of kind value }
    ensures number { IfNumber result }
{
    Computed::Value(Number { kind, value })
}

// What the type makes of an exact result.
fn fit(kind: CNum, value: i128) -> Computed
    ensures same { result ≡ fitted kind value }
    ensures number { IfNumber result }
{
    if is_signed(kind) && !is_value(kind, value) {
        return Computed::Undefined;
    }
    value_of(kind, wrap(kind, value))
}

pub fn sum(kind: CNum, a: i128, b: i128) -> Computed
    requires a_value { IsValue kind a }
    requires b_value { IsValue kind b }
    ensures same { result ≡ sum_of kind a b }
    ensures number { IfNumber result }
{
    fit(kind, a + b)
}

pub fn difference(kind: CNum, a: i128, b: i128) -> Computed
    requires a_value { IsValue kind a }
    requires b_value { IsValue kind b }
    ensures same { result ≡ difference_of kind a b }
    ensures number { IfNumber result }
{
    fit(kind, a - b)
}

pub fn product(kind: CNum, a: i128, b: i128) -> Computed
    requires a_value { IsValue kind a }
    requires b_value { IsValue kind b }
    ensures same { result ≡ product_of kind a b }
    ensures number { IfNumber result }
{
    // A product of two unsigned values may not fit i128.
    if is_signed(kind) {
        fit(kind, a * b)
    } else {
        value_of(kind, arith(Arith::Mul, kind, a, b))
    }
}

fn divided(kind: CNum, a: i128, b: i128) -> i128
    requires a_value { IsValue kind a }
    requires not_zero { b ≢ pos 0 }
    ensures { result ≡ int_div a b }
{
    a / b
}

fn left_over(kind: CNum, a: i128, b: i128) -> i128
    requires a_value { IsValue kind a }
    requires not_zero { b ≢ pos 0 }
    ensures same { result ≡ int_rem a b }
    ensures value { IsValue kind result }
{
    a % b
}

fn has_quotient(kind: CNum, a: i128, b: i128) -> bool
    requires a_value { IsValue kind a }
    ensures same { result ≡ has_quotient kind a b }
    ensures not_zero { IsTrue result → b ≢ pos 0 }
    ensures value { IsTrue result → IsValue kind (int_div a b) }
{
    !equal(b, 0) && is_value(kind, divided(kind, a, b))
}

pub fn quotient(kind: CNum, a: i128, b: i128) -> Computed
    requires { IsValue kind a }
    ensures same { result ≡ quotient_of kind a b }
    ensures number { IfNumber result }
{
    if !has_quotient(kind, a, b) {
        return Computed::Undefined;
    }
    value_of(kind, divided(kind, a, b))
}

pub fn remainder(kind: CNum, a: i128, b: i128) -> Computed
    requires { IsValue kind a }
    ensures same { result ≡ remainder_of kind a b }
    ensures number { IfNumber result }
{
    if !has_quotient(kind, a, b) {
        return Computed::Undefined;
    }
    value_of(kind, left_over(kind, a, b))
}

pub fn bits_in_both(kind: CNum, a: i128, b: i128) -> Computed
    requires a_value { IsValue kind a }
    requires b_value { IsValue kind b }
    ensures same { result ≡ and_of kind a b }
    ensures number { IfNumber result }
{
    value_of(kind, arith(Arith::And, kind, a, b))
}

pub fn bits_in_either(kind: CNum, a: i128, b: i128) -> Computed
    requires a_value { IsValue kind a }
    requires b_value { IsValue kind b }
    ensures same { result ≡ or_of kind a b }
    ensures number { IfNumber result }
{
    value_of(kind, arith(Arith::Or, kind, a, b))
}

pub fn bits_in_one(kind: CNum, a: i128, b: i128) -> Computed
    requires a_value { IsValue kind a }
    requires b_value { IsValue kind b }
    ensures same { result ≡ xor_of kind a b }
    ensures number { IfNumber result }
{
    value_of(kind, arith(Arith::Xor, kind, a, b))
}

/// 0 or 1 of the type int.
pub fn truth(holds: bool) -> Computed
    ensures same { result ≡ truth holds }
    ensures number { IfNumber result }
{
    value_of(CNum::I32, if holds { 1 } else { 0 })
}

// Whether a signed type lacks the value shifted by the count, where that is a count.
fn overflows(kind: CNum, a: i128, count: i128) -> bool
    requires a_value { IsValue kind a }
    requires not_below { pos 0 ≤ℤ a }
    ensures { is_bad_count kind count ≡ false → result ≡ overflows kind a count }
{
    match shift(false, kind, greatest(kind), count) {
        Ok(most) => is_signed(kind) && most < a,
        Err(_) => false,
    }
}

pub fn shifted_left(kind: CNum, a: i128, count: i128) -> Computed
    requires { IsValue kind a }
    ensures same { result ≡ shifted_left kind a count }
    ensures number { IfNumber result }
{
    if a < 0 || overflows(kind, a, count) {
        return Computed::Undefined;
    }
    match shift(true, kind, a, count) {
        Ok(value) => value_of(kind, value),
        Err(_) => Computed::Undefined,
    }
}

pub fn shifted_right(kind: CNum, a: i128, count: i128) -> Computed
    requires { IsValue kind a }
    ensures same { result ≡ shifted_right kind a count }
    ensures number { IfNumber result }
{
    match shift(false, kind, a, count) {
        Ok(value) => value_of(kind, value),
        Err(_) => Computed::Undefined,
    }
}

pub fn equal(a: i128, b: i128) -> bool
    ensures { result ≡ int_eq a b }
{
    a == b
}
