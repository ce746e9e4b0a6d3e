//! The operators of C (ISO/IEC 9899:2011 6.3.1, 6.5).
ghost use Rattle.std.specs.Prelude.{◌≡◌};
ghost use Rattle.c_arith.specs.Numbers.{IfNumber, IsNumber};
ghost use Rattle.c_arith.specs.Operators.{computed, converted, inverse, inverted};
ghost use Rattle.cy_num.specs.Types.{IsValue, promote};

use crate::number::{Computed, Number};
use crate::results::{
    bits_in_both, bits_in_either, bits_in_one, difference, equal, is_signed, product, quotient,
    remainder, shifted_left, shifted_right, sum, truth,
};
use c_tree::BinaryOp;
use cy_num::{CNum, common, greatest, promote, wrap};

/// An operator of two numbers, after the promotions and the usual arithmetic conversions.
pub fn compute(operator: BinaryOp, left: Number, right: Number) -> Computed
    requires left { IsNumber left }
    requires right { IsNumber right }
    ensures same { result ≡ computed operator left right }
    ensures number { IfNumber result }
{
    let shifted = promoted(left);
    let kind = common(left.kind, right.kind);
    let a = wrap(kind, left.value);
    let b = wrap(kind, right.value);
    match operator {
        BinaryOp::Add => sum(kind, a, b),
        BinaryOp::Subtract => difference(kind, a, b),
        BinaryOp::Multiply => product(kind, a, b),
        BinaryOp::Divide => quotient(kind, a, b),
        BinaryOp::Remainder => remainder(kind, a, b),
        BinaryOp::BitAnd => bits_in_both(kind, a, b),
        BinaryOp::BitOr => bits_in_either(kind, a, b),
        BinaryOp::BitXor => bits_in_one(kind, a, b),
        BinaryOp::ShiftLeft => shifted_left(shifted.kind, shifted.value, right.value),
        BinaryOp::ShiftRight => shifted_right(shifted.kind, shifted.value, right.value),
        BinaryOp::Less => truth(a < b),
        BinaryOp::LessEqual => truth(a <= b),
        BinaryOp::Equal => truth(equal(a, b)),
        BinaryOp::NotEqual => truth(!equal(a, b)),
        BinaryOp::Greater => truth(a > b),
        BinaryOp::GreaterEqual => truth(a >= b),
    }
}

/// `~` of a number, in the promoted type (6.5.3.3).
pub fn invert(number: Number) -> Number
    requires { IsNumber number }
    ensures same { result ≡ inverted number }
    ensures number { IsNumber result }
{
    let Number { kind, value } = promoted(number);
    Number {
        kind,
        value: inverse(kind, value),
    }
}

fn promoted(number: Number) -> Number
    requires { IsNumber number }
    ensures same { result ≡ record { kind = promote number.kind; value = number.value } }
    ensures number { IsNumber result }
{
    Number {
        kind: promote(number.kind),
        value: number.value,
    }
}

fn inverse(kind: CNum, value: i128) -> i128
    requires { IsValue kind value }
    ensures same { result ≡ inverse kind value }
    ensures value { IsValue kind result }
{
    if is_signed(kind) {
        -1 - value
    } else {
        greatest(kind) - value
    }
}

/// A number converted to a type (6.3.1.3).
pub fn convert(to: CNum, number: Number) -> Number
    ensures same { result ≡ converted to number }
    ensures number { IsNumber result }
{
    Number {
        kind: to,
        value: wrap(to, number.value),
    }
}
