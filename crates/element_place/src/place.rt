//! Which byte places are those of elements.
ghost use Rattle.std.specs.Prelude.{◌≡◌, ◌≤◌, ◌<◌, ◌+◌, ◌*◌, ◌↔◌, ℕ, ℤ, pos, nat_abs, unsigned_abs, ◌-ℤ◌, ◌*ℤ◌, ◌<ℤ◌, true, IsTrue};
ghost use Rattle.api_model.specs.declared.info.Info.{Info as InfoValue};
ghost use Rattle.api_model.specs.Answers.{is_view, reach};
ghost use Rattle.element_place.specs.Places.{IsElementPlace, Reaches, is_element, is_element_place, reaches};
ghost use Rattle.element_place.specs.Windows.{IsBetween, IsFound, IsWithin};

use crate::format::matches;
use crate::window::{Indexes, Window, indexes_along, window_of};
use api_model::Info;
use cy_num::CNum;

// The indexes of a dimension that may lead from a place into the window.
fn indexes_of(length: i64, stride: i64, rest: Window, place: i128) -> Indexes
    requires rest { IsWithin rest 2305843009213693952 }
    requires place { unsigned_abs place ≤ 2305843009213693952 }
    ensures below { (i : ℕ) → i < result.end → pos i <ℤ length }
    ensures found { (i : ℕ) → pos i <ℤ length → IsBetween rest (place -ℤ pos i *ℤ stride) → IsFound result stride i }
{
    if length <= 0 {
        return Indexes { start: 0, end: 0 };
    }
    let Indexes { start, end } = indexes_along(stride, rest, place);
    Indexes {
        start,
        end: end.min(length as u64),
    }
}

fn product(index: u64, length: i64, step: u64) -> u64
    requires below { pos index <ℤ length }
    requires bounded { nat_abs length * step ≤ 2305843009213693952 }
    ensures same { result ≡ index * step }
    ensures bounded { result ≤ nat_abs length * step }
{
    index * step
}

// What an index of a dimension leaves of a place.
fn moved(place: i128, index: u64, length: i64, stride: i64) -> i128
    requires below { pos index <ℤ length }
    requires bounded { unsigned_abs place + nat_abs length * nat_abs stride ≤ 2305843009213693952 }
    ensures same { result ≡ place -ℤ pos index *ℤ stride }
    ensures bounded { unsigned_abs result ≤ unsigned_abs place + nat_abs length * nat_abs stride }
{
    let product = product(index, length, stride.unsigned_abs()) as i128;
    if stride < 0 {
        place + product
    } else {
        place - product
    }
}

// Whether indexes of the dimensions lead to the place. A dimension tries only the indexes from which the others reach it.
fn reaches(lengths: &[i64], strides: &[i64], place: i128) -> bool
    requires { unsigned_abs place + reach lengths.now strides.now ≤ 2305843009213693952 }
    ensures { IsTrue result ↔ Reaches lengths.now strides.now place }
{
    match (lengths.split_first(), strides.split_first()) {
        (Some((length, inner_lengths)), Some((stride, inner_strides))) => {
            let window = window_of(inner_lengths, inner_strides);
            let Indexes { start, end } = indexes_of(*length, *stride, window, place);
            for index in start..end {
                let left = moved(place, index, *length, *stride);
                if reaches(inner_lengths, inner_strides, left) {
                    return true;
                }
            }
            false
        }
        (Some(_), None) => false,
        (None, Some(_)) => false,
        (None, None) => place == 0,
    }
}

// No dimensions reach further than the products of their lengths and strides.
fn is_near(place: i128) -> bool
    ensures { IsTrue result ↔ (unsigned_abs place ≤ 1152921504606846976) }
{
    place.unsigned_abs() <= 1_152_921_504_606_846_976
}

#[tactic(auto, using(crate::proofs::Deciding::within))]
fn reaches_from_anywhere(lengths: &[i64], strides: &[i64], place: i128) -> bool
    requires { reach lengths.now strides.now ≤ 1152921504606846976 }
    ensures { IsTrue result ↔ Reaches lengths.now strides.now place }
{
    is_near(place) && reaches(lengths, strides, place)
}

// The same, as a test.
fn reaches_as_tested(lengths: &[i64], strides: &[i64], place: i128) -> bool
    requires { reach lengths.now strides.now ≤ 1152921504606846976 }
    ensures { result ≡ reaches lengths.now strides.now place }
{
    reaches_from_anywhere(lengths, strides, place)
}

/// Whether an element of a view stands at a byte place: whether there are indexes, one for each dimension, that lead there.
/// An indirect view has none. Dimensions are tried in the order given, and of each only the indexes from which the
/// later ones can still reach the place: one where no stride is less than the reach of the later dimensions, as in C order.
/// Where the first strides are small, as in Fortran order, it can be as many as the first dimensions have elements.
pub fn is_element_place(info: &Info, place: i128) -> bool
    requires { is_view info.now ≡ true }
    ensures { result ≡ is_element_place info.now place }
{
    !info.indirect && reaches_as_tested(info.shape.as_slice(), info.strides.as_slice(), place)
}

/// Whether an element of a type stands at a byte place.
pub fn is_element(info: &Info, element: CNum, place: i128) -> bool
    requires { is_view info.now ≡ true }
    ensures { result ≡ is_element info.now element place }
{
    !info.indirect
        && (matches(info, element)
            && reaches_as_tested(info.shape.as_slice(), info.strides.as_slice(), place))
}

/// A place passes the test exactly where an element stands there. A law; it does nothing.
pub fn tested_places_are_those_of_elements()
    ensures { (info : InfoValue) (place : ℤ) → IsTrue (is_element_place info place) ↔ IsElementPlace info place }
{}
