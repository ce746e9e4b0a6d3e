//! From where to where dimensions reach, and which indexes of a dimension lead there.
ghost use Rattle.std.specs.Prelude.{◌≡◌, ◌≤◌, ◌<◌, ◌+◌, ◌*◌, ℕ, ℤ, pos, nat_abs, unsigned_abs, ◌-ℤ◌, ◌*ℤ◌, ◌≤ℤ◌, ◌<ℤ◌};
ghost use Rattle.api_model.specs.Answers.{reach};
ghost use Rattle.element_place.specs.Places.{Reaches};
ghost use Rattle.element_place.specs.Windows.{IsAmong, IsBetween, IsFound, IsWithin};

/// The places from `-below` to `above`.
#[derive(Clone, Copy)]
pub struct Window {
    pub below: u64,
    pub above: u64,
}

/// The indexes from `start`, below `end`.
#[derive(Clone, Copy)]
pub struct Indexes {
    pub start: u64,
    pub end: u64,
}

// The product of the last index and the step.
fn last_product(length: i64, step: u64) -> u64
    requires { nat_abs length * step ≤ 2305843009213693952 }
    ensures bound { result ≤ nat_abs length * step }
    ensures products { (i : ℕ) → pos i <ℤ length → i * step ≤ result }
{
    if length <= 0 {
        return 0;
    }
    (length as u64 - 1) * step
}

// Where the products of a stride and an index lie.
fn products(length: i64, stride: i64) -> Window
    requires { nat_abs length * nat_abs stride ≤ 2305843009213693952 }
    ensures within { IsWithin result (nat_abs length * nat_abs stride) }
    ensures products { (i : ℕ) → pos i <ℤ length → IsBetween result (pos i *ℤ stride) }
{
    let most = last_product(length, stride.unsigned_abs());
    if stride < 0 {
        Window {
            below: most,
            above: 0,
        }
    } else {
        Window {
            below: 0,
            above: most,
        }
    }
}

// Two windows, one around each place of the other.
fn joined(first: Window, rest: Window) -> Window
    requires first { IsWithin first 2305843009213693952 }
    requires rest { IsWithin rest 2305843009213693952 }
    ensures { result ≡ record { below = first.below + rest.below; above = first.above + rest.above } }
{
    Window {
        below: first.below + rest.below,
        above: first.above + rest.above,
    }
}

/// Where the places lie that dimensions reach.
pub fn window_of(lengths: &[i64], strides: &[i64]) -> Window
    requires { reach lengths.now strides.now ≤ 2305843009213693952 }
    ensures within { IsWithin result (reach lengths.now strides.now) }
    ensures places { (at : ℤ) → Reaches lengths.now strides.now at → IsBetween result at }
{
    match (lengths.split_first(), strides.split_first()) {
        (Some((length, lengths)), Some((stride, strides))) => {
            joined(products(*length, *stride), window_of(lengths, strides))
        }
        (Some(_), None) => Window { below: 0, above: 0 },
        (None, Some(_)) => Window { below: 0, above: 0 },
        (None, None) => Window { below: 0, above: 0 },
    }
}

// The least index whose product with the step is at least `from`.
fn first_index(step: u64, from: i128) -> u64
    requires not_zero { 0 < step }
    requires bounded { from ≤ℤ pos 9223372036854775807 }
    ensures { (i : ℕ) → from ≤ℤ pos (i * step) → result ≤ i }
{
    if from <= 0 {
        return 0;
    }
    (from - 1) as u64 / step + 1
}

// The index behind the greatest whose product with the step is at most `to`.
fn end_index(step: u64, to: i128) -> u64
    requires not_zero { 0 < step }
    requires bounded { to ≤ℤ pos 9223372036854775807 }
    ensures { (i : ℕ) → pos (i * step) ≤ℤ to → i < result }
{
    if to < 0 {
        return 0;
    }
    to as u64 / step + 1
}

// The indexes whose products with the step lead from the place into the window.
fn indexes_by(step: u64, rest: Window, place: i128) -> Indexes
    requires not_zero { 0 < step }
    requires rest { IsWithin rest 2305843009213693952 }
    requires place { unsigned_abs place ≤ 2305843009213693952 }
    ensures { (i : ℕ) → IsBetween rest (place -ℤ pos (i * step)) → IsAmong result i }
{
    Indexes {
        start: first_index(step, place - rest.above as i128),
        end: end_index(step, place + rest.below as i128),
    }
}

pub fn indexes_along(stride: i64, rest: Window, place: i128) -> Indexes
    requires rest { IsWithin rest 2305843009213693952 }
    requires place { unsigned_abs place ≤ 2305843009213693952 }
    ensures { (i : ℕ) → IsBetween rest (place -ℤ pos i *ℤ stride) → IsFound result stride i }
{
    let step = stride.unsigned_abs();
    if stride > 0 {
        return indexes_by(step, rest, place);
    }
    if stride < 0 {
        let mirrored = Window {
            below: rest.above,
            above: rest.below,
        };
        return indexes_by(step, mirrored, -place);
    }
    Indexes { start: 0, end: 1 }
}
