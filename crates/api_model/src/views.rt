//! Which entries of views fit.
ghost use Rattle.std.specs.Prelude.{◌≡◌, ℕ, nat_le, length};
ghost use Rattle.std.specs.List.{list_all};
ghost use Rattle.api_model.specs.Answers.{has_dimensions, is_length, is_stride, is_view, reach};

use crate::info::Info;

// The greatest length, stride, and sum of both over the dimensions.
const SPAN: i64 = 1_152_921_504_606_846_976;

// The most bytes of an item.
const ITEM: u32 = 1_048_576;

fn is_length(length: i64) -> bool
    ensures { result ≡ is_length length }
{
    0 <= length && length <= SPAN
}

fn is_stride(stride: i64) -> bool
    ensures { result ≡ is_stride stride }
{
    -SPAN <= stride && stride <= SPAN
}

fn are_lengths(lengths: &[i64]) -> bool
    ensures { result ≡ list_all is_length lengths.now }
{
    lengths.iter().all(|length| is_length(*length))
}

fn are_strides(strides: &[i64]) -> bool
    ensures { result ≡ list_all is_stride strides.now }
{
    strides.iter().all(|stride| is_stride(*stride))
}

fn has_dimensions(lengths: usize, strides: usize) -> bool
    ensures { result ≡ has_dimensions lengths strides }
{
    lengths == strides && (1 <= lengths && lengths <= 8)
}

// Whether the lengths, each times its stride's size, add up to at most the greatest span.
fn is_within(lengths: &[i64], strides: &[i64]) -> bool
    ensures { result ≡ nat_le (reach lengths.now strides.now) 1152921504606846976 }
{
    let mut left = SPAN as u64;
    for (length, stride) in lengths.iter().zip(strides) {
        match length.unsigned_abs().checked_mul(stride.unsigned_abs()) {
            Some(bytes) if bytes <= left => left -= bytes,
            _ => return false,
        }
    }
    true
}

/// Whether an entry fits that makes a view with this buffer. Of its letter nothing is asked.
pub fn is_view(info: &Info) -> bool
    ensures { result ≡ is_view info.now }
{
    let lengths = info.shape.as_slice();
    let strides = info.strides.as_slice();
    (info.item <= ITEM && has_dimensions(lengths.len(), strides.len()))
        && (are_lengths(lengths) && (are_strides(strides) && is_within(lengths, strides)))
}
