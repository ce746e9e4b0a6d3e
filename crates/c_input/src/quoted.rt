//! Strings, undone from their escapes.
ghost use Rattle.std.specs.Prelude.{◌≡◌, ◌++◌, ◌+◌, ◌/◌, ◌%◌, ◌<◌, ◌||◌, ℕ, List, Bool, true, false, nat_lt, nat_eq, IfSome, IfOk, IsSomeAnd, Some};
ghost use Rattle.std.specs.List.{flat_map};
ghost use Rattle.c_tree.specs.Forms.{IsString};
ghost use Rattle.c_tree.specs.Values.{quoted_byte};
ghost use Rattle.c_input.specs.Reads.{is_escaped, octal};

use c_token::Bytes;
use cy_base::OutOfMemory;
use std::alloc::Global;

fn is_escaped(b: u8) -> bool
    ensures { result ≡ is_escaped b }
{
    (b < b' ' || b'~' < b) || (b == b'"' || b == b'\\')
}

// The byte with these three octal digits, where it is one that is written so.
fn octal(first: u8, second: u8, third: u8) -> Option<u8>
    ensures some { IfSome result (λ b. (is_escaped b ≡ true) × (first ≡ 48 + b / 64) × (second ≡ 48 + b / 8 % 8) × (third ≡ 48 + b % 8)) }
    ensures every { (b : ℕ) → b < 256 → is_escaped b ≡ true → first ≡ 48 + b / 64 → second ≡ 48 + b / 8 % 8 → third ≡ 48 + b % 8 → result ≡ Some b }
{
    if first < 48 || first > 51 {
        return None;
    }
    if second < 48 || second > 55 {
        return None;
    }
    if third < 48 || third > 55 {
        return None;
    }
    let byte = (first - 48) * 64 + (second - 48) * 8 + (third - 48);
    if is_escaped(byte) { Some(byte) } else { None }
}

// The byte that three octal digits give, and what is left.
fn escaped(raw: &[u8]) -> Option<(u8, &[u8])>
    ensures some { IfSome result (λ r. (is_escaped r.0 ≡ true) × (raw.now ≡ octal r.0 ++ r.1.now)) }
    ensures every { (b : ℕ) (rest : List ℕ) → b < 256 → is_escaped b ≡ true → raw.now ≡ octal b ++ rest → IsSomeAnd result (λ r. (r.0 ≡ b) × (r.1.now ≡ rest)) }
{
    let [first, second, third, rest @ ..] = raw else {
        return None;
    };
    let byte = octal(*first, *second, *third)?;
    Some((byte, rest))
}

// The byte that stands first, and what is left.
fn first_byte(raw: &[u8]) -> Option<(u8, &[u8])>
    ensures some { IfSome result (λ r. (r.0 < 256) × (raw.now ≡ quoted_byte r.0 ++ r.1.now)) }
    ensures every { (b : ℕ) (rest : List ℕ) → b < 256 → raw.now ≡ quoted_byte b ++ rest → IsSomeAnd result (λ r. (r.0 ≡ b) × (r.1.now ≡ rest)) }
{
    let [first, rest @ ..] = raw else {
        return None;
    };
    if !is_escaped(*first) {
        return Some((*first, rest));
    }
    if *first != b'\\' {
        return None;
    }
    escaped(rest)
}

/// The bytes of a string, from the raw ones between its quotes. Only printed escapes are escapes here: three octal digits,
/// of a byte that can't stand by itself.
pub fn unquoted(alloc: Global, raw: &[u8]) -> Result<Option<Bytes>, OutOfMemory>
    ensures some { IfOk result (λ found. IfSome found (λ bytes. IsString bytes × (flat_map quoted_byte bytes ≡ raw.now))) }
    ensures every { IfOk result (λ found. (bytes : List ℕ) → IsString bytes → flat_map quoted_byte bytes ≡ raw.now → found ≡ Some bytes) }
{
    let mut bytes = Vec::new(alloc);
    let mut rest = raw;
    while !rest.is_empty() {
        let Some((byte, more)) = first_byte(rest) else {
            return Ok(None);
        };
        bytes.push(byte)?;
        rest = more;
    }
    Ok(Some(Bytes::new(bytes)))
}
