//! Numbers, and names that end in numbers.
ghost use Rattle.std.specs.Prelude.{◌≡◌, ◌≢◌, ◌<◌, ◌^◌, ◌++◌, ◌∷◌, ℕ, List, codes, decimal, IfSome, MatchOption};
ghost use Rattle.std.specs.List.{position};
ghost use Rattle.std.specs.Option.{IsSomeAnd};
ghost use Rattle.std.specs.Prelude.{nat_eq};
ghost use Rattle.c_tree.specs.declared.name.Numbered.{Numbered as NumberedValue};
ghost use Rattle.c_tree.specs.declared.name.FieldNumber.{FieldNumber as FieldValue};
ghost use Rattle.c_tree.specs.Forms.{IsFieldNumber, IsNumber, IsNumbered};
ghost use Rattle.c_word.specs.Numbers.{two_numbers, AreDigits};

use c_tree::{FieldNumber, Numbered};
use itoa::Buffer;
use std::str;

/// The number below 2^64 whose digits these are, with no zero before them.
pub fn whole(bytes: &[u8]) -> Option<u64>
    ensures some { IfSome result (λ n. (n < 2 ^ 64) × (decimal n ≡ bytes.now)) }
    ensures every { (n : ℕ) → n < 2 ^ 64 → decimal n ≡ bytes.now → result ≡ Some n }
{
    let Ok(text) = str::from_utf8(bytes) else {
        return None;
    };
    let Ok(number) = text.parse::<u64>() else {
        return None;
    };
    if Buffer::new().format(number).as_bytes() == bytes {
        Some(number)
    } else {
        None
    }
}

/// The number below 2^32 whose digits these are, with no zero before them.
pub fn number(bytes: &[u8]) -> Option<u32>
    ensures some { IfSome result (λ n. IsNumber n × (decimal n ≡ bytes.now)) }
    ensures every { (n : ℕ) → IsNumber n → decimal n ≡ bytes.now → result ≡ Some n }
{
    match whole(bytes) {
        Some(n) if n <= u32::MAX as u64 => Some(n as u32),
        _ => None,
    }
}

// What stands behind the letters.
pub fn behind<'a>(letters: &[u8], bytes: &'a [u8]) -> Option<&'a [u8]>
    ensures { MatchOption result ((rest : List ℕ) → bytes.now ≢ letters.now ++ rest) (λ rest. bytes.now ≡ letters.now ++ rest.now) }
{
    bytes.strip_prefix(letters)
}

fn mark(bytes: &[u8]) -> Option<usize>
    ensures { result ≡ position (λ b. nat_eq b 95) bytes.now }
{
    bytes.iter().position(|b| *b == b'_')
}

// The parts before and behind the first `_`.
fn halves(bytes: &[u8]) -> Option<(&[u8], &[u8])>
    ensures some { IfSome result (λ r. r.0.now ++ 95 ∷ r.1.now ≡ bytes.now) }
    ensures every { (front back : List ℕ) → AreDigits front → front ++ 95 ∷ back ≡ bytes.now → IsSomeAnd result (λ r. (r.0.now ≡ front) × (r.1.now ≡ back)) }
{
    match mark(bytes) {
        Some(at) => Some((&bytes[..at], &bytes[at + 1..])),
        None => None,
    }
}

fn pair(bytes: &[u8]) -> Option<(u32, u32)>
    ensures some { IfSome result (λ r. IsNumber r.0 × IsNumber r.1 × (two_numbers r.0 r.1 ≡ bytes.now)) }
    ensures every { (m k : ℕ) → IsNumber m → IsNumber k → two_numbers m k ≡ bytes.now → result ≡ Some (record { 0 = m; 1 = k }) }
{
    let (front, back) = halves(bytes)?;
    let first = number(front)?;
    let second = number(back)?;
    Some((first, second))
}

/// The number behind the letters.
pub fn lettered(letters: &[u8], bytes: &[u8]) -> Option<u32>
    ensures some { IfSome result (λ n. IsNumber n × (letters.now ++ decimal n ≡ bytes.now)) }
    ensures every { (n : ℕ) → IsNumber n → letters.now ++ decimal n ≡ bytes.now → result ≡ Some n }
{
    number(behind(letters, bytes)?)
}

/// The module and the number in it behind the letters.
pub fn numbered(letters: &[u8], bytes: &[u8]) -> Option<Numbered>
    ensures some { IfSome result (λ n. IsNumbered n × (letters.now ++ two_numbers n.module n.index ≡ bytes.now)) }
    ensures every { (n : NumberedValue) → IsNumbered n → letters.now ++ two_numbers n.module n.index ≡ bytes.now → result ≡ Some n }
{
    let (module, index) = pair(behind(letters, bytes)?)?;
    Some(Numbered { module, index })
}

/// The class and the field in it behind the letters.
pub fn of_field(letters: &[u8], bytes: &[u8]) -> Option<FieldNumber>
    ensures some { IfSome result (λ f. IsFieldNumber f × ((letters.now ++ two_numbers f.class.module f.class.index) ++ (codes "_" ++ decimal f.field) ≡ bytes.now)) }
    ensures every { (f : FieldValue) → IsFieldNumber f → (letters.now ++ two_numbers f.class.module f.class.index) ++ (codes "_" ++ decimal f.field) ≡ bytes.now → result ≡ Some f }
{
    let (module, rest) = halves(behind(letters, bytes)?)?;
    let module = number(module)?;
    let (index, field) = pair(rest)?;
    Some(FieldNumber {
        class: Numbered { module, index },
        field,
    })
}
