//! Numbers with letters behind them.
ghost use Rattle.std.specs.Prelude.{◌≡◌, ◌<◌, ◌^◌, ◌++◌, ℕ, List, not, decimal, IfSome, IsSomeAnd};
ghost use Rattle.std.specs.Char.{is_ascii_digit};
ghost use Rattle.std.specs.List.{position};
ghost use Rattle.c_word.specs.Numbers.{AreDigits, Stops};

use crate::numbers::whole;

fn end(bytes: &[u8]) -> Option<usize>
    ensures { result ≡ position (λ b. not (is_ascii_digit b)) bytes.now }
{
    bytes.iter().position(|b| !b.is_ascii_digit())
}

// The digits in front, and what stands behind them.
fn cut(bytes: &[u8]) -> (&[u8], &[u8])
    ensures parts { result.0.now ++ result.1.now ≡ bytes.now }
    ensures every { (front letters : List ℕ) → AreDigits front → Stops letters → front ++ letters ≡ bytes.now → (result.0.now ≡ front) × (result.1.now ≡ letters) }
{
    match end(bytes) {
        Some(at) => (&bytes[..at], &bytes[at..]),
        None => (bytes, &[]),
    }
}

/// The number below 2^64 whose digits stand in front, and the letters behind it.
pub fn magnitude(bytes: &[u8]) -> Option<(u64, &[u8])>
    ensures some { IfSome result (λ r. (r.0 < 2 ^ 64) × (decimal r.0 ++ r.1.now ≡ bytes.now)) }
    ensures every { (n : ℕ) (letters : List ℕ) → n < 2 ^ 64 → Stops letters → decimal n ++ letters ≡ bytes.now → IsSomeAnd result (λ r. (r.0 ≡ n) × (r.1.now ≡ letters)) }
{
    let (digits, letters) = cut(bytes);
    let number = whole(digits)?;
    Some((number, letters))
}
