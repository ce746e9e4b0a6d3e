//! Literals.
ghost use Rattle.std.specs.Prelude.{◌≡◌, ◌<◌, ◌^◌, ◌++◌, ◌∷◌, [], List, ℕ, Some, IfSome, decimal};
ghost use Rattle.c_token.specs.CTokens.{CToken, Word, sign};
ghost use Rattle.c_tree.specs.declared.value.Literal.{Literal as LiteralValue};
ghost use Rattle.c_tree.specs.Forms.{IsLiteral};
ghost use Rattle.c_tree.specs.Values.{literal_spelling};
ghost use Rattle.c_input.specs.Literals.{behind_minus, negative_parts, plain_parts, IsNegative};
ghost use Rattle.c_input.specs.Reads.{Finds, ReadsEvery};
ghost use Rattle.c_word.specs.Numbers.{Stops};

use crate::input::Input;
use crate::piece::Piece;
use c_tree::Literal;
use c_word::magnitude;

// The literal of a number and a suffix.
fn suffixed(number: u64, letters: &[u8]) -> Option<Literal>
    ensures some { IfSome result (λ l. IsLiteral l × (literal_spelling l ≡ Word (decimal number ++ letters.now) ∷ [])) }
    ensures every { (l : LiteralValue) → IsLiteral l → plain_parts l ≡ Some (number, letters.now) → result ≡ Some l }
{
    match letters {
        b"" if number <= i32::MAX as u64 => Some(Literal::Int(number as i32)),
        b"u" if number <= u32::MAX as u64 => Some(Literal::Unsigned(number as u32)),
        b"L" if number <= i64::MAX as u64 => Some(Literal::Long(number as i64)),
        b"uL" => Some(Literal::UnsignedLong(number)),
        _ => None,
    }
}

// The literal with this one word.
pub fn plain(word: &[u8]) -> Option<Literal>
    ensures some { IfSome result (λ l. IsLiteral l × (literal_spelling l ≡ Word word.now ∷ [])) }
    ensures every { (l : LiteralValue) (rest : List CToken) → IsLiteral l → literal_spelling l ≡ Word word.now ∷ rest → (result ≡ Some l) × (rest ≡ []) }
{
    let (number, letters) = magnitude(word)?;
    suffixed(number, letters)
}

// The literal below zero of a number and a suffix, where it isn't the least of its type.
fn negated(number: u64, letters: &[u8]) -> Option<Literal>
    ensures some { IfSome result (λ l. IsNegative l × (behind_minus l ≡ Word (decimal number ++ letters.now) ∷ sign ")" ∷ [])) }
    ensures every { (l : LiteralValue) → IsNegative l → negative_parts l ≡ Some (number, letters.now) → result ≡ Some l }
{
    if number == 0 {
        return None;
    }
    match letters {
        b"" if number <= i32::MAX as u64 => Some(Literal::Int(-(number as i32))),
        b"L" if number <= i64::MAX as u64 => Some(Literal::Long(-(number as i64))),
        _ => None,
    }
}

// Behind `(-`: a number that isn't the least of its type.
fn ordinary(input: &mut Input) -> Option<Literal>
    ensures some { Finds IsNegative behind_minus input.old result input.new }
    ensures every { (l : LiteralValue) (n : ℕ) (letters : List ℕ) (rest : List CToken) → IsNegative l → n < 2 ^ 64 → Stops letters → negative_parts l ≡ Some (n, letters) → input.old ≡ Word (decimal n ++ letters) ∷ sign ")" ∷ rest → result ≡ Some l }
{
    let word = input.word()?;
    let (number, letters) = magnitude(word)?;
    if input.fixed(&[Piece::Sign(b")")]) {
        negated(number, letters)
    } else {
        None
    }
}

/// Reads what stands behind `(-` in a literal below zero.
#[tactic(auto, using(crate::proofs::Sides::kinds))]
pub fn negative(input: &mut Input) -> Option<Literal>
    ensures some { Finds IsNegative behind_minus input.old result input.new }
    ensures every { ReadsEvery IsNegative behind_minus input.old result }
{
    if input.fixed(&[
        Piece::Word(b"2147483647"),
        Piece::Sign(b"-"),
        Piece::Word(b"1"),
        Piece::Sign(b")"),
    ]) {
        return Some(Literal::Int(i32::MIN));
    }
    if input.fixed(&[
        Piece::Word(b"9223372036854775807L"),
        Piece::Sign(b"-"),
        Piece::Word(b"1L"),
        Piece::Sign(b")"),
    ]) {
        return Some(Literal::Long(i64::MIN));
    }
    ordinary(input)
}
