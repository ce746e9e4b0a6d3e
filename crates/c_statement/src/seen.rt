//! Which token stands at a place.
ghost use Rattle.std.specs.Prelude.{◌≡◌, slice_get};
ghost use Rattle.c_statement.specs.Seen.{is_sign, is_word};

use c_input::{Input, Piece};

pub fn sees_sign(input: &Input, letters: &'static [u8], at: usize) -> bool
    ensures { result ≡ is_sign letters.now (slice_get input.now at) }
{
    input.sees(Piece::Sign(letters), at)
}

pub fn sees_word(input: &Input, letters: &'static [u8], at: usize) -> bool
    ensures { result ≡ is_word letters.now (slice_get input.now at) }
{
    input.sees(Piece::Word(letters), at)
}
