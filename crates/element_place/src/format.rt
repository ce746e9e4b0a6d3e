//! Which element types a format has.
ghost use Rattle.std.specs.Prelude.{◌≡◌};
ghost use Rattle.element_place.specs.Places.{has_letter, letter_of, letters_of};

use api_model::Info;
use cy_num::CNum;

// An absent format is that of unsigned bytes.
fn letter_of(letter: Option<u8>) -> u8
    ensures { result ≡ letter_of letter }
{
    match letter {
        Some(letter) => letter,
        None => b'B',
    }
}

/// Whether the format of a view is that of the element type (Python library reference, "Format Characters").
pub fn matches(info: &Info, element: CNum) -> bool
    ensures { result ≡ has_letter (letters_of element) info.now }
{
    let letter = letter_of(info.letter);
    match element {
        CNum::I8 => letter == b'b',
        CNum::U8 => letter == b'B',
        CNum::I16 => letter == b'h',
        CNum::U16 => letter == b'H',
        CNum::I32 => letter == b'i',
        CNum::U32 => letter == b'I',
        CNum::I64 => letter == b'l' || letter == b'q' || letter == b'n',
        CNum::U64 => letter == b'L' || letter == b'Q' || letter == b'N',
    }
}
