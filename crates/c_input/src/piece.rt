//! Fixed tokens.
ghost use Rattle.std.specs.Prelude.{◌≡◌, ◌≢◌, ◌↔◌, ◌++◌, List, map, MatchOption, true};
ghost use Rattle.c_token.specs.CTokens.{CToken};
ghost use Rattle.c_cut.specs.Shown.{item_shown, token_shown};
ghost use Rattle.c_input.specs.Reads.{piece_shown, pieces_shown};

use c_cut::Token;

/// A token with these letters, or the end of a line of the preprocessor.
#[derive(Clone, Copy)]
pub enum Piece {
    Word(&'static [u8]),
    Sign(&'static [u8]),
    Str(&'static [u8]),
    Character(&'static [u8]),
    HeaderName(&'static [u8]),
    LineEnd,
}

/// Whether the token is the piece.
pub fn is_piece(token: &Token, piece: Piece) -> bool
    ensures { (result ≡ true) ↔ (token_shown token.now ≡ piece_shown piece) }
{
    match (token, piece) {
        (Token::Word(bytes), Piece::Word(letters)) => bytes.as_slice() == letters,
        (Token::Sign(bytes), Piece::Sign(letters)) => bytes.as_slice() == letters,
        (Token::Str(bytes), Piece::Str(letters)) => bytes.as_slice() == letters,
        (Token::Character(bytes), Piece::Character(letters)) => bytes.as_slice() == letters,
        (Token::HeaderName(bytes), Piece::HeaderName(letters)) => bytes.as_slice() == letters,
        (Token::LineEnd, Piece::LineEnd) => true,
        _ => false,
    }
}

/// What is left behind the pieces.
pub fn behind<'a>(tokens: &'a [Token], pieces: &[Piece]) -> Option<&'a [Token]>
    ensures { MatchOption result ((rest : List CToken) → item_shown tokens.now ≢ pieces_shown pieces.now ++ rest) (λ rest. item_shown tokens.now ≡ pieces_shown pieces.now ++ item_shown rest.now) }
{
    let [piece, pieces @ ..] = pieces else {
        return Some(tokens);
    };
    let [token, rest @ ..] = tokens else {
        return None;
    };
    if is_piece(token, *piece) {
        behind(rest, pieces)
    } else {
        None
    }
}
