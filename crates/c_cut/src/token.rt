use c_token::Bytes;

/// A C token (ISO/IEC 9899:2011 6.4). A word is an identifier or a number; a string and a character constant have the
/// raw bytes between their quotes; `LineEnd` ends a preprocessor line; `Other` is a byte that starts no token.
#[derive(Debug, Drop)]
pub enum Token {
    Word(Bytes),
    Str(Bytes),
    Character(Bytes),
    Sign(Bytes),
    HeaderName(Bytes),
    LineEnd,
    Other(u8),
}
