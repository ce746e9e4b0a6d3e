//! What a byte is, and which signs are long.
ghost use Rattle.std.specs.Prelude.{◌≡◌};
ghost use Rattle.c_token.specs.CTokens.{is_long_sign, is_word_byte, kind_of};
ghost use Rattle.c_lex.specs.Shown.{kind_shown};

/// What a byte is between tokens. A byte `Alone` is a sign that no longer sign begins with; `Joining` ones may go on.
#[derive(Clone, Copy, Debug, PartialEq, Eq)]
pub enum ByteKind {
    LineFeed,
    Blank,
    WordByte,
    Quote,
    Alone,
    Joining,
    Neither,
}

/// Whether the byte is one of words: a letter, a digit or `_`.
pub fn is_word_byte(b: u8) -> bool
    ensures { result ≡ is_word_byte b }
{
    matches!(b, b'0'..=b'9' | b'A'..=b'Z' | b'_' | b'a'..=b'z')
}

/// What a byte is between tokens.
pub fn kind_of(b: u8) -> ByteKind
    ensures { kind_shown result ≡ kind_of b }
{
    if is_word_byte(b) {
        return ByteKind::WordByte;
    }
    match b {
        b' ' | b'\t' => ByteKind::Blank,
        b'\n' => ByteKind::LineFeed,
        b'"' | b'\'' => ByteKind::Quote,
        b'(' | b')' | b'{' | b'}' | b'[' | b']' | b';' | b',' | b'~' | b'?' => ByteKind::Alone,
        b'='
        | b'!'
        | b'<'
        | b'>'
        | b'-'
        | b'&'
        | b'|'
        | b'+'
        | b'*'
        | b'/'
        | b'%'
        | b'^'
        | b'#'
        | b':'
        | b'.' => ByteKind::Joining,
        _ => ByteKind::Neither,
    }
}

/// Whether the bytes are a sign of more than one byte (ISO/IEC 9899:2011 6.4.6).
pub fn is_long_sign(sign: &[u8]) -> bool
    ensures { result ≡ is_long_sign sign.now }
{
    matches!(
        sign,
        b"=="
            | b"!="
            | b"<="
            | b">="
            | b"<<"
            | b">>"
            | b"<<="
            | b">>="
            | b"->"
            | b"&&"
            | b"||"
            | b"++"
            | b"--"
            | b"+="
            | b"-="
            | b"*="
            | b"/="
            | b"%="
            | b"&="
            | b"|="
            | b"^="
            | b"##"
            | b"//"
            | b"/*"
            | b"<:"
            | b":>"
            | b"<%"
            | b"%>"
            | b"%:"
    )
}
