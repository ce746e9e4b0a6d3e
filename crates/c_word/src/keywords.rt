//! The keywords of C.
ghost use Rattle.std.specs.Prelude.{◌≡◌};
ghost use Rattle.std.specs.List.{list_any};
ghost use Rattle.std.specs.Str.{bytes_eq};
ghost use Rattle.c_tree.specs.Forms.{is_keyword};
ghost use Rattle.c_word.specs.Keywords.{first_row, second_row, third_row, fourth_row, fifth_row, sixth_row};

fn is_in_first_row(word: &[u8]) -> bool
    ensures { result ≡ list_any (bytes_eq word.now) first_row }
{
    word == b"auto".as_slice()
        || word == b"break".as_slice()
        || word == b"case".as_slice()
        || word == b"char".as_slice()
        || word == b"const".as_slice()
        || word == b"continue".as_slice()
        || word == b"default".as_slice()
        || word == b"do".as_slice()
}

fn is_in_second_row(word: &[u8]) -> bool
    ensures { result ≡ list_any (bytes_eq word.now) second_row }
{
    word == b"double".as_slice()
        || word == b"else".as_slice()
        || word == b"enum".as_slice()
        || word == b"extern".as_slice()
        || word == b"float".as_slice()
        || word == b"for".as_slice()
        || word == b"goto".as_slice()
        || word == b"if".as_slice()
}

fn is_in_third_row(word: &[u8]) -> bool
    ensures { result ≡ list_any (bytes_eq word.now) third_row }
{
    word == b"inline".as_slice()
        || word == b"int".as_slice()
        || word == b"long".as_slice()
        || word == b"register".as_slice()
        || word == b"restrict".as_slice()
        || word == b"return".as_slice()
        || word == b"short".as_slice()
        || word == b"signed".as_slice()
}

fn is_in_fourth_row(word: &[u8]) -> bool
    ensures { result ≡ list_any (bytes_eq word.now) fourth_row }
{
    word == b"sizeof".as_slice()
        || word == b"static".as_slice()
        || word == b"struct".as_slice()
        || word == b"switch".as_slice()
        || word == b"typedef".as_slice()
        || word == b"union".as_slice()
        || word == b"unsigned".as_slice()
        || word == b"void".as_slice()
}

fn is_in_fifth_row(word: &[u8]) -> bool
    ensures { result ≡ list_any (bytes_eq word.now) fifth_row }
{
    word == b"volatile".as_slice()
        || word == b"while".as_slice()
        || word == b"_Alignas".as_slice()
        || word == b"_Alignof".as_slice()
        || word == b"_Atomic".as_slice()
        || word == b"_Bool".as_slice()
        || word == b"_Complex".as_slice()
        || word == b"_Generic".as_slice()
}

fn is_in_sixth_row(word: &[u8]) -> bool
    ensures { result ≡ list_any (bytes_eq word.now) sixth_row }
{
    word == b"_Imaginary".as_slice()
        || word == b"_Noreturn".as_slice()
        || word == b"_Static_assert".as_slice()
        || word == b"_Thread_local".as_slice()
}

/// Whether the word is a keyword (ISO/IEC 9899:2011 6.4.1).
pub fn is_keyword(word: &[u8]) -> bool
    ensures { result ≡ is_keyword word.now }
{
    if is_in_first_row(word) {
        return true;
    }
    if is_in_second_row(word) {
        return true;
    }
    if is_in_third_row(word) {
        return true;
    }
    if is_in_fourth_row(word) {
        return true;
    }
    if is_in_fifth_row(word) {
        return true;
    }
    is_in_sixth_row(word)
}
