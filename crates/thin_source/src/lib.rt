//! The reader of thin files: one line `def F(P, ..): return X + Y`.
#![tactic(auto)]

ghost use Rattle.std.specs.Prelude.{◌≡◌, ◌≢◌, ℕ, ◌+◌, ◌<◌, ◌≤◌, ◌↔◌, List, [], ◌∷◌, ◌++◌, length, map, slice_index, codes, IsTrue, IsFalse, IsSomeAnd, IfSome, IfOk, All, Contains};
ghost use Rattle.cy_mean.specs.declared.ThinFunction.{ThinFunction};
ghost use Rattle.thin_source.specs.Thin.{IsName, IsParameterName, IsParameterList, IsThin, is_name_byte, is_name_start, joined, number_words, reserved_words, thin_text};

use c_token::Bytes;
use cy_base::OutOfMemory;
use cy_mean::ThinFunction;
use sqlite_items::Items;
use std::alloc::Global;

/// The most bytes of a name. The project's own.
const LONGEST_NAME: usize = 255;

/// The most parameters of a thin function. The project's own.
const MOST_PARAMETERS: usize = 32;

static RESERVED_WORDS: [&str; 46] = [
    "False", "None", "True", "and", "as", "assert", "async", "await", "break", "cdef", "cimport",
    "class", "const", "continue", "cpdef", "ctypedef", "def", "del", "elif", "else", "except",
    "finally", "for", "from", "gil", "global", "if", "import", "in", "include", "is", "lambda",
    "noexcept", "nogil", "nonlocal", "not", "or", "pass", "public", "raise", "readonly", "return",
    "try", "while", "with", "yield",
];

static NUMBER_WORDS: [&str; 10] = [
    "signed",
    "unsigned",
    "char",
    "short",
    "int",
    "long",
    "Py_ssize_t",
    "size_t",
    "bint",
    "void",
];

fn is_among(words: &[&str], word: &[u8]) -> bool
    ensures { IsTrue result ↔ Contains (map (λ w. w.now) words.now) word.now }
{
    for entry in words {
        if entry.as_bytes() == word {
            return true;
        }
    }
    false
}

fn is_reserved(word: &[u8]) -> bool
    ensures { IsTrue result ↔ Contains reserved_words word.now }
{
    is_among(&RESERVED_WORDS, word)
}

fn is_number_word(word: &[u8]) -> bool
    ensures { IsTrue result ↔ Contains number_words word.now }
{
    is_among(&NUMBER_WORDS, word)
}

fn holds(names: &[Bytes], name: &[u8]) -> bool
    ensures { IsTrue result ↔ Contains names.now name.now }
{
    for entry in names {
        if entry.as_slice() == name {
            return true;
        }
    }
    false
}

fn is_name_byte(byte: u8) -> bool
    ensures { result ≡ is_name_byte byte }
{
    byte.is_ascii_alphanumeric() || byte == b'_'
}

/// How many bytes of names `text` begins with.
fn name_length(text: &[u8]) -> usize
    ensures within { result ≤ length text.now }
    ensures bytes { (k : ℕ) → k < result → IsTrue (is_name_byte (slice_index text.now k)) }
    ensures stops { IsFalse (is_name_byte (slice_index text.now result)) }
{
    for (i, byte) in text.iter().enumerate() {
        if !is_name_byte(*byte) {
            return i;
        }
    }
    text.len()
}

/// Whether a run of bytes of names is a name: by its first byte, its length and the reserved words.
fn is_name(word: &[u8]) -> bool
    requires { All (λ byte. IsTrue (is_name_byte byte)) word.now }
    ensures { IsTrue result ↔ IsName word.now }
{
    match word.first() {
        Some(first) => {
            (first.is_ascii_alphabetic() || *first == b'_')
                && word.len() <= LONGEST_NAME
                && !is_reserved(word)
        }
        None => false,
    }
}

/// Splits `text` behind the longest run of bytes of names that it begins with.
fn split_name(text: &[u8]) -> (&[u8], &[u8])
    ensures whole { text.entry.now ≡ result.0.now ++ result.1.now }
    ensures run { All (λ byte. IsTrue (is_name_byte byte)) result.0.now }
    ensures stops { IsFalse (is_name_byte (slice_index result.1.now 0)) }
{
    text.split_at(name_length(text))
}

/// Splits `text` into a name, `mark` and what follows.
fn name_before<'a>(text: &'a [u8], mark: &[u8]) -> Option<(&'a [u8], &'a [u8])>
    requires some { 0 < length mark.now }
    requires stops { IsFalse (is_name_byte (slice_index mark.now 0)) }
    ensures found { IfSome result
        (λ split. IsName split.0.now × (text.entry.now ≡ split.0.now ++ (mark.now ++ split.1.now))) }
    ensures only { (name rest : List ℕ) → IsName name → text.entry.now ≡ name ++ (mark.now ++ rest)
        → IsSomeAnd result (λ split. (split.0.now ≡ name) × (split.1.now ≡ rest)) }
{
    let (name, after) = split_name(text);
    let rest = after.strip_prefix(mark)?;
    if is_name(name) {
        Some((name, rest))
    } else {
        None
    }
}

/// Splits `text` into `def `, a name, `(` and what follows.
fn split_head(text: &[u8]) -> Option<(&[u8], &[u8])>
    ensures found { IfSome result (λ head. IsName head.0.now
        × (text.entry.now ≡ codes "def " ++ (head.0.now ++ (codes "(" ++ head.1.now)))) }
    ensures only { (name rest : List ℕ) → IsName name
        → text.entry.now ≡ codes "def " ++ (name ++ (codes "(" ++ rest))
        → IsSomeAnd result (λ head. (head.0.now ≡ name) × (head.1.now ≡ rest)) }
{
    name_before(text.strip_prefix(b"def ")?, b"(")
}

/// Splits `text`, which is to end with the line feed, into the two names of a sum.
fn split_sum(text: &[u8]) -> Option<(&[u8], &[u8])>
    ensures found { IfSome result
        (λ sum. text.entry.now ≡ sum.0.now ++ (codes " + " ++ (sum.1.now ++ codes "\n"))) }
    ensures only { (left right : List ℕ) → IsName left → IsName right
        → text.entry.now ≡ left ++ (codes " + " ++ (right ++ codes "\n"))
        → IsSomeAnd result (λ sum. (sum.0.now ≡ left) × (sum.1.now ≡ right)) }
{
    let (left, rest) = name_before(text, b" + ")?;
    let (right, rest) = name_before(rest, b"\n")?;
    if rest.is_empty() {
        Some((left, right))
    } else {
        None
    }
}

fn copied(alloc: Global, name: &[u8]) -> Result<Bytes, OutOfMemory>
    ensures { IfOk result (λ copy. copy ≡ name.now) }
{
    Ok(Bytes::new(Vec::from_slice(alloc, name)?))
}

/// Whether a name may follow `names` as a parameter.
fn is_new_parameter(names: &[Bytes], name: &[u8]) -> bool
    ensures { IsTrue result
        ↔ ((¬ Contains number_words name.now) × (¬ Contains names.now name.now)) }
{
    !is_number_word(name) && !holds(names, name)
}

/// Splits `text` into the names of parameters, `): return ` and what follows.
fn read_parameters(alloc: Global, text: &[u8]) -> Result<Option<(Items<Bytes>, &[u8])>, OutOfMemory>
    ensures found { IfOk result (λ found. IfSome found (λ split. IsParameterList split.0
        × (text.entry.now ≡ joined split.0 ++ (codes "): return " ++ split.1.now)))) }
    ensures only { IfOk result (λ found. (names : List (List ℕ)) (rest : List ℕ) → IsParameterList names
        → text.entry.now ≡ joined names ++ (codes "): return " ++ rest)
        → IsSomeAnd found (λ split. (split.0 ≡ names) × (split.1.now ≡ rest))) }
{
    let mut names: Items<Bytes> = Items::new(alloc);
    let mut rest = text;
    while let Some((name, after)) = name_before(rest, b", ") {
        if names.len() + 1 >= MOST_PARAMETERS || !is_new_parameter(names.as_slice(), name) {
            return Ok(None);
        }
        names.push(copied(alloc, name)?)?;
        rest = after;
    }
    let Some((name, after)) = name_before(rest, b"): return ") else {
        return Ok(None);
    };
    if !is_new_parameter(names.as_slice(), name) {
        return Ok(None);
    }
    names.push(copied(alloc, name)?)?;
    Ok(Some((names, after)))
}

/// Reads a thin file: one line `def F(P, ..): return X + Y` and nothing else. The project's own.
/// `None` where `bytes` is no thin file, and the error only where memory for the names is wanting.
pub fn parse_thin(alloc: Global, bytes: &[u8]) -> Result<Option<ThinFunction>, OutOfMemory>
    ensures found { IfOk result (λ found. IfSome found
        (λ thin. IsThin thin × (bytes.now ≡ thin_text thin))) }
    ensures not_found { IfOk result (λ found. found ≡ None
        → (thin : ThinFunction) → IsThin thin → bytes.now ≢ thin_text thin) }
{
    let Some((name, rest)) = split_head(bytes) else {
        return Ok(None);
    };
    let Some((parameters, rest)) = read_parameters(alloc, rest)? else {
        return Ok(None);
    };
    let Some((left, right)) = split_sum(rest) else {
        return Ok(None);
    };
    if !holds(parameters.as_slice(), left) || !holds(parameters.as_slice(), right) {
        return Ok(None);
    }
    Ok(Some(ThinFunction {
        name: copied(alloc, name)?,
        parameters,
        left: copied(alloc, left)?,
        right: copied(alloc, right)?,
    }))
}
