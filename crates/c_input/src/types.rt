//! Types.
ghost use Rattle.std.specs.Prelude.{◌≡◌, ◌++◌, ◌∷◌, [], List, ℕ, Some, IfSome, ⊤};
ghost use Rattle.c_token.specs.CTokens.{CToken, Word, word, sign};
ghost use Rattle.c_tree.specs.declared.value.CType.{CType as TypeValue};
ghost use Rattle.c_tree.specs.Values.{type_spelling};
ghost use Rattle.c_input.specs.Reads.{Finds, ReadsEvery};
ghost use Rattle.c_input.specs.Types.{type_tokens};

use crate::input::Input;
use crate::piece::Piece;
use c_tree::CType;

// The type with this one word.
fn lone(bytes: &[u8]) -> Option<CType>
    ensures some { IfSome result (λ t. type_tokens t ≡ Word bytes.now ∷ []) }
    ensures every { (t : TypeValue) → type_tokens t ≡ Word bytes.now ∷ [] → result ≡ Some t }
{
    if bytes == b"short".as_slice() {
        return Some(CType::Short);
    }
    if bytes == b"int".as_slice() {
        return Some(CType::Int);
    }
    if bytes == b"long".as_slice() {
        return Some(CType::Long);
    }
    if bytes == b"Py_ssize_t".as_slice() {
        return Some(CType::PySsizeT);
    }
    if bytes == b"cyc_view".as_slice() {
        return Some(CType::View);
    }
    if bytes == b"PyGILState_STATE".as_slice() {
        return Some(CType::LockState);
    }
    None
}

// The type with this word and `*`.
fn pointed(bytes: &[u8]) -> Option<CType>
    ensures some { IfSome result (λ t. type_tokens t ≡ Word bytes.now ∷ sign "*" ∷ []) }
    ensures every { (t : TypeValue) → type_tokens t ≡ Word bytes.now ∷ sign "*" ∷ [] → result ≡ Some t }
{
    if bytes == b"PyObject".as_slice() {
        return Some(CType::Object);
    }
    if bytes == b"PyThreadState".as_slice() {
        return Some(CType::ThreadState);
    }
    if bytes == b"PyTypeObject".as_slice() {
        return Some(CType::TypeObject);
    }
    None
}

// The type with these two words.
fn signed(first: &[u8], second: &[u8]) -> Option<CType>
    ensures some { IfSome result (λ t. type_tokens t ≡ Word first.now ∷ Word second.now ∷ []) }
    ensures every { (t : TypeValue) → type_tokens t ≡ Word first.now ∷ Word second.now ∷ [] → result ≡ Some t }
{
    if first == b"signed".as_slice() {
        return if second == b"char".as_slice() {
            Some(CType::SignedChar)
        } else {
            None
        };
    }
    if first == b"unsigned".as_slice() {
        unsigned(second)
    } else {
        None
    }
}

fn unsigned(second: &[u8]) -> Option<CType>
    ensures some { IfSome result (λ t. type_tokens t ≡ word "unsigned" ∷ Word second.now ∷ []) }
    ensures every { (t : TypeValue) → type_tokens t ≡ word "unsigned" ∷ Word second.now ∷ [] → result ≡ Some t }
{
    if second == b"char".as_slice() {
        return Some(CType::UnsignedChar);
    }
    if second == b"short".as_slice() {
        return Some(CType::UnsignedShort);
    }
    if second == b"int".as_slice() {
        return Some(CType::UnsignedInt);
    }
    if second == b"long".as_slice() {
        return Some(CType::UnsignedLong);
    }
    None
}

fn told(input: &mut Input) -> Option<CType>
    ensures some { Finds (λ _. ⊤) type_tokens input.old result input.new }
    ensures every { ReadsEvery (λ _. ⊤) type_tokens input.old result }
{
    let first = input.word()?;
    if let Some(found) = lone(first) {
        return Some(found);
    }
    if let Some(found) = pointed(first) {
        return if input.fixed(&[Piece::Sign(b"*")]) {
            Some(found)
        } else {
            None
        };
    }
    let second = input.word()?;
    signed(first, second)
}

/// Reads a type.
#[tactic(auto, using(crate::proofs::Spelled::spelled))]
pub fn kind(input: &mut Input) -> Option<CType>
    ensures some { Finds (λ _. ⊤) type_spelling input.old result input.new }
    ensures every { ReadsEvery (λ _. ⊤) type_spelling input.old result }
{
    told(input)
}
