//! Words that name objects of the API, and words that begin with a digit.
ghost use Rattle.std.specs.Prelude.{◌≡◌, Some, IfSome};
ghost use Rattle.c_tree.specs.declared.value.CValue.{CValue as ValueTree};
ghost use Rattle.c_operand.specs.Values.{begins_number, object_word, IsObject};

use c_tree::CValue;
use c_word::exception;

// Whether a digit stands first.
pub fn begins_number(word: &[u8]) -> bool
    ensures { result ≡ begins_number word.now }
{
    match word {
        [] => false,
        [first, ..] => first.is_ascii_digit(),
    }
}

// The object with this name (Python/C API manual, "The None Object", "Boolean Objects", "Standard Exceptions").
pub fn object(word: &[u8]) -> Option<CValue>
    ensures some { IfSome result (λ v. IsObject v × (object_word v ≡ word.now)) }
    ensures every { (v : ValueTree) → IsObject v → object_word v ≡ word.now → result ≡ Some v }
{
    if word == b"NULL".as_slice() {
        return Some(CValue::Null);
    }
    if word == b"Py_None".as_slice() {
        return Some(CValue::NoneObject);
    }
    if word == b"Py_True".as_slice() {
        return Some(CValue::TrueObject);
    }
    if word == b"Py_False".as_slice() {
        return Some(CValue::FalseObject);
    }
    let found = exception(word)?;
    Some(CValue::Exception(found))
}
