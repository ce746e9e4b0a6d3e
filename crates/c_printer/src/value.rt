//! Types and operands.
ghost use Rattle.std.specs.Prelude.{◌≡◌, ◌++◌, ◌∷◌, [], ℕ, ◌<◌, ◌≤◌, suc, negsuc, decimal, codes, IfOk};
ghost use Rattle.c_token.specs.CTokens.{Word};
ghost use Rattle.c_token.specs.Spelled.{AreWordBytes};
ghost use Rattle.c_tree.specs.Values.{type_spelling, result_spelling, exception_name, int_spelling, literal_spelling, long_spelling, negative, value_spelling};
ghost use Rattle.c_tree.specs.Statements.{index};

use crate::mark::{Put, ampersand, close, close_bracket, minus, open, open_bracket};
use crate::name::{numbered, variable};
use c_token::Exception;
use c_tree::{CResult, CType, CValue, Literal, Numbered};
use c_writer::Writer;
use itoa::Buffer;

pub(crate) fn kind(out: Writer, kind: CType) -> Put
    ensures { IfOk result (λ new. new ≡ out ++ type_spelling kind) }
{
    match kind {
        CType::SignedChar => out.text(b"signed char"),
        CType::UnsignedChar => out.text(b"unsigned char"),
        CType::Short => out.text(b"short"),
        CType::UnsignedShort => out.text(b"unsigned short"),
        CType::Int => out.text(b"int"),
        CType::UnsignedInt => out.text(b"unsigned int"),
        CType::Long => out.text(b"long"),
        CType::UnsignedLong => out.text(b"unsigned long"),
        CType::PySsizeT => out.text(b"Py_ssize_t"),
        CType::Object => out.text(b"PyObject *"),
        CType::View => out.text(b"cyc_view"),
        CType::ThreadState => out.text(b"PyThreadState *"),
        CType::LockState => out.text(b"PyGILState_STATE"),
        CType::TypeObject => out.text(b"PyTypeObject *"),
    }
}

pub(crate) fn given(out: Writer, what: CResult) -> Put
    ensures { IfOk result (λ new. new ≡ out ++ result_spelling what) }
{
    match what {
        CResult::Void => out.text(b"void"),
        CResult::Value(it) => kind(out, it),
    }
}

fn exception(out: Writer, it: Exception) -> Put
    ensures { IfOk result (λ new. new ≡ out ++ Word (exception_name it) ∷ []) }
{
    match it {
        Exception::BaseException => out.word(b"PyExc_BaseException", b""),
        Exception::TypeError => out.word(b"PyExc_TypeError", b""),
        Exception::NotImplementedError => out.word(b"PyExc_NotImplementedError", b""),
        Exception::OverflowError => out.word(b"PyExc_OverflowError", b""),
        Exception::ZeroDivisionError => out.word(b"PyExc_ZeroDivisionError", b""),
        Exception::ValueError => out.word(b"PyExc_ValueError", b""),
        Exception::IndexError => out.word(b"PyExc_IndexError", b""),
        Exception::AttributeError => out.word(b"PyExc_AttributeError", b""),
        Exception::SystemError => out.word(b"PyExc_SystemError", b""),
        Exception::NameError => out.word(b"PyExc_NameError", b""),
        Exception::UnboundLocalError => out.word(b"PyExc_UnboundLocalError", b""),
    }
}

// Digits and a suffix.
#[tactic(auto, using(crate::proofs::Digits::digits))]
fn magnitude(out: Writer, digits: u64, suffix: &[u8]) -> Put
    requires { AreWordBytes suffix.now }
    ensures { IfOk result (λ new. new ≡ out ++ Word (decimal digits ++ suffix.now) ∷ []) }
{
    out.word(Buffer::new().format(digits).as_bytes(), suffix)
}

fn negative(out: Writer, digits: u64, suffix: &[u8]) -> Put
    requires { AreWordBytes suffix.now }
    ensures { IfOk result (λ new. new ≡ out ++ (negative (decimal digits ++ suffix.now))) }
{
    let out = minus(open(out)?)?;
    close(magnitude(out, digits, suffix)?)
}

fn int(out: Writer, z: i32) -> Put
    ensures { IfOk result (λ new. new ≡ out ++ int_spelling z) }
{
    if z == i32::MIN {
        return out.text(b"(-2147483647 - 1)");
    }
    if z < 0 {
        return negative(out, u64::from(z.unsigned_abs()), b"");
    }
    magnitude(out, u64::from(z.unsigned_abs()), b"")
}

fn long(out: Writer, z: i64) -> Put
    ensures { IfOk result (λ new. new ≡ out ++ long_spelling z) }
{
    if z == i64::MIN {
        return out.text(b"(-9223372036854775807L - 1L)");
    }
    if z < 0 {
        return negative(out, z.unsigned_abs(), b"L");
    }
    magnitude(out, z.unsigned_abs(), b"L")
}

fn literal(out: Writer, it: Literal) -> Put
    ensures { IfOk result (λ new. new ≡ out ++ literal_spelling it) }
{
    match it {
        Literal::Int(z) => int(out, z),
        Literal::Unsigned(n) => magnitude(out, u64::from(n), b"u"),
        Literal::Long(z) => long(out, z),
        Literal::UnsignedLong(n) => magnitude(out, n, b"uL"),
    }
}

/// Writes `[0]`.
pub(crate) fn index(out: Writer, number: u32) -> Put
    ensures { IfOk result (λ new. new ≡ out ++ index number) }
{
    let out = open_bracket(out)?;
    close_bracket(magnitude(out, u64::from(number), b"")?)
}

fn argument(out: Writer, number: u32) -> Put
    ensures { IfOk result (λ new. new ≡ out ++ value_spelling (CValue.Argument number)) }
{
    index(out.word(b"args", b"")?, number)
}

fn class_object(out: Writer, n: Numbered) -> Put
    ensures { IfOk result (λ new. new ≡ out ++ value_spelling (CValue.ClassObject n)) }
{
    numbered(out.text(b"(PyObject *)&")?, b"cyc_ty_", n)
}

fn type_address(out: Writer, n: Numbered) -> Put
    ensures { IfOk result (λ new. new ≡ out ++ value_spelling (CValue.TypeAddress n)) }
{
    numbered(ampersand(out)?, b"cyc_ty_", n)
}

pub(crate) fn value(out: Writer, k: CValue) -> Put
    ensures { IfOk result (λ new. new ≡ out ++ value_spelling k) }
{
    match k {
        CValue::Variable(x) => variable(out, x),
        CValue::Argument(number) => argument(out, number),
        CValue::Literal(it) => literal(out, it),
        CValue::Null => out.text(b"NULL"),
        CValue::NoneObject => out.text(b"Py_None"),
        CValue::TrueObject => out.text(b"Py_True"),
        CValue::FalseObject => out.text(b"Py_False"),
        CValue::Exception(it) => exception(out, it),
        CValue::ClassObject(n) => class_object(out, n),
        CValue::TypeAddress(n) => type_address(out, n),
        CValue::Definition => out.text(b"&cyc_def"),
    }
}
