//! What the words of a type mean.
ghost use Rattle.std.specs.Prelude.{◌≡◌};
ghost use Rattle.type_uses.specs.Words.{as_number, contiguity, element, last_is_contiguous, words_meant};

use cy_num::CNum;
use cy_tree::{Dim, NumberWords, Ty, TypeName};

/// The type of number words, of `bint` and of `void` (Cython documentation, "Language Basics", C types).
pub fn words_meant(words: NumberWords) -> Ty
    ensures { result ≡ words_meant words }
{
    match words {
        NumberWords::SignedChar => Ty::Num(CNum::I8),
        NumberWords::UnsignedChar => Ty::Num(CNum::U8),
        NumberWords::Short | NumberWords::ShortInt => Ty::Num(CNum::I16),
        NumberWords::UnsignedShort | NumberWords::UnsignedShortInt => Ty::Num(CNum::U16),
        NumberWords::Int => Ty::Num(CNum::I32),
        NumberWords::Unsigned | NumberWords::UnsignedInt => Ty::Num(CNum::U32),
        NumberWords::Long
        | NumberWords::LongInt
        | NumberWords::LongLong
        | NumberWords::LongLongInt
        | NumberWords::PySsizeT => Ty::Num(CNum::I64),
        NumberWords::UnsignedLong
        | NumberWords::UnsignedLongInt
        | NumberWords::UnsignedLongLong
        | NumberWords::UnsignedLongLongInt
        | NumberWords::SizeT => Ty::Num(CNum::U64),
        NumberWords::Bint => Ty::Bint,
        NumberWords::Void => Ty::Void,
    }
}

fn as_number(ty: Ty) -> Option<CNum>
    ensures { result ≡ as_number ty }
{
    match ty {
        Ty::Num(kind) => Some(kind),
        _ => None,
    }
}

/// The element of a view: a C number type (Cython documentation, "Typed Memoryviews").
pub fn element(name: &TypeName) -> Option<CNum>
    ensures { result ≡ element name.now }
{
    match name {
        TypeName::Number(words) => as_number(words_meant(*words)),
        _ => None,
    }
}

fn last_is_contiguous(step: Option<u128>) -> Option<bool>
    ensures { result ≡ last_is_contiguous step }
{
    match step {
        None => Some(false),
        Some(n) => { if n == 1 { Some(true) } else { None } }
    }
}

/// Whether the dimensions of a view end with `::1`; None where a `::` isn't last or has another number.
pub fn contiguity(dims: &[Dim]) -> Option<bool>
    ensures { result ≡ contiguity dims.now }
{
    match dims {
        [] => Some(false),
        [last] => last_is_contiguous(last.step),
        [first, rest @ ..] => {
            if first.step.is_some() {
                return None;
            }
            contiguity(rest)
        }
    }
}
