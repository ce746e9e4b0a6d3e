//! Whether types are the same.
ghost use Rattle.std.specs.Prelude.{◌≡◌};
ghost use Rattle.cy_num.specs.Types.{is_signed};
ghost use Rattle.cy_tree.specs.Bases.{class_eq};
ghost use Rattle.cy_tree.specs.Coercions.{number_eq, same_elements, type_eq, view_eq};

use cy_num::CNum;
use cy_tree::{ClassId, Ty, ViewTy};

pub fn is_signed(kind: CNum) -> bool
    ensures { result ≡ is_signed kind }
{
    match kind {
        CNum::I8 | CNum::I16 | CNum::I32 | CNum::I64 => true,
        CNum::U8 | CNum::U16 | CNum::U32 | CNum::U64 => false,
    }
}

pub fn same_number(a: CNum, b: CNum) -> bool
    ensures { result ≡ number_eq a b }
{
    match (a, b) {
        (CNum::I8, CNum::I8) | (CNum::U8, CNum::U8) => true,
        (CNum::I16, CNum::I16) | (CNum::U16, CNum::U16) => true,
        (CNum::I32, CNum::I32) | (CNum::U32, CNum::U32) => true,
        (CNum::I64, CNum::I64) | (CNum::U64, CNum::U64) => true,
        _ => false,
    }
}

pub fn same_class(a: ClassId, b: ClassId) -> bool
    ensures { result ≡ class_eq a b }
{
    a.module == b.module && a.index == b.index
}

pub fn same_elements(a: ViewTy, b: ViewTy) -> bool
    ensures { result ≡ same_elements a b }
{
    same_number(a.elem, b.elem) && a.dims == b.dims
}

pub fn same_view(a: ViewTy, b: ViewTy) -> bool
    ensures { result ≡ view_eq a b }
{
    same_elements(a, b) && a.constant == b.constant && a.contiguous == b.contiguous
}

/// Whether two types are the same.
pub fn same_type(a: Ty, b: Ty) -> bool
    ensures { result ≡ type_eq a b }
{
    match (a, b) {
        (Ty::Num(t), Ty::Num(u)) => same_number(t, u),
        (Ty::Bint, Ty::Bint) => true,
        (Ty::Object, Ty::Object) => true,
        (Ty::Class(c), Ty::Class(d)) => same_class(c, d),
        (Ty::View(v), Ty::View(w)) => same_view(v, w),
        (Ty::Void, Ty::Void) => true,
        _ => false,
    }
}
