//! The coercion of a value that meets a declared place.
#![tactic(auto)]

mod base;
mod same;
#[cfg(test)]
mod tests;

ghost use Rattle.std.specs.Prelude.{◌≡◌, Some, None, if◌then◌else◌};
ghost use Rattle.cy_tree.specs.declared.set.NamedSet.{NamedSet};
ghost use Rattle.cy_tree.specs.Bases.{class_eq, is_base};
ghost use Rattle.cy_tree.specs.Coercions.{coercion_of, is_wider, view_eq};

use crate::base::is_base;
use crate::same::{is_signed, same_class, same_elements, same_number, same_view};
pub use base::{as_class_id, base_of, class_declared, kind_of};
use cy_num::CNum;
use cy_tree::{ClassId, Coercion, NamedSet, Ty, ViewTy};
pub use same::same_type;

fn to_number(from: Ty, to: CNum) -> Option<Coercion>
    ensures { (set : NamedSet) → result ≡ coercion_of set from (Ty.Num to) }
{
    match from {
        Ty::Num(kind) if same_number(kind, to) => Some(Coercion::Same),
        Ty::Num(_) | Ty::Bint => Some(Coercion::Convert(to)),
        Ty::Object | Ty::Class(_) if is_signed(to) => Some(Coercion::ToSigned(to)),
        Ty::Object | Ty::Class(_) => Some(Coercion::ToUnsigned(to)),
        Ty::View(_) | Ty::Void => None,
    }
}

fn to_bint(from: Ty) -> Option<Coercion>
    ensures { (set : NamedSet) → result ≡ coercion_of set from Ty.Bint }
{
    match from {
        Ty::Bint => Some(Coercion::Same),
        Ty::Num(_) => Some(Coercion::Truth),
        Ty::Object | Ty::Class(_) => Some(Coercion::ToBint),
        Ty::View(_) | Ty::Void => None,
    }
}

fn to_object(from: Ty) -> Option<Coercion>
    ensures { (set : NamedSet) → result ≡ coercion_of set from Ty.Object }
{
    match from {
        Ty::Object | Ty::Class(_) => Some(Coercion::Same),
        Ty::Bint => Some(Coercion::FromBint),
        Ty::Num(kind) if is_signed(kind) => Some(Coercion::FromSigned),
        Ty::Num(_) => Some(Coercion::FromUnsigned),
        Ty::View(_) | Ty::Void => None,
    }
}

// The class above, then the class below.
fn class_to_class(set: &NamedSet, from: ClassId, to: ClassId) -> Option<Coercion>
    ensures { result ≡ if class_eq from to then Some Coercion.Same else
        if is_base set.now to from then Some Coercion.Same else
        if is_base set.now from to then Some (Coercion.ClassTest to) else None }
{
    if same_class(from, to) || is_base(set, to, from) {
        return Some(Coercion::Same);
    }
    if is_base(set, from, to) {
        return Some(Coercion::ClassTest(to));
    }
    None
}

fn to_class(set: &NamedSet, from: Ty, to: ClassId) -> Option<Coercion>
    ensures { result ≡ coercion_of set.now from (Ty.Class to) }
{
    match from {
        Ty::Object => Some(Coercion::ClassTest(to)),
        Ty::Class(below) => class_to_class(set, below, to),
        Ty::Num(_) | Ty::Bint | Ty::View(_) | Ty::Void => None,
    }
}

// Whether a view promises all that another does.
fn is_wider(from: ViewTy, to: ViewTy) -> bool
    ensures { result ≡ is_wider from to }
{
    same_elements(from, to)
        && (from.contiguous || !to.contiguous)
        && (to.constant || !from.constant)
}

fn view_to_view(from: ViewTy, to: ViewTy) -> Option<Coercion>
    ensures { result ≡ if view_eq from to then Some Coercion.Same else if is_wider from to then Some Coercion.Widen else None }
{
    if same_view(from, to) {
        return Some(Coercion::Same);
    }
    if is_wider(from, to) {
        return Some(Coercion::Widen);
    }
    None
}

fn to_view(from: Ty, to: ViewTy) -> Option<Coercion>
    ensures { (set : NamedSet) → result ≡ coercion_of set from (Ty.View to) }
{
    match from {
        Ty::Object => Some(Coercion::TakeView(to)),
        Ty::View(view) => view_to_view(view, to),
        Ty::Num(_) | Ty::Bint | Ty::Class(_) | Ty::Void => None,
    }
}

/// What happens to a value of one type that meets a place of another; None where it can't (Cython documentation,
/// "Automatic type conversions", "Extension Types", "Typed Memoryviews"). An integer literal where an object is
/// wanted is none of these: it becomes a constant. It takes no memory, and at most 31 steps from a class to its base.
pub fn coercion(set: &NamedSet, from: Ty, to: Ty) -> Option<Coercion>
    ensures { result ≡ coercion_of set.now from to }
{
    match to {
        Ty::Num(kind) => to_number(from, kind),
        Ty::Bint => to_bint(from),
        Ty::Object => to_object(from),
        Ty::Class(class) => to_class(set, from, class),
        Ty::View(view) => to_view(from, view),
        Ty::Void => None,
    }
}
