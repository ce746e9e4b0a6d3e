//! The types that the words of declarations mean.
ghost use Rattle.std.specs.Prelude.{◌≡◌, None, Some};
ghost use Rattle.std.specs.Option.{option_copied};
ghost use Rattle.cy_declared.specs.Types.{as_place, class_type, maybe_meant, name_meant, named_type, or_object, place_type, result_type, type_meant, view_of};

use cy_names::resolve;
use cy_num::CNum;
use cy_scope::{Known, kind_through};
use cy_tree::{NameKind, NamedSet, ScopeId, Ty, TypeName, TypeNode, ViewTy};
use type_uses::{contiguity, element, words_meant};

fn class_type(kind: Option<NameKind>) -> Option<Ty>
    ensures { result ≡ class_type kind }
{
    match kind {
        Some(NameKind::Class(id)) => Some(Ty::Class(id)),
        _ => None,
    }
}

fn named_type(set: &NamedSet, scope: ScopeId, name: &[u8]) -> Option<Ty>
    ensures { result ≡ named_type set.now scope name.now }
{
    if name == b"object".as_slice() {
        return Some(Ty::Object);
    }
    class_type(Some(resolve(set, scope, name)))
}

fn name_meant(known: &Known, set: &NamedSet, scope: ScopeId, name: &TypeName) -> Option<Ty>
    ensures { result ≡ name_meant known.now set.now scope name.now }
{
    match name {
        TypeName::Number(words) => Some(words_meant(*words)),
        TypeName::Named(name) => named_type(set, scope, name.text.bytes()),
        TypeName::Member(outer, name) => {
            let outer = resolve(set, scope, outer.text.bytes());
            class_type(kind_through(known, Some(outer), name.text.bytes()))
        }
    }
}

fn view_of(kind: &TypeNode, elem: Option<CNum>, contiguous: Option<bool>) -> Option<Ty>
    ensures { result ≡ view_of kind.now elem contiguous }
{
    let elem = elem?;
    let contiguous = contiguous?;
    let dims = kind.dims.len();
    if dims >= 4 {
        return None;
    }
    let constant = kind.constant;
    let dims = dims as u8;
    Some(Ty::View(ViewTy {
        elem,
        dims,
        constant,
        contiguous,
    }))
}

/// The type that is meant in a scope; None where a rule on types is broken in it (Cython documentation, "Language
/// Basics", "Typed Memoryviews").
pub fn type_meant(known: &Known, set: &NamedSet, scope: ScopeId, kind: &TypeNode) -> Option<Ty>
    ensures { result ≡ type_meant known.now set.now scope kind.now }
{
    match kind.dims.as_slice() {
        [] => {
            if kind.constant {
                None
            } else {
                name_meant(known, set, scope, &kind.name)
            }
        }
        [_, ..] => view_of(kind, element(&kind.name), contiguity(kind.dims.as_slice())),
    }
}

/// The same, where a type that isn't written is `object`.
pub fn maybe_meant(
    known: &Known,
    set: &NamedSet,
    scope: ScopeId,
    kind: Option<&TypeNode>,
) -> Option<Ty>
    ensures { result ≡ maybe_meant known.now set.now scope (option_copied kind.entry) }
{
    match kind {
        None => Some(Ty::Object),
        Some(kind) => type_meant(known, set, scope, kind),
    }
}

pub(crate) fn or_object(ty: Option<Ty>) -> Ty
    ensures { result ≡ or_object ty }
{
    ty.unwrap_or(Ty::Object)
}

fn as_place(ty: Option<Ty>) -> Option<Ty>
    ensures { result ≡ as_place ty }
{
    match ty {
        Some(Ty::Void) => None,
        _ => ty,
    }
}

/// The type of a result. One in which a rule on types is broken is `object`.
pub fn result_type(known: &Known, set: &NamedSet, scope: ScopeId, kind: Option<&TypeNode>) -> Ty
    ensures { result ≡ result_type known.now set.now scope (option_copied kind.entry) }
{
    or_object(maybe_meant(known, set, scope, kind))
}

/// The type of a parameter, a field or a variable, which isn't `void` either.
pub fn place_type(known: &Known, set: &NamedSet, scope: ScopeId, kind: Option<&TypeNode>) -> Ty
    ensures { result ≡ place_type known.now set.now scope (option_copied kind.entry) }
{
    or_object(as_place(maybe_meant(known, set, scope, kind)))
}
