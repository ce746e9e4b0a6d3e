//! The rules on types as they are written: `void`, views and `const`.
ghost use Rattle.std.specs.Prelude.{◌≡◌, ◌&&◌};
ghost use Rattle.std.specs.List.{flat_map};
ghost use Rattle.declaration_rules.specs.Rules.{form_breaches, has_dims, is_ill_formed, is_void, is_void_words, type_breaches, void_breaches};
ghost use Rattle.first_breach.specs.First.{IsLeastWith};
ghost use Rattle.type_uses.specs.Shown.{all_shown, shown};

use crate::place::{Least, breaks, has_dims};
use cy_base::FileId;
use cy_tree::{NumberWords, TypeName, TypeNode};
use first_breach::note_if;
use type_uses::{TypeUse, contiguity, element};

fn is_void_words(words: NumberWords) -> bool
    ensures { result ≡ is_void_words words }
{
    match words {
        NumberWords::Void => true,
        _ => false,
    }
}

fn is_void(name: &TypeName) -> bool
    ensures { result ≡ is_void name.now }
{
    match name {
        TypeName::Number(words) => is_void_words(*words),
        _ => false,
    }
}

fn is_void_view(kind: &TypeNode) -> bool
    ensures { result ≡ is_void kind.now.name && has_dims kind.now.dims }
{
    is_void(&kind.name) && has_dims(kind.dims.as_slice())
}

fn judge_void(file: FileId, found: TypeUse<'_>, least: Least) -> Least
    ensures { IsLeastWith least (void_breaches file (shown found.entry)) result }
{
    match found {
        TypeUse::PlaceType(kind) => note_if(is_void(&kind.name), least, breaks(file, 14, kind.at)),
        TypeUse::ResultType(kind) => note_if(is_void_view(kind), least, breaks(file, 14, kind.at)),
        TypeUse::Declares(_, _) => least,
    }
}

/// `void` is a result alone.
pub(crate) fn judge_voids(file: FileId, uses: &[TypeUse<'_>], least: Least) -> Least
    ensures { IsLeastWith least (flat_map (void_breaches file) (all_shown uses.now)) result }
{
    let mut least = least;
    for found in uses {
        least = judge_void(file, *found, least);
    }
    least
}

fn is_ill_formed(kind: &TypeNode) -> bool
    ensures { result ≡ is_ill_formed kind.now kind.now.dims }
{
    let dims = kind.dims.as_slice();
    match dims {
        [] => kind.constant,
        [_, ..] => element(&kind.name).is_none() || contiguity(dims).is_none(),
    }
}

fn judge_form(file: FileId, kind: &TypeNode, least: Least) -> Least
    ensures { IsLeastWith least (form_breaches file kind.now) result }
{
    note_if(is_ill_formed(kind), least, breaks(file, 19, kind.at))
}

fn judge_type(file: FileId, found: TypeUse<'_>, least: Least) -> Least
    ensures { IsLeastWith least (type_breaches file (shown found.entry)) result }
{
    match found {
        TypeUse::PlaceType(kind) => judge_form(file, kind, least),
        TypeUse::ResultType(kind) => judge_form(file, kind, least),
        TypeUse::Declares(_, _) => least,
    }
}

/// The elements of views are numbers, `::1` is last, and `const` stands before views alone.
pub(crate) fn judge_types(file: FileId, uses: &[TypeUse<'_>], least: Least) -> Least
    ensures { IsLeastWith least (flat_map (type_breaches file) (all_shown uses.now)) result }
{
    let mut least = least;
    for found in uses {
        least = judge_type(file, *found, least);
    }
    least
}
