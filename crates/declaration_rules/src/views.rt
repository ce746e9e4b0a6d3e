//! The rule on views as results, open fields and parameters of `cpdef` methods.
ghost use Rattle.std.specs.Prelude.{◌≡◌};
ghost use Rattle.std.specs.List.{flat_map};
ghost use Rattle.declaration_rules.specs.Declarations.{Headed};
ghost use Rattle.declaration_rules.specs.DeclarationsShown.{declaration_shown, declarations_shown};
ghost use Rattle.declaration_rules.specs.Rules.{has_dims, is_cpdef, maybe_view, param_views, view_breaches, view_place};
ghost use Rattle.first_breach.specs.First.{IsLeastWith};

use crate::declaration::Declaration;
use crate::place::{Least, breaks, has_dims};
use cy_base::FileId;
use cy_tree::{CKind, Heading, Param, TypeNode};
use first_breach::note_if;

fn judge_view(file: FileId, kind: &TypeNode, least: Least) -> Least
    ensures { IsLeastWith least (view_place file kind.now) result }
{
    note_if(
        has_dims(kind.dims.as_slice()),
        least,
        breaks(file, 11, kind.at),
    )
}

fn judge_maybe(file: FileId, kind: &Option<TypeNode>, least: Least) -> Least
    ensures { IsLeastWith least (maybe_view file kind.now) result }
{
    match kind {
        None => least,
        Some(kind) => judge_view(file, kind, least),
    }
}

fn is_cpdef(kind: CKind) -> bool
    ensures { result ≡ is_cpdef kind }
{
    match kind {
        CKind::Cdef => false,
        CKind::Cpdef => true,
    }
}

fn judge_each_param(file: FileId, params: &[Param], least: Least) -> Least
    ensures { IsLeastWith least (flat_map (λ p. maybe_view file p.kind) params.now) result }
{
    let mut least = least;
    for param in params {
        least = judge_maybe(file, &param.kind, least);
    }
    least
}

fn judge_params(file: FileId, is_cpdef_method: bool, params: &[Param], least: Least) -> Least
    ensures { IsLeastWith least (param_views file is_cpdef_method params.now) result }
{
    if is_cpdef_method {
        judge_each_param(file, params, least)
    } else {
        least
    }
}

fn judge_heading(file: FileId, is_method: bool, heading: &Heading, least: Least) -> Least
    ensures { IsLeastWith least (view_breaches file (Headed is_method heading.now)) result }
{
    let least = judge_maybe(file, &heading.result, least);
    let is_cpdef_method = is_method && is_cpdef(heading.kind);
    judge_params(
        file,
        is_cpdef_method,
        heading.header.params.as_slice(),
        least,
    )
}

fn judge(file: FileId, declaration: Declaration<'_>, least: Least) -> Least
    ensures { IsLeastWith least (view_breaches file (declaration_shown declaration.entry)) result }
{
    match declaration {
        Declaration::Defined(_, _) => least,
        Declaration::Headed(is_method, heading) => judge_heading(file, is_method, heading, least),
        Declaration::Opened(kind) => judge_view(file, kind, least),
    }
}

/// No view is a result, an open field or a parameter of a `cpdef` method.
pub(crate) fn judge_views(file: FileId, declarations: &[Declaration<'_>], least: Least) -> Least
    ensures { IsLeastWith least (flat_map (view_breaches file) (declarations_shown declarations.now)) result }
{
    let mut least = least;
    for declaration in declarations {
        least = judge(file, *declaration, least);
    }
    least
}
