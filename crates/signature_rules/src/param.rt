//! The rules over the parameters of one function.
ghost use Rattle.std.specs.Prelude.{◌≡◌, false};
ghost use Rattle.std.specs.List.{flat_map};
ghost use Rattle.cy_tree.specs.declared.expr.Expr.{out-Expr};
ghost use Rattle.first_breach.specs.First.{IsLeastWith};
ghost use Rattle.signature_rules.specs.Rules.{behind, c_defaults_breaches, default_breaches, default_place, defaults_breaches, first_breaches, first_of, is_int, is_literal, typed_place};

use crate::place::{breaks, expr_at, param_at};
use cy_base::{FileId, Refusal};
use cy_tree::{Expr, Param, TypeNode, UnaryOp};
use first_breach::note_if;

type Least = Option<Refusal>;

fn is_int(e: &Expr) -> bool
    ensures { result ≡ is_int (out-Expr e.now) }
{
    match e {
        Expr::Int(_, _) => true,
        _ => false,
    }
}

fn is_literal(e: &Expr) -> bool
    ensures { result ≡ is_literal (out-Expr e.now) }
{
    match e {
        Expr::Unary(_, UnaryOp::Negate, x) => is_int(x.get()),
        Expr::Int(_, _) => true,
        Expr::Str(_, _) => true,
        Expr::NoneNode(_) => true,
        Expr::TrueNode(_) => true,
        Expr::FalseNode(_) => true,
        _ => false,
    }
}

fn judge_default(file: FileId, is_behind: bool, param: &Param, least: Least) -> Least
    ensures { IsLeastWith least (default_breaches file is_behind param.now param.now.default) result }
{
    match &param.default {
        None => note_if(is_behind, least, breaks(file, 12, param_at(param))),
        Some(e) => note_if(!is_literal(e), least, breaks(file, 12, expr_at(e))),
    }
}

fn is_behind_next(is_behind: bool, param: &Param) -> bool
    ensures { result ≡ behind is_behind param.now.default }
{
    match &param.default {
        None => is_behind,
        Some(_) => true,
    }
}

/// Each default is a literal, and no parameter without one stands behind one with it.
pub(crate) fn judge_defaults(file: FileId, params: &[Param], least: Least) -> Least
    ensures { IsLeastWith least (defaults_breaches file false params.now) result }
{
    let mut least = least;
    let mut is_behind = false;
    for param in params {
        least = judge_default(file, is_behind, param, least);
        is_behind = is_behind_next(is_behind, param);
    }
    least
}

fn judge_c_default(file: FileId, default: &Option<Expr>, least: Least) -> Least
    ensures { IsLeastWith least (default_place file default.now) result }
{
    match default {
        None => least,
        Some(e) => note_if(true, least, breaks(file, 13, expr_at(e))),
    }
}

fn judge_each_c_default(file: FileId, params: &[Param], least: Least) -> Least
    ensures { IsLeastWith least (flat_map (λ p. default_place file p.default) params.now) result }
{
    let mut least = least;
    for param in params {
        least = judge_c_default(file, &param.default, least);
    }
    least
}

/// A C function has no defaults.
pub(crate) fn judge_c_defaults(file: FileId, is_c: bool, params: &[Param], least: Least) -> Least
    ensures { IsLeastWith least (c_defaults_breaches file is_c params.now) result }
{
    if is_c {
        judge_each_c_default(file, params, least)
    } else {
        least
    }
}

fn judge_type(file: FileId, kind: &Option<TypeNode>, least: Least) -> Least
    ensures { IsLeastWith least (typed_place file kind.now) result }
{
    match kind {
        None => least,
        Some(kind) => note_if(true, least, breaks(file, 29, kind.at)),
    }
}

fn judge_first_of(file: FileId, at: u32, params: &[Param], least: Least) -> Least
    ensures { IsLeastWith least (first_of file at params.now) result }
{
    match params {
        [] => note_if(true, least, breaks(file, 29, at)),
        [first, ..] => judge_type(file, &first.kind, least),
    }
}

/// A method has a first parameter without a type.
pub(crate) fn judge_first(
    file: FileId,
    is_method: bool,
    at: u32,
    params: &[Param],
    least: Least,
) -> Least
    ensures { IsLeastWith least (first_breaches file is_method at params.now) result }
{
    if is_method {
        judge_first_of(file, at, params, least)
    } else {
        least
    }
}
