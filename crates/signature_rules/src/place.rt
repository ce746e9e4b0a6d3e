//! Where expressions and parameters stand.
ghost use Rattle.std.specs.Prelude.{◌≡◌};
ghost use Rattle.cy_tree.specs.declared.expr.Expr.{out-Expr};
ghost use Rattle.signature_rules.specs.Rules.{breaks, expr_at, place_of};

use cy_base::{FileId, Phase, Refusal, Rule};
use cy_tree::{Expr, Param};

pub(crate) fn breaks(file: FileId, number: u8, offset: u32) -> Refusal
    ensures { result ≡ breaks file number offset }
{
    let phase = Phase::Static;
    Refusal {
        rule: Rule { phase, number },
        file,
        offset,
    }
}

/// The first byte of an expression.
pub(crate) fn expr_at(e: &Expr) -> u32
    ensures { result ≡ expr_at (out-Expr e.now) }
{
    match e {
        Expr::Name(ident) => ident.at,
        Expr::Conditional(at, _, _, _) => *at,
        Expr::Or(at, _) => *at,
        Expr::And(at, _) => *at,
        Expr::Not(at, _) => *at,
        Expr::Compare(at, _, _, _, _) => *at,
        Expr::BitOr(at, _, _) => *at,
        Expr::BitXor(at, _, _) => *at,
        Expr::BitAnd(at, _, _) => *at,
        Expr::Shift(at, _, _) => *at,
        Expr::Sum(at, _, _) => *at,
        Expr::Term(at, _, _) => *at,
        Expr::Unary(at, _, _) => *at,
        Expr::Cast(at, _, _, _) => *at,
        Expr::Postfix(at, _, _) => *at,
        Expr::Int(at, _) => *at,
        Expr::Str(at, _) => *at,
        Expr::NoneNode(at) => *at,
        Expr::TrueNode(at) => *at,
        Expr::FalseNode(at) => *at,
        Expr::Tuple(at, _) => *at,
        Expr::ListNode(at, _) => *at,
        Expr::Dict(at, _) => *at,
    }
}

/// The first byte of a parameter: its type's, or its name's.
pub(crate) fn param_at(param: &Param) -> u32
    ensures { result ≡ place_of param.now.kind param.now.name }
{
    match &param.kind {
        Some(kind) => kind.at,
        None => param.name.at,
    }
}
