//! The signatures of C functions and methods.
ghost use Rattle.std.specs.Prelude.{◌≡◌, ◌++◌, IfOk, OnOk};
ghost use Rattle.std.specs.Option.{option_copied};
ghost use Rattle.cy_declared.specs.Functions.{behind_self, callable_heading, callable_of, clause_meant, param_types, signature_of, value_clause, value_meant, written_clause};
ghost use Rattle.cy_mention.specs.FunctionsShown.{function_shown};

use crate::owned::Noted;
use crate::types::{place_type, result_type};
use cy_around::Callable;
use cy_base::OutOfMemory;
use cy_mention::FunctionRef;
use cy_scope::Known;
use cy_tree::{ClassId, Clause, ClauseNode, Heading, NamedSet, Param, Signature, Ty};
use sqlite_items::Items;
use std::alloc::Global;

/// The number of a clause. Of one that doesn't fit the greatest or least number is kept, which no type has.
pub fn value_meant(negative: bool, value: u128) -> i128
    ensures { result ≡ value_meant negative value }
{
    match i128::try_from(value) {
        Ok(value) => { if negative { -value } else { value } }
        Err(_) => { if negative { i128::MIN } else { i128::MAX } }
    }
}

fn value_clause(maybe: bool, value: i128) -> Clause
    ensures { result ≡ value_clause maybe value }
{
    if maybe {
        Clause::MaybeValue(value)
    } else {
        Clause::Value(value)
    }
}

fn written_clause(clause: &ClauseNode) -> Clause
    ensures { result ≡ written_clause clause.now }
{
    match clause {
        ClauseNode::Star(_) => Clause::Star,
        ClauseNode::Value {
            maybe,
            negative,
            value,
            ..
        } => value_clause(*maybe, value_meant(*negative, *value)),
        ClauseNode::Noexcept(_) => Clause::Noexcept,
    }
}

fn clause_meant(clause: &Option<ClauseNode>) -> Option<Clause>
    ensures { result ≡ clause_meant clause.now }
{
    match clause {
        None => None,
        Some(clause) => Some(written_clause(clause)),
    }
}

fn behind_self(is_method: bool, params: &[Param]) -> &[Param]
    ensures { result.now ≡ behind_self is_method params.now }
{
    if !is_method {
        return params;
    }
    match params {
        [] => &[],
        [_, rest @ ..] => rest,
    }
}

fn note_param_types(
    known: &Known,
    set: &NamedSet,
    module: u32,
    params: &[Param],
    out: &mut Items<Ty>,
) -> Noted
    ensures { OnOk result (out.new ≡ out.old ++ param_types known.now set.now «module» params.now) }
{
    for param in params {
        out.push(place_type(known, set, module, param.kind.as_ref()))?;
    }
    Ok(())
}

/// The signature of a heading in a module: its types are read there, and a method's is without `self` (Cython
/// documentation, "Language Basics", "Error return values").
pub fn signature_of(
    alloc: Global,
    known: &Known,
    set: &NamedSet,
    module: u32,
    is_method: bool,
    heading: &Heading,
) -> Result<Signature, OutOfMemory>
    ensures { IfOk result (λ signature. signature ≡ signature_of known.now set.now «module» is_method heading.now) }
{
    let mut params = Items::new(alloc);
    let written = behind_self(is_method, heading.header.params.as_slice());
    note_param_types(known, set, module, written, &mut params)?;
    Ok(Signature {
        params,
        result: result_type(known, set, module, heading.result.as_ref()),
        clause: clause_meant(&heading.header.clause),
        nogil: heading.header.nogil.is_some(),
    })
}

/// A C function or method as it is called from C.
pub fn callable_heading(
    alloc: Global,
    known: &Known,
    set: &NamedSet,
    module: u32,
    is_method: bool,
    heading: &Heading,
) -> Result<Callable, OutOfMemory>
    ensures { IfOk result (λ callable. callable ≡ callable_heading known.now set.now «module» is_method heading.now) }
{
    let kind = heading.kind;
    let signature = signature_of(alloc, known, set, module, is_method, heading)?;
    Ok(Callable { kind, signature })
}

pub(crate) fn callable_of(
    alloc: Global,
    known: &Known,
    set: &NamedSet,
    module: u32,
    owner: Option<ClassId>,
    function: FunctionRef<'_>,
) -> Result<Option<Callable>, OutOfMemory>
    ensures { IfOk result (λ callable. callable ≡ callable_of known.now set.now «module» owner (function_shown function.entry)) }
{
    match function {
        FunctionRef::Python(_) => Ok(None),
        FunctionRef::Cython(function) => {
            let heading = &function.heading;
            let is_method = owner.is_some();
            let callable = callable_heading(alloc, known, set, module, is_method, heading)?;
            Ok(Some(callable))
        }
    }
}
