//! What heads say (Python/C API manual, "Common Object Structures", "Type Objects").
ghost use Rattle.std.specs.Prelude.{◌≡◌, ◌∷◌, [], IfOk, map};
ghost use Rattle.c_heads.specs.Fixed.{getter_parameters, init_parameters, key_parameters, new_parameters, setter_parameters, wrapper_parameters};
ghost use Rattle.c_state.specs.Calls.{kinds_in, kinds_of, parameters, plain_parameter, result_by, result_kind, same_kinds, same_result, self_parameter};

use c_tree::{CHead, CResult, CType, FixedParameter, Parameter, Variable};
use c_value::{Kind, kind_of, same_kind};
use cy_base::OutOfMemory;
use cy_num::CNum;
use sqlite_items::Items;
use std::alloc::Global;

type Parameters = Items<(Variable, Kind)>;

fn plain(alloc: Global, parameters: &[Parameter]) -> Result<Parameters, OutOfMemory>
    ensures { IfOk result (λ it. it ≡ map plain_parameter parameters.now) }
{
    let mut list = Items::new(alloc);
    for parameter in parameters {
        list.push((
            Variable::Parameter(parameter.number),
            kind_of(parameter.kind),
        ))?;
    }
    Ok(list)
}

fn with_self(alloc: Global) -> Result<Parameters, OutOfMemory>
    ensures { IfOk result (λ it. it ≡ self_parameter ∷ []) }
{
    let mut list = Items::new(alloc);
    list.push((Variable::Fixed(FixedParameter::SelfObject), Kind::Object))?;
    Ok(list)
}

fn of_wrapper(alloc: Global) -> Result<Parameters, OutOfMemory>
    ensures { IfOk result (λ it. it ≡ wrapper_parameters) }
{
    let mut list = with_self(alloc)?;
    list.push((Variable::Fixed(FixedParameter::Arguments), Kind::Arguments))?;
    list.push((
        Variable::Fixed(FixedParameter::ArgumentCount),
        Kind::Number(CNum::I64),
    ))?;
    Ok(list)
}

fn of_new(alloc: Global) -> Result<Parameters, OutOfMemory>
    ensures { IfOk result (λ it. it ≡ new_parameters) }
{
    let mut list = Items::new(alloc);
    list.push((Variable::Fixed(FixedParameter::Type), Kind::TypeObject))?;
    list.push((Variable::Fixed(FixedParameter::Arguments), Kind::Object))?;
    list.push((Variable::Fixed(FixedParameter::Keywords), Kind::Object))?;
    Ok(list)
}

fn of_init(alloc: Global) -> Result<Parameters, OutOfMemory>
    ensures { IfOk result (λ it. it ≡ init_parameters) }
{
    let mut list = with_self(alloc)?;
    list.push((Variable::Fixed(FixedParameter::Arguments), Kind::Object))?;
    list.push((Variable::Fixed(FixedParameter::Keywords), Kind::Object))?;
    Ok(list)
}

fn with_key(alloc: Global) -> Result<Parameters, OutOfMemory>
    ensures { IfOk result (λ it. it ≡ key_parameters) }
{
    let mut list = with_self(alloc)?;
    list.push((Variable::Fixed(FixedParameter::Key), Kind::Object))?;
    Ok(list)
}

fn of_getter(alloc: Global) -> Result<Parameters, OutOfMemory>
    ensures { IfOk result (λ it. it ≡ getter_parameters) }
{
    let mut list = with_self(alloc)?;
    list.push((Variable::Fixed(FixedParameter::Closure), Kind::Closure))?;
    Ok(list)
}

fn of_setter(alloc: Global) -> Result<Parameters, OutOfMemory>
    ensures { IfOk result (λ it. it ≡ setter_parameters) }
{
    let mut list = with_self(alloc)?;
    list.push((Variable::Fixed(FixedParameter::Value), Kind::Object))?;
    list.push((Variable::Fixed(FixedParameter::Closure), Kind::Closure))?;
    Ok(list)
}

/// The parameters of a function, each with its type, or memory is wanting.
pub fn parameters(alloc: Global, head: &CHead) -> Result<Parameters, OutOfMemory>
    ensures { IfOk result (λ it. it ≡ parameters head.now) }
{
    match head {
        CHead::Plain(_, _, list) => plain(alloc, list.as_slice()),
        CHead::Overridable(_, _, list) => plain(alloc, list.as_slice()),
        CHead::Wrapper(_) => of_wrapper(alloc),
        CHead::New(_) => of_new(alloc),
        CHead::Init(_) => of_init(alloc),
        CHead::Dealloc(_) => with_self(alloc),
        CHead::Len(_) => with_self(alloc),
        CHead::Item(_) => with_key(alloc),
        CHead::Has(_) => with_key(alloc),
        CHead::Getter(_) => of_getter(alloc),
        CHead::Setter(_) => of_setter(alloc),
        CHead::Body => Ok(Items::new(alloc)),
        CHead::Initializer(_) => Ok(Items::new(alloc)),
    }
}

/// The types of parameters, or memory is wanting.
pub fn kinds_of(alloc: Global, parameters: &[(Variable, Kind)]) -> Result<Items<Kind>, OutOfMemory>
    ensures { IfOk result (λ it. it ≡ kinds_of parameters.now) }
{
    let mut kinds = Items::new(alloc);
    for parameter in parameters {
        kinds.push(parameter.1)?;
    }
    Ok(kinds)
}

/// What a result's type is, if there is a result.
pub fn result_by(gives: CResult) -> Option<Kind>
    ensures { result ≡ result_by gives }
{
    match gives {
        CResult::Void => None,
        CResult::Value(kind) => Some(kind_of(kind)),
    }
}

/// The type of a function's result, if it has one.
pub fn result_kind(head: &CHead) -> Option<Kind>
    ensures { result ≡ result_kind head.now }
{
    match head {
        CHead::Plain(_, gives, _) => result_by(*gives),
        CHead::Overridable(_, gives, _) => result_by(*gives),
        CHead::Wrapper(_) => Some(Kind::Object),
        CHead::New(_) => Some(Kind::Object),
        CHead::Init(_) => Some(Kind::Number(CNum::I32)),
        CHead::Dealloc(_) => None,
        CHead::Len(_) => Some(Kind::Number(CNum::I64)),
        CHead::Item(_) => Some(Kind::Object),
        CHead::Has(_) => Some(Kind::Number(CNum::I32)),
        CHead::Getter(_) => Some(Kind::Object),
        CHead::Setter(_) => Some(Kind::Number(CNum::I32)),
        CHead::Body => Some(Kind::Number(CNum::I32)),
        CHead::Initializer(_) => Some(Kind::Object),
    }
}

/// The types of a slot's parameters, or memory is wanting.
pub fn kinds_in(alloc: Global, types: &[CType]) -> Result<Items<Kind>, OutOfMemory>
    ensures { IfOk result (λ it. it ≡ kinds_in types.now) }
{
    let mut kinds = Items::new(alloc);
    for kind in types {
        kinds.push(kind_of(*kind))?;
    }
    Ok(kinds)
}

/// Whether two lists of types are the same.
pub fn same_kinds(a: &[Kind], b: &[Kind]) -> bool
    ensures { result ≡ same_kinds a.now b.now }
{
    if a.len() != b.len() {
        return false;
    }
    for at in 0..a.len() {
        if !same_kind(a[at], b[at]) {
            return false;
        }
    }
    true
}

/// Whether two results are of one type.
pub fn same_result(a: Option<Kind>, b: Option<Kind>) -> bool
    ensures { result ≡ same_result a b }
{
    match (a, b) {
        (None, None) => true,
        (Some(a), Some(b)) => same_kind(a, b),
        _ => false,
    }
}
