//! The items of the two files.
ghost use Rattle.std.specs.Prelude.{◌≡◌, IfOk};
ghost use Rattle.std.specs.List.{AllByRecursion};
ghost use Rattle.c_tree.specs.Forms.{IsDeclaration, IsFile, IsFunction, IsHead, IsItem, IsNumber, IsParameter};

use crate::lines::{self, ZERO, copied};
use anyhow::Result;
use c_tree::{
    CFile, CFunction, CHead, CItem, CResult, CType, Declaration, FunctionName, InitialValue,
    MethodRow, Parameter, Place, TableName, Variable,
};
use sqlite_items::Items;
use std::alloc::Global;

// ---- functions

fn parameters(alloc: Global) -> Result<Items<Parameter>>
    ensures { IfOk result (λ all. AllByRecursion IsParameter all) }
{
    let mut all = Items::new(alloc);
    all.push(Parameter {
        kind: CType::Object,
        number: 0,
    })?;
    all.push(Parameter {
        kind: CType::Object,
        number: 1,
    })?;
    Ok(all)
}

fn declared(variable: Variable) -> Declaration
    ensures { result ≡ record { kind = CType.Object; variable = variable; initial = InitialValue.Null } }
{
    Declaration {
        kind: CType::Object,
        variable,
        initial: InitialValue::Null,
    }
}

// `r`, and as many temporaries, from none to two
fn declarations(alloc: Global, temporaries: u32) -> Result<Items<Declaration>>
    ensures { IfOk result (λ all. AllByRecursion IsDeclaration all) }
{
    let mut all = Items::new(alloc);
    all.push(declared(Variable::Returned))?;
    if temporaries > 0 {
        all.push(declared(Variable::Temporary(0)))?;
    }
    if temporaries > 1 {
        all.push(declared(Variable::Temporary(1)))?;
    }
    Ok(all)
}

fn plain(alloc: Global) -> Result<CFunction>
    ensures { IfOk result (λ f. IsFunction f) }
{
    let head = CHead::Plain(ZERO, CResult::Value(CType::Object), parameters(alloc)?);
    Ok(CFunction {
        head,
        declarations: declarations(alloc, 1)?,
        lines: lines::plain(alloc)?,
    })
}

fn wrapper(alloc: Global) -> Result<CFunction>
    ensures { IfOk result (λ f. IsFunction f) }
{
    let head = CHead::Wrapper(ZERO);
    Ok(CFunction {
        head,
        declarations: declarations(alloc, 0)?,
        lines: lines::wrapper(alloc)?,
    })
}

fn initializer(alloc: Global) -> Result<CFunction>
    ensures { IfOk result (λ f. IsFunction f) }
{
    let head = CHead::Initializer(copied(alloc, b"m")?);
    Ok(CFunction {
        head,
        declarations: declarations(alloc, 2)?,
        lines: lines::initializer(alloc)?,
    })
}

// ---- items

#[tactic(auto, unfolding(c_tree::specs::Forms::IsItem))]
fn function(f: CFunction) -> CItem
    requires { IsFunction f }
    ensures { IsItem result }
{
    CItem::Function(f)
}

#[tactic(auto, unfolding(c_tree::specs::Forms::IsItem))]
fn prototype(alloc: Global) -> Result<CItem>
    ensures { IfOk result (λ it. IsItem it) }
{
    let mut kinds = Items::new(alloc);
    kinds.push(CType::Object)?;
    kinds.push(CType::Object)?;
    Ok(CItem::Prototype(
        CResult::Value(CType::Object),
        FunctionName::Plain(ZERO),
        kinds,
    ))
}

#[tactic(auto, unfolding(c_tree::specs::Forms::IsItem))]
fn methods(alloc: Global) -> Result<CItem>
    ensures { IfOk result (λ it. IsItem it) }
{
    let mut rows = Items::new(alloc);
    rows.push(MethodRow {
        name: copied(alloc, b"f")?,
        wrapper: ZERO,
    })?;
    Ok(CItem::Methods(true, TableName::OfFile, rows))
}

#[tactic(auto, unfolding(c_tree::specs::Forms::IsItem))]
fn definition(alloc: Global) -> Result<CItem>
    ensures { IfOk result (λ it. IsItem it) }
{
    Ok(CItem::ModuleDefinition(true, copied(alloc, b"m")?))
}

// What stands before the prototypes of a header.
#[tactic(auto, unfolding(c_tree::specs::Forms::IsItem))]
fn fixed(alloc: Global) -> Result<Items<CItem>>
    ensures { IfOk result (λ items. AllByRecursion IsItem items) }
{
    let mut items = Items::new(alloc);
    items.push(CItem::DefineClean)?;
    items.push(CItem::IncludePython)?;
    items.push(CItem::ViewType)?;
    items.push(CItem::RootStruct)?;
    items.push(CItem::FormatTest)?;
    Ok(items)
}

// What stands before the functions of a module.
#[tactic(auto, unfolding(c_tree::specs::Forms::IsItem))]
fn places(alloc: Global) -> Result<Items<CItem>>
    ensures { IfOk result (λ items. AllByRecursion IsItem items) }
{
    let mut items = Items::new(alloc);
    items.push(CItem::IncludeSet)?;
    items.push(CItem::Static(CType::Object, Place::Module))?;
    items.push(CItem::Static(CType::Object, Place::Dictionary))?;
    items.push(CItem::Static(CType::Object, Place::Builtins))?;
    items.push(CItem::Static(CType::Int, Place::Ready))?;
    Ok(items)
}

#[tactic(auto, using(crate::proofs::Appended::all_append))]
fn with(items: Items<CItem>, it: CItem) -> Result<Items<CItem>>
    requires before { AllByRecursion IsItem items }
    requires item { IsItem it }
    ensures { IfOk result (λ new. AllByRecursion IsItem new) }
{
    let mut items = items;
    items.push(it)?;
    Ok(items)
}

// ---- files

#[tactic(auto, unfolding(c_tree::specs::Forms::IsFile))]
fn file(items: Items<CItem>) -> CFile
    requires { AllByRecursion IsItem items }
    ensures { IsFile result }
{
    CFile { items }
}

pub fn header(alloc: Global) -> Result<CFile>
    ensures { IfOk result (λ f. IsFile f) }
{
    let items = with(fixed(alloc)?, prototype(alloc)?)?;
    Ok(file(items))
}

pub fn module(alloc: Global) -> Result<CFile>
    ensures { IfOk result (λ f. IsFile f) }
{
    let items = with(places(alloc)?, function(plain(alloc)?))?;
    let items = with(items, function(wrapper(alloc)?))?;
    let items = with(items, methods(alloc)?)?;
    let items = with(items, definition(alloc)?)?;
    let items = with(items, function(initializer(alloc)?))?;
    Ok(file(items))
}
