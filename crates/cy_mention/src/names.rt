//! The names that mentions and items speak of, in text order.
ghost use Rattle.std.specs.Prelude.{◌≡◌, ◌++◌, OnOk, map};
ghost use Rattle.std.specs.List.{flat_map};
ghost use Rattle.cy_mention.specs.Mentions.{alias_or};
ghost use Rattle.cy_mention.specs.Modules.{cimport_names, cimports, class_names, declared_by, def_names, idents, item_cimports, item_names, made_global, made_local, parameters, shared_names, top_cimports, top_names, variables_of};
ghost use Rattle.cy_mention.specs.Shown.{all_shown, shown};

use crate::mention::{Mention, note_all};
use cy_base::OutOfMemory;
use cy_tree::{Cimport, Declared, Ident, ImportItem, Node, Param, PxdItem, Stmt, Top};
use std::alloc::Global;

type Names<'a> = Vec<&'a Ident>;

type Noted = Result<(), OutOfMemory>;

// ---- of mentions

fn note_declaration<'a>(mention: Mention<'a>, out: &mut Names<'a>) -> Noted
    ensures { OnOk result (idents out.new.items ≡ idents out.old.items ++ declared_by (shown mention.entry)) }
{
    if let Mention::Declares(name) = mention {
        out.push(name)?;
    }
    Ok(())
}

/// Appends the names that `cdef` declares.
pub fn note_declarations<'a>(mentions: &[Mention<'a>], out: &mut Names<'a>) -> Noted
    ensures { OnOk result (idents out.new.items ≡ idents out.old.items ++ flat_map declared_by (all_shown mentions.now)) }
{
    for mention in mentions {
        note_declaration(*mention, out)?;
    }
    Ok(())
}

fn note_local<'a>(mention: Mention<'a>, out: &mut Names<'a>) -> Noted
    ensures { OnOk result (idents out.new.items ≡ idents out.old.items ++ made_local (shown mention.entry)) }
{
    match mention {
        Mention::Target(name) | Mention::Bound(name) | Mention::Declares(name) => out.push(name)?,
        _ => {}
    }
    Ok(())
}

/// Appends the names that mentions make local.
pub fn note_locals<'a>(mentions: &[Mention<'a>], out: &mut Names<'a>) -> Noted
    ensures { OnOk result (idents out.new.items ≡ idents out.old.items ++ flat_map made_local (all_shown mentions.now)) }
{
    for mention in mentions {
        note_local(*mention, out)?;
    }
    Ok(())
}

fn note_global<'a>(mention: Mention<'a>, out: &mut Names<'a>) -> Noted
    ensures { OnOk result (idents out.new.items ≡ idents out.old.items ++ made_global (shown mention.entry)) }
{
    if let Mention::Globals(name) = mention {
        out.push(name)?;
    }
    Ok(())
}

/// Appends the names that `global` names.
pub fn note_made_global<'a>(mentions: &[Mention<'a>], out: &mut Names<'a>) -> Noted
    ensures { OnOk result (idents out.new.items ≡ idents out.old.items ++ flat_map made_global (all_shown mentions.now)) }
{
    for mention in mentions {
        note_global(*mention, out)?;
    }
    Ok(())
}

/// Appends the names of parameters.
pub fn note_parameters<'a>(params: &'a [Param], out: &mut Names<'a>) -> Noted
    ensures { OnOk result (idents out.new.items ≡ idents out.old.items ++ parameters params.now) }
{
    for param in params {
        out.push(&param.name)?;
    }
    Ok(())
}

// ---- of items

/// The name that an import or a cimport binds.
pub fn bound_name(item: &ImportItem) -> &Ident
    ensures { result.now ≡ alias_or item.now.alias item.now.name }
{
    match &item.alias {
        Some(alias) => alias,
        None => &item.name,
    }
}

fn note_bound<'a>(items: &'a [ImportItem], out: &mut Names<'a>) -> Noted
    ensures { OnOk result (idents out.new.items ≡ idents out.old.items ++ map (λ i. alias_or i.alias i.name) items.now) }
{
    for item in items {
        out.push(bound_name(item))?;
    }
    Ok(())
}

/// Appends the names that a cimport binds.
pub fn note_cimport_names<'a>(cimport: &'a Cimport, out: &mut Names<'a>) -> Noted
    ensures { OnOk result (idents out.new.items ≡ idents out.old.items ++ cimport_names cimport.now) }
{
    match cimport {
        Cimport::Module(_, item) => {
            out.push(bound_name(item))?;
            Ok(())
        }
        Cimport::From(_, _, items) => note_bound(items.as_slice(), out),
    }
}

/// Appends the names that cimports bind.
pub fn note_all_cimport_names<'a>(all: &[&'a Cimport], out: &mut Names<'a>) -> Noted
    ensures { OnOk result (idents out.new.items ≡ idents out.old.items ++ flat_map cimport_names (cimports all.now)) }
{
    for cimport in all {
        note_cimport_names(*cimport, out)?;
    }
    Ok(())
}

fn note_declared_names<'a>(names: &'a [Declared], out: &mut Names<'a>) -> Noted
    ensures { OnOk result (idents out.new.items ≡ idents out.old.items ++ map (λ d. d.name) names.now) }
{
    for declared in names {
        out.push(&declared.name)?;
    }
    Ok(())
}

fn note_stmt_variables<'a>(alloc: Global, stmt: &'a Stmt, out: &mut Names<'a>) -> Noted
    ensures { OnOk result (idents out.new.items ≡ idents out.old.items ++ variables_of (Top.Stmt stmt.now)) }
{
    let mut mentions = Vec::new(alloc);
    note_all(Node::Stmt(stmt), &mut mentions)?;
    note_declarations(mentions.as_slice(), out)
}

fn note_variables<'a>(alloc: Global, top: &'a Top, out: &mut Names<'a>) -> Noted
    ensures { OnOk result (idents out.new.items ≡ idents out.old.items ++ variables_of top.now) }
{
    match top {
        Top::Variables(variables) => note_declared_names(variables.names.as_slice(), out),
        Top::Stmt(stmt) => note_stmt_variables(alloc, stmt, out),
        _ => Ok(()),
    }
}

/// Appends the C variables of a module.
pub fn note_all_variables<'a>(alloc: Global, tops: &'a [Top], out: &mut Names<'a>) -> Noted
    ensures { OnOk result (idents out.new.items ≡ idents out.old.items ++ flat_map variables_of tops.now) }
{
    for top in tops {
        note_variables(alloc, top, out)?;
    }
    Ok(())
}

fn note_top_names<'a>(alloc: Global, top: &'a Top, out: &mut Names<'a>) -> Noted
    ensures { OnOk result (idents out.new.items ≡ idents out.old.items ++ top_names top.now) }
{
    match top {
        Top::Cimport(cimport) => note_cimport_names(cimport, out)?,
        Top::Class(class) => out.push(&class.name)?,
        Top::Function(function) => out.push(&function.heading.name)?,
        Top::Variables(_) => note_variables(alloc, top, out)?,
        Top::Def(def) => out.push(&def.name)?,
        Top::Stmt(_) => note_variables(alloc, top, out)?,
    }
    Ok(())
}

/// Appends the names that the items of a `.pyx` declare.
pub fn note_all_top_names<'a>(alloc: Global, tops: &'a [Top], out: &mut Names<'a>) -> Noted
    ensures { OnOk result (idents out.new.items ≡ idents out.old.items ++ flat_map top_names tops.now) }
{
    for top in tops {
        note_top_names(alloc, top, out)?;
    }
    Ok(())
}

fn note_class_name<'a>(top: &'a Top, out: &mut Names<'a>) -> Noted
    ensures { OnOk result (idents out.new.items ≡ idents out.old.items ++ class_names top.now) }
{
    if let Top::Class(class) = top {
        out.push(&class.name)?;
    }
    Ok(())
}

/// Appends the names of classes.
pub fn note_class_names<'a>(tops: &'a [Top], out: &mut Names<'a>) -> Noted
    ensures { OnOk result (idents out.new.items ≡ idents out.old.items ++ flat_map class_names tops.now) }
{
    for top in tops {
        note_class_name(top, out)?;
    }
    Ok(())
}

fn note_def_name<'a>(top: &'a Top, out: &mut Names<'a>) -> Noted
    ensures { OnOk result (idents out.new.items ≡ idents out.old.items ++ def_names top.now) }
{
    if let Top::Def(def) = top {
        out.push(&def.name)?;
    }
    Ok(())
}

/// Appends the names of `def` functions.
pub fn note_def_names<'a>(tops: &'a [Top], out: &mut Names<'a>) -> Noted
    ensures { OnOk result (idents out.new.items ≡ idents out.old.items ++ flat_map def_names tops.now) }
{
    for top in tops {
        note_def_name(top, out)?;
    }
    Ok(())
}

fn note_shared_name<'a>(item: &'a PxdItem, out: &mut Names<'a>) -> Noted
    ensures { OnOk result (idents out.new.items ≡ idents out.old.items ++ shared_names item.now) }
{
    match item {
        PxdItem::Class(class) => out.push(&class.name)?,
        PxdItem::Function(heading) => out.push(&heading.name)?,
        _ => {}
    }
    Ok(())
}

/// Appends the classes and functions that a `.pxd` declares.
pub fn note_shared_names<'a>(items: &'a [PxdItem], out: &mut Names<'a>) -> Noted
    ensures { OnOk result (idents out.new.items ≡ idents out.old.items ++ flat_map shared_names items.now) }
{
    for item in items {
        note_shared_name(item, out)?;
    }
    Ok(())
}

fn note_item_name<'a>(item: &'a PxdItem, out: &mut Names<'a>) -> Noted
    ensures { OnOk result (idents out.new.items ≡ idents out.old.items ++ item_names item.now) }
{
    match item {
        PxdItem::Cimport(cimport) => note_cimport_names(cimport, out)?,
        PxdItem::Pass(_) => {}
        PxdItem::Class(class) => out.push(&class.name)?,
        PxdItem::Function(heading) => out.push(&heading.name)?,
    }
    Ok(())
}

/// Appends the names that the items of a `.pxd` declare.
pub fn note_item_names<'a>(items: &'a [PxdItem], out: &mut Names<'a>) -> Noted
    ensures { OnOk result (idents out.new.items ≡ idents out.old.items ++ flat_map item_names items.now) }
{
    for item in items {
        note_item_name(item, out)?;
    }
    Ok(())
}

fn note_top_cimport<'a>(top: &'a Top, out: &mut Vec<&'a Cimport>) -> Noted
    ensures { OnOk result (cimports out.new.items ≡ cimports out.old.items ++ top_cimports top.now) }
{
    if let Top::Cimport(cimport) = top {
        out.push(cimport)?;
    }
    Ok(())
}

/// Appends the cimports of a `.pyx`.
pub fn note_top_cimports<'a>(tops: &'a [Top], out: &mut Vec<&'a Cimport>) -> Noted
    ensures { OnOk result (cimports out.new.items ≡ cimports out.old.items ++ flat_map top_cimports tops.now) }
{
    for top in tops {
        note_top_cimport(top, out)?;
    }
    Ok(())
}

fn note_item_cimport<'a>(item: &'a PxdItem, out: &mut Vec<&'a Cimport>) -> Noted
    ensures { OnOk result (cimports out.new.items ≡ cimports out.old.items ++ item_cimports item.now) }
{
    if let PxdItem::Cimport(cimport) = item {
        out.push(cimport)?;
    }
    Ok(())
}

/// Appends the cimports of a `.pxd`.
pub fn note_item_cimports<'a>(items: &'a [PxdItem], out: &mut Vec<&'a Cimport>) -> Noted
    ensures { OnOk result (cimports out.new.items ≡ cimports out.old.items ++ flat_map item_cimports items.now) }
{
    for item in items {
        note_item_cimport(item, out)?;
    }
    Ok(())
}
