//! The rules on types, targets and cimported names.
ghost use Rattle.std.specs.Prelude.{◌≡◌, ◌++◌, ◌||◌, OnOk, bytes_eq, codes};
ghost use Rattle.std.specs.List.{flat_map};
ghost use Rattle.cy_mention.specs.Modules.{cimports};
ghost use Rattle.cy_mention.specs.Shown.{all_shown, shown};
ghost use Rattle.cy_scope.specs.Declarations.{kind_through};
ghost use Rattle.name_rules.specs.Breaches.{breaks_if, cimport_refusals, is_class, is_fixed, lacking, meaning, mention_refusals, type_refusals};

use crate::second::{Noted, Refusals, breaks};
use cy_base::FileId;
use cy_mention::Mention;
use cy_scope::{Known, kind_from, kind_through};
use cy_tree::{Cimport, Ident, ImportItem, NameKind, TypeName};
use name_table::NameTable;

/// Where names are judged: a file, what is known of the set, and the names of the module.
#[derive(Clone, Copy)]
pub(crate) struct Here<'a> {
    pub file: FileId,
    pub known: &'a Known,
    pub names: &'a NameTable,
}

fn meaning(here: Here<'_>, locals: &NameTable, name: &[u8]) -> Option<NameKind>
    ensures { result ≡ meaning locals.now here.entry.names.now name.now }
{
    match locals.get(name) {
        Some(kind) => Some(kind),
        None => here.names.get(name),
    }
}

fn is_class(kind: Option<NameKind>) -> bool
    ensures { result ≡ is_class kind }
{
    matches!(kind, Some(NameKind::Class(_)))
}

fn is_fixed(kind: Option<NameKind>) -> bool
    ensures { result ≡ is_fixed kind }
{
    matches!(
        kind,
        Some(NameKind::CFunction(_) | NameKind::Class(_) | NameKind::Module(_))
    )
}

fn is_named_type(here: Here<'_>, locals: &NameTable, name: &[u8]) -> bool
    ensures { result ≡ (bytes_eq name.now (codes "object") || is_class (meaning locals.now here.entry.names.now name.now)) }
{
    name == b"object".as_slice() || is_class(meaning(here, locals, name))
}

fn is_member_type(here: Here<'_>, locals: &NameTable, outer: &[u8], name: &[u8]) -> bool
    ensures { result ≡ is_class (kind_through here.entry.known.now (meaning locals.now here.entry.names.now outer.now) name.now) }
{
    is_class(kind_through(here.known, meaning(here, locals, outer), name))
}

fn judge_type(here: Here<'_>, locals: &NameTable, name: &TypeName, out: &mut Refusals) -> Noted
    ensures { OnOk result (out.new.items ≡ out.old.items ++ type_refusals here.entry.file here.entry.known.now locals.now here.entry.names.now name.now) }
{
    match name {
        TypeName::Number(_) => {}
        TypeName::Named(name) => {
            if !is_named_type(here, locals, name.text.bytes()) {
                out.push(breaks(here.file, 2, name))?;
            }
        }
        TypeName::Member(outer, name) => {
            if !is_member_type(here, locals, outer.text.bytes(), name.text.bytes()) {
                out.push(breaks(here.file, 2, outer))?;
            }
        }
    }
    Ok(())
}

fn judge_target(here: Here<'_>, locals: &NameTable, name: &Ident, out: &mut Refusals) -> Noted
    ensures { OnOk result (out.new.items ≡ out.old.items ++ breaks_if (is_fixed (meaning locals.now here.entry.names.now name.now.text)) here.entry.file 3 name.now) }
{
    if is_fixed(meaning(here, locals, name.text.bytes())) {
        out.push(breaks(here.file, 3, name))?;
    }
    Ok(())
}

fn judge_mention(
    here: Here<'_>,
    locals: &NameTable,
    mention: Mention<'_>,
    out: &mut Refusals,
) -> Noted
    ensures { OnOk result (out.new.items ≡ out.old.items ++ mention_refusals here.entry.file here.entry.known.now locals.now here.entry.names.now (shown mention.entry)) }
{
    match mention {
        Mention::TypeUse(name) => judge_type(here, locals, name, out),
        Mention::Target(name) => judge_target(here, locals, name, out),
        _ => Ok(()),
    }
}

/// Notes the types that are none, and the targets that can't be changed.
pub(crate) fn judge_mentions(
    here: Here<'_>,
    locals: &NameTable,
    mentions: &[Mention<'_>],
    out: &mut Refusals,
) -> Noted
    ensures { OnOk result (out.new.items ≡ out.old.items
        ++ flat_map (mention_refusals here.entry.file here.entry.known.now locals.now here.entry.names.now) (all_shown mentions.now)) }
{
    for mention in mentions {
        judge_mention(here, locals, *mention, out)?;
    }
    Ok(())
}

fn judge_item(
    file: FileId,
    known: &Known,
    outer: &Ident,
    item: &ImportItem,
    out: &mut Refusals,
) -> Noted
    ensures { OnOk result (out.new.items ≡ out.old.items ++ lacking file known.now outer.now item.now) }
{
    if kind_from(known, outer, item).is_none() {
        out.push(breaks(file, 5, &item.name))?;
    }
    Ok(())
}

fn judge_items(
    file: FileId,
    known: &Known,
    outer: &Ident,
    all: &[ImportItem],
    out: &mut Refusals,
) -> Noted
    ensures { OnOk result (out.new.items ≡ out.old.items ++ flat_map (lacking file known.now outer.now) all.now) }
{
    for item in all {
        judge_item(file, known, outer, item, out)?;
    }
    Ok(())
}

fn judge_cimport(file: FileId, known: &Known, cimport: &Cimport, out: &mut Refusals) -> Noted
    ensures { OnOk result (out.new.items ≡ out.old.items ++ cimport_refusals file known.now cimport.now) }
{
    match cimport {
        Cimport::Module(_, _) => Ok(()),
        Cimport::From(_, outer, all) => judge_items(file, known, outer, all.as_slice(), out),
    }
}

/// Notes the cimported names that their module's `.pxd` lacks.
pub(crate) fn judge_cimports(
    file: FileId,
    known: &Known,
    all: &[&Cimport],
    out: &mut Refusals,
) -> Noted
    ensures { OnOk result (out.new.items ≡ out.old.items ++ flat_map (cimport_refusals file known.now) (cimports all.now)) }
{
    for cimport in all {
        judge_cimport(file, known, *cimport, out)?;
    }
    Ok(())
}
