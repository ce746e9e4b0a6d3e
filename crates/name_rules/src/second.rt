//! The rule that no name is declared a second time in one scope.
ghost use Rattle.std.specs.Prelude.{◌≡◌, [], ◌++◌, OnOk};
ghost use Rattle.std.specs.List.{flat_map};
ghost use Rattle.cy_mention.specs.Modules.{idents};
ghost use Rattle.name_rules.specs.Breaches.{breaks, heading_second, item_second, member_names, pxd_member_names, pxd_member_second, second, top_second};
ghost use Rattle.name_table.specs.Entries.{texts};

use cy_base::{FileId, OutOfMemory, Phase, Refusal, Rule};
use cy_mention::note_parameters;
use cy_tree::{Class, Heading, Ident, Member, NameKind, PxdClass, PxdItem, PxdMember, Top};
use name_table::NameTable;
use std::alloc::Global;

pub(crate) type Refusals = Vec<Refusal>;

pub(crate) type Noted = Result<(), OutOfMemory>;

type Names<'a> = Vec<&'a Ident>;

pub(crate) fn breaks(file: FileId, number: u8, name: &Ident) -> Refusal
    ensures { result ≡ breaks file number name.now }
{
    let phase = Phase::Name;
    Refusal {
        rule: Rule { phase, number },
        file,
        offset: name.at,
    }
}

/// Notes the names that stand among those seen or before them.
pub(crate) fn judge_second(
    alloc: Global,
    file: FileId,
    seen: &mut NameTable,
    names: &[&Ident],
    out: &mut Refusals,
) -> Noted
    ensures { OnOk result (out.new.items ≡ out.old.items ++ second file (texts seen.old) (idents names.now)) }
{
    for name in names {
        let is_new = seen.add(alloc, name.text.bytes(), NameKind::Global)?;
        if !is_new {
            out.push(breaks(file, 1, *name))?;
        }
    }
    Ok(())
}

/// The same where none were seen.
pub(crate) fn judge_names(
    alloc: Global,
    file: FileId,
    names: &[&Ident],
    out: &mut Refusals,
) -> Noted
    ensures { OnOk result (out.new.items ≡ out.old.items ++ second file [] (idents names.now)) }
{
    let mut seen = NameTable::new(alloc);
    judge_second(alloc, file, &mut seen, names, out)
}

fn note_each<'a>(names: &'a [Ident], out: &mut Names<'a>) -> Noted
    ensures { OnOk result (idents out.new.items ≡ idents out.old.items ++ names.now) }
{
    for name in names {
        out.push(name)?;
    }
    Ok(())
}

pub(crate) fn note_member<'a>(member: &'a Member, out: &mut Names<'a>) -> Noted
    ensures { OnOk result (idents out.new.items ≡ idents out.old.items ++ member_names member.now) }
{
    match member {
        Member::Def(def) => out.push(&def.name)?,
        Member::OpenFields(_, _, _, names) => note_each(names.as_slice(), out)?,
        Member::Fields(_, _, names) => note_each(names.as_slice(), out)?,
        Member::Method(function) => out.push(&function.heading.name)?,
        _ => {}
    }
    Ok(())
}

fn note_members<'a>(members: &'a [Member], out: &mut Names<'a>) -> Noted
    ensures { OnOk result (idents out.new.items ≡ idents out.old.items ++ flat_map member_names members.now) }
{
    for member in members {
        note_member(member, out)?;
    }
    Ok(())
}

fn note_pxd_member<'a>(member: &'a PxdMember, out: &mut Names<'a>) -> Noted
    ensures { OnOk result (idents out.new.items ≡ idents out.old.items ++ pxd_member_names member.now) }
{
    match member {
        PxdMember::OpenFields(_, _, _, names) => note_each(names.as_slice(), out)?,
        PxdMember::Fields(_, _, names) => note_each(names.as_slice(), out)?,
        PxdMember::Method(heading) => out.push(&heading.name)?,
        PxdMember::Pass(_) => {}
    }
    Ok(())
}

fn note_pxd_members<'a>(members: &'a [PxdMember], out: &mut Names<'a>) -> Noted
    ensures { OnOk result (idents out.new.items ≡ idents out.old.items ++ flat_map pxd_member_names members.now) }
{
    for member in members {
        note_pxd_member(member, out)?;
    }
    Ok(())
}

fn judge_class(alloc: Global, file: FileId, class: &Class, out: &mut Refusals) -> Noted
    ensures { OnOk result (out.new.items ≡ out.old.items ++ second file [] (flat_map member_names class.now.members)) }
{
    let mut names = Vec::new(alloc);
    note_members(class.members.as_slice(), &mut names)?;
    judge_names(alloc, file, names.as_slice(), out)
}

fn judge_top(alloc: Global, file: FileId, top: &Top, out: &mut Refusals) -> Noted
    ensures { OnOk result (out.new.items ≡ out.old.items ++ top_second file top.now) }
{
    match top {
        Top::Class(class) => judge_class(alloc, file, class, out),
        _ => Ok(()),
    }
}

/// Notes the second members of the classes of a `.pyx`.
pub(crate) fn judge_tops(alloc: Global, file: FileId, tops: &[Top], out: &mut Refusals) -> Noted
    ensures { OnOk result (out.new.items ≡ out.old.items ++ flat_map (top_second file) tops.now) }
{
    for top in tops {
        judge_top(alloc, file, top, out)?;
    }
    Ok(())
}

fn judge_heading(alloc: Global, file: FileId, heading: &Heading, out: &mut Refusals) -> Noted
    ensures { OnOk result (out.new.items ≡ out.old.items ++ heading_second file heading.now) }
{
    let mut names = Vec::new(alloc);
    note_parameters(heading.header.params.as_slice(), &mut names)?;
    judge_names(alloc, file, names.as_slice(), out)
}

fn judge_pxd_member(alloc: Global, file: FileId, member: &PxdMember, out: &mut Refusals) -> Noted
    ensures { OnOk result (out.new.items ≡ out.old.items ++ pxd_member_second file member.now) }
{
    match member {
        PxdMember::Method(heading) => judge_heading(alloc, file, heading, out),
        _ => Ok(()),
    }
}

fn judge_pxd_members(
    alloc: Global,
    file: FileId,
    members: &[PxdMember],
    out: &mut Refusals,
) -> Noted
    ensures { OnOk result (out.new.items ≡ out.old.items ++ flat_map (pxd_member_second file) members.now) }
{
    for member in members {
        judge_pxd_member(alloc, file, member, out)?;
    }
    Ok(())
}

fn judge_pxd_class(alloc: Global, file: FileId, class: &PxdClass, out: &mut Refusals) -> Noted
    ensures { OnOk result (out.new.items ≡ out.old.items ++ (second file [] (flat_map pxd_member_names class.now.members)
        ++ flat_map (pxd_member_second file) class.now.members)) }
{
    let members = class.members.as_slice();
    let mut names = Vec::new(alloc);
    note_pxd_members(members, &mut names)?;
    judge_names(alloc, file, names.as_slice(), out)?;
    judge_pxd_members(alloc, file, members, out)
}

fn judge_item(alloc: Global, file: FileId, item: &PxdItem, out: &mut Refusals) -> Noted
    ensures { OnOk result (out.new.items ≡ out.old.items ++ item_second file item.now) }
{
    match item {
        PxdItem::Class(class) => judge_pxd_class(alloc, file, class, out),
        PxdItem::Function(heading) => judge_heading(alloc, file, heading, out),
        _ => Ok(()),
    }
}

/// Notes the second members and parameters in a `.pxd`.
pub(crate) fn judge_items(
    alloc: Global,
    file: FileId,
    items: &[PxdItem],
    out: &mut Refusals,
) -> Noted
    ensures { OnOk result (out.new.items ≡ out.old.items ++ flat_map (item_second file) items.now) }
{
    for item in items {
        judge_item(alloc, file, item, out)?;
    }
    Ok(())
}
