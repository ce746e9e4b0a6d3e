//! Members of a class that its `.pxd` declares and its `.pyx` declares a second time.
ghost use Rattle.std.specs.Prelude.{◌≡◌, ◌∷◌, [], ◌++◌, IfOk, OnOk, map};
ghost use Rattle.std.specs.List.{flat_map};
ghost use Rattle.std.specs.Option.{option_copied};
ghost use Rattle.cy_mention.specs.Modules.{idents};
ghost use Rattle.cy_scope.specs.Declarations.{names_of};
ghost use Rattle.name_rules.specs.Breaches.{breaks_if, given_in, given_refusals, member_names, name_refusal, top_given};
ghost use Rattle.name_rules.specs.Given.{classes_of, field_entry, is_field, member_table, members_of, places_from, pxd_classes, pxd_member_entries};
ghost use Rattle.name_rules.specs.GivenShown.{class_refs};
ghost use Rattle.name_table.specs.Entries.{kind_among, texts};
ghost use Rattle.name_table.specs.EntriesShown.{entries_shown};

use crate::second::{Noted, Refusals, breaks, note_member};
use cy_base::{FileId, OutOfMemory};
use cy_tree::{Class, ClassId, Ident, Member, NameKind, PxdClass, PxdItem, PxdMember, Top};
use name_table::{NameTable, NamedEntry, number};
use sqlite_items::{Items, at};
use std::alloc::Global;

type Entries<'a> = Vec<NamedEntry<'a>>;

/// The classes that a `.pxd` declares: their numbers by their names, and by these their members. The project's own.
#[derive(Drop)]
pub struct Classes {
    pub places: NameTable,
    pub members: Items<NameTable>,
}

// ---- what the `.pxd` declares

fn note_class<'a>(item: &'a PxdItem, out: &mut Vec<&'a PxdClass>) -> Noted
    ensures { OnOk result (class_refs out.new.items ≡ class_refs out.old.items ++ pxd_classes item.now) }
{
    if let PxdItem::Class(class) = item {
        out.push(class)?;
    }
    Ok(())
}

fn note_classes<'a>(items: &'a [PxdItem], out: &mut Vec<&'a PxdClass>) -> Noted
    ensures { OnOk result (class_refs out.new.items ≡ class_refs out.old.items ++ flat_map pxd_classes items.now) }
{
    for item in items {
        note_class(item, out)?;
    }
    Ok(())
}

fn note_entry<'a>(name: &'a Ident, kind: NameKind, out: &mut Entries<'a>) -> Noted
    ensures { OnOk result (entries_shown out.new.items ≡ entries_shown out.old.items ++ (name.now.text, kind) ∷ []) }
{
    let name = name.text.bytes();
    out.push(NamedEntry { name, kind })?;
    Ok(())
}

fn note_fields<'a>(names: &'a [Ident], out: &mut Entries<'a>) -> Noted
    ensures { OnOk result (entries_shown out.new.items ≡ entries_shown out.old.items ++ map field_entry names.now) }
{
    for name in names {
        note_entry(name, NameKind::CVariable(0), out)?;
    }
    Ok(())
}

fn note_pxd_member<'a>(member: &'a PxdMember, out: &mut Entries<'a>) -> Noted
    ensures { OnOk result (entries_shown out.new.items ≡ entries_shown out.old.items ++ pxd_member_entries member.now) }
{
    match member {
        PxdMember::OpenFields(_, _, _, names) => note_fields(names.as_slice(), out),
        PxdMember::Fields(_, _, names) => note_fields(names.as_slice(), out),
        PxdMember::Method(heading) => note_entry(&heading.name, NameKind::Global, out),
        PxdMember::Pass(_) => Ok(()),
    }
}

fn note_pxd_members<'a>(members: &'a [PxdMember], out: &mut Entries<'a>) -> Noted
    ensures { OnOk result (entries_shown out.new.items ≡ entries_shown out.old.items ++ flat_map pxd_member_entries members.now) }
{
    for member in members {
        note_pxd_member(member, out)?;
    }
    Ok(())
}

fn member_table(alloc: Global, class: &PxdClass) -> Result<NameTable, OutOfMemory>
    ensures { IfOk result (λ table. table ≡ member_table class.now) }
{
    let mut entries = Vec::new(alloc);
    note_pxd_members(class.members.as_slice(), &mut entries)?;
    NameTable::from_entries(alloc, entries.as_slice())
}

fn member_tables(alloc: Global, classes: &[&PxdClass]) -> Result<Items<NameTable>, OutOfMemory>
    ensures { IfOk result (λ tables. tables ≡ map member_table (class_refs classes.now)) }
{
    let mut tables = Items::new(alloc);
    for class in classes {
        tables.push(member_table(alloc, *class)?)?;
    }
    Ok(tables)
}

fn note_places<'a>(classes: &[&'a PxdClass], out: &mut Entries<'a>) -> Noted
    ensures { OnOk result (entries_shown out.new.items ≡ entries_shown out.old.items ++ places_from 0 (class_refs classes.now)) }
{
    for (place, class) in classes.iter().enumerate() {
        let index = number(place)?;
        let id = ClassId { module: 0, index };
        note_entry(&class.name, NameKind::Class(id), out)?;
    }
    Ok(())
}

fn places(alloc: Global, classes: &[&PxdClass]) -> Result<NameTable, OutOfMemory>
    ensures { IfOk result (λ table. table ≡ names_of (places_from 0 (class_refs classes.now))) }
{
    let mut entries = Vec::new(alloc);
    note_places(classes, &mut entries)?;
    NameTable::from_entries(alloc, entries.as_slice())
}

fn classes_of(alloc: Global, items: &[PxdItem]) -> Result<Classes, OutOfMemory>
    ensures { IfOk result (λ classes. classes ≡ classes_of (flat_map pxd_classes items.now)) }
{
    let mut classes = Vec::new(alloc);
    note_classes(items, &mut classes)?;
    let places = places(alloc, classes.as_slice())?;
    let members = member_tables(alloc, classes.as_slice())?;
    Ok(Classes { places, members })
}

fn members_of<'a>(classes: &'a Classes, name: &[u8]) -> Option<&'a NameTable>
    ensures { option_copied result ≡ members_of classes.now name.now }
{
    match classes.places.get(name) {
        Some(NameKind::Class(id)) => at(classes.members.as_slice(), id.index as usize),
        _ => None,
    }
}

// ---- what the `.pyx` declares again

fn judge_name(file: FileId, declared: &NameTable, name: &Ident, out: &mut Refusals) -> Noted
    ensures { OnOk result (out.new.items ≡ out.old.items ++ name_refusal file (texts declared.now) name.now) }
{
    if declared.has(name.text.bytes()) {
        out.push(breaks(file, 1, name))?;
    }
    Ok(())
}

/// Notes the names that are declared already.
pub(crate) fn judge_each_name(
    file: FileId,
    declared: &NameTable,
    names: &[&Ident],
    out: &mut Refusals,
) -> Noted
    ensures { OnOk result (out.new.items ≡ out.old.items ++ flat_map (name_refusal file (texts declared.now)) (idents names.now)) }
{
    for name in names {
        judge_name(file, declared, *name, out)?;
    }
    Ok(())
}

fn is_field(kind: Option<NameKind>) -> bool
    ensures { result ≡ is_field kind }
{
    matches!(kind, Some(NameKind::CVariable(_)))
}

// A method of which the name is a field's.
fn judge_method(file: FileId, declared: &NameTable, name: &Ident, out: &mut Refusals) -> Noted
    ensures { OnOk result (out.new.items ≡ out.old.items ++ breaks_if (is_field (kind_among declared.now name.now.text)) file 1 name.now) }
{
    if is_field(declared.get(name.text.bytes())) {
        out.push(breaks(file, 1, name))?;
    }
    Ok(())
}

// Fields of which the names are any members'.
fn judge_fields(
    alloc: Global,
    file: FileId,
    declared: &NameTable,
    member: &Member,
    out: &mut Refusals,
) -> Noted
    ensures { OnOk result (out.new.items ≡ out.old.items ++ flat_map (name_refusal file (texts declared.now)) (member_names member.now)) }
{
    let mut names = Vec::new(alloc);
    note_member(member, &mut names)?;
    judge_each_name(file, declared, names.as_slice(), out)
}

fn judge_member(
    alloc: Global,
    file: FileId,
    declared: &NameTable,
    member: &Member,
    out: &mut Refusals,
) -> Noted
    ensures { OnOk result (out.new.items ≡ out.old.items ++ given_refusals file declared.now member.now) }
{
    match member {
        Member::Def(def) => judge_method(file, declared, &def.name, out),
        Member::Method(function) => judge_method(file, declared, &function.heading.name, out),
        _ => judge_fields(alloc, file, declared, member, out),
    }
}

fn judge_members(
    alloc: Global,
    file: FileId,
    declared: &NameTable,
    members: &[Member],
    out: &mut Refusals,
) -> Noted
    ensures { OnOk result (out.new.items ≡ out.old.items ++ flat_map (given_refusals file declared.now) members.now) }
{
    for member in members {
        judge_member(alloc, file, declared, member, out)?;
    }
    Ok(())
}

fn judge_given(
    alloc: Global,
    file: FileId,
    declared: Option<&NameTable>,
    class: &Class,
    out: &mut Refusals,
) -> Noted
    ensures { OnOk result (out.new.items ≡ out.old.items ++ given_in file (option_copied declared.entry) class.now.members) }
{
    match declared {
        Some(declared) => judge_members(alloc, file, declared, class.members.as_slice(), out),
        None => Ok(()),
    }
}

fn judge_class(
    alloc: Global,
    file: FileId,
    classes: &Classes,
    class: &Class,
    out: &mut Refusals,
) -> Noted
    ensures { OnOk result (out.new.items ≡ out.old.items ++ given_in file (members_of classes.now class.now.name.text) class.now.members) }
{
    judge_given(
        alloc,
        file,
        members_of(classes, class.name.text.bytes()),
        class,
        out,
    )
}

fn judge_top(alloc: Global, file: FileId, classes: &Classes, top: &Top, out: &mut Refusals) -> Noted
    ensures { OnOk result (out.new.items ≡ out.old.items ++ top_given file classes.now top.now) }
{
    match top {
        Top::Class(class) => judge_class(alloc, file, classes, class, out),
        _ => Ok(()),
    }
}

fn judge_tops(
    alloc: Global,
    file: FileId,
    classes: &Classes,
    tops: &[Top],
    out: &mut Refusals,
) -> Noted
    ensures { OnOk result (out.new.items ≡ out.old.items ++ flat_map (top_given file classes.now) tops.now) }
{
    for top in tops {
        judge_top(alloc, file, classes, top, out)?;
    }
    Ok(())
}

/// Notes the members that the `.pxd` declares as something else.
pub(crate) fn judge_all_given(
    alloc: Global,
    file: FileId,
    items: &[PxdItem],
    tops: &[Top],
    out: &mut Refusals,
) -> Noted
    ensures { OnOk result (out.new.items ≡ out.old.items ++ flat_map (top_given file (classes_of (flat_map pxd_classes items.now))) tops.now) }
{
    let classes = classes_of(alloc, items)?;
    judge_tops(alloc, file, &classes, tops, out)
}
