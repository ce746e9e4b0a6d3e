//! The members of classes.
ghost use Rattle.std.specs.Prelude.{◌≡◌, ◌+◌, ◌++◌, IfOk, OnOk, length, map};
ghost use Rattle.std.specs.Option.{option_copied};
ghost use Rattle.cy_declared.specs.Members.{class_members, class_named, field_entry, fields_by, members_from, members_here, method_entry, methods_from};
ghost use Rattle.cy_declared.specs.Named.{number_of, numbered};
ghost use Rattle.cy_declared.specs.Shown.{class_refs, members_shown};
ghost use Rattle.cy_declared.specs.Tables.{class_table, member_table};
ghost use Rattle.cy_tree.specs.Functions.{methods_of};
ghost use Rattle.name_table.specs.Entries.{kind_among};
ghost use Rattle.name_table.specs.EntriesShown.{slices};

use crate::field::{note_field_entries, note_fields, note_pxd_classes};
use crate::member::{MemberRef, OwnMember};
use crate::owned::Noted;
use crate::table::{MemberTable, member_table, number_of, number_table};
use cy_base::OutOfMemory;
use cy_mention::note_functions;
use cy_scope::{Known, items, tops};
use cy_tree::{Class, FnId, Member, ModuleFiles, NamedSet, PxdClass, Top};
use name_table::{NameTable, number};
use sqlite_items::{Items, at};
use std::alloc::Global;

// A method of a class, with its number in the module.
fn note_method<'a>(
    module: u32,
    count: u32,
    member: &'a Member,
    out: &mut Vec<MemberRef<'a>>,
) -> Noted
    ensures { OnOk result (members_shown out.new.items ≡ members_shown out.old.items ++ method_entry «module» count member.now) }
{
    match member {
        Member::Def(def) => {
            let name = def.name.text.bytes();
            let member = OwnMember::Def;
            out.push(MemberRef { name, member })?;
        }
        Member::Method(function) => {
            let name = function.heading.name.text.bytes();
            let index = count;
            let member = OwnMember::Method(FnId { module, index });
            out.push(MemberRef { name, member })?;
        }
        _ => {}
    }
    Ok(())
}

// No module has so many functions that their numbers don't fit.
fn methods_behind(before: u32, member: &Member) -> Result<u32, OutOfMemory>
    ensures { IfOk result (λ behind. behind ≡ before + length (methods_of member.now)) }
{
    match member {
        Member::Def(_) | Member::Method(_) => match before.checked_add(1) {
            Some(behind) => Ok(behind),
            None => Err(OutOfMemory),
        },
        _ => Ok(before),
    }
}

fn note_methods<'a>(
    module: u32,
    before: u32,
    members: &'a [Member],
    out: &mut Vec<MemberRef<'a>>,
) -> Noted
    ensures { OnOk result (members_shown out.new.items ≡ members_shown out.old.items ++ methods_from «module» before members.now) }
{
    let mut count = before;
    for member in members {
        note_method(module, count, member, out)?;
        count = methods_behind(count, member)?;
    }
    Ok(())
}

fn note_class_names<'a>(classes: &[&'a PxdClass], out: &mut Vec<&'a [u8]>) -> Noted
    ensures { OnOk result (slices out.new.items ≡ slices out.old.items ++ map (λ c. c.name.text) (class_refs classes.now)) }
{
    for class in classes {
        out.push(class.name.text.bytes())?;
    }
    Ok(())
}

fn class_table(alloc: Global, classes: &[&PxdClass]) -> Result<NameTable, OutOfMemory>
    ensures { IfOk result (λ table. table ≡ class_table (class_refs classes.now)) }
{
    let mut names = Vec::new(alloc);
    note_class_names(classes, &mut names)?;
    number_table(alloc, names.as_slice())
}

fn find_class<'a>(table: &NameTable, classes: &[&'a PxdClass], name: &[u8]) -> Option<&'a PxdClass>
    ensures { option_copied result ≡ numbered (class_refs classes.now) (number_of (kind_among table.now name.now)) }
{
    let place = number_of(table.get(name))?;
    at(classes, place as usize).copied()
}

fn class_named<'a>(table: &NameTable, classes: &[&'a PxdClass], name: &[u8]) -> Option<&'a PxdClass>
    requires { table.now ≡ class_table (class_refs classes.now) }
    ensures { option_copied result ≡ class_named (class_refs classes.now) name.now }
{
    find_class(table, classes, name)
}

/// The members of a class, before which so many functions of the module came.
fn members_of_class(
    alloc: Global,
    known: &Known,
    set: &NamedSet,
    module: u32,
    declared: Option<&PxdClass>,
    before: u32,
    class: &Class,
) -> Result<MemberTable, OutOfMemory>
    ensures { IfOk result (λ table. table ≡ member_table
        (map (field_entry known.now set.now «module») (fields_by (option_copied declared.entry) class.now) ++ methods_from «module» before class.now.members)) }
{
    let mut fields = Vec::new(alloc);
    note_fields(declared, class, &mut fields)?;
    let mut entries = Vec::new(alloc);
    note_field_entries(known, set, module, fields.as_slice(), &mut entries)?;
    note_methods(module, before, class.members.as_slice(), &mut entries)?;
    member_table(alloc, entries.as_slice())
}

fn note_members_here(
    alloc: Global,
    known: &Known,
    set: &NamedSet,
    module: u32,
    table: &NameTable,
    classes: &[&PxdClass],
    before: u32,
    top: &Top,
    out: &mut Items<MemberTable>,
) -> Noted
    requires { table.now ≡ class_table (class_refs classes.now) }
    ensures { OnOk result (out.new ≡ out.old ++ map member_table (members_here known.now set.now «module» (class_refs classes.now) before top.now)) }
{
    if let Top::Class(class) = top {
        let declared = class_named(table, classes, class.name.text.bytes());
        let members = members_of_class(alloc, known, set, module, declared, before, class)?;
        out.push(members)?;
    }
    Ok(())
}

fn note_members_from(
    alloc: Global,
    known: &Known,
    set: &NamedSet,
    module: u32,
    table: &NameTable,
    classes: &[&PxdClass],
    tops: &[Top],
    out: &mut Items<MemberTable>,
) -> Noted
    requires { table.now ≡ class_table (class_refs classes.now) }
    ensures { OnOk result (out.new ≡ out.old ++ map member_table (members_from known.now set.now «module» (class_refs classes.now) 0 tops.now)) }
{
    let mut functions = Vec::new(alloc);
    for top in tops {
        let before = number(functions.len())?;
        note_members_here(alloc, known, set, module, table, classes, before, top, out)?;
        note_functions(top, &mut functions)?;
    }
    Ok(())
}

/// The members of each class of a module.
pub(crate) fn class_members(
    alloc: Global,
    known: &Known,
    set: &NamedSet,
    module: u32,
    files: &ModuleFiles,
) -> Result<Items<MemberTable>, OutOfMemory>
    ensures { IfOk result (λ members. members ≡ map member_table (class_members known.now set.now (record { number = «module»; files = files.now }))) }
{
    let mut classes = Vec::new(alloc);
    note_pxd_classes(items(&set.set, files), &mut classes)?;
    let table = class_table(alloc, classes.as_slice())?;
    let mut members = Items::new(alloc);
    let tops = tops(&set.set, files);
    note_members_from(
        alloc,
        known,
        set,
        module,
        &table,
        classes.as_slice(),
        tops,
        &mut members,
    )?;
    Ok(members)
}
