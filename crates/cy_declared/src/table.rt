//! Tables from names to what is said of them.
ghost use Rattle.std.specs.Prelude.{◌≡◌, ◌++◌, List, IfOk, OnOk, map};
ghost use Rattle.cy_declared.specs.Members.{MemberEntry};
ghost use Rattle.cy_declared.specs.Named.{first_among, number_of, number_table, numbered_from};
ghost use Rattle.cy_declared.specs.Shown.{members_shown};
ghost use Rattle.cy_declared.specs.Tables.{member_at, member_table};
ghost use Rattle.name_table.specs.EntriesShown.{entries_shown, slices};

use crate::member::{MemberRef, OwnMember};
use crate::owned::Noted;
use cy_base::OutOfMemory;
use cy_tree::NameKind;
use name_table::{NameTable, NamedEntry, number};
use sqlite_items::{Items, at};
use std::alloc::Global;

fn note_numbered<'a>(names: &[&'a [u8]], out: &mut Vec<NamedEntry<'a>>) -> Noted
    ensures { OnOk result (entries_shown out.new.items ≡ entries_shown out.old.items ++ numbered_from 0 (slices names.now)) }
{
    for (place, name) in names.iter().enumerate() {
        let name = *name;
        let kind = NameKind::CVariable(number(place)?);
        out.push(NamedEntry { name, kind })?;
    }
    Ok(())
}

/// Each name once, with the number of its first place.
pub(crate) fn number_table(alloc: Global, names: &[&[u8]]) -> Result<NameTable, OutOfMemory>
    ensures { IfOk result (λ table. table ≡ number_table (slices names.now)) }
{
    let mut entries = Vec::new(alloc);
    note_numbered(names, &mut entries)?;
    NameTable::from_entries(alloc, entries.as_slice())
}

pub(crate) fn number_of(kind: Option<NameKind>) -> Option<u32>
    ensures { result ≡ number_of kind }
{
    match kind {
        Some(NameKind::CVariable(number)) => Some(number),
        _ => None,
    }
}

/// The members of a class, by their names. The project's own.
#[derive(Drop)]
pub struct MemberTable {
    pub names: NameTable,
    pub members: Items<OwnMember>,
}

fn note_names<'a>(entries: &[MemberRef<'a>], out: &mut Vec<&'a [u8]>) -> Noted
    ensures { OnOk result (slices out.new.items ≡ slices out.old.items ++ map (λ e. e.0) (members_shown entries.now)) }
{
    for entry in entries {
        out.push(entry.name)?;
    }
    Ok(())
}

fn note_said(entries: &[MemberRef<'_>], out: &mut Items<OwnMember>) -> Noted
    ensures { OnOk result (out.new ≡ out.old ++ map (λ e. e.1) (members_shown entries.now)) }
{
    for entry in entries {
        out.push(entry.member)?;
    }
    Ok(())
}

pub(crate) fn member_table(
    alloc: Global,
    entries: &[MemberRef<'_>],
) -> Result<MemberTable, OutOfMemory>
    ensures { IfOk result (λ table. table ≡ member_table (members_shown entries.now)) }
{
    let mut names = Vec::new(alloc);
    note_names(entries, &mut names)?;
    let names = number_table(alloc, names.as_slice())?;
    let mut members = Items::new(alloc);
    note_said(entries, &mut members)?;
    Ok(MemberTable { names, members })
}

impl MemberTable {
    /// What the class says first of a name.
    pub fn get(&self, name: &[u8]) -> Option<OwnMember>
        ensures at { result ≡ member_at self.now name.now }
        ensures first { (entries : List MemberEntry) → self.now ≡ member_table entries → result ≡ first_among entries name.now }
    {
        self.find(name)
    }

    fn find(&self, name: &[u8]) -> Option<OwnMember>
        ensures { result ≡ member_at self.now name.now }
    {
        let place = number_of(self.names.get(name))?;
        at(self.members.as_slice(), place as usize).copied()
    }
}
