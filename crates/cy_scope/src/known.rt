//! What is known of a set's modules before their scopes are made, and what cimports declare.
ghost use Rattle.std.specs.Prelude.{◌≡◌, ◌++◌, IfOk, OnOk, map};
ghost use Rattle.std.specs.List.{flat_map};
ghost use Rattle.std.specs.Option.{option_copied};
ghost use Rattle.cy_mention.specs.Modules.{cimports, idents};
ghost use Rattle.cy_scope.specs.Declarations.{cimported_by, cimports_of, item_from, kind_from, kind_in, kind_through, known_of, module_entry, module_names, names_of, or_global, own_names, shared_by, shared_entry};
ghost use Rattle.cy_scope.specs.Files.{modules, modules_from};
ghost use Rattle.name_table.specs.EntriesShown.{entries_shown};

use crate::declare::{Entries, Noted, note_c_names, note_defs, note_entry};
use crate::files::{items, tops};
use cy_base::OutOfMemory;
use cy_mention::{bound_name, note_item_cimports, note_shared_names, note_top_cimports};
use cy_tree::{Cimport, Ident, ImportItem, ModuleFiles, NameKind, SourceSet};
use name_table::{NameTable, NamedEntry, number};
use sqlite_items::{Items, at};
use std::alloc::Global;

/// The modules of a set by their names, and for each the names that others may cimport from it. The project's own.
#[derive(Drop)]
pub struct Known {
    pub modules: NameTable,
    pub shared: Items<NameTable>,
}

// What the `.pyx` of a module declares itself.
fn own_names(
    alloc: Global,
    set: &SourceSet,
    number: u32,
    files: &ModuleFiles,
) -> Result<NameTable, OutOfMemory>
    ensures { IfOk result (λ table. table ≡ own_names set.now (record { number = number; files = files.now })) }
{
    let tops = tops(set, files);
    let mut entries = Vec::new(alloc);
    note_c_names(alloc, number, tops, &mut entries)?;
    note_defs(alloc, tops, &mut entries)?;
    NameTable::from_entries(alloc, entries.as_slice())
}

fn or_global(kind: Option<NameKind>) -> NameKind
    ensures { result ≡ or_global kind }
{
    kind.unwrap_or(NameKind::Global)
}

fn note_shared<'a>(own: &NameTable, names: &[&'a Ident], out: &mut Entries<'a>) -> Noted
    ensures { OnOk result (entries_shown out.new.items ≡ entries_shown out.old.items ++ map (shared_entry own.now) (idents names.now)) }
{
    for name in names {
        note_entry(*name, or_global(own.get(name.text.bytes())), out)?;
    }
    Ok(())
}

// The classes and functions that the `.pxd` of a module declares, as its `.pyx` gives them.
fn shared_by(
    alloc: Global,
    set: &SourceSet,
    number: u32,
    files: &ModuleFiles,
) -> Result<NameTable, OutOfMemory>
    ensures { IfOk result (λ table. table ≡ shared_by set.now (record { number = number; files = files.now })) }
{
    let own = own_names(alloc, set, number, files)?;
    let mut names = Vec::new(alloc);
    note_shared_names(items(set, files), &mut names)?;
    let mut entries = Vec::new(alloc);
    note_shared(&own, names.as_slice(), &mut entries)?;
    NameTable::from_entries(alloc, entries.as_slice())
}

fn note_module_names<'a>(all: &'a [ModuleFiles], out: &mut Entries<'a>) -> Noted
    ensures { OnOk result (entries_shown out.new.items ≡ entries_shown out.old.items ++ map module_entry (modules_from 0 all.now)) }
{
    for (place, files) in all.iter().enumerate() {
        let name = files.name.bytes();
        let kind = NameKind::Module(number(place)?);
        out.push(NamedEntry { name, kind })?;
    }
    Ok(())
}

fn module_table(alloc: Global, all: &[ModuleFiles]) -> Result<NameTable, OutOfMemory>
    ensures { IfOk result (λ table. table ≡ names_of (map module_entry (modules_from 0 all.now))) }
{
    let mut entries = Vec::new(alloc);
    note_module_names(all, &mut entries)?;
    NameTable::from_entries(alloc, entries.as_slice())
}

fn all_shared(alloc: Global, set: &SourceSet) -> Result<Items<NameTable>, OutOfMemory>
    ensures { IfOk result (λ shared. shared ≡ map (shared_by set.now) (modules set.now)) }
{
    let mut shared = Items::new(alloc);
    for (place, files) in set.order.as_slice().iter().enumerate() {
        shared.push(shared_by(alloc, set, number(place)?, files)?)?;
    }
    Ok(shared)
}

/// What is known of the modules of a set.
pub fn known_of(alloc: Global, set: &SourceSet) -> Result<Known, OutOfMemory>
    ensures { IfOk result (λ known. known ≡ known_of set.now) }
{
    let modules = module_table(alloc, set.order.as_slice())?;
    let shared = all_shared(alloc, set)?;
    Ok(Known { modules, shared })
}

fn kind_in(table: Option<&NameTable>, name: &[u8]) -> Option<NameKind>
    ensures { result ≡ kind_in (option_copied table.entry) name.now }
{
    table?.get(name)
}

/// What a name of a module means to others, where `outer` is that module.
pub fn kind_through(known: &Known, outer: Option<NameKind>, name: &[u8]) -> Option<NameKind>
    ensures { result ≡ kind_through known.now outer name.now }
{
    match outer {
        Some(NameKind::Module(place)) => kind_in(at(known.shared.as_slice(), place as usize), name),
        _ => None,
    }
}

/// What a name means that is cimported from a module; None where that module's `.pxd` lacks it.
pub fn kind_from(known: &Known, outer: &Ident, item: &ImportItem) -> Option<NameKind>
    ensures { result ≡ kind_from known.now outer.now item.now }
{
    let outer = known.modules.get(outer.text.bytes());
    kind_through(known, outer, item.name.text.bytes())
}

fn note_items<'a>(
    known: &Known,
    outer: &Ident,
    all: &'a [ImportItem],
    out: &mut Entries<'a>,
) -> Noted
    ensures { OnOk result (entries_shown out.new.items ≡ entries_shown out.old.items ++ map (item_from known.now outer.now) all.now) }
{
    for item in all {
        note_entry(
            bound_name(item),
            or_global(kind_from(known, outer, item)),
            out,
        )?;
    }
    Ok(())
}

fn note_cimported<'a>(known: &Known, cimport: &'a Cimport, out: &mut Entries<'a>) -> Noted
    ensures { OnOk result (entries_shown out.new.items ≡ entries_shown out.old.items ++ cimported_by known.now cimport.now) }
{
    match cimport {
        Cimport::Module(_, item) => {
            let kind = or_global(known.modules.get(item.name.text.bytes()));
            note_entry(bound_name(item), kind, out)
        }
        Cimport::From(_, outer, all) => note_items(known, outer, all.as_slice(), out),
    }
}

fn note_all_cimported<'a>(known: &Known, all: &[&'a Cimport], out: &mut Entries<'a>) -> Noted
    ensures { OnOk result (entries_shown out.new.items ≡ entries_shown out.old.items ++ flat_map (cimported_by known.now) (cimports all.now)) }
{
    for cimport in all {
        note_cimported(known, *cimport, out)?;
    }
    Ok(())
}

// The cimports of a module: those of its `.pxd`, then those of its `.pyx`.
fn note_cimports<'a>(set: &'a SourceSet, files: &ModuleFiles, out: &mut Vec<&'a Cimport>) -> Noted
    ensures { OnOk result (cimports out.new.items ≡ cimports out.old.items ++ cimports_of set.now files.now) }
{
    note_item_cimports(items(set, files), out)?;
    note_top_cimports(tops(set, files), out)
}

/// The names of a module's scope.
pub fn module_names(
    alloc: Global,
    known: &Known,
    set: &SourceSet,
    number: u32,
    files: &ModuleFiles,
) -> Result<NameTable, OutOfMemory>
    ensures { IfOk result (λ table. table ≡ module_names known.now set.now (record { number = number; files = files.now })) }
{
    let mut cimports = Vec::new(alloc);
    note_cimports(set, files, &mut cimports)?;
    let tops = tops(set, files);
    let mut entries = Vec::new(alloc);
    note_c_names(alloc, number, tops, &mut entries)?;
    note_all_cimported(known, cimports.as_slice(), &mut entries)?;
    note_defs(alloc, tops, &mut entries)?;
    NameTable::from_entries(alloc, entries.as_slice())
}
