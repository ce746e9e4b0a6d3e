//! The rules on names in the files of a module.
ghost use Rattle.std.specs.Prelude.{◌≡◌, [], ◌++◌, IfOk, OnOk};
ghost use Rattle.std.specs.List.{flat_map};
ghost use Rattle.cy_mention.specs.Modules.{cimport_names, idents, item_cimports, item_names, items_said, module_said, shared_names, top_cimports, top_names};
ghost use Rattle.cy_scope.specs.Declarations.{seen};
ghost use Rattle.cy_tree.specs.Functions.{functions};
ghost use Rattle.name_rules.specs.Breaches.{cimport_refusals, files_refusals, function_refusals, mention_refusals, module_refusals, name_refusal, pxd_refusals, pyx_refusals, pyx_second, refusals_of_pxd, refusals_with, second};
ghost use Rattle.name_table.specs.Entries.{texts};

use crate::function::judge_functions;
use crate::given::{judge_all_given, judge_each_name};
use crate::mention::{Here, judge_cimports, judge_mentions};
use crate::second::{Noted, Refusals, judge_items, judge_names, judge_second, judge_tops};
use cy_base::{FileId, OutOfMemory};
use cy_mention::{
    note_all_cimport_names, note_all_functions, note_all_top_names, note_item_cimports,
    note_item_names, note_items, note_module, note_shared_names, note_top_cimports,
};
use cy_scope::{Known, items, module_names, seen, tops};
use cy_tree::{ModuleFiles, PxdItem, SourceSet, Top};
use name_table::{NameTable, number};
use std::alloc::Global;

// ---- a `.pxd`

fn judge_item_names(alloc: Global, file: FileId, items: &[PxdItem], out: &mut Refusals) -> Noted
    ensures { OnOk result (out.new.items ≡ out.old.items ++ second file [] (flat_map item_names items.now)) }
{
    let mut names = Vec::new(alloc);
    note_item_names(items, &mut names)?;
    judge_names(alloc, file, names.as_slice(), out)
}

fn judge_items_said(alloc: Global, here: Here<'_>, items: &[PxdItem], out: &mut Refusals) -> Noted
    ensures { OnOk result (out.new.items ≡ out.old.items
        ++ flat_map (mention_refusals here.entry.file here.entry.known.now [] here.entry.names.now) (items_said items.now)) }
{
    let mut mentions = Vec::new(alloc);
    note_items(items, &mut mentions)?;
    let locals = NameTable::new(alloc);
    judge_mentions(here, &locals, mentions.as_slice(), out)
}

fn judge_item_cimports(
    alloc: Global,
    here: Here<'_>,
    items: &[PxdItem],
    out: &mut Refusals,
) -> Noted
    ensures { OnOk result (out.new.items ≡ out.old.items ++ flat_map (cimport_refusals here.entry.file here.entry.known.now) (flat_map item_cimports items.now)) }
{
    let mut cimports = Vec::new(alloc);
    note_item_cimports(items, &mut cimports)?;
    judge_cimports(here.file, here.known, cimports.as_slice(), out)
}

fn judge_pxd(alloc: Global, here: Here<'_>, items: &[PxdItem], out: &mut Refusals) -> Noted
    ensures { OnOk result (out.new.items ≡ out.old.items ++ pxd_refusals here.entry.file here.entry.known.now here.entry.names.now items.now) }
{
    judge_item_names(alloc, here.file, items, out)?;
    judge_items(alloc, here.file, items, out)?;
    judge_items_said(alloc, here, items, out)?;
    judge_item_cimports(alloc, here, items, out)
}

// ---- a `.pyx`

// The texts of the names that the `.pxd` cimports.
fn cimported_names(alloc: Global, items: &[PxdItem]) -> Result<NameTable, OutOfMemory>
    ensures { IfOk result (λ table. texts table ≡ seen (flat_map cimport_names (flat_map item_cimports items.now))) }
{
    let mut cimports = Vec::new(alloc);
    note_item_cimports(items, &mut cimports)?;
    let mut names = Vec::new(alloc);
    note_all_cimport_names(cimports.as_slice(), &mut names)?;
    seen(alloc, names.as_slice())
}

// The texts of the names that the `.pxd` declares.
fn shared_names(alloc: Global, items: &[PxdItem]) -> Result<NameTable, OutOfMemory>
    ensures { IfOk result (λ table. texts table ≡ seen (flat_map shared_names items.now)) }
{
    let mut names = Vec::new(alloc);
    note_shared_names(items, &mut names)?;
    seen(alloc, names.as_slice())
}

fn judge_top_names(
    alloc: Global,
    file: FileId,
    items: &[PxdItem],
    tops: &[Top],
    out: &mut Refusals,
) -> Noted
    ensures { OnOk result (out.new.items ≡ out.old.items
        ++ second file (seen (flat_map cimport_names (flat_map item_cimports items.now))) (flat_map top_names tops.now)) }
{
    let mut before = cimported_names(alloc, items)?;
    let mut names = Vec::new(alloc);
    note_all_top_names(alloc, tops, &mut names)?;
    judge_second(alloc, file, &mut before, names.as_slice(), out)
}

// The cimports of names that the `.pxd` declares.
fn judge_cimported(
    alloc: Global,
    file: FileId,
    items: &[PxdItem],
    tops: &[Top],
    out: &mut Refusals,
) -> Noted
    ensures { OnOk result (out.new.items ≡ out.old.items
        ++ flat_map (name_refusal file (seen (flat_map shared_names items.now))) (flat_map cimport_names (flat_map top_cimports tops.now))) }
{
    let shared = shared_names(alloc, items)?;
    let mut cimports = Vec::new(alloc);
    note_top_cimports(tops, &mut cimports)?;
    let mut names = Vec::new(alloc);
    note_all_cimport_names(cimports.as_slice(), &mut names)?;
    judge_each_name(file, &shared, names.as_slice(), out)
}

fn judge_pyx_second(
    alloc: Global,
    file: FileId,
    items: &[PxdItem],
    tops: &[Top],
    out: &mut Refusals,
) -> Noted
    ensures { OnOk result (out.new.items ≡ out.old.items ++ pyx_second file items.now tops.now) }
{
    judge_top_names(alloc, file, items, tops, out)?;
    judge_cimported(alloc, file, items, tops, out)?;
    judge_tops(alloc, file, tops, out)?;
    judge_all_given(alloc, file, items, tops, out)
}

fn judge_module_said(alloc: Global, here: Here<'_>, tops: &[Top], out: &mut Refusals) -> Noted
    ensures { OnOk result (out.new.items ≡ out.old.items
        ++ flat_map (mention_refusals here.entry.file here.entry.known.now [] here.entry.names.now) (module_said tops.now)) }
{
    let mut mentions = Vec::new(alloc);
    note_module(tops, &mut mentions)?;
    let locals = NameTable::new(alloc);
    judge_mentions(here, &locals, mentions.as_slice(), out)
}

fn judge_top_cimports(alloc: Global, here: Here<'_>, tops: &[Top], out: &mut Refusals) -> Noted
    ensures { OnOk result (out.new.items ≡ out.old.items ++ flat_map (cimport_refusals here.entry.file here.entry.known.now) (flat_map top_cimports tops.now)) }
{
    let mut cimports = Vec::new(alloc);
    note_top_cimports(tops, &mut cimports)?;
    judge_cimports(here.file, here.known, cimports.as_slice(), out)
}

fn judge_all_functions(alloc: Global, here: Here<'_>, tops: &[Top], out: &mut Refusals) -> Noted
    ensures { OnOk result (out.new.items ≡ out.old.items
        ++ flat_map (function_refusals here.entry.file here.entry.known.now here.entry.names.now) (functions tops.now)) }
{
    let mut functions = Vec::new(alloc);
    note_all_functions(tops, &mut functions)?;
    judge_functions(alloc, here, functions.as_slice(), out)
}

fn judge_pyx(
    alloc: Global,
    here: Here<'_>,
    items: &[PxdItem],
    tops: &[Top],
    out: &mut Refusals,
) -> Noted
    ensures { OnOk result (out.new.items ≡ out.old.items ++ pyx_refusals here.entry.file here.entry.known.now here.entry.names.now items.now tops.now) }
{
    judge_pyx_second(alloc, here.file, items, tops, out)?;
    judge_module_said(alloc, here, tops, out)?;
    judge_top_cimports(alloc, here, tops, out)?;
    judge_all_functions(alloc, here, tops, out)
}

// ---- modules

fn judge_some_pxd(
    alloc: Global,
    file: Option<FileId>,
    known: &Known,
    names: &NameTable,
    items: &[PxdItem],
    out: &mut Refusals,
) -> Noted
    ensures { OnOk result (out.new.items ≡ out.old.items ++ refusals_of_pxd file known.now names.now items.now) }
{
    let Some(file) = file else {
        return Ok(());
    };
    let here = Here { file, known, names };
    judge_pxd(alloc, here, items, out)
}

fn judge_some_pyx(
    alloc: Global,
    file: FileId,
    known: &Known,
    names: &NameTable,
    items: &[PxdItem],
    tops: &[Top],
    out: &mut Refusals,
) -> Noted
    ensures { OnOk result (out.new.items ≡ out.old.items ++ pyx_refusals file known.now names.now items.now tops.now) }
{
    let here = Here { file, known, names };
    judge_pyx(alloc, here, items, tops, out)
}

fn judge_files(
    alloc: Global,
    files: &ModuleFiles,
    known: &Known,
    names: &NameTable,
    items: &[PxdItem],
    tops: &[Top],
    out: &mut Refusals,
) -> Noted
    ensures { OnOk result (out.new.items ≡ out.old.items ++ files_refusals known.now files.now names.now items.now tops.now) }
{
    judge_some_pxd(alloc, files.pxd, known, names, items, out)?;
    judge_some_pyx(alloc, files.pyx, known, names, items, tops, out)
}

fn judge_module(
    alloc: Global,
    known: &Known,
    set: &SourceSet,
    number: u32,
    files: &ModuleFiles,
    out: &mut Refusals,
) -> Noted
    ensures { OnOk result (out.new.items ≡ out.old.items ++ module_refusals known.now set.now (record { number = number; files = files.now })) }
{
    let names = module_names(alloc, known, set, number, files)?;
    let items = items(set, files);
    let tops = tops(set, files);
    judge_files(alloc, files, known, &names, items, tops, out)
}

/// Notes the rules on names that a set breaks, each with its place.
pub fn refusals_with(alloc: Global, known: &Known, set: &SourceSet, out: &mut Refusals) -> Noted
    ensures { OnOk result (out.new.items ≡ out.old.items ++ refusals_with known.now set.now) }
{
    for (place, files) in set.order.as_slice().iter().enumerate() {
        judge_module(alloc, known, set, number(place)?, files, out)?;
    }
    Ok(())
}
