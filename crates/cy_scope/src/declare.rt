//! What the items of a `.pyx` declare.
ghost use Rattle.std.specs.Prelude.{◌≡◌, [], ◌∷◌, ◌++◌, OnOk, map};
ghost use Rattle.std.specs.List.{flat_map};
ghost use Rattle.cy_mention.specs.Modules.{class_names, def_names, idents, variables_of};
ghost use Rattle.cy_scope.specs.Declarations.{c_names, classes_from, function_entry, functions_from, plain, variables_from};
ghost use Rattle.name_table.specs.EntriesShown.{entries_shown};

use cy_base::OutOfMemory;
use cy_mention::{note_all_variables, note_class_names, note_def_names, note_functions};
use cy_tree::{ClassId, FnId, Ident, NameKind, Top};
use name_table::{NamedEntry, number};
use std::alloc::Global;

pub(crate) type Entries<'a> = Vec<NamedEntry<'a>>;

pub(crate) type Noted = Result<(), OutOfMemory>;

pub(crate) fn note_entry<'a>(name: &'a Ident, kind: NameKind, out: &mut Entries<'a>) -> Noted
    ensures { OnOk result (entries_shown out.new.items ≡ entries_shown out.old.items ++ (name.now.text, kind) ∷ []) }
{
    let name = name.text.bytes();
    out.push(NamedEntry { name, kind })?;
    Ok(())
}

fn note_variables<'a>(names: &[&'a Ident], out: &mut Entries<'a>) -> Noted
    ensures { OnOk result (entries_shown out.new.items ≡ entries_shown out.old.items ++ variables_from 0 (idents names.now)) }
{
    for (index, name) in names.iter().enumerate() {
        note_entry(*name, NameKind::CVariable(number(index)?), out)?;
    }
    Ok(())
}

fn note_classes<'a>(module: u32, names: &[&'a Ident], out: &mut Entries<'a>) -> Noted
    ensures { OnOk result (entries_shown out.new.items ≡ entries_shown out.old.items ++ classes_from «module» 0 (idents names.now)) }
{
    for (place, name) in names.iter().enumerate() {
        let index = number(place)?;
        note_entry(*name, NameKind::Class(ClassId { module, index }), out)?;
    }
    Ok(())
}

fn note_function<'a>(module: u32, count: usize, top: &'a Top, out: &mut Entries<'a>) -> Noted
    ensures { OnOk result (entries_shown out.new.items ≡ entries_shown out.old.items ++ function_entry «module» count top.now) }
{
    if let Top::Function(function) = top {
        let index = number(count)?;
        let kind = NameKind::CFunction(FnId { module, index });
        note_entry(&function.heading.name, kind, out)?;
    }
    Ok(())
}

fn note_c_functions<'a>(alloc: Global, module: u32, tops: &'a [Top], out: &mut Entries<'a>) -> Noted
    ensures { OnOk result (entries_shown out.new.items ≡ entries_shown out.old.items ++ functions_from «module» 0 tops.now) }
{
    let mut before = Vec::new(alloc);
    for top in tops {
        note_function(module, before.len(), top, out)?;
        note_functions(top, &mut before)?;
    }
    Ok(())
}

pub(crate) fn note_all_plain<'a>(names: &[&'a Ident], out: &mut Entries<'a>) -> Noted
    ensures { OnOk result (entries_shown out.new.items ≡ entries_shown out.old.items ++ map plain (idents names.now)) }
{
    for name in names {
        note_entry(*name, NameKind::Global, out)?;
    }
    Ok(())
}

// Variables, functions and classes.
pub(crate) fn note_c_names<'a>(
    alloc: Global,
    module: u32,
    tops: &'a [Top],
    out: &mut Entries<'a>,
) -> Noted
    ensures { OnOk result (entries_shown out.new.items ≡ entries_shown out.old.items ++ c_names «module» tops.now) }
{
    let mut variables = Vec::new(alloc);
    note_all_variables(alloc, tops, &mut variables)?;
    note_variables(variables.as_slice(), out)?;
    note_c_functions(alloc, module, tops, out)?;
    let mut classes = Vec::new(alloc);
    note_class_names(tops, &mut classes)?;
    note_classes(module, classes.as_slice(), out)
}

pub(crate) fn note_defs<'a>(alloc: Global, tops: &'a [Top], out: &mut Entries<'a>) -> Noted
    ensures { OnOk result (entries_shown out.new.items ≡ entries_shown out.old.items ++ map plain (flat_map def_names tops.now)) }
{
    let mut defs = Vec::new(alloc);
    note_def_names(tops, &mut defs)?;
    note_all_plain(defs.as_slice(), out)
}
