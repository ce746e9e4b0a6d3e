//! The locals of functions.
ghost use Rattle.std.specs.Prelude.{◌≡◌, [], ◌++◌, IfOk, OnOk};
ghost use Rattle.std.specs.List.{flat_map};
ghost use Rattle.cy_mention.specs.FunctionsShown.{function_shown};
ghost use Rattle.cy_mention.specs.Modules.{idents, made_local, parameters, params_of};
ghost use Rattle.cy_mention.specs.Shown.{all_shown};
ghost use Rattle.cy_scope.specs.Declarations.{function_names, globals_of, seen, unless_global};
ghost use Rattle.name_table.specs.Entries.{numbered, once, texts};
ghost use Rattle.name_table.specs.EntriesShown.{slices};

use crate::declare::{Noted, note_all_plain};
use cy_base::OutOfMemory;
use cy_mention::{FunctionRef, Mention, note_locals, note_made_global, note_parameters};
use cy_tree::Ident;
use name_table::NameTable;
use std::alloc::Global;

/// The texts of names, each once.
pub fn seen(alloc: Global, names: &[&Ident]) -> Result<NameTable, OutOfMemory>
    ensures { IfOk result (λ table. texts table ≡ seen (idents names.now)) }
{
    let mut entries = Vec::new(alloc);
    note_all_plain(names, &mut entries)?;
    NameTable::from_entries(alloc, entries.as_slice())
}

// The names that a `global` of the function names.
fn globals_of(alloc: Global, mentions: &[Mention<'_>]) -> Result<NameTable, OutOfMemory>
    ensures { IfOk result (λ table. texts table ≡ globals_of (all_shown mentions.now)) }
{
    let mut names = Vec::new(alloc);
    note_made_global(mentions, &mut names)?;
    seen(alloc, names.as_slice())
}

fn note_unless_global<'a>(
    globals: &NameTable,
    names: &[&'a Ident],
    out: &mut Vec<&'a [u8]>,
) -> Noted
    ensures { OnOk result (slices out.new.items ≡ slices out.old.items ++ unless_global (texts globals.now) (idents names.now)) }
{
    for name in names {
        let text = name.text.bytes();
        if !globals.has(text) {
            out.push(text)?;
        }
    }
    Ok(())
}

// The names that may be local: the parameters, then what the body says.
fn note_names<'a>(
    function: FunctionRef<'a>,
    mentions: &[Mention<'a>],
    out: &mut Vec<&'a Ident>,
) -> Noted
    ensures { OnOk result (idents out.new.items ≡ idents out.old.items
        ++ (parameters (params_of (function_shown function.entry)) ++ flat_map made_local (all_shown mentions.now))) }
{
    note_parameters(function.params(), out)?;
    note_locals(mentions, out)
}

fn locals_among(
    alloc: Global,
    globals: &NameTable,
    names: &[&Ident],
) -> Result<NameTable, OutOfMemory>
    ensures { IfOk result (λ table. table ≡ numbered 0 (once [] (unless_global (texts globals.now) (idents names.now)))) }
{
    let mut texts = Vec::new(alloc);
    note_unless_global(globals, names, &mut texts)?;
    NameTable::of_locals(alloc, texts.as_slice())
}

/// The locals of a function: its parameters, then the others by the first token that makes them local, without those
/// that a `global` of the function names (Python language reference, 4.2.1).
pub fn function_names(alloc: Global, function: FunctionRef<'_>) -> Result<NameTable, OutOfMemory>
    ensures { IfOk result (λ table. table ≡ function_names (function_shown function.entry)) }
{
    let mut mentions = Vec::new(alloc);
    function.note_body(&mut mentions)?;
    let globals = globals_of(alloc, mentions.as_slice())?;
    let mut names = Vec::new(alloc);
    note_names(function, mentions.as_slice(), &mut names)?;
    locals_among(alloc, &globals, names.as_slice())
}
