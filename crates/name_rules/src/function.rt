//! The rules on names in functions.
ghost use Rattle.std.specs.Prelude.{◌≡◌, [], ◌++◌, OnOk};
ghost use Rattle.std.specs.List.{flat_map};
ghost use Rattle.cy_mention.specs.FunctionsShown.{function_shown, functions_shown};
ghost use Rattle.cy_mention.specs.Modules.{declared_by, idents, parameters, params_of};
ghost use Rattle.cy_mention.specs.Shown.{all_shown, shown};
ghost use Rattle.cy_scope.specs.Declarations.{function_names, seen};
ghost use Rattle.name_rules.specs.Breaches.{breaks_if, function_refusals, global_refusals, mention_refusals, said_refusals};
ghost use Rattle.name_table.specs.Entries.{is_among, texts};

use crate::mention::{Here, judge_mentions};
use crate::second::{Noted, Refusals, breaks, judge_names};
use cy_base::FileId;
use cy_mention::{FunctionRef, Mention, note_declarations, note_parameters};
use cy_scope::{Known, function_names, seen};
use cy_tree::Ident;
use name_table::NameTable;
use std::alloc::Global;

fn judge_global_name(file: FileId, declared: &NameTable, name: &Ident, out: &mut Refusals) -> Noted
    ensures { OnOk result (out.new.items ≡ out.old.items ++ breaks_if (is_among (texts declared.now) name.now.text) file 4 name.now) }
{
    if declared.has(name.text.bytes()) {
        out.push(breaks(file, 4, name))?;
    }
    Ok(())
}

fn judge_global(
    file: FileId,
    declared: &NameTable,
    mention: Mention<'_>,
    out: &mut Refusals,
) -> Noted
    ensures { OnOk result (out.new.items ≡ out.old.items ++ global_refusals file (texts declared.now) (shown mention.entry)) }
{
    match mention {
        Mention::Globals(name) => judge_global_name(file, declared, name, out),
        _ => Ok(()),
    }
}

fn judge_globals(
    file: FileId,
    declared: &NameTable,
    mentions: &[Mention<'_>],
    out: &mut Refusals,
) -> Noted
    ensures { OnOk result (out.new.items ≡ out.old.items ++ flat_map (global_refusals file (texts declared.now)) (all_shown mentions.now)) }
{
    for mention in mentions {
        judge_global(file, declared, *mention, out)?;
    }
    Ok(())
}

// A `global` of a name that is declared.
fn judge_declared(
    alloc: Global,
    file: FileId,
    names: &[&Ident],
    mentions: &[Mention<'_>],
    out: &mut Refusals,
) -> Noted
    ensures { OnOk result (out.new.items ≡ out.old.items ++ flat_map (global_refusals file (seen (idents names.now))) (all_shown mentions.now)) }
{
    let declared = seen(alloc, names)?;
    judge_globals(file, &declared, mentions, out)
}

fn judge_body(
    alloc: Global,
    outside: Here<'_>,
    function: FunctionRef<'_>,
    mentions: &[Mention<'_>],
    out: &mut Refusals,
) -> Noted
    ensures { OnOk result (out.new.items ≡ out.old.items
        ++ flat_map (mention_refusals outside.entry.file outside.entry.known.now (function_names (function_shown function.entry)) outside.entry.names.now) (all_shown mentions.now)) }
{
    let locals = function_names(alloc, function)?;
    judge_mentions(outside, &locals, mentions, out)
}

// The second declarations, the types and targets, and the names that `global` names.
fn judge_said(
    alloc: Global,
    outside: Here<'_>,
    function: FunctionRef<'_>,
    names: &[&Ident],
    mentions: &[Mention<'_>],
    out: &mut Refusals,
) -> Noted
    ensures { OnOk result (out.new.items ≡ out.old.items ++ said_refusals outside.entry.file outside.entry.known.now outside.entry.names.now
        (function_names (function_shown function.entry)) (idents names.now) (all_shown mentions.now)) }
{
    judge_names(alloc, outside.file, names, out)?;
    judge_body(alloc, outside, function, mentions, out)?;
    judge_declared(alloc, outside.file, names, mentions, out)
}

// The parameters, and what the body declares.
fn note_declared<'a>(
    function: FunctionRef<'a>,
    mentions: &[Mention<'a>],
    out: &mut Vec<&'a Ident>,
) -> Noted
    ensures { OnOk result (idents out.new.items ≡ idents out.old.items
        ++ (parameters (params_of (function_shown function.entry)) ++ flat_map declared_by (all_shown mentions.now))) }
{
    note_parameters(function.params(), out)?;
    note_declarations(mentions, out)
}

#[tactic(auto, unfolding(crate::specs::Breaches::function_refusals))]
fn judge_function(
    alloc: Global,
    outside: Here<'_>,
    function: FunctionRef<'_>,
    out: &mut Refusals,
) -> Noted
    ensures { OnOk result (out.new.items ≡ out.old.items
        ++ function_refusals outside.entry.file outside.entry.known.now outside.entry.names.now (function_shown function.entry)) }
{
    let mut mentions = Vec::new(alloc);
    function.note_body(&mut mentions)?;
    let mut names = Vec::new(alloc);
    note_declared(function, mentions.as_slice(), &mut names)?;
    let names = names.as_slice();
    judge_said(alloc, outside, function, names, mentions.as_slice(), out)
}

/// Notes what the functions of a module break.
pub(crate) fn judge_functions(
    alloc: Global,
    outside: Here<'_>,
    functions: &[FunctionRef<'_>],
    out: &mut Refusals,
) -> Noted
    ensures { OnOk result (out.new.items ≡ out.old.items
        ++ flat_map (function_refusals outside.entry.file outside.entry.known.now outside.entry.names.now) (functions_shown functions.now)) }
{
    for function in functions {
        judge_function(alloc, outside, *function, out)?;
    }
    Ok(())
}
