//! The scopes of a set.
ghost use Rattle.std.specs.Prelude.{◌≡◌, ◌++◌, IfOk, OnOk, map};
ghost use Rattle.std.specs.List.{flat_map};
ghost use Rattle.cy_mention.specs.FunctionsShown.{functions_shown};
ghost use Rattle.cy_scope.specs.Files.{modules};
ghost use Rattle.cy_scope.specs.Scopes.{function_scope, function_scopes, module_scope, scope_shown, scopes_shown, scopes_with};
ghost use Rattle.cy_tree.specs.Functions.{functions};

use crate::declare::Noted;
use crate::files::tops;
use crate::known::{Known, module_names};
use crate::local::function_names;
use cy_base::OutOfMemory;
use cy_mention::{FunctionRef, note_all_functions};
use cy_tree::{Scope, SourceSet, Top};
use name_table::{NameTable, number};
use sqlite_items::Items;
use std::alloc::Global;

fn scope(module: u32, table: NameTable) -> Scope
    ensures { scope_shown result ≡ record { module_number = «module»; entries = table } }
{
    let names = table.into_map();
    Scope { module, names }
}

fn note_each_function(
    alloc: Global,
    module: u32,
    functions: &[FunctionRef<'_>],
    out: &mut Items<Scope>,
) -> Noted
    ensures { OnOk result (scopes_shown out.new ≡ scopes_shown out.old ++ map (function_scope «module») (functions_shown functions.now)) }
{
    for function in functions {
        let table = function_names(alloc, *function)?;
        out.push(scope(module, table))?;
    }
    Ok(())
}

fn note_functions(alloc: Global, module: u32, tops: &[Top], out: &mut Items<Scope>) -> Noted
    ensures { OnOk result (scopes_shown out.new ≡ scopes_shown out.old ++ map (function_scope «module») (functions tops.now)) }
{
    let mut functions = Vec::new(alloc);
    note_all_functions(tops, &mut functions)?;
    note_each_function(alloc, module, functions.as_slice(), out)
}

fn note_modules(alloc: Global, known: &Known, set: &SourceSet, out: &mut Items<Scope>) -> Noted
    ensures { OnOk result (scopes_shown out.new ≡ scopes_shown out.old ++ map (module_scope known.now set.now) (modules set.now)) }
{
    for (place, files) in set.order.as_slice().iter().enumerate() {
        let module = number(place)?;
        let table = module_names(alloc, known, set, module, files)?;
        out.push(scope(module, table))?;
    }
    Ok(())
}

fn note_all_functions_of(alloc: Global, set: &SourceSet, out: &mut Items<Scope>) -> Noted
    ensures { OnOk result (scopes_shown out.new ≡ scopes_shown out.old ++ flat_map (function_scopes set.now) (modules set.now)) }
{
    for (place, files) in set.order.as_slice().iter().enumerate() {
        note_functions(alloc, number(place)?, tops(set, files), out)?;
    }
    Ok(())
}

/// The scopes of the modules by their numbers, then those of the functions by module and text order.
pub fn scopes_with(
    alloc: Global,
    known: &Known,
    set: &SourceSet,
) -> Result<Items<Scope>, OutOfMemory>
    ensures { IfOk result (λ scopes. scopes_shown scopes ≡ scopes_with known.now set.now) }
{
    let mut scopes = Items::new(alloc);
    note_modules(alloc, known, set, &mut scopes)?;
    note_all_functions_of(alloc, set, &mut scopes)?;
    Ok(scopes)
}
