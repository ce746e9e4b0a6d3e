//! The functions of modules, with the classes whose methods they are.
ghost use Rattle.std.specs.Prelude.{◌≡◌, ◌++◌, IfOk, OnOk, map};
ghost use Rattle.cy_declared.specs.Functions.{classes_behind, owned_by, owned_from, owner_of};
ghost use Rattle.cy_declared.specs.Shown.{all_owned_shown};
ghost use Rattle.cy_mention.specs.FunctionsShown.{functions_shown};

use cy_base::OutOfMemory;
use cy_mention::{FunctionRef, note_functions};
use cy_tree::{ClassId, Top};
use std::alloc::Global;

/// A function or method, with the class whose method it is. The project's own.
#[derive(Clone, Copy)]
pub struct OwnedRef<'a> {
    pub owner: Option<ClassId>,
    pub function: FunctionRef<'a>,
}

pub(crate) type Noted = Result<(), OutOfMemory>;

fn owner_of(module: u32, index: u32, top: &Top) -> Option<ClassId>
    ensures { result ≡ owner_of «module» index top.now }
{
    match top {
        Top::Class(_) => Some(ClassId { module, index }),
        _ => None,
    }
}

// No set has so many classes that their numbers don't fit.
fn classes_behind(before: u32, top: &Top) -> Result<u32, OutOfMemory>
    ensures { IfOk result (λ behind. behind ≡ classes_behind before top.now) }
{
    match top {
        Top::Class(_) => match before.checked_add(1) {
            Some(behind) => Ok(behind),
            None => Err(OutOfMemory),
        },
        _ => Ok(before),
    }
}

fn note_each<'a>(
    owner: Option<ClassId>,
    functions: &[FunctionRef<'a>],
    out: &mut Vec<OwnedRef<'a>>,
) -> Noted
    ensures { OnOk result (all_owned_shown out.new.items ≡ all_owned_shown out.old.items ++ map (owned_by owner) (functions_shown functions.now)) }
{
    for function in functions {
        let function = *function;
        out.push(OwnedRef { owner, function })?;
    }
    Ok(())
}

/// Appends the functions of a module, methods included, in text order.
pub fn note_owned<'a>(
    alloc: Global,
    module: u32,
    tops: &'a [Top],
    out: &mut Vec<OwnedRef<'a>>,
) -> Noted
    ensures { OnOk result (all_owned_shown out.new.items ≡ all_owned_shown out.old.items ++ owned_from «module» 0 tops.now) }
{
    let mut before = 0;
    for top in tops {
        let mut functions = Vec::new(alloc);
        note_functions(top, &mut functions)?;
        note_each(owner_of(module, before, top), functions.as_slice(), out)?;
        before = classes_behind(before, top)?;
    }
    Ok(())
}
