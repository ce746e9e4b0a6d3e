//! The functions of a file, and what their bodies say of names.
ghost use Rattle.std.specs.Prelude.{◌≡◌, ◌++◌, OnOk};
ghost use Rattle.std.specs.List.{flat_map};
ghost use Rattle.cy_tree.specs.Functions.{functions, functions_of, methods_of};
ghost use Rattle.cy_mention.specs.FunctionsShown.{function_shown, functions_shown};
ghost use Rattle.cy_mention.specs.Modules.{body_of, mentions_of, params_of};
ghost use Rattle.cy_mention.specs.Shown.{all_shown};

use crate::mention::{Mention, note_all};
use cy_base::OutOfMemory;
use cy_tree::{CFunction, Def, Member, Node, Param, Suite, Top};

/// A `def` function, or one that C can call. The project's own.
#[derive(Clone, Copy)]
pub enum FunctionRef<'a> {
    Python(&'a Def),
    Cython(&'a CFunction),
}

type Noted = Result<(), OutOfMemory>;

impl<'a> FunctionRef<'a> {
    pub fn params(self) -> &'a [Param]
        ensures { result.now ≡ params_of (function_shown self.entry) }
    {
        match self {
            FunctionRef::Python(def) => def.params.as_slice(),
            FunctionRef::Cython(function) => function.heading.header.params.as_slice(),
        }
    }

    pub fn body(self) -> &'a Suite
        ensures { result.now ≡ body_of (function_shown self.entry) }
    {
        match self {
            FunctionRef::Python(def) => &def.body,
            FunctionRef::Cython(function) => &function.body,
        }
    }

    /// Appends what the body says of names.
    pub fn note_body(self, out: &mut Vec<Mention<'a>>) -> Noted
        ensures { OnOk result (all_shown out.new.items ≡ all_shown out.old.items ++ mentions_of (function_shown self.entry)) }
    {
        note_all(Node::Suite(self.body()), out)
    }
}

fn note_method<'a>(member: &'a Member, out: &mut Vec<FunctionRef<'a>>) -> Noted
    ensures { OnOk result (functions_shown out.new.items ≡ functions_shown out.old.items ++ methods_of member.now) }
{
    match member {
        Member::Def(def) => out.push(FunctionRef::Python(def))?,
        Member::Method(function) => out.push(FunctionRef::Cython(function))?,
        _ => {}
    }
    Ok(())
}

fn note_methods<'a>(members: &'a [Member], out: &mut Vec<FunctionRef<'a>>) -> Noted
    ensures { OnOk result (functions_shown out.new.items ≡ functions_shown out.old.items ++ flat_map methods_of members.now) }
{
    for member in members {
        note_method(member, out)?;
    }
    Ok(())
}

/// Appends the functions of an item, methods included.
pub fn note_functions<'a>(top: &'a Top, out: &mut Vec<FunctionRef<'a>>) -> Noted
    ensures { OnOk result (functions_shown out.new.items ≡ functions_shown out.old.items ++ functions_of top.now) }
{
    match top {
        Top::Class(class) => note_methods(class.members.as_slice(), out)?,
        Top::Function(function) => out.push(FunctionRef::Cython(function))?,
        Top::Def(def) => out.push(FunctionRef::Python(def))?,
        _ => {}
    }
    Ok(())
}

/// Appends the functions of a file.
pub fn note_all_functions<'a>(tops: &'a [Top], out: &mut Vec<FunctionRef<'a>>) -> Noted
    ensures { OnOk result (functions_shown out.new.items ≡ functions_shown out.old.items ++ functions tops.now) }
{
    for top in tops {
        note_functions(top, out)?;
    }
    Ok(())
}
