//! The names that `cdef` declares, with their types.
ghost use Rattle.std.specs.Prelude.{◌≡◌, ◌++◌, IfOk, OnOk, map};
ghost use Rattle.std.specs.List.{flat_map};
ghost use Rattle.cy_declared.specs.Shown.{declarations_shown};
ghost use Rattle.cy_declared.specs.Types.{place_type};
ghost use Rattle.cy_declared.specs.Variables.{declared_by, declared_in, variables_in};
ghost use Rattle.cy_tree.specs.Seen.{seen};
ghost use Rattle.type_uses.specs.Shown.{all_shown, shown};
ghost use Rattle.type_uses.specs.Trees.{uses};

use crate::owned::Noted;
use crate::types::place_type;
use cy_scope::Known;
use cy_tree::{Ident, NamedSet, Node, Top, Ty, TypeNode};
use sqlite_items::Items;
use std::alloc::Global;
use type_uses::{TypeUse, note_uses};

/// A name, and its type where one is written. The project's own.
#[derive(Clone, Copy)]
pub struct DeclarationRef<'a> {
    pub name: &'a Ident,
    pub kind: Option<&'a TypeNode>,
}

type Declarations<'a> = Vec<DeclarationRef<'a>>;

fn note_declared_in<'a>(found: TypeUse<'a>, out: &mut Declarations<'a>) -> Noted
    ensures { OnOk result (declarations_shown out.new.items ≡ declarations_shown out.old.items ++ declared_in (shown found.entry)) }
{
    match found {
        TypeUse::Declares(name, kind) => {
            let kind = kind.as_ref();
            out.push(DeclarationRef { name, kind })?;
        }
        TypeUse::PlaceType(_) => {}
        TypeUse::ResultType(_) => {}
    }
    Ok(())
}

fn note_declared_by<'a>(uses: &[TypeUse<'a>], out: &mut Declarations<'a>) -> Noted
    ensures { OnOk result (declarations_shown out.new.items ≡ declarations_shown out.old.items ++ declared_by (all_shown uses.now)) }
{
    for found in uses {
        note_declared_in(*found, out)?;
    }
    Ok(())
}

/// Appends the names that `cdef` declares in a node.
pub(crate) fn note_declared<'a>(alloc: Global, node: Node<'a>, out: &mut Declarations<'a>) -> Noted
    ensures { OnOk result (declarations_shown out.new.items ≡ declarations_shown out.old.items ++ declared_by (uses (seen node.entry))) }
{
    let mut found = Vec::new(alloc);
    note_uses(node, &mut found)?;
    note_declared_by(found.as_slice(), out)
}

fn note_variables_in<'a>(alloc: Global, top: &'a Top, out: &mut Declarations<'a>) -> Noted
    ensures { OnOk result (declarations_shown out.new.items ≡ declarations_shown out.old.items ++ variables_in top.now) }
{
    match top {
        Top::Variables(variables) => note_declared(alloc, Node::Variables(variables), out),
        Top::Stmt(stmt) => note_declared(alloc, Node::Stmt(stmt), out),
        _ => Ok(()),
    }
}

/// Appends the C variables of a module, in text order.
pub(crate) fn note_variables<'a>(
    alloc: Global,
    tops: &'a [Top],
    out: &mut Declarations<'a>,
) -> Noted
    ensures { OnOk result (declarations_shown out.new.items ≡ declarations_shown out.old.items ++ flat_map variables_in tops.now) }
{
    for top in tops {
        note_variables_in(alloc, top, out)?;
    }
    Ok(())
}

/// Appends the types of names that are declared in a scope.
pub(crate) fn note_types(
    known: &Known,
    set: &NamedSet,
    scope: u32,
    declared: &[DeclarationRef<'_>],
    out: &mut Items<Ty>,
) -> Noted
    ensures { OnOk result (out.new ≡ out.old ++ map (λ d. place_type known.now set.now scope d.1) (declarations_shown declared.now)) }
{
    for declaration in declared {
        out.push(place_type(known, set, scope, declaration.kind))?;
    }
    Ok(())
}
