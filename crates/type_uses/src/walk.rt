//! Where types stand in a node and the nodes inside it.
ghost use Rattle.std.specs.Prelude.{◌≡◌, ◌++◌, ◌+◌, IfOk, OnOk, map};
ghost use Rattle.cy_tree.specs.Seen.{seen};
ghost use Rattle.cy_tree.specs.Nodes.{ExprNode};
ghost use Rattle.type_uses.specs.Uses.{names_uses, result_uses, simple_own, type_uses};
ghost use Rattle.type_uses.specs.Trees.{member_own, own, pxd_member_own, uses};
ghost use Rattle.type_uses.specs.Shown.{all_shown};

use cy_base::OutOfMemory;
use cy_tree::{Declared, Expr, Ident, Member, Node, PxdMember, Simple, TypeNode, Variables};

/// A type that stands somewhere, or a name that `cdef` declares (Cython documentation, "Language Basics"). The
/// project's own.
#[derive(Clone, Copy)]
pub enum TypeUse<'a> {
    /// the type of a parameter, a field, a variable or a cast
    PlaceType(&'a TypeNode),
    /// the result of a C function or method
    ResultType(&'a TypeNode),
    /// a name that a `cdef` of a module or of a body declares, with its type
    Declares(&'a Ident, &'a Option<TypeNode>),
}

type Uses<'a> = Vec<TypeUse<'a>>;

type Noted = Result<(), OutOfMemory>;

fn note_type<'a>(kind: &'a TypeNode, out: &mut Uses<'a>) -> Noted
    ensures { OnOk result (all_shown out.new.items ≡ all_shown out.old.items ++ type_uses (Some kind.now)) }
{
    out.push(TypeUse::PlaceType(kind))?;
    Ok(())
}

fn note_maybe_type<'a>(kind: &'a Option<TypeNode>, out: &mut Uses<'a>) -> Noted
    ensures { OnOk result (all_shown out.new.items ≡ all_shown out.old.items ++ type_uses kind.now) }
{
    if let Some(kind) = kind {
        note_type(kind, out)?;
    }
    Ok(())
}

fn note_result<'a>(kind: &'a Option<TypeNode>, out: &mut Uses<'a>) -> Noted
    ensures { OnOk result (all_shown out.new.items ≡ all_shown out.old.items ++ result_uses kind.now) }
{
    if let Some(kind) = kind {
        out.push(TypeUse::ResultType(kind))?;
    }
    Ok(())
}

fn note_names<'a>(kind: &'a Option<TypeNode>, names: &'a [Declared], out: &mut Uses<'a>) -> Noted
    ensures { OnOk result (all_shown out.new.items ≡ all_shown out.old.items ++ names_uses kind.now names.now) }
{
    for declared in names {
        out.push(TypeUse::Declares(&declared.name, kind))?;
    }
    Ok(())
}

fn note_variables<'a>(variables: &'a Variables, out: &mut Uses<'a>) -> Noted
    ensures { OnOk result (all_shown out.new.items ≡ all_shown out.old.items
        ++ (type_uses variables.now.kind ++ names_uses variables.now.kind variables.now.names)) }
{
    note_maybe_type(&variables.kind, out)?;
    note_names(&variables.kind, variables.names.as_slice(), out)
}

fn note_cdef<'a>(kind: &'a Option<TypeNode>, names: &'a [Declared], out: &mut Uses<'a>) -> Noted
    ensures { OnOk result (all_shown out.new.items ≡ all_shown out.old.items ++ (type_uses kind.now ++ names_uses kind.now names.now)) }
{
    note_maybe_type(kind, out)?;
    note_names(kind, names, out)
}

fn note_simple<'a>(simple: &'a Simple, out: &mut Uses<'a>) -> Noted
    ensures { OnOk result (all_shown out.new.items ≡ all_shown out.old.items ++ simple_own simple.now) }
{
    match simple {
        Simple::Cdef(_, kind, names) => note_cdef(kind, names.as_slice(), out),
        _ => Ok(()),
    }
}

fn note_expr<'a>(e: &'a Expr, out: &mut Uses<'a>) -> Noted
    ensures { OnOk result (all_shown out.new.items ≡ all_shown out.old.items ++ own (ExprNode e.now)) }
{
    if let Expr::Cast(_, kind, _, _) = e {
        out.push(TypeUse::PlaceType(kind))?;
    }
    Ok(())
}

fn note_member<'a>(member: &'a Member, out: &mut Uses<'a>) -> Noted
    ensures { OnOk result (all_shown out.new.items ≡ all_shown out.old.items ++ member_own member.now) }
{
    match member {
        Member::OpenFields(_, _, kind, _) => note_type(kind, out),
        Member::Fields(_, kind, _) => note_maybe_type(kind, out),
        _ => Ok(()),
    }
}

fn note_pxd_member<'a>(member: &'a PxdMember, out: &mut Uses<'a>) -> Noted
    ensures { OnOk result (all_shown out.new.items ≡ all_shown out.old.items ++ pxd_member_own member.now) }
{
    match member {
        PxdMember::OpenFields(_, _, kind, _) => note_type(kind, out),
        PxdMember::Fields(_, kind, _) => note_maybe_type(kind, out),
        _ => Ok(()),
    }
}

// What a node has itself.
fn note_own<'a>(node: Node<'a>, out: &mut Uses<'a>) -> Noted
    ensures { OnOk result (all_shown out.new.items ≡ all_shown out.old.items ++ own (seen node.entry)) }
{
    match node {
        Node::Expr(e) => note_expr(e, out),
        Node::Simple(simple) => note_simple(simple, out),
        Node::Param(param) => note_maybe_type(&param.kind, out),
        Node::Heading(heading) => note_result(&heading.result, out),
        Node::Variables(variables) => note_variables(variables, out),
        Node::Member(member) => note_member(member, out),
        Node::PxdMember(member) => note_pxd_member(member, out),
        _ => Ok(()),
    }
}

// No node has so many nodes right inside that there is no next place.
fn next_place(place: usize) -> Result<usize, OutOfMemory>
    ensures { IfOk result (λ next. next ≡ place + 1) }
{
    if place == usize::MAX {
        return Err(OutOfMemory);
    }
    Ok(place + 1)
}

/// Appends the types that stand in a node and the nodes inside it, with the names that `cdef` declares there.
pub fn note_uses<'a>(node: Node<'a>, out: &mut Uses<'a>) -> Noted
    ensures { OnOk result (all_shown out.new.items ≡ all_shown out.old.items ++ uses (seen node.entry)) }
{
    note_own(node, out)?;
    let mut place: usize = 0;
    while let Some(child) = node.child(place) {
        note_uses(child, out)?;
        place = next_place(place)?;
    }
    Ok(())
}
