//! What expressions and statements say of names.
ghost use Rattle.std.specs.Prelude.{◌≡◌, [], ◌∷◌, ◌++◌, ◌+◌, Some, IfOk, OnOk, map};
ghost use Rattle.std.specs.List.{flat_map};
ghost use Rattle.cy_tree.specs.Seen.{seen};
ghost use Rattle.cy_tree.specs.Nodes.{ExprNode, HandlerNode, StmtNode};
ghost use Rattle.cy_mention.specs.Mentions.{Globals, imported, simple_own, target, type_mentions, unbound};
ghost use Rattle.cy_mention.specs.Trees.{member_own, mentions, own, pxd_member_own};
ghost use Rattle.cy_mention.specs.Shown.{all_shown};

use cy_base::OutOfMemory;
use cy_tree::{
    Expr, Handler, Ident, ImportItem, Member, Node, PxdMember, Simple, Stmt, TypeName, TypeNode,
};

/// What is said of a name, or of a type's name (Python language reference, 4.2.1; Cython documentation, "Language
/// Basics"). The project's own.
#[derive(Clone, Copy)]
pub enum Mention<'a> {
    /// a target of an assignment, an augmented assignment, `for` or `import`
    Target(&'a Ident),
    /// behind `as` in a handler, or behind `del`
    Bound(&'a Ident),
    /// declared by `cdef`
    Declares(&'a Ident),
    /// named by `global`
    Globals(&'a Ident),
    /// stands as a type
    TypeUse(&'a TypeName),
}

type Mentions<'a> = Vec<Mention<'a>>;

type Noted = Result<(), OutOfMemory>;

// A target of an assignment or a `for`.
fn note_target<'a>(e: &'a Expr, out: &mut Mentions<'a>) -> Noted
    ensures { OnOk result (all_shown out.new.items ≡ all_shown out.old.items ++ target e.now) }
{
    if let Expr::Name(ident) = e {
        out.push(Mention::Target(ident))?;
    }
    Ok(())
}

// What `del` unbinds.
fn note_unbound<'a>(e: &'a Expr, out: &mut Mentions<'a>) -> Noted
    ensures { OnOk result (all_shown out.new.items ≡ all_shown out.old.items ++ unbound e.now) }
{
    if let Expr::Name(ident) = e {
        out.push(Mention::Bound(ident))?;
    }
    Ok(())
}

fn note_type<'a>(kind: &'a TypeNode, out: &mut Mentions<'a>) -> Noted
    ensures { OnOk result (all_shown out.new.items ≡ all_shown out.old.items ++ type_mentions (Some kind.now)) }
{
    out.push(Mention::TypeUse(&kind.name))?;
    Ok(())
}

fn note_maybe_type<'a>(kind: &'a Option<TypeNode>, out: &mut Mentions<'a>) -> Noted
    ensures { OnOk result (all_shown out.new.items ≡ all_shown out.old.items ++ type_mentions kind.now) }
{
    if let Some(kind) = kind {
        note_type(kind, out)?;
    }
    Ok(())
}

fn note_imported<'a>(item: &'a ImportItem, out: &mut Mentions<'a>) -> Noted
    ensures { OnOk result (all_shown out.new.items ≡ all_shown out.old.items ++ imported item.now ∷ []) }
{
    match &item.alias {
        Some(alias) => out.push(Mention::Target(alias))?,
        None => out.push(Mention::Target(&item.name))?,
    }
    Ok(())
}

fn note_targets<'a>(xs: &'a [Expr], out: &mut Mentions<'a>) -> Noted
    ensures { OnOk result (all_shown out.new.items ≡ all_shown out.old.items ++ flat_map target xs.now) }
{
    for x in xs {
        note_target(x, out)?;
    }
    Ok(())
}

fn note_all_unbound<'a>(xs: &'a [Expr], out: &mut Mentions<'a>) -> Noted
    ensures { OnOk result (all_shown out.new.items ≡ all_shown out.old.items ++ flat_map unbound xs.now) }
{
    for x in xs {
        note_unbound(x, out)?;
    }
    Ok(())
}

fn note_all_imported<'a>(items: &'a [ImportItem], out: &mut Mentions<'a>) -> Noted
    ensures { OnOk result (all_shown out.new.items ≡ all_shown out.old.items ++ map imported items.now) }
{
    for item in items {
        note_imported(item, out)?;
    }
    Ok(())
}

fn note_globals<'a>(names: &'a [Ident], out: &mut Mentions<'a>) -> Noted
    ensures { OnOk result (all_shown out.new.items ≡ all_shown out.old.items ++ map Globals names.now) }
{
    for name in names {
        out.push(Mention::Globals(name))?;
    }
    Ok(())
}

fn note_simple<'a>(simple: &'a Simple, out: &mut Mentions<'a>) -> Noted
    ensures { OnOk result (all_shown out.new.items ≡ all_shown out.old.items ++ simple_own simple.now) }
{
    match simple {
        Simple::Del(_, xs) => note_all_unbound(xs.as_slice(), out),
        Simple::Global(_, names) => note_globals(names.as_slice(), out),
        Simple::Import(_, items) => note_all_imported(items.as_slice(), out),
        Simple::FromImport(_, _, items) => note_all_imported(items.as_slice(), out),
        Simple::Cdef(_, kind, _) => note_maybe_type(kind, out),
        Simple::Augmented(x, _, _, _) => note_target(x, out),
        Simple::Assign(targets, _) => note_targets(targets.as_slice(), out),
        _ => Ok(()),
    }
}

fn note_stmt<'a>(stmt: &'a Stmt, out: &mut Mentions<'a>) -> Noted
    ensures { OnOk result (all_shown out.new.items ≡ all_shown out.old.items ++ own (StmtNode stmt.now)) }
{
    if let Stmt::ForNode(_, x, _, _, _) = stmt {
        note_target(x, out)?;
    }
    Ok(())
}

fn note_expr<'a>(e: &'a Expr, out: &mut Mentions<'a>) -> Noted
    ensures { OnOk result (all_shown out.new.items ≡ all_shown out.old.items ++ own (ExprNode e.now)) }
{
    if let Expr::Cast(_, kind, _, _) = e {
        out.push(Mention::TypeUse(&kind.name))?;
    }
    Ok(())
}

fn note_handler<'a>(handler: &'a Handler, out: &mut Mentions<'a>) -> Noted
    ensures { OnOk result (all_shown out.new.items ≡ all_shown out.old.items ++ own (HandlerNode handler.now)) }
{
    if let Some(name) = &handler.name {
        out.push(Mention::Bound(name))?;
    }
    Ok(())
}

fn note_member<'a>(member: &'a Member, out: &mut Mentions<'a>) -> Noted
    ensures { OnOk result (all_shown out.new.items ≡ all_shown out.old.items ++ member_own member.now) }
{
    match member {
        Member::OpenFields(_, _, kind, _) => note_type(kind, out),
        Member::Fields(_, kind, _) => note_maybe_type(kind, out),
        _ => Ok(()),
    }
}

fn note_pxd_member<'a>(member: &'a PxdMember, out: &mut Mentions<'a>) -> Noted
    ensures { OnOk result (all_shown out.new.items ≡ all_shown out.old.items ++ pxd_member_own member.now) }
{
    match member {
        PxdMember::OpenFields(_, _, kind, _) => note_type(kind, out),
        PxdMember::Fields(_, kind, _) => note_maybe_type(kind, out),
        _ => Ok(()),
    }
}

// What a node says itself.
fn note_own<'a>(node: Node<'a>, out: &mut Mentions<'a>) -> Noted
    ensures { OnOk result (all_shown out.new.items ≡ all_shown out.old.items ++ own (seen node.entry)) }
{
    match node {
        Node::Expr(e) => note_expr(e, out),
        Node::Simple(simple) => note_simple(simple, out),
        Node::Stmt(stmt) => note_stmt(stmt, out),
        Node::Handler(handler) => note_handler(handler, out),
        Node::Param(param) => note_maybe_type(&param.kind, out),
        Node::Heading(heading) => note_maybe_type(&heading.result, out),
        Node::Variables(variables) => note_maybe_type(&variables.kind, out),
        Node::Member(member) => note_member(member, out),
        Node::PxdMember(member) => note_pxd_member(member, out),
        Node::Declared(declared) => {
            out.push(Mention::Declares(&declared.name))?;
            Ok(())
        }
        _ => Ok(()),
    }
}

// No node has so many nodes right inside that there is no next place.
fn next_place(place: usize) -> Result<usize, OutOfMemory>
    ensures { IfOk result (λ next. next ≡ place + 1) }
{
    if place == usize::MAX {
        return Err(OutOfMemory);
    }
    Ok(place + 1)
}

/// Appends what a node says of names, with the nodes inside it.
pub fn note_all<'a>(node: Node<'a>, out: &mut Mentions<'a>) -> Noted
    ensures { OnOk result (all_shown out.new.items ≡ all_shown out.old.items ++ mentions (seen node.entry)) }
{
    note_own(node, out)?;
    let mut place: usize = 0;
    while let Some(child) = node.child(place) {
        note_all(child, out)?;
        place = next_place(place)?;
    }
    Ok(())
}
