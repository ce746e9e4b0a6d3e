//! The functions, methods and open fields that a file declares.
ghost use Rattle.std.specs.Prelude.{◌≡◌, ◌++◌, OnOk};
ghost use Rattle.std.specs.List.{flat_map};
ghost use Rattle.declaration_rules.specs.Declarations.{declarations, in_item, in_member, in_pxd_member, in_top};
ghost use Rattle.declaration_rules.specs.DeclarationsShown.{declarations_shown};

use cy_base::OutOfMemory;
use cy_tree::{Content, Def, Heading, Member, PxdItem, PxdMember, Top, TypeNode};

/// A function or method, by whether it is a method, or the type of fields that are `public` or `readonly`. The
/// project's own.
#[derive(Clone, Copy)]
pub enum Declaration<'a> {
    Defined(bool, &'a Def),
    Headed(bool, &'a Heading),
    Opened(&'a TypeNode),
}

type Declarations<'a> = Vec<Declaration<'a>>;

type Noted = Result<(), OutOfMemory>;

fn note_member<'a>(member: &'a Member, out: &mut Declarations<'a>) -> Noted
    ensures { OnOk result (declarations_shown out.new.items ≡ declarations_shown out.old.items ++ in_member member.now) }
{
    match member {
        Member::Def(def) => out.push(Declaration::Defined(true, def))?,
        Member::OpenFields(_, _, kind, _) => out.push(Declaration::Opened(kind))?,
        Member::Method(function) => out.push(Declaration::Headed(true, &function.heading))?,
        _ => {}
    }
    Ok(())
}

fn note_members<'a>(members: &'a [Member], out: &mut Declarations<'a>) -> Noted
    ensures { OnOk result (declarations_shown out.new.items ≡ declarations_shown out.old.items ++ flat_map in_member members.now) }
{
    for member in members {
        note_member(member, out)?;
    }
    Ok(())
}

fn note_top<'a>(top: &'a Top, out: &mut Declarations<'a>) -> Noted
    ensures { OnOk result (declarations_shown out.new.items ≡ declarations_shown out.old.items ++ in_top top.now) }
{
    match top {
        Top::Class(class) => note_members(class.members.as_slice(), out)?,
        Top::Function(function) => out.push(Declaration::Headed(false, &function.heading))?,
        Top::Def(def) => out.push(Declaration::Defined(false, def))?,
        _ => {}
    }
    Ok(())
}

fn note_tops<'a>(tops: &'a [Top], out: &mut Declarations<'a>) -> Noted
    ensures { OnOk result (declarations_shown out.new.items ≡ declarations_shown out.old.items ++ flat_map in_top tops.now) }
{
    for top in tops {
        note_top(top, out)?;
    }
    Ok(())
}

fn note_pxd_member<'a>(member: &'a PxdMember, out: &mut Declarations<'a>) -> Noted
    ensures { OnOk result (declarations_shown out.new.items ≡ declarations_shown out.old.items ++ in_pxd_member member.now) }
{
    match member {
        PxdMember::OpenFields(_, _, kind, _) => out.push(Declaration::Opened(kind))?,
        PxdMember::Method(heading) => out.push(Declaration::Headed(true, heading))?,
        _ => {}
    }
    Ok(())
}

fn note_pxd_members<'a>(members: &'a [PxdMember], out: &mut Declarations<'a>) -> Noted
    ensures { OnOk result (declarations_shown out.new.items ≡ declarations_shown out.old.items ++ flat_map in_pxd_member members.now) }
{
    for member in members {
        note_pxd_member(member, out)?;
    }
    Ok(())
}

fn note_item<'a>(item: &'a PxdItem, out: &mut Declarations<'a>) -> Noted
    ensures { OnOk result (declarations_shown out.new.items ≡ declarations_shown out.old.items ++ in_item item.now) }
{
    match item {
        PxdItem::Class(class) => note_pxd_members(class.members.as_slice(), out)?,
        PxdItem::Function(heading) => out.push(Declaration::Headed(false, heading))?,
        _ => {}
    }
    Ok(())
}

fn note_items<'a>(items: &'a [PxdItem], out: &mut Declarations<'a>) -> Noted
    ensures { OnOk result (declarations_shown out.new.items ≡ declarations_shown out.old.items ++ flat_map in_item items.now) }
{
    for item in items {
        note_item(item, out)?;
    }
    Ok(())
}

/// Appends the functions, methods and open fields that a file declares, in text order.
pub fn note_declarations<'a>(content: &'a Content, out: &mut Declarations<'a>) -> Noted
    ensures { OnOk result (declarations_shown out.new.items ≡ declarations_shown out.old.items ++ declarations content.now) }
{
    match content {
        Content::Implementation(tops) => note_tops(tops.as_slice(), out),
        Content::Definition(items) => note_items(items.as_slice(), out),
    }
}
