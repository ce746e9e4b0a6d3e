//! The fields of classes: those in the `.pxd` where it declares the class, else those in the `.pyx`.
ghost use Rattle.std.specs.Prelude.{◌≡◌, ◌++◌, IfOk, OnOk, map};
ghost use Rattle.std.specs.List.{flat_map};
ghost use Rattle.std.specs.Option.{option_copied};
ghost use Rattle.cy_declared.specs.Members.{classes_in, field_entry, fields_by, fields_in, pxd_fields_in};
ghost use Rattle.cy_declared.specs.Shown.{class_refs, declarations_shown, members_shown};

use crate::member::{MemberRef, OwnMember};
use crate::owned::Noted;
use crate::types::place_type;
use crate::variable::DeclarationRef;
use cy_scope::Known;
use cy_tree::{Class, Ident, Member, NamedSet, PxdClass, PxdItem, PxdMember, TypeNode};

type Declarations<'a> = Vec<DeclarationRef<'a>>;

fn note_names<'a>(
    kind: Option<&'a TypeNode>,
    names: &'a [Ident],
    out: &mut Declarations<'a>,
) -> Noted
    ensures { OnOk result (declarations_shown out.new.items ≡ declarations_shown out.old.items ++ map (λ i. (i, option_copied kind.entry)) names.now) }
{
    for name in names {
        out.push(DeclarationRef { name, kind })?;
    }
    Ok(())
}

fn note_fields_in<'a>(member: &'a Member, out: &mut Declarations<'a>) -> Noted
    ensures { OnOk result (declarations_shown out.new.items ≡ declarations_shown out.old.items ++ fields_in member.now) }
{
    match member {
        Member::OpenFields(_, _, kind, names) => note_names(Some(kind), names.as_slice(), out),
        Member::Fields(_, kind, names) => note_names(kind.as_ref(), names.as_slice(), out),
        _ => Ok(()),
    }
}

fn note_all_fields<'a>(members: &'a [Member], out: &mut Declarations<'a>) -> Noted
    ensures { OnOk result (declarations_shown out.new.items ≡ declarations_shown out.old.items ++ flat_map fields_in members.now) }
{
    for member in members {
        note_fields_in(member, out)?;
    }
    Ok(())
}

fn note_pxd_fields_in<'a>(member: &'a PxdMember, out: &mut Declarations<'a>) -> Noted
    ensures { OnOk result (declarations_shown out.new.items ≡ declarations_shown out.old.items ++ pxd_fields_in member.now) }
{
    match member {
        PxdMember::OpenFields(_, _, kind, names) => note_names(Some(kind), names.as_slice(), out),
        PxdMember::Fields(_, kind, names) => note_names(kind.as_ref(), names.as_slice(), out),
        _ => Ok(()),
    }
}

fn note_all_pxd_fields<'a>(members: &'a [PxdMember], out: &mut Declarations<'a>) -> Noted
    ensures { OnOk result (declarations_shown out.new.items ≡ declarations_shown out.old.items ++ flat_map pxd_fields_in members.now) }
{
    for member in members {
        note_pxd_fields_in(member, out)?;
    }
    Ok(())
}

/// Appends the fields of a class that a `.pxd` may declare.
pub(crate) fn note_fields<'a>(
    declared: Option<&'a PxdClass>,
    class: &'a Class,
    out: &mut Declarations<'a>,
) -> Noted
    ensures { OnOk result (declarations_shown out.new.items ≡ declarations_shown out.old.items ++ fields_by (option_copied declared.entry) class.now) }
{
    match declared {
        Some(declared) => note_all_pxd_fields(declared.members.as_slice(), out),
        None => note_all_fields(class.members.as_slice(), out),
    }
}

fn note_class_in<'a>(item: &'a PxdItem, out: &mut Vec<&'a PxdClass>) -> Noted
    ensures { OnOk result (class_refs out.new.items ≡ class_refs out.old.items ++ classes_in item.now) }
{
    if let PxdItem::Class(class) = item {
        out.push(class)?;
    }
    Ok(())
}

/// Appends the classes that a `.pxd` declares.
pub(crate) fn note_pxd_classes<'a>(items: &'a [PxdItem], out: &mut Vec<&'a PxdClass>) -> Noted
    ensures { OnOk result (class_refs out.new.items ≡ class_refs out.old.items ++ flat_map classes_in items.now) }
{
    for item in items {
        note_class_in(item, out)?;
    }
    Ok(())
}

/// Appends fields as members.
pub(crate) fn note_field_entries<'a>(
    known: &Known,
    set: &NamedSet,
    module: u32,
    fields: &[DeclarationRef<'a>],
    out: &mut Vec<MemberRef<'a>>,
) -> Noted
    ensures { OnOk result (members_shown out.new.items ≡ members_shown out.old.items
        ++ map (field_entry known.now set.now «module») (declarations_shown fields.now)) }
{
    for field in fields {
        let name = field.name.text.bytes();
        let member = OwnMember::Field(place_type(known, set, module, field.kind));
        out.push(MemberRef { name, member })?;
    }
    Ok(())
}
