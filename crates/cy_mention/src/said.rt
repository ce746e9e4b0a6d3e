//! What items say of names in the scope of their module.
ghost use Rattle.std.specs.Prelude.{◌≡◌, ◌++◌, OnOk};
ghost use Rattle.std.specs.List.{flat_map};
ghost use Rattle.cy_mention.specs.Modules.{items_said, member_said, module_said, top_said};
ghost use Rattle.cy_mention.specs.Shown.{all_shown};
ghost use Rattle.cy_mention.specs.Trees.{item_mentions, param_mentions};

use crate::mention::{Mention, note_all};
use cy_base::OutOfMemory;
use cy_tree::{Member, Node, Param, PxdItem, Top};

type Mentions<'a> = Vec<Mention<'a>>;

type Noted = Result<(), OutOfMemory>;

fn note_params<'a>(params: &'a [Param], out: &mut Mentions<'a>) -> Noted
    ensures { OnOk result (all_shown out.new.items ≡ all_shown out.old.items ++ flat_map param_mentions params.now) }
{
    for param in params {
        note_all(Node::Param(param), out)?;
    }
    Ok(())
}

fn note_member<'a>(member: &'a Member, out: &mut Mentions<'a>) -> Noted
    ensures { OnOk result (all_shown out.new.items ≡ all_shown out.old.items ++ member_said member.now) }
{
    match member {
        Member::Def(def) => note_params(def.params.as_slice(), out),
        Member::Method(function) => note_all(Node::Heading(&function.heading), out),
        _ => note_all(Node::Member(member), out),
    }
}

fn note_members<'a>(members: &'a [Member], out: &mut Mentions<'a>) -> Noted
    ensures { OnOk result (all_shown out.new.items ≡ all_shown out.old.items ++ flat_map member_said members.now) }
{
    for member in members {
        note_member(member, out)?;
    }
    Ok(())
}

fn note_top<'a>(top: &'a Top, out: &mut Mentions<'a>) -> Noted
    ensures { OnOk result (all_shown out.new.items ≡ all_shown out.old.items ++ top_said top.now) }
{
    match top {
        Top::Cimport(_) => Ok(()),
        Top::Class(class) => note_members(class.members.as_slice(), out),
        Top::Function(function) => note_all(Node::Heading(&function.heading), out),
        Top::Variables(variables) => note_all(Node::Variables(variables), out),
        Top::Def(def) => note_params(def.params.as_slice(), out),
        Top::Stmt(stmt) => note_all(Node::Stmt(stmt), out),
    }
}

/// Appends what the items of a `.pyx` say outside of functions.
pub fn note_module<'a>(tops: &'a [Top], out: &mut Mentions<'a>) -> Noted
    ensures { OnOk result (all_shown out.new.items ≡ all_shown out.old.items ++ module_said tops.now) }
{
    for top in tops {
        note_top(top, out)?;
    }
    Ok(())
}

/// Appends what the items of a `.pxd` say.
pub fn note_items<'a>(items: &'a [PxdItem], out: &mut Mentions<'a>) -> Noted
    ensures { OnOk result (all_shown out.new.items ≡ all_shown out.old.items ++ items_said items.now) }
{
    for item in items {
        note_all(Node::PxdItem(item), out)?;
    }
    Ok(())
}
