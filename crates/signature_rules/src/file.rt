//! The rules on parameters, over the items of a file.
ghost use Rattle.std.specs.Prelude.{◌≡◌, List, ◌++◌};
ghost use Rattle.std.specs.List.{flat_map};
ghost use Rattle.cy_base.specs.declared.place.Refusal.{Refusal};
ghost use Rattle.first_breach.specs.First.{IsLeast, IsLeastWith};
ghost use Rattle.signature_rules.specs.Rules.{in_item, in_member, in_pxd_member, in_top, signature_breaches, signatures};
ghost use Rattle.signature_rules.specs.Walk.{all_breaches};

use crate::function::{judge_def, judge_heading};
use cy_base::{FileId, Refusal};
use cy_tree::{Content, Member, PxdItem, PxdMember, Top};

type Least = Option<Refusal>;

fn judge_member(file: FileId, member: &Member, least: Least) -> Least
    ensures { IsLeastWith least (all_breaches file (in_member member.now)) result }
{
    match member {
        Member::Def(def) => judge_def(file, true, def, least),
        Member::Method(function) => judge_heading(file, true, &function.heading, least),
        _ => least,
    }
}

fn judge_members(file: FileId, members: &[Member], least: Least) -> Least
    ensures { IsLeastWith least (all_breaches file (flat_map in_member members.now)) result }
{
    let mut least = least;
    for member in members {
        least = judge_member(file, member, least);
    }
    least
}

fn judge_top(file: FileId, top: &Top, least: Least) -> Least
    ensures { IsLeastWith least (all_breaches file (in_top top.now)) result }
{
    match top {
        Top::Class(class) => judge_members(file, class.members.as_slice(), least),
        Top::Function(function) => judge_heading(file, false, &function.heading, least),
        Top::Def(def) => judge_def(file, false, def, least),
        _ => least,
    }
}

fn judge_tops(file: FileId, tops: &[Top], least: Least) -> Least
    ensures { IsLeastWith least (all_breaches file (flat_map in_top tops.now)) result }
{
    let mut least = least;
    for top in tops {
        least = judge_top(file, top, least);
    }
    least
}

fn judge_pxd_member(file: FileId, member: &PxdMember, least: Least) -> Least
    ensures { IsLeastWith least (all_breaches file (in_pxd_member member.now)) result }
{
    match member {
        PxdMember::Method(heading) => judge_heading(file, true, heading, least),
        _ => least,
    }
}

fn judge_pxd_members(file: FileId, members: &[PxdMember], least: Least) -> Least
    ensures { IsLeastWith least (all_breaches file (flat_map in_pxd_member members.now)) result }
{
    let mut least = least;
    for member in members {
        least = judge_pxd_member(file, member, least);
    }
    least
}

fn judge_item(file: FileId, item: &PxdItem, least: Least) -> Least
    ensures { IsLeastWith least (all_breaches file (in_item item.now)) result }
{
    match item {
        PxdItem::Class(class) => judge_pxd_members(file, class.members.as_slice(), least),
        PxdItem::Function(heading) => judge_heading(file, false, heading, least),
        _ => least,
    }
}

fn judge_items(file: FileId, items: &[PxdItem], least: Least) -> Least
    ensures { IsLeastWith least (all_breaches file (flat_map in_item items.now)) result }
{
    let mut least = least;
    for item in items {
        least = judge_item(file, item, least);
    }
    least
}

fn judge_content(file: FileId, content: &Content, least: Least) -> Least
    ensures { IsLeastWith least (all_breaches file (signatures content.now)) result }
{
    match content {
        Content::Implementation(tops) => judge_tops(file, tops.as_slice(), least),
        Content::Definition(items) => judge_items(file, items.as_slice(), least),
    }
}

/// The least of what was found and of the breaches of the rules on parameters (Python language reference, 8.7;
/// Cython documentation, "Language Basics", "Extension Types").
pub fn signature(file: FileId, content: &Content, least: Option<Refusal>) -> Option<Refusal>
    ensures { (before : List Refusal) → IsLeast least before → IsLeast result (before ++ signature_breaches file content.now) }
{
    judge_content(file, content, least)
}
