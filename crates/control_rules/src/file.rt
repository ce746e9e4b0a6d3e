//! The rules on statements, over the items of a file.
ghost use Rattle.std.specs.Prelude.{◌≡◌, List, ◌++◌};
ghost use Rattle.cy_base.specs.declared.place.Refusal.{Refusal};
ghost use Rattle.first_breach.specs.First.{IsLeast};
ghost use Rattle.control_rules.specs.Rules.{control_breaches};
ghost use Rattle.control_rules.specs.Walk.{MemberNoted, MembersNoted, TopNoted, TopsNoted};

use crate::around::Around;
use crate::walk::{judge_stmt, judge_suite};
use cy_base::{FileId, Refusal};
use cy_tree::{Content, Member, Top};

type Least = Option<Refusal>;

fn judge_member(file: FileId, member: &Member, least: Least) -> Least
    ensures { MemberNoted file member.now least result }
{
    match member {
        Member::Def(def) => judge_suite(file, Around::function(), &def.body, least),
        Member::Method(function) => judge_suite(file, Around::function(), &function.body, least),
        _ => least,
    }
}

fn judge_members(file: FileId, members: &[Member], least: Least) -> Least
    ensures { MembersNoted file members.now least result }
{
    let mut least = least;
    for member in members {
        least = judge_member(file, member, least);
    }
    least
}

fn judge_top(file: FileId, top: &Top, least: Least) -> Least
    ensures { TopNoted file top.now least result }
{
    match top {
        Top::Class(class) => judge_members(file, class.members.as_slice(), least),
        Top::Function(function) => judge_suite(file, Around::function(), &function.body, least),
        Top::Def(def) => judge_suite(file, Around::function(), &def.body, least),
        Top::Stmt(stmt) => judge_stmt(file, Around::module(), stmt, least),
        _ => least,
    }
}

fn judge_tops(file: FileId, tops: &[Top], least: Least) -> Least
    ensures { TopsNoted file tops.now least result }
{
    let mut least = least;
    for top in tops {
        least = judge_top(file, top, least);
    }
    least
}

/// The least of what was found and of the breaches of the rules on statements (Python language reference, 7 and 8;
/// Cython documentation, "Language Basics").
pub fn control(file: FileId, content: &Content, least: Option<Refusal>) -> Option<Refusal>
    ensures { (before : List Refusal) → IsLeast least before → IsLeast result (before ++ control_breaches file content.now) }
{
    match content {
        Content::Implementation(tops) => judge_tops(file, tops.as_slice(), least),
        Content::Definition(_) => least,
    }
}
