//! The three rules over one function.
ghost use Rattle.std.specs.Prelude.{◌≡◌, false};
ghost use Rattle.first_breach.specs.First.{IsLeastWith};
ghost use Rattle.signature_rules.specs.Rules.{heading_signature, signed};
ghost use Rattle.signature_rules.specs.Walk.{breaches_of};

use crate::param::{judge_c_defaults, judge_defaults, judge_first};
use cy_base::{FileId, Refusal};
use cy_tree::{Def, Heading, Param};

type Least = Option<Refusal>;

fn judge_signature(
    file: FileId,
    at: u32,
    is_c: bool,
    is_method: bool,
    params: &[Param],
    least: Least,
) -> Least
    ensures { IsLeastWith least (breaches_of file (signed at is_c is_method params.now)) result }
{
    let least = judge_defaults(file, params, least);
    let least = judge_c_defaults(file, is_c, params, least);
    judge_first(file, is_method, at, params, least)
}

pub(crate) fn judge_def(file: FileId, is_method: bool, def: &Def, least: Least) -> Least
    ensures { IsLeastWith least (breaches_of file (signed def.now.at false is_method def.now.params)) result }
{
    judge_signature(file, def.at, false, is_method, def.params.as_slice(), least)
}

pub(crate) fn judge_heading(file: FileId, is_method: bool, heading: &Heading, least: Least) -> Least
    ensures { IsLeastWith least (breaches_of file (heading_signature is_method heading.now)) result }
{
    let params = heading.header.params.as_slice();
    judge_signature(file, heading.at, true, is_method, params, least)
}
