//! The rules on declarations as they are written, over a file.
ghost use Rattle.std.specs.Prelude.{◌≡◌, ◌++◌, List, IfOk};
ghost use Rattle.std.specs.List.{flat_map};
ghost use Rattle.cy_base.specs.declared.place.Refusal.{Refusal};
ghost use Rattle.declaration_rules.specs.DeclarationsShown.{declarations_shown};
ghost use Rattle.declaration_rules.specs.Rules.{declaration_breaches, special_breaches, type_breaches, view_breaches, void_breaches};
ghost use Rattle.first_breach.specs.First.{IsLeast, IsLeastWith};
ghost use Rattle.type_uses.specs.Shown.{all_shown};

use crate::declaration::{Declaration, note_declarations};
use crate::place::Least;
use crate::special::judge_special;
use crate::types::{judge_types, judge_voids};
use crate::views::judge_views;
use cy_base::{FileId, OutOfMemory, Refusal};
use cy_tree::{Content, Node};
use std::alloc::Global;
use type_uses::{TypeUse, note_uses};

fn judge_all(
    file: FileId,
    declarations: &[Declaration<'_>],
    uses: &[TypeUse<'_>],
    least: Least,
) -> Least
    ensures { IsLeastWith least (flat_map (view_breaches file) (declarations_shown declarations.now)
        ++ (flat_map (void_breaches file) (all_shown uses.now)
        ++ (flat_map (special_breaches file) (declarations_shown declarations.now)
        ++ flat_map (type_breaches file) (all_shown uses.now)))) result }
{
    let least = judge_views(file, declarations, least);
    let least = judge_voids(file, uses, least);
    let least = judge_special(file, declarations, least);
    judge_types(file, uses, least)
}

/// The least of what was found and of the breaches of the rules on declarations as they are written: views, `void`,
/// special methods and the forms of types (Cython documentation, "Language Basics", "Extension Types").
pub fn written(
    alloc: Global,
    file: FileId,
    content: &Content,
    least: Option<Refusal>,
) -> Result<Option<Refusal>, OutOfMemory>
    ensures { IfOk result (λ found. (before : List Refusal) → IsLeast least before → IsLeast found (before ++ declaration_breaches file content.now)) }
{
    let mut declarations = Vec::new(alloc);
    note_declarations(content, &mut declarations)?;
    let mut uses = Vec::new(alloc);
    note_uses(Node::File(content), &mut uses)?;
    let found = judge_all(file, declarations.as_slice(), uses.as_slice(), least);
    Ok(found)
}
