ghost use Rattle.std.specs.Prelude.{◌≡◌, List, [], ◌∷◌, ◌++◌, ◌↔◌, None, IsTrue};
ghost use Rattle.cy_base.specs.declared.place.Refusal.{Refusal};
ghost use Rattle.first_breach.specs.First.{IsBefore, IsFirst, IsLeast, IsLeastWith, broken_if};

use cy_base::Refusal;

fn is_before(a: Refusal, b: Refusal) -> bool
    ensures { IsTrue result ↔ IsBefore a b }
{
    if a.file != b.file {
        return a.file < b.file;
    }
    if a.offset != b.offset {
        return a.offset < b.offset;
    }
    a.rule.number < b.rule.number
}

fn earlier(found: Refusal, next: Refusal) -> Refusal
    ensures { (before : List Refusal) → IsFirst found before → IsFirst result (before ++ next ∷ []) }
{
    if is_before(next, found) { next } else { found }
}

/// The least of what was found and one more. The project's own.
pub fn note(least: Option<Refusal>, next: Refusal) -> Option<Refusal>
    ensures { (before : List Refusal) → IsLeast least before → IsLeast result (before ++ next ∷ []) }
{
    match least {
        Some(found) => Some(earlier(found, next)),
        None => Some(next),
    }
}

/// The same where a rule is broken.
pub fn note_if(is_broken: bool, least: Option<Refusal>, next: Refusal) -> Option<Refusal>
    ensures { IsLeastWith least (broken_if is_broken next) result }
{
    if is_broken { note(least, next) } else { least }
}
