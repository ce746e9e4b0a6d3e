ghost use Rattle.std.specs.Prelude.{◌≡◌, List, [], ◌∷◌, ◌++◌, ◌↔◌, None, IfSome, IsTrue, MatchOption};
ghost use Rattle.cy_base.specs.declared.place.Refusal.{Refusal};
ghost use Rattle.name_rules.specs.First.{IsBefore, IsFirst};

use cy_base::Refusal;

fn is_before(a: Refusal, b: Refusal) -> bool
    ensures { IsTrue result ↔ IsBefore a b }
{
    if a.file != b.file {
        return a.file < b.file;
    }
    if a.offset != b.offset {
        return a.offset < b.offset;
    }
    a.rule.number < b.rule.number
}

// The earlier of the first of a list and the next.
fn earlier(found: Refusal, next: Refusal) -> Refusal
    ensures { (before : List Refusal) → IsFirst found before → IsFirst result (before ++ next ∷ []) }
{
    if is_before(next, found) { next } else { found }
}

fn earliest(found: Option<Refusal>, next: Refusal) -> Refusal
    ensures { (before : List Refusal) → MatchOption found (before ≡ []) (λ other. IsFirst other before) → IsFirst result (before ++ next ∷ []) }
{
    match found {
        Some(found) => earlier(found, next),
        None => next,
    }
}

/// The first of many broken rules, by file, offset and rule. The project's own.
pub fn first(refusals: &[Refusal]) -> Option<Refusal>
    ensures none { (result ≡ None) ↔ (refusals.now ≡ []) }
    ensures first { IfSome result (λ refusal. IsFirst refusal refusals.now) }
{
    let mut found = None;
    for refusal in refusals {
        found = Some(earliest(found, *refusal));
    }
    found
}
