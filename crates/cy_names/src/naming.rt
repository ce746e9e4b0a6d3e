ghost use Rattle.std.specs.Prelude.{◌≡◌, [], None, Err, IfOk, IfSome};
ghost use Rattle.cy_base.specs.declared.place.Refusal.{Refusal as RefusalValue};
ghost use Rattle.cy_scope.specs.Scopes.{scopes_of, scopes_shown, scopes_with};
ghost use Rattle.name_rules.specs.Breaches.{refusals, refusals_with};
ghost use Rattle.name_rules.specs.First.{IsFirst};
ghost use Rattle.cy_names.specs.Named.{IsFirstBreach, IsNamed};

use cy_base::{OutOfMemory, Refusal, Stop};
use cy_scope::{Known, known_of, scopes_with};
use cy_tree::{NamedSet, Scope, SourceSet};
use name_rules::{first, refusals_with};
use sqlite_items::Items;
use std::alloc::Global;

// The first rule that a set breaks.
fn first_breach(
    alloc: Global,
    known: &Known,
    set: &SourceSet,
) -> Result<Option<Refusal>, OutOfMemory>
    ensures none { IfOk result (λ breach. breach ≡ None → refusals_with known.now set.now ≡ []) }
    ensures first { IfOk result (λ breach. IfSome breach (λ refusal. IsFirst refusal (refusals_with known.now set.now))) }
{
    let mut refusals = Vec::new(alloc);
    refusals_with(alloc, known, set, &mut refusals)?;
    Ok(first(refusals.as_slice()))
}

fn judge(alloc: Global, known: &Known, set: &SourceSet) -> Result<(), Stop>
    ensures accepted { IfOk result (λ _. refusals_with known.now set.now ≡ []) }
    ensures refused { (refusal : RefusalValue) → result ≡ Err (Stop.Refused refusal) → IsFirst refusal (refusals_with known.now set.now) }
{
    match first_breach(alloc, known, set)? {
        Some(refusal) => Err(Stop::Refused(refusal)),
        None => Ok(()),
    }
}

fn scopes_of(alloc: Global, known: &Known, set: &SourceSet) -> Result<Items<Scope>, Stop>
    ensures scopes { IfOk result (λ scopes. scopes_shown scopes ≡ scopes_with known.now set.now) }
    ensures accepted { IfOk result (λ _. refusals_with known.now set.now ≡ []) }
    ensures refused { (refusal : RefusalValue) → result ≡ Err (Stop.Refused refusal) → IsFirst refusal (refusals_with known.now set.now) }
{
    judge(alloc, known, set)?;
    let scopes = scopes_with(alloc, known, set)?;
    Ok(scopes)
}

fn named_scopes(alloc: Global, set: &SourceSet) -> Result<Items<Scope>, Stop>
    ensures scopes { IfOk result (λ scopes. scopes_shown scopes ≡ scopes_of set.now) }
    ensures accepted { IfOk result (λ _. refusals set.now ≡ []) }
    ensures refused { (refusal : RefusalValue) → result ≡ Err (Stop.Refused refusal) → IsFirstBreach set.now refusal }
{
    let known = known_of(alloc, set)?;
    scopes_of(alloc, &known, set)
}

/// The scopes of a set that keeps the rules on names, or the first that it breaks, by file, offset and rule. A set that
/// keeps the rules is handed back with the scopes; its declarations say what each name means there. Want of memory is
/// answered where the scopes and tables don't fit.
pub fn resolve_set(alloc: Global, set: SourceSet) -> Result<NamedSet, Stop>
    ensures named { IfOk result (λ named. IsNamed set named) }
    ensures accepted { IfOk result (λ _. refusals set ≡ []) }
    ensures refused { (refusal : RefusalValue) → result ≡ Err (Stop.Refused refusal) → IsFirstBreach set refusal }
{
    match named_scopes(alloc, &set) {
        Ok(scopes) => Ok(NamedSet { set, scopes }),
        Err(stop) => Err(stop),
    }
}
