ghost use Rattle.std.specs.Prelude.{◌≡◌, List, [], ◌++◌, Option};
ghost use Rattle.cy_base.specs.declared.place.Refusal.{Refusal};
ghost use Rattle.first_breach.specs.First.{IsFirst, IsLeast, IsLeastWith, IsOneOf};

/// Broken rules of one phase have at most one first. The project's own.
pub fn there_is_one_first()
    ensures { (rs : List Refusal) (a b : Refusal) → IsFirst a rs → IsFirst b rs → a.rule.phase ≡ b.rule.phase → a ≡ b }
{}

/// The least of one list and then of a list behind it is the least of both. The project's own.
pub fn lists_are_joined()
    ensures none { (least : Option Refusal) → IsLeastWith least [] least }
    ensures both { (least next last : Option Refusal) (xs ys : List Refusal) → IsLeastWith least xs next
        → IsLeastWith next ys last → IsLeastWith least (xs ++ ys) last }
{}

/// The least depends only on which rules are broken, and not on their order. The project's own.
pub fn order_is_free()
    ensures { (least : Option Refusal) (xs ys : List Refusal) → ((r : Refusal) → IsOneOf r xs → IsOneOf r ys)
        → ((r : Refusal) → IsOneOf r ys → IsOneOf r xs) → IsLeast least xs → IsLeast least ys }
{}
