ghost use Rattle.expr_grammar.specs.Laws.{ExpressionsAreRead, ExpressionsHaveOneAnswer, ExpressionsSpellOne};

/// Of any tokens the reader of a level answers the one tree of the longest run, or the first token that no sentence
/// goes on with, or the first that breaks a limit. A law; it does nothing.
pub fn expressions_are_read()
    ensures { ExpressionsAreRead }
{}

/// No tokens spell two trees within the limits. A law; it does nothing.
pub fn expressions_spell_one_tree()
    ensures { ExpressionsSpellOne }
{}

/// Of any tokens there is one answer: the tree and the run, or the rule and the token that breaks it, are those of no
/// other answer. A law; it does nothing.
pub fn expressions_have_one_answer()
    ensures { ExpressionsHaveOneAnswer }
{}
