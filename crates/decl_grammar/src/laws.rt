ghost use Rattle.decl_grammar.specs.Laws.{FactoredAlike, FilesAreRead, FilesHaveOneAnswer, FilesSpellOne};

/// Of any tokens the reader of a file answers its one tree, or the first token that no sentence goes on with, or the
/// first that breaks a limit. A law; it does nothing.
pub fn files_are_read()
    ensures { FilesAreRead }
{}

/// No tokens spell two trees of a file within the limits. A law; it does nothing.
pub fn files_spell_one_tree()
    ensures { FilesSpellOne }
{}

/// Of any tokens there is one answer: the tree, or the rule and the token that breaks it, are those of no other answer.
/// A law; it does nothing.
pub fn files_have_one_answer()
    ensures { FilesHaveOneAnswer }
{}

/// The forms that the reader follows, in which alternatives that begin alike begin once, are those of the grammar.
/// A law; it does nothing.
pub fn factored_forms_are_alike()
    ensures { FactoredAlike }
{}
