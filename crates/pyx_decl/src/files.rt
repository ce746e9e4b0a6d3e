//! Whole files.
ghost use Rattle.std.specs.Prelude.{◌≡◌, ◌⊎◌, true, Ok, Err, IfOk, IfErr};
ghost use Rattle.cy_base.specs.declared.place.Refusal.{Refusal};
ghost use Rattle.cy_tree.specs.declared.content.Content.{Content as Tree};
ghost use Rattle.decl_grammar.specs.Grammar as grammar;
ghost use Rattle.decl_grammar.specs.Reading as spec;
ghost use Rattle.decl_grammar.specs.Files.{in_brackets, read_whole, Whole};
ghost use Rattle.forms.specs.Readers.{and_then, did};
ghost use Rattle.token_input.specs.Ended.{is_ended, read_alone};
ghost use Rattle.token_input.specs.Reads.{Reads};
ghost use Rattle.pyx_decl.specs.Answer.{IsFirstBreach, ReadsWhole};

use crate::pxd_file::items;
use crate::pyx_file::tops;
use cy_base::{FileId, Stop};
use cy_tree::{Content, FileTree};
use pyx_lex::Tokens;
use std::alloc::Global;
use token_input::{Halt, Input, classes_of};

// The content, where the end alone is left.
fn whole(input: &mut Input<'_>, content: Content) -> Result<Content, Halt>
    ensures { ReadsWhole (and_then (read_alone input.old) (λ x r. did content r)) result input.new }
{
    match input.end() {
        Ok(()) => Ok(content),
        Err(halt) => Err(halt),
    }
}

fn implementation_content(alloc: Global, input: &mut Input<'_>) -> Result<Content, Halt>
    ensures { ReadsWhole (read_whole (spec.read_implementation in_brackets) input.old) result input.new }
{
    match tops(alloc, input) {
        Ok(tops) => whole(input, Content::Implementation(tops)),
        Err(halt) => Err(halt),
    }
}

fn definition_content(alloc: Global, input: &mut Input<'_>) -> Result<Content, Halt>
    ensures { ReadsWhole (read_whole (spec.read_definition in_brackets) input.old) result input.new }
{
    match items(alloc, input) {
        Ok(items) => whole(input, Content::Definition(items)),
        Err(halt) => Err(halt),
    }
}

fn tree_of(alloc: Global, content: Content) -> Result<FileTree, Stop>
    ensures ok { IfOk result (λ tree. tree ≡ content) }
    ensures err { IfErr result (λ e. e ≡ Stop.Memory) }
{
    Ok(FileTree::new(alloc, content)?)
}

/// The tree of an implementation file.
///
/// Where the tokens are such a file within the limits, the answer is its one tree. Else it is the first breach: rule 1 of
/// the parser at the first token such that no such file begins with the tokens up to it, rule 2 where more than a hundred
/// brackets, indented suites, prefix operators and casts with their operands, and `else` arms are open, rule 3 at a 33rd
/// parameter or argument, rule 4 at a fourth dimension.
pub fn implementation(alloc: Global, file: FileId, tokens: &Tokens) -> Result<FileTree, Stop>
    requires ended { is_ended tokens.now.list ≡ true }
    ensures tree { IfOk result (λ tree. Whole (grammar.implementation in_brackets) tokens.now.list tree) }
    ensures every_tree { (tree : Tree) → Whole (grammar.implementation in_brackets) tokens.now.list tree
        → (result ≡ Ok tree) ⊎ (result ≡ Err Stop.Memory) }
    ensures refused { (refused : Refusal) → result ≡ Err (Stop.Refused refused) → IsFirstBreach (grammar.implementation in_brackets) file tokens.now.list refused }
    ensures every_breach { (refused : Refusal) → IsFirstBreach (grammar.implementation in_brackets) file tokens.now.list refused
        → (result ≡ Err (Stop.Refused refused)) ⊎ (result ≡ Err Stop.Memory) }
{
    let classes = classes_of(alloc, tokens.list.as_slice())?;
    let mut input = Input::new(tokens.list.as_slice(), classes.as_slice());
    match implementation_content(alloc, &mut input) {
        Ok(content) => tree_of(alloc, content),
        Err(halt) => Err(input.stop(file, halt)),
    }
}

/// The tree of a definition file, or its first breach, as `implementation` answers them (Cython documentation, "Sharing
/// Declarations Between Cython Modules").
pub fn definition(alloc: Global, file: FileId, tokens: &Tokens) -> Result<FileTree, Stop>
    requires ended { is_ended tokens.now.list ≡ true }
    ensures tree { IfOk result (λ tree. Whole (grammar.definition in_brackets) tokens.now.list tree) }
    ensures every_tree { (tree : Tree) → Whole (grammar.definition in_brackets) tokens.now.list tree
        → (result ≡ Ok tree) ⊎ (result ≡ Err Stop.Memory) }
    ensures refused { (refused : Refusal) → result ≡ Err (Stop.Refused refused) → IsFirstBreach (grammar.definition in_brackets) file tokens.now.list refused }
    ensures every_breach { (refused : Refusal) → IsFirstBreach (grammar.definition in_brackets) file tokens.now.list refused
        → (result ≡ Err (Stop.Refused refused)) ⊎ (result ≡ Err Stop.Memory) }
{
    let classes = classes_of(alloc, tokens.list.as_slice())?;
    let mut input = Input::new(tokens.list.as_slice(), classes.as_slice());
    match definition_content(alloc, &mut input) {
        Ok(content) => tree_of(alloc, content),
        Err(halt) => Err(input.stop(file, halt)),
    }
}
