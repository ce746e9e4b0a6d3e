ghost use Rattle.std.specs.Prelude.{◌≡◌, ◌<◌, ◌≤◌, ◌-◌, ◌⊎◌, ℕ, true, length, drop, Ok, Err, IfOk};
ghost use Rattle.cy_base.specs.declared.place.Refusal.{Refusal};
ghost use Rattle.cy_tree.specs.declared.expr.Expr.{Expr as Tree};
ghost use Rattle.expr_grammar.specs.Grammar.{Spells};
ghost use Rattle.token_input.specs.Ended.{is_ended};
ghost use Rattle.token_input.specs.Answer.{IsFirstBreach};
ghost use Rattle.pyx_parse.specs.Answer.{expr_form, target_form, IsTree};

use crate::reading::read;
use cy_base::{FileId, Stop};
use cy_tree::Expr;
use expr_grammar::Level;
use pyx_lex::{Token, Tokens};
use std::alloc::Global;
use token_input::{Input, classes_of};

// How many things may be open.
const DEEPEST: usize = 100;

fn from(tokens: &Tokens, at: usize) -> &[Token]
    requires ended { is_ended tokens.now.list ≡ true }
    requires within { at < length tokens.now.list }
    ensures rest { result.now ≡ drop at tokens.now.list }
    ensures ended { is_ended result.now ≡ true }
{
    &tokens.list.as_slice()[at..]
}

fn form(
    alloc: Global,
    file: FileId,
    tokens: &Tokens,
    at: usize,
    depth: u32,
    level: Level,
) -> Result<(Expr, usize), Stop>
    requires ended { is_ended tokens.now.list ≡ true }
    requires within { at < length tokens.now.list }
    requires depth { depth ≤ 100 }
    ensures tree { IfOk result (λ r. IsTree (Spells (100 - depth) level) tokens.now.list at r.0 r.1) }
    ensures every_tree { (tree : Tree) (next : ℕ) → IsTree (Spells (100 - depth) level) tokens.now.list at tree next
        → (result ≡ Ok (tree, next)) ⊎ (result ≡ Err Stop.Memory) }
    ensures refused { (refused : Refusal) → result ≡ Err (Stop.Refused refused) → IsFirstBreach Tree (Spells (100 - depth) level) file (drop at tokens.now.list) refused }
    ensures every_breach { (refused : Refusal) → IsFirstBreach Tree (Spells (100 - depth) level) file (drop at tokens.now.list) refused
        → (result ≡ Err (Stop.Refused refused)) ⊎ (result ≡ Err Stop.Memory) }
{
    let rest = from(tokens, at);
    let classes = classes_of(alloc, rest)?;
    let mut input = Input::new(rest, classes.as_slice());
    match read(alloc, &mut input, DEEPEST - depth as usize, level) {
        Ok(tree) => Ok((tree, input.number(tokens.list.len()))),
        Err(halt) => Err(input.stop(file, halt)),
    }
}

/// The expression that begins with the token `at`, where `depth` things are open before it: brackets, indented suites,
/// prefix operators and casts whose operand hasn't ended, and `else` arms of conditionals (Python language reference, 6;
/// casts are Cython's).
///
/// Let the run be the tokens from `at` on up to the first token such that no expression begins with the tokens up to it.
/// Where the run is an expression and breaks no limit, the answer is its one tree and the number of the token after it.
/// Else it is the first breach: rule 1 of the parser at the token after the run, rule 2 where more than a hundred things
/// are open, rule 3 at a 33rd argument, rule 4 at a fourth dimension.
pub fn expression(
    alloc: Global,
    file: FileId,
    tokens: &Tokens,
    at: usize,
    depth: u32,
) -> Result<(Expr, usize), Stop>
    requires ended { is_ended tokens.now.list ≡ true }
    requires within { at < length tokens.now.list }
    requires depth { depth ≤ 100 }
    ensures tree { IfOk result (λ r. IsTree (expr_form depth) tokens.now.list at r.0 r.1) }
    ensures every_tree { (tree : Tree) (next : ℕ) → IsTree (expr_form depth) tokens.now.list at tree next
        → (result ≡ Ok (tree, next)) ⊎ (result ≡ Err Stop.Memory) }
    ensures refused { (refused : Refusal) → result ≡ Err (Stop.Refused refused) → IsFirstBreach Tree (expr_form depth) file (drop at tokens.now.list) refused }
    ensures every_breach { (refused : Refusal) → IsFirstBreach Tree (expr_form depth) file (drop at tokens.now.list) refused
        → (result ≡ Err (Stop.Refused refused)) ⊎ (result ≡ Err Stop.Memory) }
{
    form(alloc, file, tokens, at, depth, Level::Expr)
}

/// As `expression`, for an atom with what stands behind it, as the variable of a `for` is (Python language reference, 6.3).
pub fn target(
    alloc: Global,
    file: FileId,
    tokens: &Tokens,
    at: usize,
    depth: u32,
) -> Result<(Expr, usize), Stop>
    requires ended { is_ended tokens.now.list ≡ true }
    requires within { at < length tokens.now.list }
    requires depth { depth ≤ 100 }
    ensures tree { IfOk result (λ r. IsTree (target_form depth) tokens.now.list at r.0 r.1) }
    ensures every_tree { (tree : Tree) (next : ℕ) → IsTree (target_form depth) tokens.now.list at tree next
        → (result ≡ Ok (tree, next)) ⊎ (result ≡ Err Stop.Memory) }
    ensures refused { (refused : Refusal) → result ≡ Err (Stop.Refused refused) → IsFirstBreach Tree (target_form depth) file (drop at tokens.now.list) refused }
    ensures every_breach { (refused : Refusal) → IsFirstBreach Tree (target_form depth) file (drop at tokens.now.list) refused
        → (result ≡ Err (Stop.Refused refused)) ⊎ (result ≡ Err Stop.Memory) }
{
    form(alloc, file, tokens, at, depth, Level::Postfix)
}
