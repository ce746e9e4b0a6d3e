//! Arguments of calls.
ghost use Rattle.std.specs.Prelude.{◌≡◌, ◌≢◌, ◌++◌, List, Some, IfOk, slice_get};
ghost use Rattle.std.specs.List.{AllByRecursion};
ghost use Rattle.c_token.specs.CTokens.{CToken, sign};
ghost use Rattle.c_tree.specs.declared.statement.Argument.{Argument as ArgumentTree};
ghost use Rattle.c_tree.specs.Forms.{IsArgument};
ghost use Rattle.c_tree.specs.Names.{listed};
ghost use Rattle.c_tree.specs.Statements.{argument_spelling, arguments as arguments_spelling};
ghost use Rattle.c_input.specs.Reads.{Finds, ReadsEvery};
ghost use Rattle.c_operand.specs.Listed.{AreFilled, ReadsListed};

use crate::values::value;
use c_input::{Input, Piece};
use c_tree::Argument;
use cy_base::OutOfMemory;
use sqlite_items::Items;
use std::alloc::Global;

/// Reads an argument of a call: a string, or an operand.
pub fn argument(alloc: Global, input: &mut Input) -> Result<Option<Argument>, OutOfMemory>
    ensures some { IfOk result (λ found. Finds IsArgument argument_spelling input.old found input.new) }
    ensures every { IfOk result (λ found. (a : ArgumentTree) (rest : List CToken) → IsArgument a → slice_get rest 0 ≢ Some (sign "[") → input.old ≡ argument_spelling a ++ rest → found ≡ Some a) }
{
    if let Some(bytes) = input.string(alloc)? {
        return Ok(Some(Argument::Str(bytes)));
    }
    match value(input) {
        Some(found) => Ok(Some(Argument::Value(found))),
        None => Ok(None),
    }
}

// Arguments with commas between them, up to `)`.
fn listed_arguments(
    alloc: Global,
    input: &mut Input,
) -> Result<Option<Items<Argument>>, OutOfMemory>
    ensures some { IfOk result (λ found. Finds (AreFilled IsArgument) (listed argument_spelling) input.old found input.new) }
    ensures every { IfOk result (λ found. ReadsListed IsArgument argument_spelling input.old found) }
{
    let mut all = Vec::new(alloc);
    let Some(first) = argument(alloc, input)? else {
        return Ok(None);
    };
    all.push(first)?;
    while input.fixed(&[Piece::Sign(b",")]) {
        let Some(next) = argument(alloc, input)? else {
            return Ok(None);
        };
        all.push(next)?;
    }
    Ok(Some(Items::from_vec(all)))
}

/// Reads the arguments of a call: `(k, ..)`.
pub fn arguments(alloc: Global, input: &mut Input) -> Result<Option<Items<Argument>>, OutOfMemory>
    ensures some { IfOk result (λ found. Finds (AllByRecursion IsArgument) arguments_spelling input.old found input.new) }
    ensures every { IfOk result (λ found. ReadsEvery (AllByRecursion IsArgument) arguments_spelling input.old found) }
{
    if !input.fixed(&[Piece::Sign(b"(")]) {
        return Ok(None);
    }
    if input.fixed(&[Piece::Sign(b")")]) {
        return Ok(Some(Items::new(alloc)));
    }
    let Some(all) = listed_arguments(alloc, input)? else {
        return Ok(None);
    };
    if input.fixed(&[Piece::Sign(b")")]) {
        Ok(Some(all))
    } else {
        Ok(None)
    }
}
