//! Types of results, and lists of types.
ghost use Rattle.std.specs.Prelude.{◌≡◌, ◌++◌, ◌∷◌, [], List, Some, IfOk, ⊤};
ghost use Rattle.c_token.specs.CTokens.{CToken, sign};
ghost use Rattle.c_tree.specs.declared.value.CType.{CType as TypeValue};
ghost use Rattle.c_tree.specs.Items.{types_spelling};
ghost use Rattle.c_tree.specs.Names.{listed};
ghost use Rattle.c_tree.specs.Values.{result_spelling, type_spelling};
ghost use Rattle.c_input.specs.Reads.{Finds, ReadsEvery};
ghost use Rattle.c_operand.specs.Listed.{AreFilled, ReadsListed};

use c_input::{Input, Piece, kind};
use c_tree::{CResult, CType};
use cy_base::OutOfMemory;
use sqlite_items::Items;
use std::alloc::Global;

/// Reads what a function gives: `void`, or a type.
#[tactic(auto, using(crate::proofs::Fixed::void_spelled))]
pub fn result_type(input: &mut Input) -> Option<CResult>
    ensures some { Finds (λ _. ⊤) result_spelling input.old result input.new }
    ensures every { ReadsEvery (λ _. ⊤) result_spelling input.old result }
{
    if input.fixed(&[Piece::Word(b"void")]) {
        return Some(CResult::Void);
    }
    let found = kind(input)?;
    Some(CResult::Value(found))
}

// Types with commas between them, up to `)`.
fn listed_types(alloc: Global, input: &mut Input) -> Result<Option<Items<CType>>, OutOfMemory>
    ensures some { IfOk result (λ found. Finds (AreFilled (λ _. ⊤)) (listed type_spelling) input.old found input.new) }
    ensures every { IfOk result (λ found. ReadsListed (λ _. ⊤) type_spelling input.old found) }
{
    let mut kinds = Vec::new(alloc);
    let Some(first) = kind(input) else {
        return Ok(None);
    };
    kinds.push(first)?;
    while input.fixed(&[Piece::Sign(b",")]) {
        let Some(next) = kind(input) else {
            return Ok(None);
        };
        kinds.push(next)?;
    }
    Ok(Some(Items::from_vec(kinds)))
}

/// Reads the types of a prototype: `(T, ..)`, or `(void)` where there are none.
#[tactic(auto, using(crate::proofs::Fixed::void_spelled))]
pub fn types(alloc: Global, input: &mut Input) -> Result<Option<Items<CType>>, OutOfMemory>
    ensures some { IfOk result (λ found. Finds (λ _. ⊤) types_spelling input.old found input.new) }
    ensures every { IfOk result (λ found. ReadsEvery (λ _. ⊤) types_spelling input.old found) }
{
    if !input.fixed(&[Piece::Sign(b"(")]) {
        return Ok(None);
    }
    if input.fixed(&[Piece::Word(b"void"), Piece::Sign(b")")]) {
        return Ok(Some(Items::new(alloc)));
    }
    let Some(kinds) = listed_types(alloc, input)? else {
        return Ok(None);
    };
    if input.fixed(&[Piece::Sign(b")")]) {
        Ok(Some(kinds))
    } else {
        Ok(None)
    }
}
