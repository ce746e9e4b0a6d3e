//! Functions in method tables.
ghost use Rattle.std.specs.Prelude.{◌≡◌, ◌∷◌, [], List, Some, IfOk};
ghost use Rattle.std.specs.List.{flat_map, AllByRecursion};
ghost use Rattle.c_token.specs.CTokens.{CToken};
ghost use Rattle.c_input.specs.Reads.{Finds, ReadsEvery};
ghost use Rattle.c_slots.specs.Slots.{Closes};
ghost use Rattle.c_slots.specs.Tables.{behind_comma, layer_tokens, AreFunctions, EndsTable, ReadsFunctions, ReadsLayer, ReadsLayers};
ghost use Rattle.c_tree.specs.Forms.{IsFunctionName};
ghost use Rattle.c_tree.specs.Items.{behind};

use c_input::{Input, Piece};
use c_tree::FunctionName;
use cy_base::OutOfMemory;
use sqlite_items::Items;
use std::alloc::Global;

// `, cyc_f_0_1`
fn function_behind(alloc: Global, input: &mut Input) -> Result<Option<FunctionName>, OutOfMemory>
    ensures some { IfOk result (λ found. Finds IsFunctionName behind_comma input.old found input.new) }
    ensures every { IfOk result (λ found. ReadsEvery IsFunctionName behind_comma input.old found) }
{
    if !input.fixed(&[Piece::Sign(b",")]) {
        return Ok(None);
    }
    let Some(letters) = input.word() else {
        return Ok(None);
    };
    c_word::function(alloc, letters)
}

/// Reads functions, each with the comma before it, as far as commas stand.
pub fn functions_behind(
    alloc: Global,
    input: &mut Input,
) -> Result<Option<Items<FunctionName>>, OutOfMemory>
    ensures some { IfOk result (λ found. Finds AreFunctions behind input.old found input.new) }
    ensures every { IfOk result (λ found. ReadsFunctions input.old found) }
{
    let mut functions = Vec::new(alloc);
    while input.sees(Piece::Sign(b","), 0) {
        let Some(next) = function_behind(alloc, input)? else {
            return Ok(None);
        };
        functions.push(next)?;
    }
    Ok(Some(Items::from_vec(functions)))
}

// `}`, and the functions behind it
fn layer(alloc: Global, input: &mut Input) -> Result<Option<Items<FunctionName>>, OutOfMemory>
    ensures some { IfOk result (λ found. Finds AreFunctions layer_tokens input.old found input.new) }
    ensures every { IfOk result (λ found. ReadsLayer input.old found) }
{
    if !input.fixed(&[Piece::Sign(b"}")]) {
        return Ok(None);
    }
    functions_behind(alloc, input)
}

/// Reads what closes tables, each with the functions behind it, up to `};`.
pub fn layers(
    alloc: Global,
    input: &mut Input,
) -> Result<Option<Items<Items<FunctionName>>>, OutOfMemory>
    ensures some { IfOk result (λ found. Finds (AllByRecursion AreFunctions) (flat_map layer_tokens) input.old found input.new) }
    ensures every { IfOk result (λ found. ReadsLayers input.old found) }
{
    let mut layers = Vec::new(alloc);
    while !input.sees(Piece::Sign(b";"), 1) {
        let Some(next) = layer(alloc, input)? else {
            return Ok(None);
        };
        layers.push(next)?;
    }
    Ok(Some(Items::from_vec(layers)))
}
