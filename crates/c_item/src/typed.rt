//! Items that begin with a type.
ghost use Rattle.std.specs.Prelude.{◌≡◌, ◌++◌, ◌∷◌, [], List, Bool, Some, IfOk, true, false};
ghost use Rattle.c_token.specs.CTokens.{CToken, Word, sign};
ghost use Rattle.c_tree.specs.Forms.{IsFunctionName, IsPlace};
ghost use Rattle.c_tree.specs.Items.{function_token, types_spelling};
ghost use Rattle.c_tree.specs.Names.{place_name};
ghost use Rattle.c_input.specs.Reads.{Finds, ReadsEvery};
ghost use Rattle.c_item.specs.Typed.{extern_tokens, prototype, typed_tokens, variable, IsExtern, IsTyped};

use c_input::{Input, Piece};
use c_operand::{result_type, types};
use c_tree::{CItem, CResult, CType, FunctionName, Place, Variable};
use cy_base::OutOfMemory;
use sqlite_items::Items;
use std::alloc::Global;

/// Reads the declaration of a type object of another file.
pub fn extern_type(input: &mut Input) -> Option<CItem>
    ensures some { Finds IsExtern extern_tokens input.old result input.new }
    ensures every { ReadsEvery IsExtern extern_tokens input.old result }
{
    if !input.fixed(&[Piece::Word(b"extern"), Piece::Word(b"PyTypeObject")]) {
        return None;
    }
    let class = input.numbered(b"cyc_ty_")?;
    if input.fixed(&[Piece::Sign(b";")]) {
        Some(CItem::ExternType(class))
    } else {
        None
    }
}

// Reads a place of the file, and `;`.
fn place(input: &mut Input) -> Option<Place>
    ensures some { Finds IsPlace (λ x. Word (place_name x) ∷ sign ";" ∷ []) input.old result input.new }
    ensures every { ReadsEvery IsPlace (λ x. Word (place_name x) ∷ sign ";" ∷ []) input.old result }
{
    let variable = input.variable()?;
    if !input.fixed(&[Piece::Sign(b";")]) {
        return None;
    }
    match variable {
        Variable::Place(place) => Some(place),
        _ => None,
    }
}

// Reads the name and the parameters of a prototype, and `;`.
fn signature(
    alloc: Global,
    input: &mut Input,
) -> Result<Option<(FunctionName, Items<CType>)>, OutOfMemory>
    ensures some { IfOk result (λ found. Finds (λ r. IsFunctionName r.0) (λ r. function_token r.0 ∷ (types_spelling r.1 ++ (sign ";" ∷ []))) input.old found input.new) }
    ensures every { IfOk result (λ found. ReadsEvery (λ r. IsFunctionName r.0) (λ r. function_token r.0 ∷ (types_spelling r.1 ++ (sign ";" ∷ []))) input.old found) }
{
    let Some(word) = input.word() else {
        return Ok(None);
    };
    let Some(name) = c_word::function(alloc, word)? else {
        return Ok(None);
    };
    let Some(kinds) = types(alloc, input)? else {
        return Ok(None);
    };
    if input.fixed(&[Piece::Sign(b";")]) {
        Ok(Some((name, kinds)))
    } else {
        Ok(None)
    }
}

// The prototype of these parts; one with `static` gives a value.
fn prototype(
    is_static: bool,
    result_type: CResult,
    name: FunctionName,
    kinds: Items<CType>,
) -> Option<CItem>
    ensures { result ≡ prototype is_static result_type name kinds }
{
    if !is_static {
        return Some(CItem::Prototype(result_type, name, kinds));
    }
    match result_type {
        CResult::Value(kind) => Some(CItem::StaticPrototype(kind, name, kinds)),
        CResult::Void => None,
    }
}

// The variable of the file of these parts.
fn variable(is_static: bool, result_type: CResult, place: Place) -> Option<CItem>
    ensures { result ≡ variable is_static result_type place }
{
    match result_type {
        CResult::Value(kind) if is_static => Some(CItem::Static(kind, place)),
        _ => None,
    }
}

/// Reads a prototype or a variable of the file, without the `static` before it.
pub fn typed(
    alloc: Global,
    is_static: bool,
    input: &mut Input,
) -> Result<Option<CItem>, OutOfMemory>
    ensures some { IfOk result (λ found. Finds (IsTyped is_static) typed_tokens input.old found input.new) }
    ensures every { IfOk result (λ found. ReadsEvery (IsTyped is_static) typed_tokens input.old found) }
{
    let Some(result_type) = result_type(input) else {
        return Ok(None);
    };
    if input.sees(Piece::Sign(b";"), 1) {
        let Some(place) = place(input) else {
            return Ok(None);
        };
        return Ok(variable(is_static, result_type, place));
    }
    let Some((name, kinds)) = signature(alloc, input)? else {
        return Ok(None);
    };
    Ok(prototype(is_static, result_type, name, kinds))
}
