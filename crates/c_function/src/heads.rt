//! Heads of functions.
ghost use Rattle.std.specs.Prelude.{◌≡◌, ◌++◌, ◌∷◌, [], List, codes, IfOk};
ghost use Rattle.c_token.specs.CTokens.{Word};
ghost use Rattle.c_tree.specs.Forms.{IsHead, IsIdentifier};
ghost use Rattle.c_tree.specs.Items.{function_token, head_spelling};
ghost use Rattle.c_input.specs.Reads.{Finds, ReadsEvery};
ghost use Rattle.c_function.specs.Heads.{initialized_name, named, plain_function, plain_head_of, IsInitializer, IsPlainHead, IsPlainName};

use crate::fixed::static_head;
use crate::listing::parameters;
use c_input::{Input, Piece};
use c_operand::result_type;
use c_token::Bytes;
use c_tree::{CHead, CResult, FunctionName, Numbered, Parameter};
use cy_base::OutOfMemory;
use sqlite_items::Items;
use std::alloc::Global;

/// The name of a C function: `cyc_f_0_1` or `cyc_x_0_1`.
#[derive(Clone, Copy)]
pub enum PlainName {
    Plain(Numbered),
    Overridable(Numbered),
}

fn plain_name(input: &mut Input) -> Option<PlainName>
    ensures some { Finds IsPlainName (λ n. function_token (plain_function n) ∷ []) input.old result input.new }
    ensures every { ReadsEvery IsPlainName (λ n. function_token (plain_function n) ∷ []) input.old result }
{
    if let Some(number) = input.numbered(b"cyc_f_") {
        return Some(PlainName::Plain(number));
    }
    let number = input.numbered(b"cyc_x_")?;
    Some(PlainName::Overridable(number))
}

fn plain(name: PlainName, given: CResult, parameters: Items<Parameter>) -> CHead
    ensures { result ≡ plain_head_of name given parameters }
{
    match name {
        PlainName::Plain(number) => CHead::Plain(number, given, parameters),
        PlainName::Overridable(number) => CHead::Overridable(number, given, parameters),
    }
}

// `R cyc_f_0_1(T p0, ..)` or `R cyc_x_0_1(T p0, ..)`
fn plain_head(alloc: Global, input: &mut Input) -> Result<Option<CHead>, OutOfMemory>
    ensures some { IfOk result (λ found. Finds IsPlainHead head_spelling input.old found input.new) }
    ensures every { IfOk result (λ found. ReadsEvery IsPlainHead head_spelling input.old found) }
{
    let Some(given) = result_type(input) else {
        return Ok(None);
    };
    let Some(name) = plain_name(input) else {
        return Ok(None);
    };
    let Some(parameters) = parameters(alloc, input)? else {
        return Ok(None);
    };
    Ok(Some(plain(name, given, parameters)))
}

// What a module's initialisation is named after.
fn name_of(function: FunctionName) -> Option<Bytes>
    ensures { result ≡ initialized_name function }
{
    match function {
        FunctionName::Initializer(name) => Some(name),
        _ => None,
    }
}

// The name behind `PyInit_`.
fn initialized(alloc: Global, input: &mut Input) -> Result<Option<Bytes>, OutOfMemory>
    ensures some { IfOk result (λ found. Finds IsIdentifier (λ name. Word (codes "PyInit_" ++ name) ∷ []) input.old found input.new) }
    ensures every { IfOk result (λ found. ReadsEvery IsIdentifier (λ name. Word (codes "PyInit_" ++ name) ∷ []) input.old found) }
{
    let Some(word) = input.word() else {
        return Ok(None);
    };
    match c_word::function(alloc, word)? {
        Some(found) => Ok(name_of(found)),
        None => Ok(None),
    }
}

// `PyInit_name(void)`
fn initializer(alloc: Global, input: &mut Input) -> Result<Option<CHead>, OutOfMemory>
    ensures some { IfOk result (λ found. Finds IsInitializer named input.old found input.new) }
    ensures every { IfOk result (λ found. ReadsEvery IsInitializer named input.old found) }
{
    let Some(name) = initialized(alloc, input)? else {
        return Ok(None);
    };
    if input.fixed(&[Piece::Sign(b"("), Piece::Word(b"void"), Piece::Sign(b")")]) {
        Ok(Some(CHead::Initializer(name)))
    } else {
        Ok(None)
    }
}

/// Reads the head of a function.
pub fn head(alloc: Global, input: &mut Input) -> Result<Option<CHead>, OutOfMemory>
    ensures some { IfOk result (λ found. Finds IsHead head_spelling input.old found input.new) }
    ensures every { IfOk result (λ found. ReadsEvery IsHead head_spelling input.old found) }
{
    if input.fixed(&[Piece::Word(b"PyMODINIT_FUNC")]) {
        return initializer(alloc, input);
    }
    if input.fixed(&[Piece::Word(b"static")]) {
        return Ok(static_head(input));
    }
    plain_head(alloc, input)
}
