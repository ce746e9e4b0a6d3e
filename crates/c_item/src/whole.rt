//! Whole items.
ghost use Rattle.std.specs.Prelude.{◌≡◌, ◌↔◌, Some, IfOk, IfSome, true};
ghost use Rattle.c_token.specs.CTokens.{sign};
ghost use Rattle.c_cut.specs.Shown.{item_shown};
ghost use Rattle.c_tree.specs.declared.item.CFunction.{CFunction as FunctionTree};
ghost use Rattle.c_tree.specs.declared.item.CItem.{CItem as ItemTree};
ghost use Rattle.c_tree.specs.Forms.{IsFunction, IsItem};
ghost use Rattle.c_tree.specs.Items.{function_spelling, item_spelling};
ghost use Rattle.c_item.specs.Fixed.{test_tokens};
ghost use Rattle.c_item.specs.Kinds.{declared_tokens, last_of, IsBodied, IsDeclared, IsUnbodied};

use crate::declared::declared;
use crate::fixed::format_test;
use crate::opening::opening;
use c_cut::Token;
use c_function::function;
use c_input::{Input, Piece, behind, is_piece};
use c_tree::{CFunction, CItem};
use cy_base::OutOfMemory;
use std::alloc::Global;

// Reads an item that is no function, without the `static` before it.
fn unbodied(alloc: Global, is_static: bool, tokens: &[Token]) -> Result<Option<CItem>, OutOfMemory>
    ensures some { IfOk result (λ found. IfSome found (λ t. IsDeclared is_static t × (declared_tokens t ≡ item_shown tokens.now))) }
    ensures every { IfOk result (λ found. (t : ItemTree) → IsDeclared is_static t → declared_tokens t ≡ item_shown tokens.now → found ≡ Some t) }
{
    let mut input = Input::new(tokens);
    let found = declared(alloc, opening(tokens), is_static, &mut input)?;
    if input.is_done() { Ok(found) } else { Ok(None) }
}

// Reads an item that is no function.
fn without_body(alloc: Global, tokens: &[Token]) -> Result<Option<CItem>, OutOfMemory>
    ensures some { IfOk result (λ found. IfSome found (λ t. IsItem t × (item_spelling t ≡ item_shown tokens.now))) }
    ensures every { IfOk result (λ found. (t : ItemTree) → IsItem t → IsUnbodied t → item_spelling t ≡ item_shown tokens.now → found ≡ Some t) }
{
    match behind(tokens, &[Piece::Word(b"static")]) {
        Some(rest) => unbodied(alloc, true, rest),
        None => unbodied(alloc, false, tokens),
    }
}

// Whether these are the tokens of the function that tests a format.
fn is_format_test(tokens: &[Token]) -> bool
    ensures { (result ≡ true) ↔ (test_tokens ≡ item_shown tokens.now) }
{
    let mut input = Input::new(tokens);
    if !format_test(&mut input) {
        return false;
    }
    input.is_done()
}

// Whether the item ends with its body.
fn has_body(tokens: &[Token]) -> bool
    ensures { (result ≡ true) ↔ (last_of (item_shown tokens.now) ≡ Some (sign "}")) }
{
    match tokens {
        [.., last] => is_piece(last, Piece::Sign(b"}")),
        [] => false,
    }
}

// Reads a function, where nothing stands behind it.
fn whole_function(alloc: Global, tokens: &[Token]) -> Result<Option<CFunction>, OutOfMemory>
    ensures some { IfOk result (λ found. IfSome found (λ f. IsFunction f × (function_spelling f ≡ item_shown tokens.now))) }
    ensures every { IfOk result (λ found. (f : FunctionTree) → IsFunction f → function_spelling f ≡ item_shown tokens.now → found ≡ Some f) }
{
    let mut input = Input::new(tokens);
    let found = function(alloc, &mut input)?;
    if input.is_done() { Ok(found) } else { Ok(None) }
}

// Reads the function that tests a format, or another one.
fn with_body(alloc: Global, tokens: &[Token]) -> Result<Option<CItem>, OutOfMemory>
    ensures some { IfOk result (λ found. IfSome found (λ t. IsItem t × (item_spelling t ≡ item_shown tokens.now))) }
    ensures every { IfOk result (λ found. (t : ItemTree) → IsBodied t → item_spelling t ≡ item_shown tokens.now → found ≡ Some t) }
{
    if is_format_test(tokens) {
        return Ok(Some(CItem::FormatTest));
    }
    match whole_function(alloc, tokens)? {
        Some(read) => Ok(Some(CItem::Function(read))),
        None => Ok(None),
    }
}

/// Reads the tokens of an item.
pub fn item(alloc: Global, tokens: &[Token]) -> Result<Option<CItem>, OutOfMemory>
    ensures some { IfOk result (λ found. IfSome found (λ t. IsItem t × (item_spelling t ≡ item_shown tokens.now))) }
    ensures every { IfOk result (λ found. (t : ItemTree) → IsItem t → item_spelling t ≡ item_shown tokens.now → found ≡ Some t) }
{
    if has_body(tokens) {
        with_body(alloc, tokens)
    } else {
        without_body(alloc, tokens)
    }
}
