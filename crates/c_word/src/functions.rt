//! Functions, and what calls name.
ghost use Rattle.std.specs.Prelude.{◌≡◌, ◌≢◌, ◌++◌, ℕ, List, codes, IfOk, IfSome, MatchOption};
ghost use Rattle.std.specs.List.{list_all};
ghost use Rattle.c_token.specs.CTokens.{is_word_byte};
ghost use Rattle.c_tree.specs.declared.name.FunctionName.{FunctionName as FunctionValue};
ghost use Rattle.c_tree.specs.declared.statement.Callee.{Callee as CalleeValue};
ghost use Rattle.c_tree.specs.Forms.{IsCallee, IsFunctionName, IsIdentifier};
ghost use Rattle.c_tree.specs.Names.{function_name};
ghost use Rattle.c_tree.specs.Statements.{callee_name};
ghost use Rattle.c_word.specs.Keywords.{IsPlain};
ghost use Rattle.c_word.specs.Numbers.{is_identifier};

use crate::keywords::is_keyword;
use crate::numbers::{behind, numbered, of_field};
use c_token::Bytes;
use c_tree::{Callee, FunctionName};
use cy_base::OutOfMemory;
use std::alloc::Global;

fn copied(alloc: Global, bytes: &[u8]) -> Result<Bytes, OutOfMemory>
    ensures { IfOk result (λ copy. copy ≡ bytes.now) }
{
    Ok(Bytes::new(Vec::from_slice(alloc, bytes)?))
}

fn is_word_byte(b: u8) -> bool
    ensures { result ≡ is_word_byte b }
{
    matches!(b, b'0'..=b'9' | b'A'..=b'Z' | b'_' | b'a'..=b'z')
}

fn are_word_bytes(bytes: &[u8]) -> bool
    ensures { result ≡ list_all is_word_byte bytes.now }
{
    bytes.iter().all(|b| is_word_byte(*b))
}

// Whether the bytes are an identifier (ISO/IEC 9899:2011 6.4.2.1).
fn is_identifier(bytes: &[u8]) -> bool
    ensures { result ≡ is_identifier bytes.now }
{
    match bytes {
        [] => false,
        [first, ..] => !first.is_ascii_digit() && are_word_bytes(bytes),
    }
}

// What a module's initialisation is named after.
fn initializer(alloc: Global, name: &[u8]) -> Result<Option<FunctionName>, OutOfMemory>
    ensures { IfOk result (λ found. MatchOption found (¬ (IsIdentifier name.now)) (λ f. (f ≡ FunctionName.Initializer name.now) × IsIdentifier name.now)) }
{
    if !is_identifier(name) {
        return Ok(None);
    }
    Ok(Some(FunctionName::Initializer(copied(alloc, name)?)))
}

// The functions with numbers in their names, and the body of a module.
fn compiled(bytes: &[u8]) -> Option<FunctionName>
    ensures some { IfSome result (λ f. IsFunctionName f × (function_name f ≡ bytes.now)) }
    ensures every { (f : FunctionValue) → IsFunctionName f → function_name f ≡ bytes.now → ((name : List ℕ) → bytes.now ≢ codes "PyInit_" ++ name) → result ≡ Some f }
{
    if let Some(number) = numbered(b"cyc_f_", bytes) {
        return Some(FunctionName::Plain(number));
    }
    if let Some(number) = numbered(b"cyc_w_", bytes) {
        return Some(FunctionName::Wrapper(number));
    }
    if let Some(number) = numbered(b"cyc_x_", bytes) {
        return Some(FunctionName::Overridable(number));
    }
    if let Some(number) = numbered(b"cyc_new_", bytes) {
        return Some(FunctionName::New(number));
    }
    if let Some(number) = numbered(b"cyc_init_", bytes) {
        return Some(FunctionName::Init(number));
    }
    if let Some(number) = numbered(b"cyc_dealloc_", bytes) {
        return Some(FunctionName::Dealloc(number));
    }
    if let Some(number) = numbered(b"cyc_len_", bytes) {
        return Some(FunctionName::Len(number));
    }
    if let Some(number) = numbered(b"cyc_item_", bytes) {
        return Some(FunctionName::Item(number));
    }
    if let Some(number) = numbered(b"cyc_has_", bytes) {
        return Some(FunctionName::Has(number));
    }
    if let Some(number) = of_field(b"cyc_get_", bytes) {
        return Some(FunctionName::Getter(number));
    }
    if let Some(number) = of_field(b"cyc_set_", bytes) {
        return Some(FunctionName::Setter(number));
    }
    if bytes == b"cyc_body".as_slice() {
        return Some(FunctionName::Body);
    }
    None
}

/// The function of the compiler with this name.
pub fn function(alloc: Global, bytes: &[u8]) -> Result<Option<FunctionName>, OutOfMemory>
    ensures some { IfOk result (λ found. IfSome found (λ f. IsFunctionName f × (function_name f ≡ bytes.now))) }
    ensures every { IfOk result (λ found. (f : FunctionValue) → IsFunctionName f → function_name f ≡ bytes.now → found ≡ Some f) }
{
    match behind(b"PyInit_", bytes) {
        Some(name) => initializer(alloc, name),
        None => Ok(compiled(bytes)),
    }
}

// A name that is no keyword.
fn plain(alloc: Global, bytes: &[u8]) -> Result<Option<Callee>, OutOfMemory>
    ensures { IfOk result (λ found. MatchOption found (¬ (IsPlain bytes.now)) (λ f. (f ≡ Callee.Named bytes.now) × IsPlain bytes.now)) }
{
    if !is_identifier(bytes) {
        return Ok(None);
    }
    if is_keyword(bytes) {
        return Ok(None);
    }
    Ok(Some(Callee::Named(copied(alloc, bytes)?)))
}

/// What a call with this name names: a function of the compiler, or else any name that is no keyword.
pub fn callee(alloc: Global, bytes: &[u8]) -> Result<Option<Callee>, OutOfMemory>
    ensures some { IfOk result (λ found. IfSome found (λ f. IsCallee f × (callee_name f ≡ bytes.now))) }
    ensures every { IfOk result (λ found. (f : CalleeValue) → IsCallee f → callee_name f ≡ bytes.now → found ≡ Some f) }
{
    match function(alloc, bytes)? {
        Some(found) => Ok(Some(Callee::Function(found))),
        None => plain(alloc, bytes),
    }
}
