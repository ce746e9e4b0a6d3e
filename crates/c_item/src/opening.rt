//! Which reader an item without `static` wants, from its first two tokens.
ghost use Rattle.std.specs.Prelude.{◌≡◌};
ghost use Rattle.c_cut.specs.Shown.{item_shown};
ghost use Rattle.c_item.specs.Words.{has_table_letter, lone, opening_at, struct_opening, table_opening, word_opening, worded};

use crate::kinds::{Opening, Plain, Table};
use c_cut::Token;
use c_input::Input;

// What a word that is no `struct` opens.
fn word_opening(word: &[u8]) -> Opening
    ensures { result ≡ word_opening word.now }
{
    if word == b"typedef".as_slice() {
        return Opening::Plain(Plain::Fixed);
    }
    if word == b"const".as_slice() {
        return Opening::Plain(Plain::MethodTable);
    }
    if word == b"extern".as_slice() {
        return Opening::Plain(Plain::Extern);
    }
    table_opening(word)
}

// What a word opens that may begin a table of the API.
fn table_opening(word: &[u8]) -> Opening
    ensures { result ≡ table_opening word.now }
{
    if word == b"PyMethodDef".as_slice() {
        return Opening::Table(Table::Methods);
    }
    if word == b"PyGetSetDef".as_slice() {
        return Opening::Table(Table::Properties);
    }
    if word == b"PySequenceMethods".as_slice() {
        return Opening::Table(Table::Sequence);
    }
    if word == b"PyMappingMethods".as_slice() {
        return Opening::Table(Table::Mapping);
    }
    if word == b"PyTypeObject".as_slice() {
        return Opening::Table(Table::TypeObject);
    }
    Opening::Typed
}

// Whether the fifth letter is `v`, which tells `cyc_vt_` from `cyc_o_`.
fn has_table_letter(word: &[u8]) -> bool
    ensures { result ≡ has_table_letter word.now }
{
    matches!(word, [_, _, _, _, b'v', ..])
}

// What `struct` opens, with this word behind it.
fn struct_opening(word: &[u8]) -> Opening
    ensures { result ≡ struct_opening word.now }
{
    if word == b"cyc_root".as_slice() {
        return Opening::Plain(Plain::Fixed);
    }
    if word == b"PyModuleDef".as_slice() {
        return Opening::Table(Table::Definition);
    }
    if has_table_letter(word) {
        Opening::Plain(Plain::TableStruct)
    } else {
        Opening::Plain(Plain::Instance)
    }
}

// What a word opens with a word behind it.
fn worded(first: &[u8], second: &[u8]) -> Opening
    ensures { result ≡ worded first.now second.now }
{
    if first == b"struct".as_slice() {
        struct_opening(second)
    } else {
        word_opening(first)
    }
}

// What a word opens with no word behind it: `PyTypeObject *` is a type.
fn lone(word: &[u8]) -> Opening
    ensures { result ≡ lone word.now }
{
    if word == b"PyTypeObject".as_slice() {
        Opening::Typed
    } else {
        word_opening(word)
    }
}

/// Which reader the item wants.
pub fn opening(tokens: &[Token]) -> Opening
    ensures { result ≡ opening_at (item_shown tokens.now) }
{
    let mut input = Input::new(tokens);
    let Some(first) = input.word() else {
        return Opening::Plain(Plain::Fixed);
    };
    match input.next_word() {
        Some(second) => worded(first, second),
        None => lone(first),
    }
}
