//! Items that are wholly fixed.
ghost use Rattle.std.specs.Prelude.{◌≡◌, ◌++◌, List, Some};
ghost use Rattle.c_input.specs.Reads.{Finds, Passes, ReadsEvery, Takes};
ghost use Rattle.c_item.specs.Fixed.{fixed_tokens, root_tokens, test_end, test_head, test_mark, test_null, test_tokens, view_tokens, IsFixed};

use c_input::{Input, Piece};
use c_tree::CItem;

// Takes the type `cyc_view`, where it is next.
fn view_type(input: &mut Input) -> bool
    ensures { Takes view_tokens input.old result input.new }
{
    input.fixed(&[
        Piece::Word(b"typedef"),
        Piece::Word(b"struct"),
        Piece::Sign(b"{"),
        Piece::Word(b"PyObject"),
        Piece::Sign(b"*"),
        Piece::Word(b"mv"),
        Piece::Sign(b";"),
        Piece::Word(b"char"),
        Piece::Sign(b"*"),
        Piece::Word(b"buf"),
        Piece::Sign(b";"),
        Piece::Word(b"Py_ssize_t"),
        Piece::Word(b"n"),
        Piece::Sign(b"["),
        Piece::Word(b"3"),
        Piece::Sign(b"]"),
        Piece::Sign(b";"),
        Piece::Word(b"Py_ssize_t"),
        Piece::Word(b"s"),
        Piece::Sign(b"["),
        Piece::Word(b"3"),
        Piece::Sign(b"]"),
        Piece::Sign(b";"),
        Piece::Sign(b"}"),
        Piece::Word(b"cyc_view"),
        Piece::Sign(b";"),
    ])
}

// Takes the struct that each instance begins with, where it is next.
fn root_struct(input: &mut Input) -> bool
    ensures { Takes root_tokens input.old result input.new }
{
    input.fixed(&[
        Piece::Word(b"struct"),
        Piece::Word(b"cyc_root"),
        Piece::Sign(b"{"),
        Piece::Word(b"PyObject_HEAD"),
        Piece::Word(b"const"),
        Piece::Word(b"void"),
        Piece::Sign(b"*"),
        Piece::Word(b"vt"),
        Piece::Sign(b";"),
        Piece::Sign(b"}"),
        Piece::Sign(b";"),
    ])
}

/// Reads an item that is wholly fixed, and no function.
pub fn fixed_item(input: &mut Input) -> Option<CItem>
    ensures some { Finds IsFixed fixed_tokens input.old result input.new }
    ensures every { ReadsEvery IsFixed fixed_tokens input.old result }
{
    if input.fixed(&[
        Piece::Sign(b"#"),
        Piece::Word(b"define"),
        Piece::Word(b"PY_SSIZE_T_CLEAN"),
        Piece::LineEnd,
    ]) {
        return Some(CItem::DefineClean);
    }
    if input.fixed(&[
        Piece::Sign(b"#"),
        Piece::Word(b"include"),
        Piece::HeaderName(b"Python.h"),
        Piece::LineEnd,
    ]) {
        return Some(CItem::IncludePython);
    }
    if input.fixed(&[
        Piece::Sign(b"#"),
        Piece::Word(b"include"),
        Piece::Str(b"cyc_set.h"),
        Piece::LineEnd,
    ]) {
        return Some(CItem::IncludeSet);
    }
    if view_type(input) {
        return Some(CItem::ViewType);
    }
    if root_struct(input) {
        return Some(CItem::RootStruct);
    }
    None
}

// Takes the head of the test of a format.
fn test_head(input: &mut Input) -> bool
    ensures { Takes test_head input.old result input.new }
{
    input.fixed(&[
        Piece::Word(b"static"),
        Piece::Word(b"int"),
        Piece::Word(b"cyc_fmt"),
        Piece::Sign(b"("),
        Piece::Word(b"const"),
        Piece::Word(b"char"),
        Piece::Sign(b"*"),
        Piece::Word(b"f"),
        Piece::Sign(b","),
        Piece::Word(b"const"),
        Piece::Word(b"char"),
        Piece::Sign(b"*"),
        Piece::Word(b"set"),
        Piece::Sign(b")"),
    ])
}

// Takes the statement that replaces no format by `B`.
fn test_null(input: &mut Input) -> bool
    ensures { Takes test_null input.old result input.new }
{
    input.fixed(&[
        Piece::Sign(b"{"),
        Piece::Word(b"if"),
        Piece::Sign(b"("),
        Piece::Word(b"f"),
        Piece::Sign(b"=="),
        Piece::Word(b"NULL"),
        Piece::Sign(b")"),
        Piece::Word(b"f"),
        Piece::Sign(b"="),
        Piece::Str(b"B"),
        Piece::Sign(b";"),
    ])
}

// Takes the statement that skips `@`.
fn test_mark(input: &mut Input) -> bool
    ensures { Takes test_mark input.old result input.new }
{
    input.fixed(&[
        Piece::Word(b"if"),
        Piece::Sign(b"("),
        Piece::Word(b"f"),
        Piece::Sign(b"["),
        Piece::Word(b"0"),
        Piece::Sign(b"]"),
        Piece::Sign(b"=="),
        Piece::Character(b"@"),
        Piece::Sign(b")"),
        Piece::Word(b"f"),
        Piece::Sign(b"="),
        Piece::Word(b"f"),
        Piece::Sign(b"+"),
        Piece::Word(b"1"),
        Piece::Sign(b";"),
    ])
}

// Takes the answer of the test, and its end.
fn test_end(input: &mut Input) -> bool
    ensures { Takes test_end input.old result input.new }
{
    input.fixed(&[
        Piece::Word(b"return"),
        Piece::Word(b"f"),
        Piece::Sign(b"["),
        Piece::Word(b"0"),
        Piece::Sign(b"]"),
        Piece::Sign(b"!="),
        Piece::Word(b"0"),
        Piece::Sign(b"&&"),
        Piece::Word(b"f"),
        Piece::Sign(b"["),
        Piece::Word(b"1"),
        Piece::Sign(b"]"),
        Piece::Sign(b"=="),
        Piece::Word(b"0"),
        Piece::Sign(b"&&"),
        Piece::Word(b"strchr"),
        Piece::Sign(b"("),
        Piece::Word(b"set"),
        Piece::Sign(b","),
        Piece::Word(b"f"),
        Piece::Sign(b"["),
        Piece::Word(b"0"),
        Piece::Sign(b"]"),
        Piece::Sign(b")"),
        Piece::Sign(b"!="),
        Piece::Word(b"NULL"),
        Piece::Sign(b";"),
        Piece::Sign(b"}"),
    ])
}

/// Whether the function that tests a format is next, which it then takes.
pub fn format_test(input: &mut Input) -> bool
    ensures { Passes test_tokens input.old result input.new }
{
    if !test_head(input) {
        return false;
    }
    if !test_null(input) {
        return false;
    }
    if !test_mark(input) {
        return false;
    }
    test_end(input)
}
