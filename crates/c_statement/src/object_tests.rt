//! Sources that test an object: whether a method is the compiler's own, and whether a type is a heap type (Python/C API
//! manual, "Type Object Structures").
ghost use Rattle.std.specs.Prelude.{◌≡◌, ◌↔◌, true};
ghost use Rattle.c_tree.specs.Forms.{IsNumbered, IsVariable};
ghost use Rattle.c_input.specs.Reads.{Finds, ReadsEvery};
ghost use Rattle.c_statement.specs.Sources.{compared_tokens, passed_tokens, source_tokens, IsSource, IsSourceOf};
ghost use Rattle.c_statement.specs.declared.source_kind.SourceKind.TheVariants as kinds;

use crate::source::Source;
use c_input::{Input, Piece};
use c_tree::{Numbered, Variable};

// `== (PyCFunction)(void (*)(void))cyc_w_0_1;`
fn compared(input: &mut Input) -> Option<Numbered>
    ensures some { Finds IsNumbered compared_tokens input.old result input.new }
    ensures every { ReadsEvery IsNumbered compared_tokens input.old result }
{
    if !input.fixed(&[
        Piece::Sign(b"=="),
        Piece::Sign(b"("),
        Piece::Word(b"PyCFunction"),
        Piece::Sign(b")"),
        Piece::Sign(b"("),
        Piece::Word(b"void"),
        Piece::Sign(b"("),
        Piece::Sign(b"*"),
        Piece::Sign(b")"),
        Piece::Sign(b"("),
        Piece::Word(b"void"),
        Piece::Sign(b")"),
        Piece::Sign(b")"),
    ]) {
        return None;
    }
    let wrapper = input.numbered(b"cyc_w_")?;
    if input.fixed(&[Piece::Sign(b";")]) {
        Some(wrapper)
    } else {
        None
    }
}

// A variable as the argument of the function with this name.
pub fn passed(input: &mut Input, name: &'static [u8]) -> Option<Variable>
    ensures some { Finds IsVariable (passed_tokens name.now) input.old result input.new }
    ensures every { ReadsEvery IsVariable (passed_tokens name.now) input.old result }
{
    if !input.fixed(&[Piece::Word(name), Piece::Sign(b"(")]) {
        return None;
    }
    let object = input.variable()?;
    if input.fixed(&[Piece::Sign(b")")]) {
        Some(object)
    } else {
        None
    }
}

pub fn same(first: Variable, second: Variable) -> bool
    ensures { (result ≡ true) ↔ (first ≡ second) }
{
    first == second
}

/// Reads `PyCFunction_Check(y) && PyCFunction_GetFunction(y) == (PyCFunction)(void (*)(void))cyc_w_0_1;`.
pub fn native(input: &mut Input) -> Option<Source>
    ensures some { Finds IsSource source_tokens input.old result input.new }
    ensures every { ReadsEvery (IsSourceOf kinds.Native) source_tokens input.old result }
{
    let object = passed(input, b"PyCFunction_Check")?;
    if !input.fixed(&[Piece::Sign(b"&&")]) {
        return None;
    }
    let asked = passed(input, b"PyCFunction_GetFunction")?;
    let wrapper = compared(input)?;
    if same(object, asked) {
        Some(Source::Native(object, wrapper))
    } else {
        None
    }
}

/// Reads `PyType_HasFeature(Py_TYPE(y), Py_TPFLAGS_HEAPTYPE);`.
pub fn heap_type(input: &mut Input) -> Option<Source>
    ensures some { Finds IsSource source_tokens input.old result input.new }
    ensures every { ReadsEvery (IsSourceOf kinds.HeapType) source_tokens input.old result }
{
    if !input.fixed(&[Piece::Word(b"PyType_HasFeature"), Piece::Sign(b"(")]) {
        return None;
    }
    let object = passed(input, b"Py_TYPE")?;
    if input.fixed(&[
        Piece::Sign(b","),
        Piece::Word(b"Py_TPFLAGS_HEAPTYPE"),
        Piece::Sign(b")"),
        Piece::Sign(b";"),
    ]) {
        Some(Source::HeapType(object))
    } else {
        None
    }
}
