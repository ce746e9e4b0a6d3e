//! What is stored behind a view.
ghost use Rattle.std.specs.Prelude.{◌≡◌, ◌↔◌, true};
ghost use Rattle.c_tree.specs.Forms.{IsVariable};
ghost use Rattle.c_input.specs.Reads.{Finds, ReadsEvery};
ghost use Rattle.c_statement.specs.Stores.{buffered_tokens, extent_tokens, kept, store_tokens, taken_tokens, IsBuffered, IsExtent, IsShifted, IsStore};

use crate::operands::ended;
use crate::seen::sees_word;
use c_input::{Input, Piece};
use c_place::{buffer_of, extent, view};
use c_tree::{CStmt, CValue, Extent, Variable, ViewPlace};

/// What is stored behind a view.
#[derive(Clone, Copy, Debug, PartialEq, Eq)]
pub enum Store {
    /// `.buf = (char *)PyMemoryView_GET_BUFFER(y)->buf`
    Take(Variable),
    /// `.buf = w.buf`
    Copy(ViewPlace),
    /// `.buf = v.buf + k`, of the same view
    Move(CValue),
    /// `.mv = k`
    Memory(CValue),
    /// `.n[0] = k`
    Extent(Extent, u32, CValue),
}

// `(char *)PyMemoryView_GET_BUFFER(y)->buf;`
fn taken(input: &mut Input) -> Option<Variable>
    ensures some { Finds IsVariable taken_tokens input.old result input.new }
    ensures every { ReadsEvery IsVariable taken_tokens input.old result }
{
    if !input.fixed(&[
        Piece::Sign(b"("),
        Piece::Word(b"char"),
        Piece::Sign(b"*"),
        Piece::Sign(b")"),
    ]) {
        return None;
    }
    let object = buffer_of(input)?;
    if input.fixed(&[Piece::Word(b"buf"), Piece::Sign(b";")]) {
        Some(object)
    } else {
        None
    }
}

fn same(first: ViewPlace, second: ViewPlace) -> bool
    ensures { (result ≡ true) ↔ (first ≡ second) }
{
    first == second
}

// `w.buf;`, or `v.buf + k;` of the same view.
fn shifted(view_place: ViewPlace, input: &mut Input) -> Option<Store>
    ensures some { Finds (IsShifted view_place) (buffered_tokens view_place) input.old result input.new }
    ensures every { ReadsEvery (IsShifted view_place) (buffered_tokens view_place) input.old result }
{
    let from = view(input)?;
    if !input.fixed(&[Piece::Sign(b"."), Piece::Word(b"buf")]) {
        return None;
    }
    if input.fixed(&[Piece::Sign(b";")]) {
        return Some(Store::Copy(from));
    }
    if !input.fixed(&[Piece::Sign(b"+")]) {
        return None;
    }
    let distance = ended(input)?;
    if same(view_place, from) {
        Some(Store::Move(distance))
    } else {
        None
    }
}

// What stands behind `.buf =`.
fn buffered(view_place: ViewPlace, input: &mut Input) -> Option<Store>
    ensures some { Finds (IsBuffered view_place) (buffered_tokens view_place) input.old result input.new }
    ensures every { ReadsEvery (IsBuffered view_place) (buffered_tokens view_place) input.old result }
{
    if sees_word(input, b"char", 1) {
        let object = taken(input)?;
        return Some(Store::Take(object));
    }
    shifted(view_place, input)
}

// `n[0] = k;` or `s[0] = k;`
fn numbered(input: &mut Input) -> Option<Store>
    ensures some { Finds IsExtent extent_tokens input.old result input.new }
    ensures every { ReadsEvery IsExtent extent_tokens input.old result }
{
    let which = extent(input)?;
    let dimension = input.index()?;
    if !input.fixed(&[Piece::Sign(b"=")]) {
        return None;
    }
    let number = ended(input)?;
    Some(Store::Extent(which, dimension, number))
}

/// Reads what is stored behind the view, with the `;`.
pub fn behind_view(view_place: ViewPlace, input: &mut Input) -> Option<Store>
    ensures some { Finds (IsStore view_place) (store_tokens view_place) input.old result input.new }
    ensures every { ReadsEvery (IsStore view_place) (store_tokens view_place) input.old result }
{
    if !input.fixed(&[Piece::Sign(b".")]) {
        return None;
    }
    if input.fixed(&[Piece::Word(b"buf"), Piece::Sign(b"=")]) {
        return buffered(view_place, input);
    }
    if input.fixed(&[Piece::Word(b"mv"), Piece::Sign(b"=")]) {
        let memory = ended(input)?;
        return Some(Store::Memory(memory));
    }
    numbered(input)
}

/// The statement that stores so.
pub fn kept(view_place: ViewPlace, store: Store) -> CStmt
    ensures { result ≡ kept view_place store }
{
    match store {
        Store::Take(object) => CStmt::TakeBuffer(view_place, object),
        Store::Copy(from) => CStmt::CopyBuffer(view_place, from),
        Store::Move(distance) => CStmt::MoveBuffer(view_place, distance),
        Store::Memory(memory) => CStmt::StoreMemory(view_place, memory),
        Store::Extent(which, dimension, number) => {
            CStmt::StoreExtent(view_place, which, dimension, number)
        }
    }
}
