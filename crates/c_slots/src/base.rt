//! What the struct of a method table begins with.
ghost use Rattle.c_input.specs.Reads.{Finds, ReadsEvery};
ghost use Rattle.c_slots.specs.Slots.{base_tokens};
ghost use Rattle.c_tree.specs.Forms.{IsTableBase};

use c_input::{Input, Piece};
use c_tree::TableBase;

/// Reads `const char *name;` or `struct cyc_vt_0_1 b;`.
pub fn table_base(input: &mut Input) -> Option<TableBase>
    ensures some { Finds IsTableBase base_tokens input.old result input.new }
    ensures every { ReadsEvery IsTableBase base_tokens input.old result }
{
    if input.fixed(&[
        Piece::Word(b"const"),
        Piece::Word(b"char"),
        Piece::Sign(b"*"),
        Piece::Word(b"name"),
        Piece::Sign(b";"),
    ]) {
        return Some(TableBase::Name);
    }
    if !input.fixed(&[Piece::Word(b"struct")]) {
        return None;
    }
    let class = input.numbered(b"cyc_vt_")?;
    if input.fixed(&[Piece::Word(b"b"), Piece::Sign(b";")]) {
        Some(TableBase::Class(class))
    } else {
        None
    }
}
