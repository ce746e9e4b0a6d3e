//! The definition of a module.
ghost use Rattle.std.specs.Prelude.{◌≡◌, ◌++◌, List, Some, IfOk};
ghost use Rattle.c_input.specs.Reads.{Finds, ReadsEvery};
ghost use Rattle.c_table.specs.Tables.{item_tokens, IsDefinition};

use c_input::{Input, Piece};
use c_tree::CItem;
use cy_base::OutOfMemory;
use std::alloc::Global;

/// Reads the definition of a module, without the `static` before it.
pub fn definition(
    alloc: Global,
    is_static: bool,
    input: &mut Input,
) -> Result<Option<CItem>, OutOfMemory>
    ensures some { IfOk result (λ found. Finds (IsDefinition is_static) item_tokens input.old found input.new) }
    ensures every { IfOk result (λ found. ReadsEvery (IsDefinition is_static) item_tokens input.old found) }
{
    if !input.fixed(&[
        Piece::Word(b"struct"),
        Piece::Word(b"PyModuleDef"),
        Piece::Word(b"cyc_def"),
        Piece::Sign(b"="),
        Piece::Sign(b"{"),
        Piece::Word(b"PyModuleDef_HEAD_INIT"),
        Piece::Sign(b","),
    ]) {
        return Ok(None);
    }
    let Some(name) = input.string(alloc)? else {
        return Ok(None);
    };
    if input.fixed(&[
        Piece::Sign(b","),
        Piece::Word(b"NULL"),
        Piece::Sign(b","),
        Piece::Sign(b"-"),
        Piece::Word(b"1"),
        Piece::Sign(b","),
        Piece::Word(b"cyc_md"),
        Piece::Sign(b"}"),
        Piece::Sign(b";"),
    ]) {
        Ok(Some(CItem::ModuleDefinition(is_static, name)))
    } else {
        Ok(None)
    }
}
