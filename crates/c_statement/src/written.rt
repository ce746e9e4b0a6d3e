//! Statements that store in elements, in method tables, in fields and behind views.
ghost use Rattle.c_tree.specs.Forms.{IsStatement};
ghost use Rattle.c_input.specs.Reads.{Finds, ReadsEvery};
ghost use Rattle.c_statement.specs.Statements.{statement_tokens, IsStatementOf};
ghost use Rattle.c_statement.specs.declared.statement_kind.StatementKind.TheVariants as kinds;

use crate::operands::ended;
use crate::store::{behind_view, kept};
use c_input::{Input, Piece};
use c_place::{element, table_of, view};
use c_tree::{CStmt, ViewPlace};

/// Reads `*(T *)(v.buf + y) = k;`.
pub fn element_written(input: &mut Input) -> Option<CStmt>
    ensures some { Finds IsStatement statement_tokens input.old result input.new }
    ensures every { ReadsEvery (IsStatementOf kinds.Element) statement_tokens input.old result }
{
    let place = element(input)?;
    if !input.fixed(&[Piece::Sign(b"=")]) {
        return None;
    }
    let written = ended(input)?;
    Some(CStmt::StoreElement(place.kind, place.view, place.offset, written))
}

/// Reads `((struct cyc_root *)y)->vt = &cyc_t_0_1;`.
pub fn table_written(input: &mut Input) -> Option<CStmt>
    ensures some { Finds IsStatement statement_tokens input.old result input.new }
    ensures every { ReadsEvery (IsStatementOf kinds.Table) statement_tokens input.old result }
{
    let object = table_of(input)?;
    if !input.fixed(&[Piece::Sign(b"="), Piece::Sign(b"&")]) {
        return None;
    }
    let table = input.numbered(b"cyc_t_")?;
    if input.fixed(&[Piece::Sign(b";")]) {
        Some(CStmt::StoreTable(object, table))
    } else {
        None
    }
}

/// Reads what is stored in a field, or behind a view.
pub fn place_written(input: &mut Input) -> Option<CStmt>
    ensures some { Finds IsStatement statement_tokens input.old result input.new }
    ensures every { ReadsEvery (IsStatementOf kinds.Place) statement_tokens input.old result }
{
    let place = view(input)?;
    if !input.fixed(&[Piece::Sign(b"=")]) {
        let store = behind_view(place, input)?;
        return Some(kept(place, store));
    }
    let ViewPlace::Field(field) = place else {
        return None;
    };
    let written = ended(input)?;
    Some(CStmt::StoreField(field, written))
}
