//! Lines of a function.
ghost use Rattle.std.specs.Prelude.{◌≡◌, ◌++◌, List, Some, IfOk};
ghost use Rattle.std.specs.List.{flat_map};
ghost use Rattle.c_token.specs.CTokens.{CToken};
ghost use Rattle.c_tree.specs.declared.item.Line.{Line as LineTree};
ghost use Rattle.c_tree.specs.Forms.{IsLine};
ghost use Rattle.c_tree.specs.Items.{line_spelling};
ghost use Rattle.c_input.specs.Reads.{Finds, ReadsEvery};
ghost use Rattle.c_statement.specs.Lines.{is_label, AreLines, IsClosed, IsLabel};

use crate::seen::sees_sign;
use crate::statements::statement;
use c_input::{Input, Piece};
use c_tree::Line;
use cy_base::OutOfMemory;
use sqlite_items::Items;
use std::alloc::Global;

// `L0:`
fn label(input: &mut Input) -> Option<Line>
    ensures some { Finds IsLine line_spelling input.old result input.new }
    ensures every { ReadsEvery IsLabel line_spelling input.old result }
{
    let number = input.lettered(b"L")?;
    if input.fixed(&[Piece::Sign(b":")]) {
        Some(Line::Label(number))
    } else {
        None
    }
}

/// Reads a label, with its `:`, or a statement, with its `;`.
pub fn line(alloc: Global, input: &mut Input) -> Result<Option<Line>, OutOfMemory>
    ensures some { IfOk result (λ found. Finds IsLine line_spelling input.old found input.new) }
    ensures every { IfOk result (λ found. ReadsEvery IsLine line_spelling input.old found) }
{
    if sees_sign(input, b":", 1) {
        return Ok(label(input));
    }
    match statement(alloc, input)? {
        Some(found) => Ok(Some(Line::Statement(found))),
        None => Ok(None),
    }
}

fn is_label(line: &Line) -> bool
    ensures { result ≡ is_label line.now }
{
    matches!(line, Line::Label(_))
}

/// Reads the lines of a function, up to `}`. It has none where the last is a label: a statement stands behind each (ISO/IEC
/// 9899:2011 6.8.1).
pub fn lines(alloc: Global, input: &mut Input) -> Result<Option<Items<Line>>, OutOfMemory>
    ensures some { IfOk result (λ found. Finds AreLines (flat_map line_spelling) input.old found input.new) }
    ensures every { IfOk result (λ found. (all : List LineTree) (rest : List CToken) → AreLines all → IsClosed rest → input.old ≡ flat_map line_spelling all ++ rest → found ≡ Some all) }
{
    let mut all = Vec::new(alloc);
    let mut labelled = false;
    while !input.sees(Piece::Sign(b"}"), 0) {
        let Some(next) = line(alloc, input)? else {
            return Ok(None);
        };
        labelled = is_label(&next);
        all.push(next)?;
    }
    if labelled {
        Ok(None)
    } else {
        Ok(Some(Items::from_vec(all)))
    }
}
