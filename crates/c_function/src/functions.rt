//! Functions, heads and bodies.
ghost use Rattle.std.specs.Prelude.{◌≡◌, IfOk};
ghost use Rattle.c_tree.specs.Forms.{IsFunction};
ghost use Rattle.c_tree.specs.Items.{function_spelling};
ghost use Rattle.c_input.specs.Reads.{Finds, ReadsEvery};
ghost use Rattle.c_function.specs.Bodies.{body_tokens, IsBody};

use crate::declared::declarations;
use crate::heads::head;
use c_input::{Input, Piece};
use c_statement::lines;
use c_tree::{CFunction, Declaration, Line};
use cy_base::OutOfMemory;
use sqlite_items::Items;
use std::alloc::Global;

/// What stands between a function's braces.
#[derive(Drop)]
pub struct Body {
    pub declarations: Items<Declaration>,
    pub lines: Items<Line>,
}

// A body in its braces.
fn braced(alloc: Global, input: &mut Input) -> Result<Option<Body>, OutOfMemory>
    ensures some { IfOk result (λ found. Finds IsBody body_tokens input.old found input.new) }
    ensures every { IfOk result (λ found. ReadsEvery IsBody body_tokens input.old found) }
{
    if !input.fixed(&[Piece::Sign(b"{")]) {
        return Ok(None);
    }
    let Some(declarations) = declarations(alloc, input)? else {
        return Ok(None);
    };
    let Some(lines) = lines(alloc, input)? else {
        return Ok(None);
    };
    if input.fixed(&[Piece::Sign(b"}")]) {
        Ok(Some(Body {
            declarations,
            lines,
        }))
    } else {
        Ok(None)
    }
}

/// Reads a function: its head and, in braces, its declarations and lines.
pub fn function(alloc: Global, input: &mut Input) -> Result<Option<CFunction>, OutOfMemory>
    ensures some { IfOk result (λ found. Finds IsFunction function_spelling input.old found input.new) }
    ensures every { IfOk result (λ found. ReadsEvery IsFunction function_spelling input.old found) }
{
    let Some(head) = head(alloc, input)? else {
        return Ok(None);
    };
    let Some(body) = braced(alloc, input)? else {
        return Ok(None);
    };
    let Body {
        declarations,
        lines,
    } = body;
    Ok(Some(CFunction {
        head,
        declarations,
        lines,
    }))
}
