ghost use Rattle.expr_grammar.specs.Reading.{reads};
ghost use Rattle.token_input.specs.Reads.{Reads};

use crate::grammar::Grammar;
use cy_tree::Expr;
use expr_grammar::Level;
use std::alloc::Global;
use token_input::{Halt, Input};

/// Reads an expression of a level from the front, where so many things may be opened: brackets, prefix operators and
/// casts with their operands, and `else` arms of conditionals. What is left begins behind the expression, or with the
/// token at which reading stops. It goes no deeper than `room`.
pub fn read(alloc: Global, input: &mut Input<'_>, room: usize, level: Level) -> Result<Expr, Halt>
    ensures { Reads (reads room level input.old) result input.new }
{
    if room == 0 {
        let grammar = Grammar {
            alloc,
            here: false,
            room: 0,
            expr: read,
        };
        grammar.by_level(input, level)
    } else {
        let grammar = Grammar {
            alloc,
            here: true,
            room: room - 1,
            expr: read,
        };
        grammar.by_level(input, level)
    }
}
