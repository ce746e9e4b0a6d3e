//! Simple statements, and handlers without their suites.
ghost use Rattle.std.specs.Prelude.{◌≡◌, [], not};
ghost use Rattle.first_breach.specs.First.{broken_if};
ghost use Rattle.control_rules.specs.Rules.{breaks, not_last};
ghost use Rattle.control_rules.specs.Walk.{IsNoted, SimpleNoted, SimplesNoted};

use crate::around::Around;
use cy_base::{FileId, Phase, Refusal, Rule};
use cy_tree::{Handler, Line, Simple};
use first_breach::note_if;

fn breaks(file: FileId, number: u8, offset: u32) -> Refusal
    ensures { result ≡ breaks file number offset }
{
    let phase = Phase::Static;
    Refusal {
        rule: Rule { phase, number },
        file,
        offset,
    }
}

fn note_jump(file: FileId, around: Around, at: u32, least: Option<Refusal>) -> Option<Refusal>
    ensures { IsNoted least (broken_if (not around.in_loop) (breaks file 7 at)) [] [] [] [] result }
{
    note_if(!around.in_loop, least, breaks(file, 7, at))
}

fn note_return(file: FileId, around: Around, at: u32, least: Option<Refusal>) -> Option<Refusal>
    ensures { IsNoted least [] (broken_if (not around.in_function) (breaks file 8 at)) [] [] [] result }
{
    note_if(!around.in_function, least, breaks(file, 8, at))
}

fn note_raise(file: FileId, around: Around, at: u32, least: Option<Refusal>) -> Option<Refusal>
    ensures { IsNoted least [] [] (broken_if (not around.in_handler) (breaks file 9 at)) [] [] result }
{
    note_if(!around.in_handler, least, breaks(file, 9, at))
}

fn note_cdef(file: FileId, around: Around, at: u32, least: Option<Refusal>) -> Option<Refusal>
    ensures { IsNoted least [] [] [] (broken_if around.in_compound (breaks file 25 at)) [] result }
{
    note_if(around.in_compound, least, breaks(file, 25, at))
}

fn judge_simple(
    file: FileId,
    around: Around,
    simple: &Simple,
    least: Option<Refusal>,
) -> Option<Refusal>
    ensures { SimpleNoted file around simple.now least result }
{
    match simple {
        Simple::Break(at) => note_jump(file, around, *at, least),
        Simple::Continue(at) => note_jump(file, around, *at, least),
        Simple::ReturnNode(at, _) => note_return(file, around, *at, least),
        Simple::Raise(at, None) => note_raise(file, around, *at, least),
        Simple::Cdef(at, _, _) => note_cdef(file, around, *at, least),
        _ => least,
    }
}

fn judge_simples(
    file: FileId,
    around: Around,
    simples: &[Simple],
    least: Option<Refusal>,
) -> Option<Refusal>
    ensures { SimplesNoted file around simples.now least result }
{
    let mut least = least;
    for simple in simples {
        least = judge_simple(file, around, simple, least);
    }
    least
}

pub(crate) fn judge_line(
    file: FileId,
    around: Around,
    line: &Line,
    least: Option<Refusal>,
) -> Option<Refusal>
    ensures { SimplesNoted file around line.now.simples least result }
{
    judge_simples(file, around, line.simples.as_slice(), least)
}

/// A bare `except`, which is to be the last handler.
pub(crate) fn judge_handler(
    file: FileId,
    is_last: bool,
    handler: &Handler,
    least: Option<Refusal>,
) -> Option<Refusal>
    ensures { IsNoted least [] [] [] [] (not_last file handler.now.at handler.now.kind is_last) result }
{
    match &handler.kind {
        Some(_) => least,
        None => note_if(!is_last, least, breaks(file, 27, handler.at)),
    }
}
