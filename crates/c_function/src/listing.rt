//! Parameters of C functions.
ghost use Rattle.std.specs.Prelude.{◌≡◌, ◌++◌, ◌∷◌, [], List, Some, IfOk};
ghost use Rattle.std.specs.List.{AllByRecursion};
ghost use Rattle.c_tree.specs.Forms.{IsParameter};
ghost use Rattle.c_tree.specs.Items.{parameter_spelling};
ghost use Rattle.c_tree.specs.Names.{listed};
ghost use Rattle.c_input.specs.Reads.{Finds, ReadsEvery};
ghost use Rattle.c_operand.specs.Listed.{AreFilled, ReadsListed};
ghost use Rattle.c_function.specs.Parts.{parameters_spelling};

use c_input::{Input, Piece, kind};
use c_tree::Parameter;
use cy_base::OutOfMemory;
use sqlite_items::Items;
use std::alloc::Global;

// `T p0`
fn parameter(input: &mut Input) -> Option<Parameter>
    ensures some { Finds IsParameter parameter_spelling input.old result input.new }
    ensures every { ReadsEvery IsParameter parameter_spelling input.old result }
{
    let kind = kind(input)?;
    let number = input.lettered(b"p")?;
    Some(Parameter { kind, number })
}

// Parameters with commas between them, up to `)`.
fn listed_parameters(
    alloc: Global,
    input: &mut Input,
) -> Result<Option<Items<Parameter>>, OutOfMemory>
    ensures some { IfOk result (λ found. Finds (AreFilled IsParameter) (listed parameter_spelling) input.old found input.new) }
    ensures every { IfOk result (λ found. ReadsListed IsParameter parameter_spelling input.old found) }
{
    let mut parameters = Vec::new(alloc);
    let Some(first) = parameter(input) else {
        return Ok(None);
    };
    parameters.push(first)?;
    while input.fixed(&[Piece::Sign(b",")]) {
        let Some(next) = parameter(input) else {
            return Ok(None);
        };
        parameters.push(next)?;
    }
    Ok(Some(Items::from_vec(parameters)))
}

// `(T p0, ..)`, or `(void)` where there are none.
#[tactic(auto, using(c_operand::proofs::Fixed::void_spelled))]
pub fn parameters(alloc: Global, input: &mut Input) -> Result<Option<Items<Parameter>>, OutOfMemory>
    ensures some { IfOk result (λ found. Finds (AllByRecursion IsParameter) parameters_spelling input.old found input.new) }
    ensures every { IfOk result (λ found. ReadsEvery (AllByRecursion IsParameter) parameters_spelling input.old found) }
{
    if !input.fixed(&[Piece::Sign(b"(")]) {
        return Ok(None);
    }
    if input.fixed(&[Piece::Word(b"void"), Piece::Sign(b")")]) {
        return Ok(Some(Items::new(alloc)));
    }
    let Some(parameters) = listed_parameters(alloc, input)? else {
        return Ok(None);
    };
    if input.fixed(&[Piece::Sign(b")")]) {
        Ok(Some(parameters))
    } else {
        Ok(None)
    }
}
