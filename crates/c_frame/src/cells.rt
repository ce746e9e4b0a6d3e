//! The variables of a frame, found without a search.
ghost use Rattle.std.specs.Prelude.{◌≡◌, ◌<◌, Some, IfOk, length, slice_get, slice_set};
ghost use Rattle.std.specs.Option.{option_copied};
ghost use Rattle.c_value.specs.declared.frame.Cell.{Cell};
ghost use Rattle.c_frame.specs.Cells.{lookup, put};
ghost use Rattle.c_frame.specs.Tables.{cell_with, variable_number};

use crate::numbers::Numbers;
use c_tree::Variable;
use c_value::{Cell, Value, converted};
use cy_base::OutOfMemory;
use sqlite_items::{Boxed, Items};
use std::alloc::Global;
use std::marker::Model;

/// The cells of a frame's variables. Contracts see their list.
#[derive(Drop)]
pub struct Cells {
    cells: Items<Cell>,
    // Behind a pointer, so that what holds cells holds no table in itself.
    numbers: Boxed<Numbers>,
}

impl Model for Cells {
    ghost use Rattle.std.specs.Prelude.{List};
    ghost use Rattle.c_value.specs.declared.frame.Cell.{Cell};
    ghost use Rattle.c_frame.specs.Tables.{AreCells};

    ghost Value = { List Cell };

    ghost view = { λ it. it.cells };

    ghost invariant = { λ it. AreCells it.cells it.numbers };
}

fn find(numbers: &Boxed<Numbers>, variable: Variable) -> Option<usize>
    ensures { result ≡ variable_number numbers.now variable }
{
    numbers.get().find(variable)
}

fn cell_with(cell: &Cell, value: Value) -> Cell
    ensures { result ≡ cell_with value cell.now }
{
    Cell {
        variable: cell.variable,
        kind: cell.kind,
        value: converted(cell.kind, value),
    }
}

fn set_value(cells: &mut Items<Cell>, number: usize, value: Value)
    requires within { number < length cells.old }
    ensures { (cell : Cell) → slice_get cells.old number ≡ Some cell → cells.new ≡ slice_set cells.old number (cell_with value cell) }
{
    let cell = cell_with(&cells.as_slice()[number], value);
    cells.set(number, cell);
}

impl Cells {
    /// Cells with the table of their numbers, or memory is wanting.
    pub fn new(alloc: Global, cells: Items<Cell>) -> Result<Cells, OutOfMemory>
        ensures { IfOk result (λ it. it ≡ cells) }
    {
        let numbers = Boxed::new(alloc, Numbers::of_cells(alloc, cells.as_slice())?)?;
        Ok(Cells { cells, numbers })
    }

    /// The cell of a variable; of two the first counts.
    pub fn find(&self, variable: Variable) -> Option<&Cell>
        ensures { option_copied result ≡ lookup self.entry.now variable }
    {
        match find(&self.numbers, variable) {
            None => None,
            Some(number) => self.cells.get(number),
        }
    }

    /// Gives a variable a value, as it is where it meets the variable's type. A variable that isn't there is left out.
    pub fn put(&mut self, variable: Variable, value: Value)
        ensures { self.new ≡ put self.old variable value }
    {
        if let Some(number) = find(&self.numbers, variable) {
            set_value(&mut self.cells, number, value);
        }
    }
}
