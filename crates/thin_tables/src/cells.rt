//! The variables of a frame, found without a search.
ghost use Rattle.std.specs.Prelude.{◌≡◌, ◌<◌, Some, IfOk, slice_get, slice_set, vec_len};
ghost use Rattle.std.specs.Option.{option_copied};
ghost use Rattle.thin_state.specs.State.{lookup, put};
ghost use Rattle.thin_state.specs.declared.state.Cell.{Cell};
ghost use Rattle.thin_tables.specs.Cells.{with_value};
ghost use Rattle.thin_tables.specs.Tables.{found};

use crate::conversion::converted;
use crate::numbers::Numbers;
use cy_base::OutOfMemory;
use sqlite_items::{Boxed, at};
use std::alloc::Global;
use std::marker::Model;
use thin_state::{Cell, Value, Variable};

/// The cells of a frame's variables. Contracts see their list.
#[derive(Drop)]
pub struct Cells {
    cells: Vec<Cell>,
    // Behind a pointer, so that what holds cells holds no table in itself.
    numbers: Boxed<Numbers>,
}

impl Model for Cells {
    ghost use Rattle.std.specs.Prelude.{List};
    ghost use Rattle.thin_state.specs.declared.state.Cell.{Cell};
    ghost use Rattle.thin_tables.specs.Tables.{AreNumbers};

    ghost Value = { List Cell };

    ghost view = { λ it. it.cells.items };

    ghost invariant = { λ it. AreNumbers it.cells.items it.numbers };
}

fn find(numbers: &Boxed<Numbers>, variable: Variable) -> Option<usize>
    ensures { result ≡ found numbers.now variable }
{
    numbers.get().find(variable)
}

fn set_value(cells: &mut Vec<Cell>, number: usize, value: Value)
    requires within { number < vec_len cells.old }
    ensures { (cell : Cell) → slice_get cells.old.items number ≡ Some cell → cells.new.items ≡ slice_set cells.old.items number (with_value cell value) }
{
    let cell = &mut cells[number];
    cell.value = converted(cell.kind, value);
}

impl Cells {
    pub fn new(alloc: Global, cells: Vec<Cell>) -> Result<Cells, OutOfMemory>
        ensures { IfOk result (λ it. it ≡ cells.items) }
    {
        let numbers = Boxed::new(alloc, Numbers::of(alloc, cells.as_slice())?)?;
        Ok(Cells { cells, numbers })
    }

    /// The cell of a variable; of two the first counts.
    pub fn find(&self, variable: Variable) -> Option<&Cell>
        ensures { option_copied result ≡ lookup self.entry.now variable }
    {
        match find(&self.numbers, variable) {
            None => None,
            Some(number) => at(self.cells.as_slice(), number),
        }
    }

    /// Gives a variable a value, as it is where it meets the variable's type. A variable that has no cell is left out.
    pub fn put(&mut self, variable: Variable, value: Value)
        ensures { self.new ≡ put self.old variable value }
    {
        if let Some(number) = find(&self.numbers, variable) {
            set_value(&mut self.cells, number, value);
        }
    }
}
