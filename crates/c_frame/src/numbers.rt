//! Which cell is a variable's.
ghost use Rattle.std.specs.Prelude.{◌≡◌, IfOk, OnOk};
ghost use Rattle.c_frame.specs.Tables.{AreCells, IsVariableNoted, knows_no_variable, variable_number};

use crate::fixed::FixedNumbers;
use crate::places::PlaceNumbers;
use c_tree::Variable;
use c_value::Cell;
use cy_base::OutOfMemory;
use std::alloc::Global;
use std::collections::HashMap;

/// The number of the first cell of each variable.
#[derive(Drop)]
pub struct Numbers {
    parameters: HashMap<u32, usize>,
    locals: HashMap<u32, usize>,
    temporaries: HashMap<u32, usize>,
    returned: Option<usize>,
    fixed: FixedNumbers,
    places: PlaceNumbers,
}

impl Numbers {
    fn none(alloc: Global) -> Numbers
        ensures { knows_no_variable result }
    {
        Numbers {
            parameters: HashMap::new(alloc),
            locals: HashMap::new(alloc),
            temporaries: HashMap::new(alloc),
            returned: None,
            fixed: FixedNumbers::none(),
            places: PlaceNumbers::none(alloc),
        }
    }

    fn note(&mut self, variable: Variable, at: usize) -> Result<(), OutOfMemory>
        ensures { OnOk result (IsVariableNoted self.old variable at self.new) }
    {
        match variable {
            Variable::Parameter(number) => {
                self.parameters.insert(number, at)?;
            }
            Variable::Local(number) => {
                self.locals.insert(number, at)?;
            }
            Variable::Temporary(number) => {
                self.temporaries.insert(number, at)?;
            }
            Variable::Returned => self.returned = Some(at),
            Variable::Fixed(parameter) => self.fixed.note(parameter, at),
            Variable::Place(place) => self.places.note(place, at)?,
        }
        Ok(())
    }

    /// The numbers of all cells; of two of one variable the first counts.
    pub fn of_cells(alloc: Global, cells: &[Cell]) -> Result<Numbers, OutOfMemory>
        ensures { IfOk result (λ numbers. AreCells cells.now numbers) }
    {
        let mut numbers = Numbers::none(alloc);
        for at in (0..cells.len()).rev() {
            numbers.note(cells[at].variable, at)?;
        }
        Ok(numbers)
    }

    pub fn find(&self, variable: Variable) -> Option<usize>
        ensures { result ≡ variable_number self.now variable }
    {
        match variable {
            Variable::Parameter(number) => self.parameters.get(&number).copied(),
            Variable::Local(number) => self.locals.get(&number).copied(),
            Variable::Temporary(number) => self.temporaries.get(&number).copied(),
            Variable::Returned => self.returned,
            Variable::Fixed(parameter) => self.fixed.find(parameter),
            Variable::Place(place) => self.places.find(place),
        }
    }
}
