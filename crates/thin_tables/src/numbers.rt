//! Which cell is a variable's.
ghost use Rattle.std.specs.Prelude.{◌≡◌, Some, None, IfOk, OnOk, if◌then◌else◌};
ghost use Rattle.thin_state.specs.declared.tree.Variable.{Variable};
ghost use Rattle.thin_state.specs.State.{same_variable};
ghost use Rattle.thin_tables.specs.Tables.{AreNumbers, AreNumbersFrom, IsNoted, found, knows_none};

use cy_base::OutOfMemory;
use std::alloc::Global;
use std::collections::HashMap;
use thin_state::{Cell, Variable};

/// The number of the first cell of each variable.
#[derive(Drop)]
pub struct Numbers {
    parameters: HashMap<u32, usize>,
    locals: HashMap<u32, usize>,
    temporaries: HashMap<u32, usize>,
    returned: Option<usize>,
    self_object: Option<usize>,
    arguments: Option<usize>,
    argument_count: Option<usize>,
}

impl Numbers {
    fn none(alloc: Global) -> Numbers
        ensures { knows_none result }
    {
        Numbers {
            parameters: HashMap::new(alloc),
            locals: HashMap::new(alloc),
            temporaries: HashMap::new(alloc),
            returned: None,
            self_object: None,
            arguments: None,
            argument_count: None,
        }
    }

    fn note(&mut self, variable: Variable, at: usize) -> Result<(), OutOfMemory>
        ensures { OnOk result (IsNoted self.old variable at self.new) }
    {
        match variable {
            Variable::Parameter(number) => {
                self.parameters.insert(number, at)?;
            }
            Variable::Local(number) => {
                self.locals.insert(number, at)?;
            }
            Variable::Temporary(number) => {
                self.temporaries.insert(number, at)?;
            }
            Variable::Returned => self.returned = Some(at),
            Variable::SelfObject => self.self_object = Some(at),
            Variable::Arguments => self.arguments = Some(at),
            Variable::ArgumentCount => self.argument_count = Some(at),
        }
        Ok(())
    }

    /// The numbers of all cells; of two of one variable the first counts.
    pub fn of(alloc: Global, cells: &[Cell]) -> Result<Numbers, OutOfMemory>
        ensures { IfOk result (λ numbers. AreNumbers cells.now numbers) }
    {
        let mut numbers = Numbers::none(alloc);
        for at in (0..cells.len()).rev() {
            numbers.note(cells[at].variable, at)?;
        }
        Ok(numbers)
    }

    pub fn find(&self, variable: Variable) -> Option<usize>
        ensures { result ≡ found self.now variable }
    {
        match variable {
            Variable::Parameter(number) => self.parameters.get(&number).copied(),
            Variable::Local(number) => self.locals.get(&number).copied(),
            Variable::Temporary(number) => self.temporaries.get(&number).copied(),
            Variable::Returned => self.returned,
            Variable::SelfObject => self.self_object,
            Variable::Arguments => self.arguments,
            Variable::ArgumentCount => self.argument_count,
        }
    }
}
