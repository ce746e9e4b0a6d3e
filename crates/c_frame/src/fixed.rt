//! Which cell is that of a parameter of a fixed head.
ghost use Rattle.std.specs.Prelude.{◌≡◌};
ghost use Rattle.c_frame.specs.Tables.{IsFixedNoted, fixed_number, knows_no_fixed};

use c_tree::FixedParameter;

/// The number of the first cell of each parameter of a fixed head.
#[derive(Drop)]
pub struct FixedNumbers {
    self_object: Option<usize>,
    arguments: Option<usize>,
    argument_count: Option<usize>,
    type_object: Option<usize>,
    keywords: Option<usize>,
    key: Option<usize>,
    value: Option<usize>,
    closure: Option<usize>,
}

impl FixedNumbers {
    pub fn none() -> FixedNumbers
        ensures { knows_no_fixed result }
    {
        FixedNumbers {
            self_object: None,
            arguments: None,
            argument_count: None,
            type_object: None,
            keywords: None,
            key: None,
            value: None,
            closure: None,
        }
    }

    pub fn note(&mut self, parameter: FixedParameter, at: usize)
        ensures { IsFixedNoted self.old parameter at self.new }
    {
        match parameter {
            FixedParameter::SelfObject => self.self_object = Some(at),
            FixedParameter::Arguments => self.arguments = Some(at),
            FixedParameter::ArgumentCount => self.argument_count = Some(at),
            FixedParameter::Type => self.type_object = Some(at),
            FixedParameter::Keywords => self.keywords = Some(at),
            FixedParameter::Key => self.key = Some(at),
            FixedParameter::Value => self.value = Some(at),
            FixedParameter::Closure => self.closure = Some(at),
        }
    }

    pub fn find(&self, parameter: FixedParameter) -> Option<usize>
        ensures { result ≡ fixed_number self.now parameter }
    {
        match parameter {
            FixedParameter::SelfObject => self.self_object,
            FixedParameter::Arguments => self.arguments,
            FixedParameter::ArgumentCount => self.argument_count,
            FixedParameter::Type => self.type_object,
            FixedParameter::Keywords => self.keywords,
            FixedParameter::Key => self.key,
            FixedParameter::Value => self.value,
            FixedParameter::Closure => self.closure,
        }
    }
}
