ghost use Rattle.std.specs.Prelude.{◌≡◌};
ghost use Rattle.control_rules.specs.Walk.{compound, handling, in_body, in_module, looping};

/// What is around a statement. The project's own.
#[derive(Clone, Copy)]
pub(crate) struct Around {
    pub in_loop: bool,
    pub in_function: bool,
    pub in_handler: bool,
    pub in_compound: bool,
}

impl Around {
    pub fn module() -> Around
        ensures { result ≡ in_module }
    {
        Around {
            in_loop: false,
            in_function: false,
            in_handler: false,
            in_compound: false,
        }
    }

    pub fn function() -> Around
        ensures { result ≡ in_body }
    {
        Around {
            in_loop: false,
            in_function: true,
            in_handler: false,
            in_compound: false,
        }
    }

    /// Inside a compound statement.
    pub fn compound(self) -> Around
        ensures { result ≡ compound self }
    {
        Around {
            in_compound: true,
            ..self
        }
    }

    /// In the first suite of a loop.
    pub fn looping(self) -> Around
        ensures { result ≡ looping self }
    {
        Around {
            in_loop: true,
            in_compound: true,
            ..self
        }
    }

    /// In the suite of a handler.
    pub fn handling(self) -> Around
        ensures { result ≡ handling self }
    {
        Around {
            in_handler: true,
            ..self
        }
    }
}
