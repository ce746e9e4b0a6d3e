ghost use Rattle.std.specs.Prelude.{◌≡◌, if◌then◌else◌};

use cy_base::OutOfMemory;
use std::alloc::AllocError;

/// Why reading stops. The project's own.
#[derive(Clone, Copy, Debug, PartialEq, Eq)]
pub enum Halt {
    /// No sentence begins with the tokens up to the next one.
    Unexpected,
    /// The next token breaks the rule of this number.
    Limit(u8),
    Memory,
}

impl Halt {
    /// Why a form isn't read where nothing more may be opened: the next token would open something, or it is wrong.
    pub fn no_room(opens: bool) -> Halt
        ensures { result ≡ (if opens then Halt.Limit 2 else Halt.Unexpected) }
    {
        if opens {
            Halt::Limit(2)
        } else {
            Halt::Unexpected
        }
    }
}

impl From<AllocError> for Halt {
    ghost use Rattle.std.specs.Prelude.{◌≡◌};
    ghost use Rattle.token_input.specs.declared.halt.Halt.TheVariants.{Memory};

    ghost from_gives = { λ _ e. e ≡ Memory };

    fn from(_error: AllocError) -> Halt {
        Halt::Memory
    }
}

impl From<OutOfMemory> for Halt {
    ghost use Rattle.std.specs.Prelude.{◌≡◌};
    ghost use Rattle.token_input.specs.declared.halt.Halt.TheVariants.{Memory};

    ghost from_gives = { λ _ e. e ≡ Memory };

    fn from(_error: OutOfMemory) -> Halt {
        Halt::Memory
    }
}
