ghost use Rattle.std.specs.Prelude.{◌≡◌};

use crate::place::Refusal;
use std::alloc::{AllocError, AllocFailed};
use thiserror::Error;

/// There is no memory for what a call makes. The project's own.
#[derive(Clone, Copy, Debug, PartialEq, Eq, Error)]
#[error("out of memory")]
pub struct OutOfMemory;

impl From<AllocError> for OutOfMemory {
    fn from(_error: AllocError) -> OutOfMemory {
        OutOfMemory
    }
}

impl<T: Drop> From<AllocFailed<T>> for OutOfMemory {
    fn from(_error: AllocFailed<T>) -> OutOfMemory {
        OutOfMemory
    }
}

/// Why a phase gives nothing: a broken rule, or no memory. The project's own.
#[derive(Clone, Copy, Debug, PartialEq, Eq, Error)]
pub enum Stop {
    #[error("a rule is broken at byte {}", .0.offset)]
    Refused(Refusal),
    #[error("out of memory")]
    Memory,
}

impl From<OutOfMemory> for Stop {
    ghost use Rattle.cy_base.specs.declared.error.Stop.TheVariants.{Memory};

    ghost from_gives = { λ _ stop. stop ≡ Memory };

    fn from(_error: OutOfMemory) -> Stop {
        Stop::Memory
    }
}

impl From<AllocError> for Stop {
    ghost use Rattle.cy_base.specs.declared.error.Stop.TheVariants.{Memory};

    ghost from_gives = { λ _ stop. stop ≡ Memory };

    fn from(_error: AllocError) -> Stop {
        Stop::Memory
    }
}

impl<T: Drop> From<AllocFailed<T>> for Stop {
    ghost use Rattle.cy_base.specs.declared.error.Stop.TheVariants.{Memory};

    ghost from_gives = { λ _ stop. stop ≡ Memory };

    fn from(_error: AllocFailed<T>) -> Stop {
        Stop::Memory
    }
}

/// Why bytes are no text: they aren't UTF-8, or there is no memory. The project's own.
#[derive(Clone, Copy, Debug, PartialEq, Eq, Error)]
pub enum TextStop {
    #[error("not UTF-8 from byte {offset}")]
    NotUtf8 { offset: u32 },
    #[error("out of memory")]
    Memory,
}

impl From<OutOfMemory> for TextStop {
    ghost use Rattle.cy_base.specs.declared.error.TextStop.TheVariants.{Memory};

    ghost from_gives = { λ _ stop. stop ≡ Memory };

    fn from(_error: OutOfMemory) -> TextStop {
        TextStop::Memory
    }
}
