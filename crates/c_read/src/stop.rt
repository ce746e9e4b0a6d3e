//! Why a text is no C file.
ghost use Rattle.std.specs.Prelude.{◌≡◌};

use cy_base::OutOfMemory;
use std::alloc::{AllocError, AllocFailed};
use thiserror::Error;

/// Why a text gives no file: so many items were read, and what follows is neither the end nor an item; or there is no
/// memory. The project's own.
#[derive(Clone, Copy, Debug, PartialEq, Eq, Error)]
pub enum CStop {
    #[error("what follows {items} items is no item")]
    Refused { items: u32 },
    #[error("out of memory")]
    Memory,
}

impl From<OutOfMemory> for CStop {
    ghost use Rattle.c_read.specs.declared.stop.CStop.TheVariants.{Memory};

    ghost from_gives = { λ _ stop. stop ≡ Memory };

    fn from(_error: OutOfMemory) -> CStop {
        CStop::Memory
    }
}

impl From<AllocError> for CStop {
    ghost use Rattle.c_read.specs.declared.stop.CStop.TheVariants.{Memory};

    ghost from_gives = { λ _ stop. stop ≡ Memory };

    fn from(_error: AllocError) -> CStop {
        CStop::Memory
    }
}

impl<T: Drop> From<AllocFailed<T>> for CStop {
    ghost use Rattle.c_read.specs.declared.stop.CStop.TheVariants.{Memory};

    ghost from_gives = { λ _ stop. stop ≡ Memory };

    fn from(_error: AllocFailed<T>) -> CStop {
        CStop::Memory
    }
}
