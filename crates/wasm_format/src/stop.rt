//! Why a reader stops. Readers of core modules and of components stop for the same reasons.

ghost use Rattle.std.specs.Prelude.{◌≡◌};
ghost use Rattle.wasm_format.specs.declared.stop.Stop.TheVariants.{NoMemory};

use std::alloc::{AllocError, AllocFailed};

/// Why a reader stops.
#[derive(Debug, Clone, Copy, PartialEq, Eq)]
pub enum Stop {
    NoMemory,
    /// What stands there has no spelling.
    Malformed,
    /// The byte at `at` is a tag that the table of its place lacks.
    Unsupported { at: usize, byte: u8 },
    /// A component stands deeper in one another than may be.
    TooNested,
}

impl From<AllocError> for Stop {
    ghost from_gives = { λ _ e. e ≡ NoMemory };

    fn from(_: AllocError) -> Stop {
        Stop::NoMemory
    }
}

impl<T: Drop> From<AllocFailed<T>> for Stop {
    ghost from_gives = { λ _ e. e ≡ NoMemory };

    fn from(_: AllocFailed<T>) -> Stop {
        Stop::NoMemory
    }
}

impl From<virt_base::NoMemory> for Stop {
    ghost from_gives = { λ _ e. e ≡ NoMemory };

    fn from(_: virt_base::NoMemory) -> Stop {
        Stop::NoMemory
    }
}
