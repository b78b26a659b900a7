//! Why a call that reads or writes many bytes fails: a trap, or out of memory.

use std::alloc::{AllocError, AllocFailed};
use virt_base::{NoMemory, Trap};

/// Why a call that reads or writes many bytes did not.
#[derive(Debug, Clone, Copy, PartialEq, Eq)]
pub enum StoreFault {
    /// A place and a length together pass the end.
    Trap,
    NoMemory,
}

impl From<NoMemory> for StoreFault {
    ghost use Rattle.std.specs.Prelude.{◌≡◌};
    ghost use Rattle.core_memory.specs.declared.fault.StoreFault.TheVariants.{NoMemory as OutOfMemory};

    ghost from_gives = { λ _ e. e ≡ OutOfMemory };

    fn from(_: NoMemory) -> StoreFault {
        StoreFault::NoMemory
    }
}

impl From<AllocError> for StoreFault {
    ghost use Rattle.std.specs.Prelude.{◌≡◌};
    ghost use Rattle.core_memory.specs.declared.fault.StoreFault.TheVariants.{NoMemory as OutOfMemory};

    ghost from_gives = { λ _ e. e ≡ OutOfMemory };

    fn from(_: AllocError) -> StoreFault {
        StoreFault::NoMemory
    }
}

impl<T: Drop> From<AllocFailed<T>> for StoreFault {
    ghost use Rattle.std.specs.Prelude.{◌≡◌};
    ghost use Rattle.core_memory.specs.declared.fault.StoreFault.TheVariants.{NoMemory as OutOfMemory};

    ghost from_gives = { λ _ e. e ≡ OutOfMemory };

    fn from(_: AllocFailed<T>) -> StoreFault {
        StoreFault::NoMemory
    }
}

impl From<Trap> for StoreFault {
    ghost use Rattle.std.specs.Prelude.{◌≡◌};
    ghost use Rattle.core_memory.specs.declared.fault.StoreFault.TheVariants.{Trap as Trapped};

    ghost from_gives = { λ _ e. e ≡ Trapped };

    fn from(_: Trap) -> StoreFault {
        StoreFault::Trap
    }
}
