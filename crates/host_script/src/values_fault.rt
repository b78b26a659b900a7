//! Why JSON stands for no value of a type.

use std::alloc::{AllocError, AllocFailed};
use virt_base::NoMemory;

/// Why a value is not read.
#[derive(Debug, Clone, Copy, PartialEq, Eq)]
pub enum ReadValueFault {
    /// It stands for no value of the type.
    NotOfType,
    /// Memory ran out.
    NoMemory,
}

impl From<NoMemory> for ReadValueFault {
    ghost use Rattle.std.specs.Prelude.{◌≡◌};
    ghost use Rattle.host_script.specs.declared.values_fault.ReadValueFault.TheVariants.{NoMemory};

    ghost from_gives = { λ _ f. f ≡ NoMemory };

    fn from(_: NoMemory) -> ReadValueFault {
        ReadValueFault::NoMemory
    }
}

impl From<AllocError> for ReadValueFault {
    ghost use Rattle.std.specs.Prelude.{◌≡◌};
    ghost use Rattle.host_script.specs.declared.values_fault.ReadValueFault.TheVariants.{NoMemory};

    ghost from_gives = { λ _ f. f ≡ NoMemory };

    fn from(_: AllocError) -> ReadValueFault {
        ReadValueFault::NoMemory
    }
}

impl<T: Drop> From<AllocFailed<T>> for ReadValueFault {
    ghost use Rattle.std.specs.Prelude.{◌≡◌};
    ghost use Rattle.host_script.specs.declared.values_fault.ReadValueFault.TheVariants.{NoMemory};

    ghost from_gives = { λ _ f. f ≡ NoMemory };

    fn from(_: AllocFailed<T>) -> ReadValueFault {
        ReadValueFault::NoMemory
    }
}
