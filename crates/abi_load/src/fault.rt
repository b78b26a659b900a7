//! Why no value is loaded or lifted: a trap, or out of memory.

use core_store::StoreFault;
use std::alloc::{AllocError, AllocFailed};
use virt_base::{NoMemory, Trap};

/// Why no value was loaded.
#[derive(Debug, Clone, Copy, PartialEq, Eq)]
pub enum LoadFault {
    Trap,
    NoMemory,
}

impl From<NoMemory> for LoadFault {
    ghost use Rattle.std.specs.Prelude.{◌≡◌};
    ghost use Rattle.abi_load.specs.declared.fault.LoadFault.TheVariants.{NoMemory as OutOfMemory};

    ghost from_gives = { λ _ e. e ≡ OutOfMemory };

    fn from(_: NoMemory) -> LoadFault {
        LoadFault::NoMemory
    }
}

impl From<AllocError> for LoadFault {
    ghost use Rattle.std.specs.Prelude.{◌≡◌};
    ghost use Rattle.abi_load.specs.declared.fault.LoadFault.TheVariants.{NoMemory as OutOfMemory};

    ghost from_gives = { λ _ e. e ≡ OutOfMemory };

    fn from(_: AllocError) -> LoadFault {
        LoadFault::NoMemory
    }
}

impl<T: Drop> From<AllocFailed<T>> for LoadFault {
    ghost use Rattle.std.specs.Prelude.{◌≡◌};
    ghost use Rattle.abi_load.specs.declared.fault.LoadFault.TheVariants.{NoMemory as OutOfMemory};

    ghost from_gives = { λ _ e. e ≡ OutOfMemory };

    fn from(_: AllocFailed<T>) -> LoadFault {
        LoadFault::NoMemory
    }
}

impl From<Trap> for LoadFault {
    ghost use Rattle.std.specs.Prelude.{◌≡◌};
    ghost use Rattle.abi_load.specs.declared.fault.LoadFault.TheVariants.{Trap as Trapped};

    ghost from_gives = { λ _ e. e ≡ Trapped };

    fn from(_: Trap) -> LoadFault {
        LoadFault::Trap
    }
}

impl From<StoreFault> for LoadFault {
    ghost use Rattle.std.specs.Prelude.{◌≡◌};
    ghost use Rattle.abi_load.specs.Loaded.{fault_of};

    ghost from_gives = { λ f e. e ≡ fault_of f };

    fn from(fault: StoreFault) -> LoadFault {
        match fault {
            StoreFault::Trap => LoadFault::Trap,
            StoreFault::NoMemory => LoadFault::NoMemory,
        }
    }
}
