//! Why handles are not exchanged: a trap, or out of memory.

use handle_space::AddFault;
use std::alloc::AllocFailed;
use virt_base::Trap;

/// Why handles are not exchanged.
#[derive(Debug, Clone, Copy, PartialEq, Eq)]
pub enum HandleFault {
    Trap,
    NoMemory,
}

impl From<Trap> for HandleFault {
    ghost use Rattle.std.specs.Prelude.{◌≡◌};
    ghost use Rattle.instance_state.specs.declared.fault.HandleFault.TheVariants.{Trap as Trapped};

    ghost from_gives = { λ _ e. e ≡ Trapped };

    fn from(_: Trap) -> HandleFault {
        HandleFault::Trap
    }
}

impl From<AddFault> for HandleFault {
    ghost use Rattle.std.specs.Prelude.{◌≡◌};
    ghost use Rattle.instance_state.specs.Exchanged.{fault_of};

    ghost from_gives = { λ f e. e ≡ fault_of f };

    fn from(fault: AddFault) -> HandleFault {
        match fault {
            AddFault::Full => HandleFault::Trap,
            AddFault::NoMemory => HandleFault::NoMemory,
        }
    }
}

impl<T: Drop> From<AllocFailed<T>> for HandleFault {
    ghost use Rattle.std.specs.Prelude.{◌≡◌};
    ghost use Rattle.instance_state.specs.declared.fault.HandleFault.TheVariants.{NoMemory};

    ghost from_gives = { λ _ e. e ≡ NoMemory };

    fn from(_: AllocFailed<T>) -> HandleFault {
        HandleFault::NoMemory
    }
}
