//! How a run ends, and why it stops before it is done.

use core_store::StoreFault;
use instance_state::HandleFault;
use std::alloc::{AllocError, AllocFailed};
use virt_base::{NoMemory, Trap};
use wit_types::Value;

/// How the making of a component, or a call of one of its exports, came out.
#[derive(Debug, Drop)]
pub enum RunEnd {
    /// It is done, with the result of the call, if it has one.
    Returned(Option<Value>),
    /// The component trapped.
    Trapped,
    /// The host had no more answers.
    ScriptEnded,
    /// The host's answer was none of the call's result type.
    BadAnswer,
    /// No step was left.
    Spent,
    /// Too many calls would have been in progress at once.
    TooDeep,
}

/// Why a run ends before it is done.
#[derive(Debug, Clone, Copy, PartialEq, Eq)]
pub enum Stop {
    Trapped,
    ScriptEnded,
    BadAnswer,
    Spent,
    TooDeep,
    NoMemory,
}

impl From<NoMemory> for Stop {
    ghost use Rattle.std.specs.Prelude.{◌≡◌};
    ghost use Rattle.call_moments.specs.declared.end.Stop.TheVariants.{NoMemory};

    ghost from_gives = { λ _ stop. stop ≡ NoMemory };

    fn from(_: NoMemory) -> Stop {
        Stop::NoMemory
    }
}

impl From<Trap> for Stop {
    ghost use Rattle.std.specs.Prelude.{◌≡◌};
    ghost use Rattle.call_moments.specs.declared.end.Stop.TheVariants.{Trapped};

    ghost from_gives = { λ _ stop. stop ≡ Trapped };

    fn from(_: Trap) -> Stop {
        Stop::Trapped
    }
}

impl From<HandleFault> for Stop {
    ghost use Rattle.std.specs.Prelude.{◌≡◌};
    ghost use Rattle.call_moments.specs.Stops.{stop_of_handles};

    ghost from_gives = { λ fault stop. stop ≡ stop_of_handles fault };

    fn from(fault: HandleFault) -> Stop {
        match fault {
            HandleFault::Trap => Stop::Trapped,
            HandleFault::NoMemory => Stop::NoMemory,
        }
    }
}

impl From<StoreFault> for Stop {
    ghost use Rattle.std.specs.Prelude.{◌≡◌};
    ghost use Rattle.call_moments.specs.Stops.{stop_of_store};

    ghost from_gives = { λ fault stop. stop ≡ stop_of_store fault };

    fn from(fault: StoreFault) -> Stop {
        match fault {
            StoreFault::Trap => Stop::Trapped,
            StoreFault::NoMemory => Stop::NoMemory,
        }
    }
}

impl<T: Drop> From<AllocFailed<T>> for Stop {
    ghost use Rattle.std.specs.Prelude.{◌≡◌};
    ghost use Rattle.call_moments.specs.declared.end.Stop.TheVariants.{NoMemory};

    ghost from_gives = { λ _ stop. stop ≡ NoMemory };

    fn from(_: AllocFailed<T>) -> Stop {
        Stop::NoMemory
    }
}

impl From<AllocError> for Stop {
    ghost use Rattle.std.specs.Prelude.{◌≡◌};
    ghost use Rattle.call_moments.specs.declared.end.Stop.TheVariants.{NoMemory};

    ghost from_gives = { λ _ stop. stop ≡ NoMemory };

    fn from(_: AllocError) -> Stop {
        Stop::NoMemory
    }
}
