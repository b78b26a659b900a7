//! Why no output was made. The faults of its parts become one of a few causes.

use adapter_bytes::EmitFault;
use comp_pair::PairFault;
use virt_base::NoMemory;
use virt_output::PieceFault;

/// Why no output was made.
#[derive(Debug, Clone, Copy, PartialEq, Eq)]
pub enum ComposeFault {
    NoMemory,
    /// The check of what was made failed.
    Unsound,
    /// It or a name of it is too long for 32 bits, or the adapter's memory is too small for what the policy gives.
    TooLong,
}

impl From<NoMemory> for ComposeFault {
    ghost use Rattle.std.specs.Prelude.{◌≡◌};
    ghost use Rattle.compose.specs.declared.fault.ComposeFault.TheVariants.{NoMemory as OutOfMemory};

    ghost from_gives = { λ _ f. f ≡ OutOfMemory };

    fn from(_: NoMemory) -> ComposeFault {
        ComposeFault::NoMemory
    }
}

/// The same fault of two components that are put together.
impl From<PairFault> for ComposeFault {
    fn from(fault: PairFault) -> ComposeFault {
        match fault {
            PairFault::NoMemory => ComposeFault::NoMemory,
            PairFault::Unsound => ComposeFault::Unsound,
            PairFault::TooLong => ComposeFault::TooLong,
        }
    }
}

/// The same fault of a piece.
pub fn of_piece(fault: PieceFault) -> ComposeFault {
    match fault {
        PieceFault::NoMemory => ComposeFault::NoMemory,
        PieceFault::TooLong => ComposeFault::TooLong,
    }
}

/// The same fault of the adapter's modules.
pub fn of_emit(fault: EmitFault) -> ComposeFault {
    match fault {
        EmitFault::NoMemory => ComposeFault::NoMemory,
        EmitFault::TooLarge => ComposeFault::TooLong,
    }
}
