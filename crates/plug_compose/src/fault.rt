//! Why two components were not plugged. The faults of what the whole is made of become one of a few causes.

use comp_pair::PairFault;
use std::alloc::AllocError;
use virt_base::NoMemory;

/// Why two components were not plugged.
#[derive(Debug, Clone, Copy, PartialEq, Eq)]
pub enum PlugFault {
    NoMemory,
    /// The check of what was made failed.
    Unsound,
    /// It or a name of it is too long for 32 bits.
    TooLong,
}

impl From<NoMemory> for PlugFault {
    fn from(_: NoMemory) -> PlugFault {
        PlugFault::NoMemory
    }
}

impl From<AllocError> for PlugFault {
    fn from(_: AllocError) -> PlugFault {
        PlugFault::NoMemory
    }
}

/// The same fault of two components that are put together.
impl From<PairFault> for PlugFault {
    fn from(fault: PairFault) -> PlugFault {
        match fault {
            PairFault::NoMemory => PlugFault::NoMemory,
            PairFault::Unsound => PlugFault::Unsound,
            PairFault::TooLong => PlugFault::TooLong,
        }
    }
}
