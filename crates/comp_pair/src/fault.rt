//! Why two components were not put together.

use virt_base::NoMemory;
use virt_output::PieceFault;

/// Why two components were not put together.
#[derive(Debug, Clone, Copy, PartialEq, Eq)]
pub enum PairFault {
    NoMemory,
    /// Something else stands where a section of items should.
    Unsound,
    /// A count or a length is too long for 32 bits.
    TooLong,
}

impl From<NoMemory> for PairFault {
    fn from(_: NoMemory) -> PairFault {
        PairFault::NoMemory
    }
}

/// The same fault of a piece.
pub fn of_piece(fault: PieceFault) -> PairFault {
    match fault {
        PieceFault::NoMemory => PairFault::NoMemory,
        PieceFault::TooLong => PairFault::TooLong,
    }
}
