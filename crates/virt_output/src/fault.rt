//! Why a section is not added: out of memory, or too long for a size of 32 bits.

use virt_base::NoMemory;

/// Why a section is not added.
#[derive(Debug, Clone, Copy, PartialEq, Eq)]
pub enum PieceFault {
    NoMemory,
    /// No size can say how long its content is: 2^32 bytes, or more.
    TooLong,
}

impl From<NoMemory> for PieceFault {
    ghost use Rattle.std.specs.Prelude.{◌≡◌};
    ghost use Rattle.virt_output.specs.declared.fault.PieceFault.TheVariants.{NoMemory};

    ghost from_gives = { λ _ f. f ≡ NoMemory };

    fn from(_: NoMemory) -> PieceFault {
        PieceFault::NoMemory
    }
}
