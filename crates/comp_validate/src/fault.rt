//! Why a component is refused: a rule that fails in a section, or out of memory.

use virt_base::NoMemory;

/// Why a component is refused.
#[derive(Debug, Clone, Copy, PartialEq, Eq)]
pub enum CompFault {
    /// The least rule that the first faulty definition breaks, and the place of its outermost section, counted from 0 with the custom
    /// ones.
    Invalid(u32, u32),
    /// Memory ran out.
    NoMemory,
}

impl From<NoMemory> for CompFault {
    ghost use Rattle.std.specs.Prelude.{◌≡◌};
    ghost use Rattle.comp_validate.specs.declared.fault.CompFault.TheVariants.{NoMemory};

    ghost from_gives = { λ _ e. e ≡ NoMemory };

    fn from(_: NoMemory) -> CompFault {
        CompFault::NoMemory
    }
}
