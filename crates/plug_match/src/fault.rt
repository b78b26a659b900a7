//! Why the second component can't be plugged: what is at fault first, or that the first component meets none of its imports.

use virt_base::{NoMemory, Text};
use wasi_match::Cause;

/// Why the second component can't be plugged.
#[derive(Debug, Drop)]
pub enum SecondFault {
    /// What is at fault first. The text is the name of the import or of the outermost export.
    Refused(Cause, Text),
    /// The first component meets none of its imports.
    NothingMet,
    /// Memory ran out.
    NoMemory,
}

impl From<NoMemory> for SecondFault {
    ghost use Rattle.std.specs.Prelude.{◌≡◌};
    ghost use Rattle.plug_match.specs.declared.fault.SecondFault.TheVariants.{NoMemory};

    ghost from_gives = { λ _ f. f ≡ NoMemory };

    fn from(_: NoMemory) -> SecondFault {
        SecondFault::NoMemory
    }
}
