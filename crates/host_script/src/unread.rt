//! Why the reader of the regular form gives up.

use std::alloc::{AllocError, AllocFailed};
use virt_base::NoMemory;

/// Why a text is not read as a script of the usual form.
#[derive(Debug, Clone, Copy, Drop, PartialEq, Eq)]
pub enum Unread {
    /// It is of another form, or at fault.
    OtherForm,
    /// Memory ran out.
    NoMemory,
}

impl From<json::Invalid> for Unread {
    ghost use Rattle.std.specs.Prelude.{◌≡◌};
    ghost use Rattle.host_script.specs.declared.unread.Unread.TheVariants.{OtherForm};

    ghost from_gives = { λ _ u. u ≡ OtherForm };

    fn from(_: json::Invalid) -> Unread {
        Unread::OtherForm
    }
}

impl From<AllocError> for Unread {
    ghost use Rattle.std.specs.Prelude.{◌≡◌};
    ghost use Rattle.host_script.specs.declared.unread.Unread.TheVariants.{NoMemory};

    ghost from_gives = { λ _ u. u ≡ NoMemory };

    fn from(_: AllocError) -> Unread {
        Unread::NoMemory
    }
}

impl From<NoMemory> for Unread {
    ghost use Rattle.std.specs.Prelude.{◌≡◌};
    ghost use Rattle.host_script.specs.declared.unread.Unread.TheVariants.{NoMemory};

    ghost from_gives = { λ _ u. u ≡ NoMemory };

    fn from(_: NoMemory) -> Unread {
        Unread::NoMemory
    }
}

impl<T: Drop> From<AllocFailed<T>> for Unread {
    ghost use Rattle.std.specs.Prelude.{◌≡◌};
    ghost use Rattle.host_script.specs.declared.unread.Unread.TheVariants.{NoMemory};

    ghost from_gives = { λ _ u. u ≡ NoMemory };

    fn from(_: AllocFailed<T>) -> Unread {
        Unread::NoMemory
    }
}
