//! Why the adapter's modules were not written.

use virt_base::NoMemory;

/// Why the adapter's modules were not written.
#[derive(Debug, Clone, Copy, PartialEq, Eq)]
pub enum EmitFault {
    /// The stubs have more statements and locals than one module may hold.
    TooLarge,
    NoMemory,
}

impl From<NoMemory> for EmitFault {
    ghost use Rattle.std.specs.Prelude.{◌≡◌};
    ghost use Rattle.adapter_bytes.specs.declared.fault.EmitFault.TheVariants.{NoMemory as OutOfMemory};

    ghost from_gives = { λ _ e. e ≡ OutOfMemory };

    fn from(_: NoMemory) -> EmitFault {
        EmitFault::NoMemory
    }
}
