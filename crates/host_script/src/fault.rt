//! Why a script is refused, with the path of the member at fault.

use virt_base::{NoMemory, Text};

/// Why a script is refused.
#[derive(Debug, Drop)]
pub enum ScriptFault {
    /// What stands at this path, as `calls[0]`, is at fault. The path is empty where the bytes are no JSON, or no object.
    BadScript(Text),
    /// Memory ran out.
    NoMemory,
}

impl From<NoMemory> for ScriptFault {
    ghost use Rattle.std.specs.Prelude.{◌≡◌};
    ghost use Rattle.host_script.specs.declared.fault.ScriptFault.TheVariants.{NoMemory};

    ghost from_gives = { λ _ f. f ≡ NoMemory };

    fn from(_: NoMemory) -> ScriptFault {
        ScriptFault::NoMemory
    }
}
