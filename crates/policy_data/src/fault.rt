//! Why the text of a policy is refused. A fault of a key or a value keeps its path, which the program puts out.

use virt_base::{NoMemory, Text};

/// Why a policy is refused. A fault of a key or a value keeps its path.
#[derive(Debug, Drop)]
pub enum ReadPolicyFault {
    /// The text is no TOML document in UTF-8.
    NotToml,
    /// The key at this path is unknown.
    BadKey(Text),
    /// The value at this path has a wrong type, word or form, or is absent although required.
    BadValue(Text),
    /// The path of a file, a folder or a link that stands here is none.
    BadName(Text),
    /// The number or the length at this path is above its greatest.
    OverLimit(Text, u64),
    /// Memory ran out.
    NoMemory,
}

impl From<NoMemory> for ReadPolicyFault {
    ghost use Rattle.std.specs.Prelude.{◌≡◌};
    ghost use Rattle.policy_data.specs.declared.fault.ReadPolicyFault.TheVariants.{NoMemory};

    ghost from_gives = { λ _ f. f ≡ NoMemory };

    fn from(_: NoMemory) -> ReadPolicyFault {
        ReadPolicyFault::NoMemory
    }
}
