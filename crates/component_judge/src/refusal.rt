//! Why a component or a script is refused.

use virt_base::{AppFault, NoMemory, Text};
use wasi_match::MatchFault;

/// Why a component or a script will not do.
#[derive(Debug, Drop)]
pub enum Refusal {
    /// The bytes are no component, or none that is valid and of a type that will do.
    Refused(AppFault),
    /// What is named is above its limit: `application-bytes`, `component-bytes`, `nesting`, `code-bytes` or `script-bytes`.
    OverLimit(Text, u64),
    /// The script is at fault at this path.
    BadScript(Text),
    NoMemory,
}

impl From<NoMemory> for Refusal {
    ghost use Rattle.std.specs.Prelude.{◌≡◌};
    ghost use Rattle.component_judge.specs.declared.refusal.Refusal.TheVariants.{NoMemory};

    ghost from_gives = { λ _ refusal. refusal ≡ NoMemory };

    fn from(_: NoMemory) -> Refusal {
        Refusal::NoMemory
    }
}

impl From<MatchFault> for Refusal {
    ghost use Rattle.std.specs.Prelude.{◌≡◌};
    ghost use Rattle.component_judge.specs.Applications.{refusal_of};

    ghost from_gives = { λ fault refusal. refusal ≡ refusal_of fault };

    fn from(fault: MatchFault) -> Refusal {
        match fault {
            MatchFault::Unlisted(name) => Refusal::Refused(AppFault::Unlisted(name)),
            MatchFault::TwoVersions(name) => Refusal::Refused(AppFault::TwoVersions(name)),
            MatchFault::WrongType(name) => Refusal::Refused(AppFault::WrongType(name)),
            MatchFault::HandleExport(name) => Refusal::Refused(AppFault::HandleExport(name)),
            MatchFault::NoMemory => Refusal::NoMemory,
        }
    }
}
