//! Why a component is not listed: what can be at fault in an import or an export, and the fault with its name.

ghost use Rattle.std.specs.Prelude.{◌≡◌, Some};
ghost use Rattle.wasi_match.specs.Verdicts.{Refused, fault_verdict};

use virt_base::{NoMemory, Text};

/// What is at fault in an import or an export.
#[derive(Debug, Clone, Copy, PartialEq, Eq)]
pub enum Cause {
    /// The import is no instance, or its name is none of a listed interface in a version of WASI 0.2.
    Unlisted,
    /// An import before it names the same interface.
    TwoVersions,
    /// It asks for what the interface does not offer, or takes a resource for one that another is taken for.
    WrongType,
    /// A resource type or a handle stands in the export.
    HandleExport,
}

/// Why a component is not listed. The text is the name of the import or of the outermost export at fault.
#[derive(Debug, Drop)]
pub enum MatchFault {
    Unlisted(Text),
    WrongType(Text),
    TwoVersions(Text),
    HandleExport(Text),
    /// Memory ran out.
    NoMemory,
}

impl From<NoMemory> for MatchFault {
    ghost use Rattle.std.specs.Prelude.{◌≡◌};
    ghost use Rattle.wasi_match.specs.declared.fault.MatchFault.TheVariants.{NoMemory};

    ghost from_gives = { λ _ f. f ≡ NoMemory };

    fn from(_: NoMemory) -> MatchFault {
        MatchFault::NoMemory
    }
}

/// The fault at a name.
pub fn fault_at(cause: Cause, name: Text) -> MatchFault
    ensures { fault_verdict result ≡ Some (Refused cause name) }
{
    match cause {
        Cause::Unlisted => MatchFault::Unlisted(name),
        Cause::TwoVersions => MatchFault::TwoVersions(name),
        Cause::WrongType => MatchFault::WrongType(name),
        Cause::HandleExport => MatchFault::HandleExport(name),
    }
}
