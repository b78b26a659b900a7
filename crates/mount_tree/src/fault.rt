//! Why no trees are built, with the name or the number at fault.

ghost use Rattle.mount_tree.specs.Runs.{IsFault};
ghost use Rattle.mount_tree.specs.declared.fault.TreeFault.TheVariants.{FileFault, BadName, OverLimit};

use std::alloc::Global;
use virt_base::{NoMemory, Text};

/// Why no trees are built.
#[derive(Debug, Drop)]
pub enum TreeFault {
    /// The file or folder of this name was not read.
    FileFault(Text),
    /// An entry of a folder has this name, which is none for a tree.
    BadName(Text),
    /// That many nodes, names or bytes are too many: `tree-nodes`, `tree-depth` or `embedded-bytes`.
    OverLimit(Text, u64),
    /// Memory ran out.
    NoMemory,
}

impl From<NoMemory> for TreeFault {
    ghost use Rattle.std.specs.Prelude.{◌≡◌};
    ghost use Rattle.mount_tree.specs.declared.fault.TreeFault.TheVariants.{NoMemory};

    ghost from_gives = { λ _ f. f ≡ NoMemory };

    fn from(_: NoMemory) -> TreeFault {
        TreeFault::NoMemory
    }
}

/// The fault of a file or folder of this name, or out of memory.
pub fn file_fault(alloc: Global, name: &Text) -> TreeFault
    ensures { IsFault (FileFault name.now) result }
{
    match name.copy(alloc) {
        Ok(name) => TreeFault::FileFault(name),
        Err(_) => TreeFault::NoMemory,
    }
}

/// The fault of an entry of this name.
pub fn bad_name(alloc: Global, name: &Text) -> TreeFault
    ensures { IsFault (BadName name.now) result }
{
    match name.copy(alloc) {
        Ok(name) => TreeFault::BadName(name),
        Err(_) => TreeFault::NoMemory,
    }
}

/// The fault of a quantity above its limit.
pub fn over_limit(alloc: Global, what: &str, value: u64) -> TreeFault
    ensures { IsFault (OverLimit what.now value) result }
{
    match Text::from_str(alloc, what) {
        Ok(what) => TreeFault::OverLimit(what, value),
        Err(_) => TreeFault::NoMemory,
    }
}
