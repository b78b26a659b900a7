//! What words of a command line ask for, as values, and why words ask for nothing.

use virt_base::{NoMemory, Text};

/// The names that `virt` works on.
#[derive(Debug, Drop)]
pub struct VirtWords {
    pub app: Text,
    pub policy: Text,
    pub out: Text,
}

/// What `run` works on, and how many steps it may take.
#[derive(Debug, Drop)]
pub struct RunWords {
    pub component: Text,
    pub script: Text,
    pub policy: Option<Text>,
    /// 1 to 10,000,000,000.
    pub steps: u64,
}

/// How many functions the component of `gen` has, and where its output goes.
#[derive(Debug, Drop)]
pub struct GenWords {
    /// 1 to 1,000.
    pub functions: u64,
    pub out: Text,
}

/// The two components that `plug` makes one of, and the names that it works on besides.
#[derive(Debug, Drop)]
pub struct PlugWords {
    /// The component that meets imports of the other.
    pub first: Text,
    pub second: Text,
    pub policy: Text,
    pub out: Text,
}

/// What is inspected, and under which policy, if any.
#[derive(Debug, Drop)]
pub struct InspectWords {
    pub component: Text,
    pub policy: Option<Text>,
}

/// What the words of a command line ask for.
#[derive(Debug, Drop)]
pub enum Command {
    Virt(VirtWords),
    Run(RunWords),
    Gen(GenWords),
    Plug(PlugWords),
}

/// Why words give no command.
#[derive(Debug, Clone, Copy, PartialEq, Eq)]
pub enum WordsFault {
    /// The words are none of a command's.
    Usage,
    NoMemory,
}

impl From<NoMemory> for WordsFault {
    ghost use Rattle.std.specs.Prelude.{◌≡◌};
    ghost use Rattle.virt_words.specs.declared.command.WordsFault.TheVariants.{NoMemory};

    ghost from_gives = { λ _ f. f ≡ NoMemory };

    fn from(_: NoMemory) -> WordsFault {
        WordsFault::NoMemory
    }
}
