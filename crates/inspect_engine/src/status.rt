//! How a call ended, and the exit status for it.

ghost use Rattle.std.specs.Prelude.{◌≡◌};
ghost use Rattle.inspect_engine.specs.Status.{code_of};

use virt_base::{AppFault, NoMemory, Text};
use virt_words::PolicyFault;

/// How a call ended.
#[derive(Debug, Drop)]
pub enum Status {
    Done,
    PolicyRefused(PolicyFault),
    ComponentRefused(AppFault),
    /// The file of this name could not be read.
    FileFault(Text),
    /// Standard output took not all of the text.
    SinkFault,
    /// What is named is above its limit.
    OverLimit(Text, u64),
    NoMemory,
    /// The words are no command.
    Usage,
}

impl From<NoMemory> for Status {
    ghost use Rattle.std.specs.Prelude.{◌≡◌};
    ghost use Rattle.inspect_engine.specs.declared.status.Status.TheVariants.{NoMemory};

    ghost from_gives = { λ _ status. status ≡ NoMemory };

    fn from(_: NoMemory) -> Status {
        Status::NoMemory
    }
}

/// The exit status of a program that ended so.
pub fn code(status: &Status) -> u8
    ensures { result ≡ code_of status.now }
{
    match status {
        Status::Done => 0,
        Status::PolicyRefused(_) => 1,
        Status::ComponentRefused(_) => 2,
        Status::FileFault(_) => 3,
        Status::SinkFault => 4,
        Status::OverLimit(_, _) => 5,
        Status::NoMemory => 6,
        Status::Usage => 64,
    }
}
