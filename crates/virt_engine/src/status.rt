//! How a call of the program can end, and the exit status of each end.

ghost use Rattle.std.specs.Prelude.{◌≡◌};
ghost use Rattle.virt_engine.specs.Code.{code_of};

use virt_base::{AppFault, NoMemory, Text};
use virt_words::PolicyFault;

/// Why two components are not made one.
#[derive(Debug, Drop)]
pub enum PlugFault {
    /// This is at fault with the first.
    First(AppFault),
    /// The first will do, and this is at fault with the second.
    Second(AppFault),
    /// The first meets no import of the second.
    NothingMet,
}

/// How a call ended.
#[derive(Debug, Drop)]
pub enum Status {
    Done,
    PolicyRefused(PolicyFault),
    AppRefused(AppFault),
    /// The file of this name could not be read, or not be written.
    FileFault(Text),
    /// Standard output took not all of the text.
    SinkFault,
    /// What is named is above its limit.
    OverLimit(Text, u64),
    NoMemory,
    /// The script is wrong at this path.
    ScriptRefused(Text),
    PlugRefused(PlugFault),
    Trapped,
    ScriptEnded,
    StepsSpent,
    BadAnswer,
    TooDeep,
    /// The words are no command.
    Usage,
}

impl From<NoMemory> for Status {
    ghost use Rattle.std.specs.Prelude.{◌≡◌};
    ghost use Rattle.virt_engine.specs.declared.status.Status.TheVariants.{NoMemory};

    ghost from_gives = { λ _ status. status ≡ NoMemory };

    fn from(_: NoMemory) -> Status {
        Status::NoMemory
    }
}

/// The exit status of a program that ended so.
pub fn code(status: &Status) -> u8
    ensures { result ≡ code_of status.now }
{
    match status {
        Status::Done => 0,
        Status::PolicyRefused(_) => 1,
        Status::AppRefused(_) => 2,
        Status::FileFault(_) => 3,
        Status::SinkFault => 4,
        Status::OverLimit(_, _) => 5,
        Status::NoMemory => 6,
        Status::ScriptRefused(_) => 7,
        Status::PlugRefused(_) => 8,
        Status::Trapped => 10,
        Status::ScriptEnded => 11,
        Status::StepsSpent => 12,
        Status::BadAnswer => 13,
        Status::TooDeep => 14,
        Status::Usage => 64,
    }
}
