//! Files that `component_judge` could not read or refuses, as statuses.

use crate::status::Status;
use component_judge::{Refusal, Unready};

/// The status of a file that could not be read, or is refused.
impl From<Unready> for Status {
    ghost use Rattle.std.specs.Prelude.{◌≡◌};
    ghost use Rattle.virt_engine.specs.Fetching.{unready_as};

    ghost from_gives = { λ unready status. status ≡ unready_as unready };

    fn from(unready: Unready) -> Status {
        match unready {
            Unready::FileFault(name) => Status::FileFault(name),
            Unready::Refused(Refusal::Refused(fault)) => Status::AppRefused(fault),
            Unready::Refused(Refusal::OverLimit(what, value)) => Status::OverLimit(what, value),
            Unready::Refused(Refusal::BadScript(path)) => Status::ScriptRefused(path),
            Unready::Refused(Refusal::NoMemory) => Status::NoMemory,
        }
    }
}
