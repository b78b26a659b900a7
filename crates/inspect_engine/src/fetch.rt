//! The status of a file that could not be read or is refused.

use crate::status::Status;
use component_judge::{Refusal, Unready};

/// The status of a file that could not be read, or is refused. No script is read, so none is refused.
impl From<Unready> for Status {
    ghost use Rattle.std.specs.Prelude.{◌≡◌};
    ghost use Rattle.inspect_engine.specs.Policies.{unready_as};

    ghost from_gives = { λ unready status. status ≡ unready_as unready };

    fn from(unready: Unready) -> Status {
        match unready {
            Unready::FileFault(name) => Status::FileFault(name),
            Unready::Refused(Refusal::Refused(fault)) => Status::ComponentRefused(fault),
            Unready::Refused(Refusal::OverLimit(what, value)) => Status::OverLimit(what, value),
            Unready::Refused(Refusal::BadScript(_)) => Status::NoMemory,
            Unready::Refused(Refusal::NoMemory) => Status::NoMemory,
        }
    }
}
