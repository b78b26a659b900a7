//! How a run ended: as an observation, which is shown as a line, and as a status.

ghost use Rattle.std.specs.Prelude.{◌≡◌};
ghost use Rattle.host_port.specs.Calls.{plain_observation};
ghost use Rattle.virt_engine.specs.Lines.{end_by, seen_by};
ghost use Rattle.virt_engine.specs.Runs.{ended_as};

use crate::status::Status;
use comp_interp::RunEnd;
use host_port::Observation;

/// How a run ended whose last call, or whose making, came out so: after a call that returned nothing is left.
pub fn end_by(end: &RunEnd) -> RunEnd
    ensures { result ≡ end_by end.now }
{
    match end {
        RunEnd::Returned(_) => RunEnd::Returned(None),
        RunEnd::Trapped => RunEnd::Trapped,
        RunEnd::ScriptEnded => RunEnd::ScriptEnded,
        RunEnd::BadAnswer => RunEnd::BadAnswer,
        RunEnd::Spent => RunEnd::Spent,
        RunEnd::TooDeep => RunEnd::TooDeep,
    }
}

/// What is seen of how a call came out.
pub fn seen_by(end: RunEnd) -> Observation
    ensures { plain_observation result ≡ seen_by end }
{
    match end {
        RunEnd::Returned(value) => Observation::Returned(value),
        RunEnd::Trapped => Observation::Trapped,
        RunEnd::ScriptEnded => Observation::ScriptEnded,
        RunEnd::BadAnswer => Observation::BadAnswer,
        RunEnd::Spent => Observation::Spent,
        RunEnd::TooDeep => Observation::TooDeep,
    }
}

/// The status of a run that ended so.
pub fn ended_as(end: &RunEnd) -> Status
    ensures { result ≡ ended_as end.now }
{
    match end {
        RunEnd::Returned(_) => Status::Done,
        RunEnd::Trapped => Status::Trapped,
        RunEnd::ScriptEnded => Status::ScriptEnded,
        RunEnd::Spent => Status::StepsSpent,
        RunEnd::BadAnswer => Status::BadAnswer,
        RunEnd::TooDeep => Status::TooDeep,
    }
}
