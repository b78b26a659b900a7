//! A component is judged as an application: beside what every component is asked, it has to be listed.

ghost use Rattle.std.specs.Prelude.{◌≡◌, IfOk, Ok};
ghost use Rattle.component_judge.specs.Applications.{JudgesApplication};
ghost use Rattle.component_judge.specs.Components.{Judges};

use crate::component::{Judged, sound_component};
use crate::limits::Purpose;
use crate::refusal::Refusal;
use std::alloc::Global;
use wasi_match::{Listed, match_imports};

/// A listed component, and what it imports of the listed interfaces.
#[derive(Drop)]
pub struct Application {
    pub judged: Judged,
    pub listed: Listed,
}

/// The component that the bytes spell, with its type, where it is listed: after what every component is asked, its imports and then
/// its exports.
pub fn judge_application(
    alloc: Global,
    purpose: Purpose,
    bytes: &[u8],
) -> Result<Application, Refusal>
    ensures listed { JudgesApplication purpose bytes.now result }
    // A listed component within the limits of a run can be run over a host that answers by a script as well.
    ensures runs { purpose ≡ Purpose.Run → IfOk result (λ application. Judges bytes.now (Ok application.judged)) }
{
    let judged = sound_component(alloc, purpose, bytes)?;
    let listed = match_imports(alloc, &judged.ty)?;
    Ok(Application { judged, listed })
}
