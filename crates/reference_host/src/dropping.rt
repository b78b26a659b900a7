//! The drop of a handle by the reference host.

ghost use Rattle.std.specs.Prelude.{OnOk};
ghost use Rattle.reference_step.specs.Steps.{drops};
ghost use Rattle.ref_host_calls.specs.Losses.{IsLoss};
ghost use Rattle.reference_host.specs.States.{IsState, reference_of};

use crate::state::State;
use host_port::{Host, Resource};
use ref_host_calls::drop_live;
use std::alloc::Global;
use virt_base::NoMemory;

/// The drop of a handle of the reference host over a host that is asked.
pub fn drop_handle<H: Host>(
    alloc: Global,
    state: &mut State,
    inner: &mut H,
    resource: &Resource,
    id: u32,
) -> Result<(), NoMemory>
    requires { IsState state.old }
    ensures loss { OnOk result (IsLoss (drops H.step (reference_of state.old (H.kept inner.old).state) resource.now id) (reference_of state.new (H.kept inner.new).state) (H.kept inner.old).seen (H.kept inner.new).seen) }
    ensures keeps { OnOk result (IsState state.new) }
{
    drop_live(
        alloc,
        &state.setting.listed,
        &mut state.holding.live,
        inner,
        resource,
        id,
    )
}
