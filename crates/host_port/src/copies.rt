//! Copies of calls and resources, for a host that hands on or keeps what it is given.

#![tactic(auto, using(wit_types::proofs::ValueLemmas::values))]

ghost use Rattle.std.specs.Prelude.{◌≡◌, IfOk};
ghost use Rattle.host_port.specs.Calls.{plain_call};

use crate::call::{HostCall, Resource};
use std::alloc::Global;
use virt_base::NoMemory;
use wit_types::copy_values;

/// An equal call, of the same function: only the arguments are copied.
pub fn copy_call(alloc: Global, call: &HostCall) -> Result<HostCall, NoMemory>
    ensures { IfOk result (λ copy. plain_call copy ≡ plain_call call.now) }
{
    let func = call.func.clone()?;
    let args = copy_values(alloc, &call.args)?;
    Ok(HostCall { func, args })
}

/// An equal resource.
pub fn copy_resource(alloc: Global, resource: &Resource) -> Result<Resource, NoMemory>
    ensures { IfOk result (λ copy. copy ≡ resource.now) }
{
    let interface = resource.interface.copy(alloc)?;
    let name = resource.name.copy(alloc)?;
    Ok(Resource { interface, name })
}
