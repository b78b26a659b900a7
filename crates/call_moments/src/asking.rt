//! The call by which the host is asked for an import.

ghost use Rattle.std.specs.Prelude.{◌≡◌, IfOk};
ghost use Rattle.wit_types.specs.PlainValue.{plain_value};
ghost use Rattle.host_port.specs.Calls.{plain_call};
ghost use Rattle.call_moments.specs.Asking.{called};

use crate::tuples::values_in;
use host_port::HostCall;
use instance_state::Import;
use std::alloc::Global;
use virt_base::NoMemory;
use wit_types::Value;

/// The call of an import.
pub fn host_call(alloc: Global, import: &Import, args: Value) -> Result<HostCall, NoMemory>
    ensures { IfOk result (λ call. plain_call call ≡ called import.now (plain_value args)) }
{
    import.call(values_in(alloc, args))
}
