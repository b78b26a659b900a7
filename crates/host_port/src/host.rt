//! The trait `Host`: calls, drops of handles, and what was seen of both. A host that answers by a script and the reference host have it.

ghost use Rattle.std.specs.Prelude.{◌≡◌, IfOk, OnOk, map};
ghost use Rattle.host_port.specs.Calls.{plain_call, plain_answer, plain_observation};
ghost use Rattle.host_port.specs.Hosts.{HostStep, Kept, IsAnswerTo, reacts, answer_of, drops};

use crate::answer::{Answer, Observations};
use crate::call::{HostCall, Resource};
use std::alloc::Global;
use virt_base::NoMemory;

/// What meets a component's imports. What it answers, and the state that it is in then, is determined by its state and the
/// call; it keeps a list of what is seen of it. Where memory runs out nothing is said of it, and it is not used again.
pub trait Host {
    /// The states of the host.
    ghost State: { Type 0 };

    /// What the host does at a call, and at the drop of a handle.
    ghost step: { HostStep State };

    /// The state, and what was seen so far.
    ghost kept: { Self → Kept State };

    /// Calls a function of the host, which may keep the call.
    fn call(&mut self, alloc: Global, call: HostCall) -> Result<Answer, NoMemory>
        ensures answer { IfOk result (λ a. plain_answer a ≡ answer_of step (kept self.old) (plain_call call)) }
        ensures next { OnOk result (kept self.new ≡ reacts step (kept self.old) (plain_call call)) }
        // A value has the call's result type, and there is none exactly where the call has no result type.
        ensures typed { IfOk result (λ a. IsAnswerTo (plain_call call).answer (plain_answer a)) };

    /// Drops a handle of the host.
    fn drop_handle(&mut self, alloc: Global, resource: &Resource, id: u32) -> Result<(), NoMemory>
        ensures { OnOk result (kept self.new ≡ drops step (kept self.old) resource.now id) };

    /// What was seen so far.
    fn observations(&self) -> &Observations
        ensures { map plain_observation result.now ≡ (kept self.now).seen };
}
