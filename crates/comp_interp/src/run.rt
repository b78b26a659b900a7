//! A component over a host from its first step to its last: its instances are made, and then its exports are called.

ghost use Rattle.std.specs.Prelude.{◌≡◌, IfOk};
ghost use Rattle.comp_interp.specs.Sound.{CanBeMade};
ghost use Rattle.comp_interp.specs.Runs.{host_in, IsNew};
ghost use Rattle.comp_interp.specs.Outcomes.{IsEndOf, Instantiates, CallsExport};
ghost use Rattle.wit_types.specs.PlainValue.{plain_values};

use crate::assembly::Assembly;
use crate::exports::target_of;
use crate::runnable::Runnable;
use comp_calls::{RunEnd, Stop, World};
use comp_link::Linked;
use host_port::Host;
use instance_making::{Givens, Named};
use std::alloc::Global;
use virt_base::{NoMemory, Text};
use wit_types::{Value, Values, copy_values};

/// A component over a host. `instantiate` comes first, and once; after an answer other than `Returned` no call follows.
#[derive(Drop)]
pub struct Run<H> {
    linked: Runnable,
    assembly: Assembly<H>,
    exports: Givens,
}

fn end_of(came: Result<Option<Value>, Stop>) -> Result<RunEnd, NoMemory>
    ensures { IfOk result (λ end. IsEndOf came end) }
{
    match came {
        Ok(value) => Ok(RunEnd::Returned(value)),
        Err(Stop::Trapped) => Ok(RunEnd::Trapped),
        Err(Stop::ScriptEnded) => Ok(RunEnd::ScriptEnded),
        Err(Stop::BadAnswer) => Ok(RunEnd::BadAnswer),
        Err(Stop::Spent) => Ok(RunEnd::Spent),
        Err(Stop::TooDeep) => Ok(RunEnd::TooDeep),
        Err(Stop::NoMemory) => Err(NoMemory),
    }
}

impl<H: Host> Run<H> {
    /// A component before its first step, with that many steps for the whole run.
    pub fn new(alloc: Global, linked: Linked, host: H, budget: u64) -> Run<H>
        requires { CanBeMade linked }
        ensures { IsNew linked (H.kept host) budget (H.kept (host_in result)) result }
    {
        Run {
            linked: Runnable::new(linked),
            assembly: Assembly::new(alloc, host, budget),
            exports: Named::none(alloc),
        }
    }

    /// Makes the instances of the component.
    pub fn instantiate(&mut self, alloc: Global) -> Result<RunEnd, NoMemory>
        ensures { IfOk result (λ end. Instantiates H.step H.kept self.old end self.new) }
    {
        match self.assembly.make(alloc, self.linked.linked()) {
            Ok(exports) => {
                self.exports = exports;
                Ok(RunEnd::Returned(None))
            }
            Err(stop) => end_of(Err(stop)),
        }
    }

    /// Calls an exported function, by its name, or by that of an exported instance, `#` and its own.
    pub fn call_export(
        &mut self,
        alloc: Global,
        name: &Text,
        args: &Values,
    ) -> Result<RunEnd, NoMemory>
        ensures { IfOk result (λ end. CallsExport H.step H.kept self.old name.now (plain_values args.now) end self.new) }
    {
        let found = target_of(alloc, &self.assembly.made, &self.exports, name)?;
        let Some(target) = found else {
            return Ok(RunEnd::Trapped);
        };
        let args = copy_values(alloc, args)?;
        end_of(self.assembly.world.call_from_outside(alloc, target, args))
    }

    /// The host as it is now.
    pub fn host(&self) -> &H
        ensures { result.now ≡ host_in self.now }
    {
        &self.assembly.world.host
    }

    /// Gives the host back.
    pub fn finish(self) -> H
        ensures { result ≡ host_in self }
    {
        let Run { assembly, .. } = self;
        let Assembly { world, .. } = assembly;
        let World { host, .. } = world;
        host
    }
}
