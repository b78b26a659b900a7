//! The instances of a component and their host, with the core code in progress, and the loop by which it goes on from pause to pause.

#![tactic(auto, using(crate::proofs::Working::works))]

ghost use Rattle.std.specs.Prelude.{◌≡◌, ◌≤◌, ◌<◌, ◌+◌, ◌++◌, ◌∷◌, [], reverse, OnOk, IfOk};
ghost use Rattle.call_moments.specs.Steps.{TakesStep, BeginsCall};
ghost use Rattle.comp_worlds.specs.Locals.{enter as opens_call, exit as closes_call};
ghost use Rattle.comp_calls.specs.Work.{work, weight};
ghost use Rattle.comp_calls.specs.Moments.{at};
ghost use Rattle.call_moments.specs.Functions.{IsInnermost, Does, Resumes, CodeBegins};
ghost use Rattle.call_moments.specs.Canonical.{EndsCode, GoesToPause, GoesToEnd};
ghost use Rattle.call_moments.specs.Outside.{RunsStart};

use call_moments::{Depth, Flow, Frame, Group, Purpose, Stop};
use core_interp::Pause;
use core_slots::CoreValues;
use host_port::Host;
use instance_state::{Instance, Room};
use std::alloc::Global;
use virt_base::Items;
use wit_types::Value;

/// The instances of a component and their host at a moment, with the steps that are left.
#[derive(Drop)]
pub struct World<H> {
    pub host: H,
    pub budget: u64,
    pub group: Group,
    pub instances: Vec<Instance>,
    /// Core code in progress, each begun while the one before it awaits results.
    pub frames: Vec<Frame>,
    pub room: Room,
}

impl<H: Host> World<H> {
    /// Nothing is made yet.
    pub fn new(alloc: Global, host: H, budget: u64) -> World<H>
        ensures budget { result.budget ≡ budget }
        ensures host { result.host ≡ host }
        ensures none { result.instances.items ≡ [] }
        ensures frames { result.frames.items ≡ [] }
    {
        World {
            host,
            budget,
            group: Group::new(alloc),
            instances: Vec::new(alloc),
            frames: Vec::new(alloc),
            room: Room::new(alloc),
        }
    }

    /// A step is taken.
    ///
    /// # Errors
    ///
    /// `Spent` exactly where none is left.
    pub fn take_step(&mut self) -> Result<(), Stop>
        ensures budget { TakesStep self.old.budget self.new.budget result }
        ensures frames { OnOk result (self.new.frames.items ≡ self.old.frames.items) }
        ensures same { OnOk result (self.new ≡ record self.old { budget = self.new.budget }) }
        ensures host { self.new.host ≡ self.old.host }
    {
        if self.budget == 0 {
            return Err(Stop::Spent);
        }
        self.budget -= 1;
        Ok(())
    }

    /// A start function runs in its instance, to its end.
    pub fn start(&mut self, alloc: Global, number: u32, function: u32) -> Result<(), Stop>
        ensures comes { RunsStart H.step (at H.kept self.old) number function result (at H.kept self.new) }
    {
        let no_args = Items::empty(alloc);
        self.begin_code(
            alloc,
            number,
            function,
            &no_args,
            Depth::none(),
            Purpose::Starts,
        )?;
        self.go_on(alloc)?;
        Ok(())
    }

    /// A canonical call begins, where that many calls are in progress: it takes its step before it is counted.
    pub(crate) fn begin_call(&mut self, calls: u32) -> Result<Depth, Stop>
        ensures begins { BeginsCall self.old.budget calls self.new.budget result }
        ensures frames { OnOk result (self.new.frames.items ≡ self.old.frames.items) }
        ensures same { OnOk result (self.new ≡ record self.old { budget = self.new.budget }) }
        ensures host { self.new.host ≡ self.old.host }
    {
        self.take_step()?;
        match Depth::above(calls) {
            Some(depth) => Ok(depth),
            None if self.budget == 0 => Err(Stop::Spent),
            None => Err(Stop::TooDeep),
        }
    }

    /// Core code of an instance begins.
    pub(crate) fn begin_code(
        &mut self,
        alloc: Global,
        number: u32,
        code: u32,
        args: &CoreValues,
        depth: Depth,
        purpose: Purpose,
    ) -> Result<(), Stop>
        ensures frames { OnOk result (self.new.frames.items ≡ self.old.frames.items ++ record { instance = number; purpose = purpose } ∷ []) }
        ensures work { OnOk result (work self.new.budget self.new.frames.items ≡ work self.old.budget self.old.frames.items + weight purpose) }
        ensures leads { CodeBegins H.step (at H.kept self.old) number code args.now depth purpose result (at H.kept self.new) }
    {
        let Some(instance) = self.instances.get_mut(number as usize) else {
            return Err(Stop::Trapped);
        };
        instance.code.begin(alloc, code, args, depth.calls)?;
        self.frames.push(Frame {
            instance: number,
            purpose,
        })?;
        Ok(())
    }

    /// Core code goes on until all that was begun from outside is done.
    pub(crate) fn go_on(&mut self, alloc: Global) -> Result<Option<Value>, Stop>
        ensures ends { GoesToEnd H.step (at H.kept self.old) result (at H.kept self.new) }
    {
        'pauses: loop {
            if let Flow::Done(value) = self.go_to_pause(alloc)? {
                return Ok(value);
            }
        }
    }

    /// The instance of the innermost core code.
    pub(crate) fn innermost(&self) -> Result<u32, Stop>
        ensures { IsInnermost (reverse self.now.frames.items) result }
    {
        match self.frames.last() {
            Some(frame) => Ok(frame.instance),
            None => Err(Stop::Trapped),
        }
    }

    fn go_to_pause(&mut self, alloc: Global) -> Result<Flow, Stop>
        ensures less { OnOk result (work self.new.budget self.new.frames.items < work self.old.budget self.old.frames.items) }
        ensures leads { GoesToPause H.step (at H.kept self.old) result (at H.kept self.new) }
    {
        let number = self.innermost()?;
        let Some(instance) = self.instances.get_mut(number as usize) else {
            return Err(Stop::Trapped);
        };
        match instance.code.go_on(alloc, &mut self.budget)? {
            Pause::Done(results) => self.end_code(alloc, results),
            Pause::AtHost(asked, args) => {
                let calls = instance.code.store().nesting();
                self.answer(alloc, number, calls, asked, args)
            }
            Pause::Trapped => Err(Stop::Trapped),
            Pause::Spent => Err(Stop::Spent),
            Pause::TooDeep => Err(Stop::TooDeep),
        }
    }

    fn end_code(&mut self, alloc: Global, results: CoreValues) -> Result<Flow, Stop>
        ensures less { OnOk result (work self.new.budget self.new.frames.items < work self.old.budget self.old.frames.items) }
        ensures leads { EndsCode H.step (at H.kept self.old) results result (at H.kept self.new) }
    {
        let Some(frame) = self.frames.pop() else {
            return Err(Stop::Trapped);
        };
        let Frame {
            instance: number,
            purpose,
        } = frame;
        match purpose {
            Purpose::Starts => Ok(Flow::Done(None)),
            Purpose::Serves(service) => self.served(alloc, service, results),
            Purpose::Grants(storing) => self.granted(alloc, storing, &results),
            Purpose::Returns(back) => self.returned(number, back),
            Purpose::Destroys(visit) => self.destroyed(alloc, number, visit),
        }
    }

    /// The innermost code goes on with the results of its canonical call.
    pub(crate) fn resume(&mut self, results: &CoreValues) -> Result<Flow, Stop>
        ensures frames { OnOk result (self.new.frames.items ≡ self.old.frames.items) }
        ensures host { OnOk result (self.new.host ≡ self.old.host) }
        ensures work { OnOk result (work self.new.budget self.new.frames.items ≡ work self.old.budget self.old.frames.items) }
        ensures leads { Resumes H.step (at H.kept self.old) results.now result (at H.kept self.new) }
    {
        let number = self.innermost()?;
        let Some(instance) = self.instances.get_mut(number as usize) else {
            return Err(Stop::Trapped);
        };
        instance.code.resume(results)?;
        Ok(Flow::Goes)
    }

    /// A call of a function of an instance begins.
    pub(crate) fn enter(&mut self, number: u32) -> Result<(), Stop>
        ensures frames { OnOk result (self.new.frames.items ≡ self.old.frames.items) }
        ensures work { OnOk result (work self.new.budget self.new.frames.items ≡ work self.old.budget self.old.frames.items) }
        ensures does { Does opens_call number (at H.kept self.old) result (at H.kept self.new) }
    {
        match self.instances.get_mut(number as usize) {
            None => Err(Stop::Trapped),
            Some(instance) => Ok(instance.enter()?),
        }
    }

    /// A call of a function of an instance is over.
    pub(crate) fn exit(&mut self, number: u32) -> Result<(), Stop>
        ensures frames { OnOk result (self.new.frames.items ≡ self.old.frames.items) }
        ensures work { OnOk result (work self.new.budget self.new.frames.items ≡ work self.old.budget self.old.frames.items) }
        ensures does { Does closes_call number (at H.kept self.old) result (at H.kept self.new) }
    {
        match self.instances.get_mut(number as usize) {
            None => Err(Stop::Trapped),
            Some(instance) => {
                instance.exit();
                Ok(())
            }
        }
    }
}
