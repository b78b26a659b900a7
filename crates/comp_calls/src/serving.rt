//! A call of a lifted function, from its beginning to its post-return (Component Model, CanonicalABI.md, `canon_lift`).

#![tactic(auto, using(crate::proofs::Working::works))]

ghost use Rattle.std.specs.Prelude.{◌≡◌, ◌≤◌, ◌<◌, ◌+◌, OnOk};
ghost use Rattle.wit_types.specs.PlainValue.{plain_value};
ghost use Rattle.instance_state.specs.Targets.{lifting_of};
ghost use Rattle.comp_calls.specs.Work.{work};
ghost use Rattle.comp_calls.specs.Moments.{at};
ghost use Rattle.call_moments.specs.Functions.{GoesBack, HasReturned, IsLeft, PostReturns, Serving, HasServed, CallsLifted};
ghost use Rattle.call_moments.specs.Canonical.{LiftsResult};

use crate::world::World;
use call_moments::{Back, Caller, Depth, Due, Flow, Purpose, Served, Service, Stop, lift_in};
use core_slots::CoreValues;
use host_port::Host;
use instance_state::Lifting;
use std::alloc::Global;
use std::rc::Rc;
use wit_types::Value;

impl<H: Host> World<H> {
    /// A call of a lifted function begins.
    pub(crate) fn call_lifted(
        &mut self,
        alloc: Global,
        number: u32,
        lifting: Rc<Lifting>,
        caller: Caller,
        depth: Depth,
        value: Value,
    ) -> Result<Flow, Stop>
        ensures less { OnOk result (work self.new.budget self.new.frames.items < work self.old.budget self.old.frames.items) }
        ensures leads { CallsLifted H.step (at H.kept self.old) number (lifting_of lifting.value) caller depth (plain_value value) result (at H.kept self.new) }
    {
        let depth = self.begin_call(depth.calls)?;
        self.enter(number)?;
        let service = Service {
            instance: number,
            lifting,
            caller,
            depth,
        };
        self.lower_params(alloc, service, value)
    }

    /// The core function of a lifted function runs.
    pub(crate) fn serve(
        &mut self,
        alloc: Global,
        service: Service,
        flat: &CoreValues,
    ) -> Result<Flow, Stop>
        ensures work { OnOk result (work self.new.budget self.new.frames.items ≡ work self.old.budget self.old.frames.items + 1) }
        ensures leads { Serving H.step (at H.kept self.old) service flat.now result (at H.kept self.new) }
    {
        let (number, code, depth) = (service.instance, service.lifting.code, service.depth);
        self.begin_code(alloc, number, code, flat, depth, Purpose::Serves(service))?;
        Ok(Flow::Goes)
    }

    /// The core function of a lifted function answered.
    pub(crate) fn served(
        &mut self,
        alloc: Global,
        service: Service,
        results: CoreValues,
    ) -> Result<Flow, Stop>
        ensures less { OnOk result (work self.new.budget self.new.frames.items ≤ work self.old.budget self.old.frames.items) }
        ensures leads { HasServed H.step (at H.kept self.old) service results result (at H.kept self.new) }
    {
        let Service {
            instance: number,
            lifting,
            caller,
            depth,
        } = service;
        let value = self.lift_result(alloc, number, &lifting, &results)?;
        let due = Due::Served(Served {
            instance: number,
            lifting,
            results,
            depth,
        });
        match caller {
            Caller::Outside => self.leave(alloc, due, Back::Outside(value)),
            Caller::Inside(call) => {
                let below = self.innermost()?;
                self.lower_result(alloc, below, call, due, depth, value)
            }
        }
    }

    /// The result of a lifted function: no handle that was lent to the call may be left, and none is lent by the result.
    fn lift_result(
        &mut self,
        alloc: Global,
        number: u32,
        lifting: &Lifting,
        results: &CoreValues,
    ) -> Result<Value, Stop>
        ensures work { OnOk result (work self.new.budget self.new.frames.items ≡ work self.old.budget self.old.frames.items) }
        ensures lifts { LiftsResult H.step (at H.kept self.old) number (lifting_of lifting.now) results.now result (at H.kept self.new) }
    {
        let Some(instance) = self.instances.get_mut(number as usize) else {
            return Err(Stop::Trapped);
        };
        let mut loans = Vec::new(alloc);
        let passed = &lifting.ty.passed().result;
        let value = lift_in(
            alloc,
            instance,
            &mut self.room,
            &mut loans,
            lifting.options,
            passed,
            results,
        )?;
        if !loans.is_empty() || instance.handles.has_borrow() {
            return Err(Stop::Trapped);
        }
        Ok(value)
    }

    /// An answered call is left: its post-return runs, if there is one.
    pub(crate) fn leave(&mut self, alloc: Global, due: Due, back: Back) -> Result<Flow, Stop>
        ensures less { OnOk result (work self.new.budget self.new.frames.items ≤ work self.old.budget self.old.frames.items) }
        ensures leads { IsLeft H.step (at H.kept self.old) due back result (at H.kept self.new) }
    {
        match due {
            Due::Host => self.go_back(back),
            Due::Served(served) => match served.lifting.post {
                None => {
                    self.exit(served.instance)?;
                    self.go_back(back)
                }
                Some(post) => self.post_return(alloc, served, post, back),
            },
        }
    }

    fn post_return(
        &mut self,
        alloc: Global,
        served: Served,
        post: u32,
        back: Back,
    ) -> Result<Flow, Stop>
        ensures less { OnOk result (work self.new.budget self.new.frames.items ≤ work self.old.budget self.old.frames.items) }
        ensures leads { PostReturns H.step (at H.kept self.old) served post back result (at H.kept self.new) }
    {
        let depth = self.begin_call(served.depth.calls)?;
        let Some(instance) = self.instances.get_mut(served.instance as usize) else {
            return Err(Stop::Trapped);
        };
        instance.close();
        self.begin_code(
            alloc,
            served.instance,
            post,
            &served.results,
            depth,
            Purpose::Returns(back),
        )?;
        Ok(Flow::Goes)
    }

    /// A post-return is over.
    pub(crate) fn returned(&mut self, number: u32, back: Back) -> Result<Flow, Stop>
        ensures work { OnOk result (work self.new.budget self.new.frames.items ≡ work self.old.budget self.old.frames.items) }
        ensures leads { HasReturned H.step (at H.kept self.old) number back result (at H.kept self.new) }
    {
        let Some(instance) = self.instances.get_mut(number as usize) else {
            return Err(Stop::Trapped);
        };
        instance.reopen();
        instance.exit();
        self.go_back(back)
    }

    fn go_back(&mut self, back: Back) -> Result<Flow, Stop>
        ensures work { OnOk result (work self.new.budget self.new.frames.items ≡ work self.old.budget self.old.frames.items) }
        ensures leads { GoesBack H.step (at H.kept self.old) back result (at H.kept self.new) }
    {
        match back {
            Back::Outside(value) => Ok(Flow::Done(Some(value))),
            Back::Inside(flat) => self.resume(&flat),
        }
    }
}
