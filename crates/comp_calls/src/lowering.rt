//! Parameters and results are lowered into an instance, from request to request for memory, each of which runs `realloc` (Component Model,
//! CanonicalABI.md, "Lifting and Lowering Values").

#![tactic(auto, using(crate::proofs::Working::works))]

ghost use Rattle.std.specs.Prelude.{◌≡◌, ◌≤◌, ◌<◌, ◌+◌, OnOk, IsTrue, None};
ghost use Rattle.comp_calls.specs.Work.{work, weight_behind};
ghost use Rattle.comp_calls.specs.Moments.{at};
ghost use Rattle.wit_types.specs.PlainValue.{PlainValue, plain_value};
ghost use Rattle.call_moments.specs.declared.depth.Depth.{Depth};
ghost use Rattle.call_moments.specs.Functions.{AsksFor, IsStored, ParamsLead, ResultLeads, Stores, IsGranted};
ghost use Rattle.comp_worlds.specs.Groups.{type_of};
ghost use Rattle.instance_state.specs.Targets.{target_of};

use crate::world::World;
use abi_store::StoreStep;
use call_moments::{
    Back, Call, Depth, Due, Flow, Purpose, Service, Stop, Stored, Storing, begin_params,
    begin_result, memory_for, only_word, request,
};
use core_slots::CoreValues;
use host_port::Host;
use instance_state::Target;
use std::alloc::Global;
use virt_base::Items;
use wit_types::Value;

/// A function has no result.
fn answers_nothing(target: &Target) -> bool
    ensures { IsTrue result → (type_of (target_of target.now)).answer ≡ None }
{
    target.ty().func().ty().result.is_none()
}

impl<H: Host> World<H> {
    /// The parameters of a lifted function are lowered into its instance, and then it runs.
    pub(crate) fn lower_params(
        &mut self,
        alloc: Global,
        service: Service,
        value: Value,
    ) -> Result<Flow, Stop>
        ensures less { OnOk result (work self.new.budget self.new.frames.items ≤ work self.old.budget self.old.frames.items + 1) }
        ensures leads { ParamsLead H.step (at H.kept self.old) service (plain_value value) result (at H.kept self.new) }
    {
        let number = service.instance;
        let Some(instance) = self.instances.get_mut(number as usize) else {
            return Err(Stop::Trapped);
        };
        let passed = service.lifting.ty.passed();
        let owners = &self.group.owners;
        let plan = begin_params(
            alloc,
            instance,
            &mut self.room,
            owners,
            number,
            passed,
            value,
        )?;
        let storing = Storing {
            instance: number,
            plan,
            options: service.lifting.options,
            depth: service.depth,
            writes: false,
            then: Stored::Params(service),
        };
        self.store(alloc, storing, None)
    }

    /// A result is lowered into the instance that called, which then goes on.
    pub(crate) fn lower_result(
        &mut self,
        alloc: Global,
        number: u32,
        call: Call,
        due: Due,
        depth: Depth,
        value: Value,
    ) -> Result<Flow, Stop>
        ensures less { OnOk result (work self.new.budget self.new.frames.items ≤ work self.old.budget self.old.frames.items) }
        ensures leads { ResultLeads H.step (at H.kept self.old) number call due depth (plain_value value) result (at H.kept self.new) }
    {
        if answers_nothing(&call.target) {
            return self.end_call(alloc, number, call, due);
        }
        let Some(instance) = self.instances.get_mut(number as usize) else {
            return Err(Stop::Trapped);
        };
        let passed = call.target.ty().passed();
        let owners = &self.group.owners;
        let plan = begin_result(
            alloc,
            instance,
            &mut self.room,
            owners,
            passed,
            &call,
            value,
        )?;
        let storing = Storing {
            instance: number,
            plan,
            options: call.options,
            depth,
            writes: passed.result.spills,
            then: Stored::Result(due),
        };
        self.store(alloc, storing, None)
    }

    /// A call of a function that has no result is left: no value is stored.
    fn end_call(&mut self, alloc: Global, number: u32, call: Call, due: Due) -> Result<Flow, Stop>
        requires { (type_of (target_of call.target)).answer ≡ None }
        ensures less { OnOk result (work self.new.budget self.new.frames.items ≤ work self.old.budget self.old.frames.items) }
        ensures leads { (depth : Depth) (value : PlainValue) → ResultLeads H.step (at H.kept self.old) number call due depth value result (at H.kept self.new) }
    {
        let Some(instance) = self.instances.get_mut(number as usize) else {
            return Err(Stop::Trapped);
        };
        instance.handles.end_loans(&call.loans)?;
        instance.reopen();
        self.leave(alloc, due, Back::Inside(Items::empty(alloc)))
    }

    /// Storing goes on, with the answer to the last request.
    fn store(&mut self, alloc: Global, storing: Storing, answer: Option<u32>) -> Result<Flow, Stop>
        ensures less { OnOk result (work self.new.budget self.new.frames.items ≤ work self.old.budget self.old.frames.items + weight_behind storing.then) }
        ensures leads { Stores H.step (at H.kept self.old) storing answer result (at H.kept self.new) }
    {
        let Storing {
            instance: number,
            plan,
            options,
            depth,
            writes,
            then,
        } = storing;
        let mut plan = plan;
        let Some(instance) = self.instances.get_mut(number as usize) else {
            return Err(Stop::Trapped);
        };
        let Some(memory) = memory_for(&instance.code, options, writes) else {
            return Err(Stop::Trapped);
        };
        match instance.code.store_next(alloc, &mut plan, memory, answer)? {
            StoreStep::Trap => Err(Stop::Trapped),
            StoreStep::NeedsRealloc { align, len, .. } => {
                let storing = Storing {
                    instance: number,
                    plan,
                    options,
                    depth,
                    writes: true,
                    then,
                };
                self.ask_for(alloc, storing, align, len)
            }
            StoreStep::Done(flat) => {
                instance.reopen();
                self.stored(alloc, then, flat)
            }
        }
    }

    /// All is stored, and these are the flat values.
    fn stored(&mut self, alloc: Global, then: Stored, flat: CoreValues) -> Result<Flow, Stop>
        ensures less { OnOk result (work self.new.budget self.new.frames.items ≤ work self.old.budget self.old.frames.items + weight_behind then) }
        ensures leads { IsStored H.step (at H.kept self.old) then flat result (at H.kept self.new) }
    {
        match then {
            Stored::Params(service) => self.serve(alloc, service, &flat),
            Stored::Result(due) => self.leave(alloc, due, Back::Inside(flat)),
        }
    }

    fn ask_for(
        &mut self,
        alloc: Global,
        storing: Storing,
        align: u32,
        len: u32,
    ) -> Result<Flow, Stop>
        ensures less { OnOk result (work self.new.budget self.new.frames.items ≤ work self.old.budget self.old.frames.items) }
        ensures leads { AsksFor H.step (at H.kept self.old) storing align len result (at H.kept self.new) }
    {
        let Some(realloc) = storing.options.realloc else {
            return Err(Stop::Trapped);
        };
        let number = storing.instance;
        let depth = self.begin_call(storing.depth.calls)?;
        let args = request(alloc, align, len)?;
        self.begin_code(
            alloc,
            number,
            realloc,
            &args,
            depth,
            Purpose::Grants(storing),
        )?;
        Ok(Flow::Goes)
    }

    /// `realloc` answered.
    pub(crate) fn granted(
        &mut self,
        alloc: Global,
        storing: Storing,
        results: &CoreValues,
    ) -> Result<Flow, Stop>
        ensures less { OnOk result (work self.new.budget self.new.frames.items ≤ work self.old.budget self.old.frames.items + 1) }
        ensures leads { IsGranted H.step (at H.kept self.old) storing results.now result (at H.kept self.new) }
    {
        let place = only_word(results).ok_or(Stop::Trapped)?;
        self.store(alloc, storing, Some(place))
    }
}
