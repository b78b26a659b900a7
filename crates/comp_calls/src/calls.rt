//! Canonical calls that core code asks for, and calls from outside: where each leads, and what the host answers (Component Model,
//! CanonicalABI.md, `canon_lower`).

#![tactic(auto, using(crate::proofs::Working::works))]

ghost use Rattle.std.specs.Prelude.{◌≡◌, ◌≤◌, ◌<◌, ◌+◌, OnOk, option_map};
ghost use Rattle.std.specs.Option.{option_and_then};
ghost use Rattle.wit_types.specs.PlainValue.{plain_value, plain_values};
ghost use Rattle.host_port.specs.Calls.{plain_option};
ghost use Rattle.host_port.specs.Hosts.{answer_of, reacts};
ghost use Rattle.call_moments.specs.Asking.{called, Asks, WithMemory};
ghost use Rattle.comp_worlds.specs.Groups.{LoweredFunc};
ghost use Rattle.comp_worlds.specs.Passing.{out_of_tuple as value_of};
ghost use Rattle.instance_state.specs.Passed.{options_of};
ghost use Rattle.instance_state.specs.Targets.{target_of};
ghost use Rattle.call_moments.specs.Shown.{depth_of};
ghost use Rattle.comp_calls.specs.Work.{work};
ghost use Rattle.comp_calls.specs.Moments.{at};
ghost use Rattle.call_moments.specs.Canonical.{AsksHost, Performs, AnswersCode};
ghost use Rattle.call_moments.specs.Outside.{RunsCall};

use crate::world::World;
use call_moments::{
    Call, Caller, Depth, Due, Flow, Stop, host_call, in_tuple, lift_in, out_of_tuple, word_at,
};
use core_slots::CoreValues;
use host_port::{Answer, Host};
use instance_state::{CallOptions, Canon, Import, Target};
use std::alloc::Global;
use wit_types::{Value, Values};

/// The value of a tuple, where one came.
fn answer_in(tuple: Option<Value>) -> Option<Value>
    ensures { plain_option result ≡ option_and_then value_of (option_map plain_value tuple) }
{
    out_of_tuple(tuple?)
}

impl<H: Host> World<H> {
    /// Core code of an instance asks for a canonical call, where that many calls are in progress.
    pub(crate) fn answer(
        &mut self,
        alloc: Global,
        number: u32,
        calls: u32,
        asked: u32,
        args: CoreValues,
    ) -> Result<Flow, Stop>
        ensures less { OnOk result (work self.new.budget self.new.frames.items < work self.old.budget self.old.frames.items) }
        ensures leads { AnswersCode H.step (at H.kept self.old) number asked calls args result (at H.kept self.new) }
    {
        let depth = self.begin_call(calls)?;
        match self.group.canon(number, asked)? {
            None => Err(Stop::Trapped),
            Some(Canon::New(resource)) => self.new_resource(alloc, number, resource, &args),
            Some(Canon::Rep(resource)) => self.resource_rep(alloc, number, resource, &args),
            Some(Canon::Drop(resource)) => self.drop_resource(
                alloc, number, depth, resource, &args,
            ),
            Some(Canon::Lowered { target, options }) => {
                self.call(alloc, number, depth, target, options, &args)
            }
        }
    }

    /// A lowered function is called.
    fn call(
        &mut self,
        alloc: Global,
        number: u32,
        depth: Depth,
        target: Target,
        options: CallOptions,
        args: &CoreValues,
    ) -> Result<Flow, Stop>
        ensures less { OnOk result (work self.new.budget self.new.frames.items ≤ work self.old.budget self.old.frames.items) }
        ensures leads { Performs H.step (at H.kept self.old) number (depth_of depth) (LoweredFunc (target_of target) (options_of options)) args.now result (at H.kept self.new) }
    {
        let Some(instance) = self.instances.get_mut(number as usize) else {
            return Err(Stop::Trapped);
        };
        instance.is_open()?;
        let mut loans = Vec::new(alloc);
        let ty = target.ty();
        let params = &ty.passed().params;
        let value = lift_in(
            alloc,
            instance,
            &mut self.room,
            &mut loans,
            options,
            params,
            args,
        )?;
        let place = word_at(args, ty.flat_params());
        match target.share()? {
            Target::Theirs(import) => {
                let value = self.ask_host(alloc, &import, value)?;
                let call = Call {
                    target,
                    options,
                    place,
                    loans,
                };
                self.lower_result(alloc, number, call, Due::Host, depth, value)
            }
            Target::Mine {
                instance: callee,
                lifting,
            } => {
                let caller = Caller::Inside(Call {
                    target,
                    options,
                    place,
                    loans,
                });
                self.call_lifted(alloc, callee, lifting, caller, depth, value)
            }
        }
    }

    fn ask_host(&mut self, alloc: Global, import: &Import, args: Value) -> Result<Value, Stop>
        ensures answer { Asks (answer_of H.step (H.kept self.old.host) (called import.now (plain_value args))) result }
        ensures next { WithMemory result (H.kept self.new.host ≡ reacts H.step (H.kept self.old.host) (called import.now (plain_value args))) }
        ensures asks { AsksHost H.step (at H.kept self.old) import.now (plain_value args) result (at H.kept self.new) }
        ensures work { OnOk result (work self.new.budget self.new.frames.items ≡ work self.old.budget self.old.frames.items) }
    {
        let call = host_call(alloc, import, args)?;
        match self.host.call(alloc, call)? {
            Answer::Value(value) => Ok(in_tuple(alloc, value)?),
            Answer::Trap => Err(Stop::Trapped),
            Answer::Ended => Err(Stop::ScriptEnded),
            Answer::Bad => Err(Stop::BadAnswer),
        }
    }

    /// A function is called from outside.
    pub fn call_from_outside(
        &mut self,
        alloc: Global,
        target: Target,
        args: Values,
    ) -> Result<Option<Value>, Stop>
        ensures comes { RunsCall H.step (at H.kept self.old) (target_of target) (plain_values args) result (at H.kept self.new) }
    {
        let args = Value::Record(args);
        match target {
            Target::Theirs(import) => {
                self.begin_call(0)?;
                Ok(out_of_tuple(self.ask_host(alloc, &import, args)?))
            }
            Target::Mine { instance, lifting } => {
                let depth = Depth::none();
                match self.call_lifted(alloc, instance, lifting, Caller::Outside, depth, args)? {
                    Flow::Done(value) => Ok(answer_in(value)),
                    Flow::Goes => Ok(answer_in(self.go_on(alloc)?)),
                }
            }
        }
    }
}
