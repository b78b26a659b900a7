//! Canonical calls on resources, and the destructors that they run (Component Model, CanonicalABI.md, `canon_resource_new`,
//! `canon_resource_rep`, `canon_resource_drop`).

#![tactic(auto, using(crate::proofs::Working::works))]

ghost use Rattle.std.specs.Prelude.{◌≡◌, ◌≤◌, ◌<◌, ◌+◌, nat_eq, OnOk};
ghost use Rattle.indexmap.specs.IndexMap.{get};
ghost use Rattle.comp_worlds.specs.Groups.{Nesting, ResourceNew, ResourceRep, ResourceDrop};
ghost use Rattle.call_moments.specs.Shown.{depth_of};
ghost use Rattle.comp_calls.specs.Work.{work};
ghost use Rattle.comp_calls.specs.Moments.{at};
ghost use Rattle.call_moments.specs.Functions.{HasDestroyed};
ghost use Rattle.call_moments.specs.Canonical.{Performs, DropsAtHost, Destroys};
ghost use Rattle.comp_calls.specs.Resources.{IsDropped, destroying};

use crate::world::World;
use call_moments::{Depth, Flow, Purpose, Stop, Visit, one_word, only_word};
use core_slots::CoreValues;
use host_port::Host;
use instance_state::Owner;
use std::alloc::Global;
use virt_base::Items;

impl<H: Host> World<H> {
    /// `resource.new`.
    pub(crate) fn new_resource(
        &mut self,
        alloc: Global,
        number: u32,
        resource: u32,
        args: &CoreValues,
    ) -> Result<Flow, Stop>
        ensures work { OnOk result (work self.new.budget self.new.frames.items ≡ work self.old.budget self.old.frames.items) }
        ensures leads { (e : Nesting) → Performs H.step (at H.kept self.old) number e (ResourceNew resource) args.now result (at H.kept self.new) }
    {
        let owns = self.group.owners.owns(number, resource);
        let rep = only_word(args).ok_or(Stop::Trapped)?;
        let Some(instance) = self.instances.get_mut(number as usize) else {
            return Err(Stop::Trapped);
        };
        let index = instance.make_resource(alloc, owns, resource, rep)?;
        self.resume(&one_word(alloc, index)?)
    }

    /// `resource.rep`.
    pub(crate) fn resource_rep(
        &mut self,
        alloc: Global,
        number: u32,
        resource: u32,
        args: &CoreValues,
    ) -> Result<Flow, Stop>
        ensures work { OnOk result (work self.new.budget self.new.frames.items ≡ work self.old.budget self.old.frames.items) }
        ensures leads { (e : Nesting) → Performs H.step (at H.kept self.old) number e (ResourceRep resource) args.now result (at H.kept self.new) }
    {
        let owns = self.group.owners.owns(number, resource);
        let index = only_word(args).ok_or(Stop::Trapped)?;
        let Some(instance) = self.instances.get(number as usize) else {
            return Err(Stop::Trapped);
        };
        let rep = instance.rep_of(owns, resource, index)?;
        self.resume(&one_word(alloc, rep)?)
    }

    /// `resource.drop`, where that many calls are in progress.
    pub(crate) fn drop_resource(
        &mut self,
        alloc: Global,
        number: u32,
        depth: Depth,
        resource: u32,
        args: &CoreValues,
    ) -> Result<Flow, Stop>
        ensures less { OnOk result (work self.new.budget self.new.frames.items ≤ work self.old.budget self.old.frames.items) }
        ensures leads { Performs H.step (at H.kept self.old) number (depth_of depth) (ResourceDrop resource) args.now result (at H.kept self.new) }
    {
        let index = only_word(args).ok_or(Stop::Trapped)?;
        let Some(instance) = self.instances.get_mut(number as usize) else {
            return Err(Stop::Trapped);
        };
        let Some(rep) = instance.remove(resource, index)? else {
            return self.resume(&Items::empty(alloc));
        };
        match self.group.owners.owner(resource) {
            None => self.drop_at_host(alloc, resource, rep),
            Some(owner) => self.destroy(alloc, number, depth, owner, rep),
        }
    }

    fn drop_at_host(&mut self, alloc: Global, resource: u32, rep: u32) -> Result<Flow, Stop>
        ensures leads { DropsAtHost H.step (at H.kept self.old) resource rep result (at H.kept self.new) }
        ensures dropped { OnOk result (IsDropped H.step (H.kept self.old.host) (get nat_eq self.old.group.imported resource) rep (H.kept self.new.host)) }
        ensures work { OnOk result (work self.new.budget self.new.frames.items ≡ work self.old.budget self.old.frames.items) }
    {
        let Some(name) = self.group.imported.get(&resource) else {
            return Err(Stop::Trapped);
        };
        self.host.drop_handle(alloc, name, rep)?;
        self.resume(&Items::empty(alloc))
    }

    /// The destructor of a resource runs, if it has one. An instance other than the one that dropped the handle is entered for it.
    fn destroy(
        &mut self,
        alloc: Global,
        number: u32,
        depth: Depth,
        owner: Owner,
        rep: u32,
    ) -> Result<Flow, Stop>
        ensures leads { Destroys H.step (at H.kept self.old) number depth owner rep result (at H.kept self.new) }
        ensures runs { OnOk result (self.new.frames.items ≡ destroying owner.destructor number owner.instance self.old.frames.items) }
        ensures less { OnOk result (work self.new.budget self.new.frames.items ≤ work self.old.budget self.old.frames.items) }
    {
        let visit = if owner.instance == number {
            Visit::Own
        } else {
            self.enter(owner.instance)?;
            Visit::Other
        };
        let Some(destructor) = owner.destructor else {
            return self.destroyed(alloc, owner.instance, visit);
        };
        let depth = self.begin_call(depth.calls)?;
        let args = one_word(alloc, rep)?;
        let purpose = Purpose::Destroys(visit);
        self.begin_code(alloc, owner.instance, destructor, &args, depth, purpose)?;
        Ok(Flow::Goes)
    }

    /// A destructor is over, or there was none.
    pub(crate) fn destroyed(
        &mut self,
        alloc: Global,
        number: u32,
        visit: Visit,
    ) -> Result<Flow, Stop>
        ensures frames { OnOk result (self.new.frames.items ≡ self.old.frames.items) }
        ensures work { OnOk result (work self.new.budget self.new.frames.items ≡ work self.old.budget self.old.frames.items) }
        ensures leads { HasDestroyed H.step (at H.kept self.old) number visit result (at H.kept self.new) }
    {
        match visit {
            Visit::Own => {}
            Visit::Other => self.exit(number)?,
        }
        self.resume(&Items::empty(alloc))
    }
}
