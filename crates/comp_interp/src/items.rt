//! One item of a plan is made: a module is instantiated and its start function runs, a nested component begins to be made, and any other
//! item is added to the instance.

ghost use Rattle.std.specs.Prelude.{IfOk};
ghost use Rattle.core_validate.specs.Validity.{IsValidModule};
ghost use Rattle.core_instance.specs.Matching.{HasCounts};
ghost use Rattle.comp_interp.specs.Parts.{part_limit, IsSoundItem};
ghost use Rattle.comp_interp.specs.Levels.{Follows};
ghost use Rattle.comp_calls.specs.Moments.{at};
ghost use Rattle.comp_interp.specs.Gathered.{Makes, IsInstantiated, ModuleComes};
ghost use Rattle.comp_interp.specs.Going.{ItemComes};
ghost use Rattle.comp_interp.specs.Others.{other_item};

use crate::assembly::Assembly;
use crate::level::Level;
use crate::part::module_at;
use comp_calls::Stop;
use comp_link::{Linked, PlanItem};
use host_port::Host;
use instance_making::Making;
use instance_state::Canon;
use std::alloc::Global;
use wasm_ast::{CoreArg, Module};

impl<H: Host> Assembly<H> {
    /// Makes an item of a plan; a component in it begins to be made.
    pub fn make_item(
        &mut self,
        alloc: Global,
        linked: &Linked,
        level: &mut Level,
        item: &PlanItem,
    ) -> Result<Option<Level>, Stop>
        requires sound { IsSoundItem linked.now (part_limit linked.now level.old.part) item.now }
        ensures follows { IfOk result (λ inner. Follows linked.now level.old item.now level.new inner) }
        ensures comes { ItemComes H.step (part_limit linked.now level.old.part) linked.now item.now self.old.made.items (at H.kept self.old.world) level.old.making result self.new.made.items (at H.kept self.new.world) level.new.making }
    {
        match item {
            PlanItem::OfComponent {
                number,
                first,
                args,
            } => {
                if (*number as usize) < level.part.limit(linked) {
                    let inner = self.make_component(
                        alloc,
                        level,
                        *number,
                        *first,
                        args.as_slice(),
                    )?;
                    return Ok(Some(inner));
                }
                Ok(None)
            }
            PlanItem::OfModule { number, args } => {
                if let Some(core_module) = module_at(linked, *number) {
                    self.make_module(alloc, core_module, &mut level.making, args.as_slice())?;
                }
                Ok(None)
            }
            _ => {
                self.make_other(alloc, &mut level.making, item)?;
                Ok(None)
            }
        }
    }

    /// Instantiates a module, and runs its start function.
    fn make_module(
        &mut self,
        alloc: Global,
        core_module: &Module,
        making: &mut Making,
        args: &[CoreArg],
    ) -> Result<(), Stop>
        requires valid { IsValidModule core_module.now }
        requires counts { HasCounts core_module.now }
        ensures { ModuleComes H.step core_module.now args.now self.old.made.items (at H.kept self.old.world) making.old result self.new.made.items (at H.kept self.new.world) making.new }
    {
        match self.instantiate(alloc, core_module, making, args)? {
            None => Ok(()),
            Some(function) => self.world.start(alloc, making.instance, function),
        }
    }

    /// Instantiates a module: its start function, if it has one, which has not run.
    fn instantiate(
        &mut self,
        alloc: Global,
        core_module: &Module,
        making: &mut Making,
        args: &[CoreArg],
    ) -> Result<Option<u32>, Stop>
        requires valid { IsValidModule core_module.now }
        requires counts { HasCounts core_module.now }
        ensures { IsInstantiated H.step core_module.now args.now self.old.made.items (at H.kept self.old.world) making.old result self.new.made.items (at H.kept self.new.world) making.new }
    {
        let externs = making.externs_for(alloc, core_module, args)?;
        self.world.take_step()?;
        let Some(instance) = self.world.instances.get_mut(making.instance as usize) else {
            return Err(Stop::Trapped);
        };
        let made = instance.code.instantiate(alloc, core_module, &externs)?;
        making.keep_core_items(alloc, made.exports.as_slice())?;
        Ok(made.start)
    }

    /// Makes an item of a plan that is no module and no component.
    fn make_other(
        &mut self,
        alloc: Global,
        making: &mut Making,
        item: &PlanItem,
    ) -> Result<(), Stop>
        ensures { Makes H.step (other_item item.now) self.old.made.items (at H.kept self.old.world) making.old result self.new.made.items (at H.kept self.new.world) making.new }
    {
        match item {
            PlanItem::OfModule { .. } => Ok(()),
            PlanItem::OfComponent { .. } => Ok(()),
            PlanItem::NewResource {
                resource,
                destructor,
            } => { self.make_resource(making, *resource, *destructor) }
            PlanItem::Lowers { func, options, ty } => {
                self.lower(alloc, making, *func, options.as_slice(), ty)
            }
            PlanItem::MakesResource(resource) => {
                let canon = Canon::New(making.resource(*resource));
                self.provide_word(alloc, making, canon)
            }
            PlanItem::ReadsResource(resource) => {
                let canon = Canon::Rep(making.resource(*resource));
                self.provide_word(alloc, making, canon)
            }
            PlanItem::DropsResource(resource) => {
                let canon = Canon::Drop(making.resource(*resource));
                self.provide_drop(alloc, making, canon)
            }
            PlanItem::OfCoreItems { exports } => {
                Ok(making.name_core_items(alloc, exports.as_slice())?)
            }
            PlanItem::CoreItemOf {
                sort,
                instance,
                name,
            } => { Ok(making.alias_core_item(*sort, *instance, name)?) }
            PlanItem::OfItems { exports } => {
                Ok(making.name_items(alloc, &mut self.made, exports.as_slice())?)
            }
            PlanItem::ItemOf {
                sort,
                instance,
                name,
            } => { Ok(making.alias_item(&self.made, *sort, *instance, name)?) }
            PlanItem::Lifts { func, options, ty } => {
                Ok(making.lift(alloc, *func, options.as_slice(), ty)?)
            }
            PlanItem::Imports { name, item } => Ok(making.import(&self.made, name, item)?),
            PlanItem::Exports { name, item, stated } => {
                Ok(making.export(alloc, &self.made, name, *item, stated)?)
            }
        }
    }
}
