//! Canonical functions and resources of an instance that is made (Component Model, CanonicalABI.md, `canon lower`, `canon resource.new`,
//! `canon resource.rep` and `canon resource.drop`).

ghost use Rattle.std.specs.Prelude.{◌≡◌, ◌+◌, List, ℕ, Option, IfOk, IfSome, length, option_map};
ghost use Rattle.comp_types.specs.Added.{takes_one, takes_and_gives};
ghost use Rattle.comp_link.specs.Plans.{Lowers, NewResource};
ghost use Rattle.comp_link.specs.Linking.{Givens, Making as GroupMaking, place_at, with_canon, link_item};
ghost use Rattle.instance_state.specs.Targets.{func_of};
ghost use Rattle.instance_making.specs.Shown.{Stands};
ghost use Rattle.comp_calls.specs.Moments.{at};
ghost use Rattle.comp_interp.specs.Gathered.{Makes};

use crate::assembly::Assembly;
use comp_calls::Stop;
use host_port::Host;
use instance_making::Making;
use instance_state::{Canon, Owner, Owners};
use std::alloc::Global;
use virt_base::{CoreType, Items, NoMemory};
use wasm_ast::{CanonOption, CoreFunc};

fn core_type(alloc: Global, params: &[CoreType], results: &[CoreType]) -> Result<CoreFunc, NoMemory>
    ensures { IfOk result (λ ty. ty ≡ record { params = params.now; results = results.now }) }
{
    Ok(CoreFunc {
        params: Items::new(Vec::from_slice(alloc, params)?),
        results: Items::new(Vec::from_slice(alloc, results)?),
    })
}

/// The number of the next resource; none past the numbers there are.
fn next_resource(owners: &Owners) -> Option<u32>
    ensures { IfSome result (λ number. number ≡ owners.now.first + length owners.now.items.items) }
{
    match u32::try_from(owners.items.len()) {
        Ok(count) => owners.first.checked_add(count),
        Err(_) => None,
    }
}

/// The place of a destructor.
fn destructor_at(making: &Making, destructor: Option<u32>) -> Option<u32>
    ensures { (before : List Givens) (g : GroupMaking) → Stands before making.now g → result ≡ option_map (place_at g.core_functions) destructor }
{
    match destructor {
        None => None,
        Some(index) => Some(making.core_function(index)),
    }
}

impl<H: Host> Assembly<H> {
    /// A canonical function becomes a core function of the instance.
    fn provide(
        &mut self,
        alloc: Global,
        making: &mut Making,
        ty: CoreFunc,
        canon: Canon,
    ) -> Result<(), Stop>
        ensures { Makes H.step (λ g. with_canon g ty (func_of canon)) self.old.made.items (at H.kept self.old.world) making.old result self.new.made.items (at H.kept self.new.world) making.new }
    {
        let number = making.instance as usize;
        let Some(instance) = self.world.instances.get_mut(number) else {
            return Err(Stop::Trapped);
        };
        let place = instance.code.provide(alloc, ty, making.canons)?;
        let Some(canons) = self.world.group.canons.get_mut(number) else {
            return Err(Stop::Trapped);
        };
        canons.push(canon)?;
        making.keep_canon(place)?;
        Ok(())
    }

    /// A function is lowered to a core function of a type.
    pub fn lower(
        &mut self,
        alloc: Global,
        making: &mut Making,
        func: u32,
        options: &[CanonOption],
        ty: &CoreFunc,
    ) -> Result<(), Stop>
        ensures { Makes H.step (λ g. link_item (Lowers func options.now ty.now) g) self.old.made.items (at H.kept self.old.world) making.old result self.new.made.items (at H.kept self.new.world) making.new }
    {
        match making.lowered(func, options)? {
            None => Ok(()),
            Some(canon) => {
                let ty = core_type(alloc, ty.params.as_slice(), ty.results.as_slice())?;
                self.provide(alloc, making, ty, canon)
            }
        }
    }

    /// `resource.new` or `resource.rep` becomes a core function.
    pub fn provide_word(
        &mut self,
        alloc: Global,
        making: &mut Making,
        canon: Canon,
    ) -> Result<(), Stop>
        ensures { Makes H.step (λ g. with_canon g takes_and_gives (func_of canon)) self.old.made.items (at H.kept self.old.world) making.old result self.new.made.items (at H.kept self.new.world) making.new }
    {
        let ty = core_type(alloc, &[CoreType::I32], &[CoreType::I32])?;
        self.provide(alloc, making, ty, canon)
    }

    /// `resource.drop` becomes a core function.
    pub fn provide_drop(
        &mut self,
        alloc: Global,
        making: &mut Making,
        canon: Canon,
    ) -> Result<(), Stop>
        ensures { Makes H.step (λ g. with_canon g takes_one (func_of canon)) self.old.made.items (at H.kept self.old.world) making.old result self.new.made.items (at H.kept self.new.world) making.new }
    {
        let ty = core_type(alloc, &[CoreType::I32], &[])?;
        self.provide(alloc, making, ty, canon)
    }

    /// A resource of the instance, with its destructor.
    pub fn make_resource(
        &mut self,
        making: &mut Making,
        resource: u32,
        destructor: Option<u32>,
    ) -> Result<(), Stop>
        ensures { Makes H.step (λ g. link_item (NewResource resource destructor) g) self.old.made.items (at H.kept self.old.world) making.old result self.new.made.items (at H.kept self.new.world) making.new }
    {
        let owners = &mut self.world.group.owners;
        let Some(number) = next_resource(owners) else {
            return Err(Stop::NoMemory);
        };
        let destructor = destructor_at(making, destructor);
        owners.items.push(Owner {
            instance: making.instance,
            destructor,
        })?;
        making.keep_resource(resource, number)?;
        Ok(())
    }
}
