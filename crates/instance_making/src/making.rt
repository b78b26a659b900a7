//! A component instance as it is made: what stands at the indexes of each sort so far.

ghost use Rattle.std.specs.Prelude.{◌≡◌, ◌++◌, [], ◌∷◌, ℕ, List, Option, Some, OnOk, length};
ghost use Rattle.wasm_ast.specs.declared.module.CoreFunc.{CoreFunc};
ghost use Rattle.comp_types.specs.Substitution.{partner_in};
ghost use Rattle.comp_worlds.specs.Groups.{Func as Canon};
ghost use Rattle.comp_link.specs.Linking.{Givens as GroupGivens, Given as GroupGiven, GivenInstance, Making as GroupMaking, Whole, begun, and_item, with_canon, with_resource};
ghost use Rattle.instance_making.specs.Made.{IsGiven, IsSame, Holds, AreMade, IsInstance};
ghost use Rattle.instance_making.specs.Shown.{Stands};

use crate::given::{CoreItems, Given, Givens, MadeInstances};
use crate::named::Named;
use crate::numbers::next_number;
use comp_types::Substitution;
use instance_state::Target;
use std::alloc::Global;
use virt_base::NoMemory;

/// An instance as it is made.
#[derive(Debug, Drop)]
pub struct Making {
    /// Its number.
    pub instance: u32,
    /// What its imports are, by its number among the instances that are made.
    pub(crate) given: usize,
    pub functions: Vec<Target>,
    pub instances: Vec<usize>,
    pub core_functions: Vec<u32>,
    pub core_tables: Vec<u32>,
    pub core_memories: Vec<u32>,
    pub core_globals: Vec<u32>,
    pub core_instances: Vec<CoreItems>,
    /// The number in the group of each resource that has a number in the component.
    pub resources: Substitution,
    pub exports: Givens,
    /// How many canonical functions its store has.
    pub canons: u32,
}

impl Making {
    /// An instance of a number, of which nothing is made yet.
    pub fn begin(alloc: Global, instance: u32, given: usize) -> Making
        ensures { (made : List GroupGivens) (items : GroupGivens) (whole : Whole) → whole.next_instance ≡ instance → IsInstance made given items → Stands made result (begun whole items) }
    {
        Making {
            instance,
            given,
            functions: Vec::new(alloc),
            instances: Vec::new(alloc),
            core_functions: Vec::new(alloc),
            core_tables: Vec::new(alloc),
            core_memories: Vec::new(alloc),
            core_globals: Vec::new(alloc),
            core_instances: Vec::new(alloc),
            resources: Substitution::empty(alloc),
            exports: Named::none(alloc),
            canons: 0,
        }
    }

    /// The item gets the next index of its sort.
    pub(crate) fn keep(&mut self, item: Given) -> Result<(), NoMemory>
        ensures { OnOk result ((made : List GroupGivens) (g : GroupMaking) (given : GroupGiven) → IsGiven made item given → Stands made self.old g → Stands made self.new (and_item g (Some given))) }
    {
        match item {
            Given::Func(target) => Ok(self.functions.push(target)?),
            Given::Instance(number) => Ok(self.instances.push(number)?),
            Given::Resource(_) | Given::Type => Ok(()),
        }
    }

    /// The same of an item that there may be.
    pub(crate) fn keep_some(&mut self, item: Option<Given>) -> Result<(), NoMemory>
        ensures { OnOk result ((made : List GroupGivens) (g : GroupMaking) (o : Option GroupGiven) → IsSame made item o → Stands made self.old g → Stands made self.new (and_item g o)) }
    {
        match item {
            None => Ok(()),
            Some(item) => {
                self.keep(item)?;
                Ok(())
            }
        }
    }

    /// An instance that is made now, with these exports, gets the next index.
    pub(crate) fn keep_instance(
        &mut self,
        made: &mut MadeInstances,
        exports: Givens,
    ) -> Result<(), NoMemory>
        ensures { OnOk result ((before : List GroupGivens) (g : GroupMaking) (items : GroupGivens) → AreMade made.old.items before → Stands before self.old g → Holds before exports items →
            AreMade made.new.items (before ++ items ∷ []) × Stands (before ++ items ∷ []) self.new (and_item g (Some (GivenInstance items)))) }
    {
        let number = made.len();
        made.push(exports)?;
        self.instances.push(number)?;
        Ok(())
    }

    /// The number in the group of a resource of the component.
    pub fn resource(&self, resource: u32) -> u32
        ensures { (made : List GroupGivens) (g : GroupMaking) → Stands made self.now g → result ≡ partner_in g.resources resource }
    {
        self.resources.partner(resource)
    }

    /// A canonical function, of the next number, is the core function at this place of the store.
    pub fn keep_canon(&mut self, place: u32) -> Result<(), NoMemory>
        ensures { OnOk result ((made : List GroupGivens) (g : GroupMaking) (ty : CoreFunc) (canon : Canon) → place ≡ length g.shadow.functions → Stands made self.old g → Stands made self.new (with_canon g ty canon)) }
    {
        let canons = next_number(self.canons)?;
        self.core_functions.push(place)?;
        self.canons = canons;
        Ok(())
    }

    /// A resource that the component defines has this number in the group.
    pub fn keep_resource(&mut self, resource: u32, number: u32) -> Result<(), NoMemory>
        ensures { OnOk result ((made : List GroupGivens) (g : GroupMaking) (destructor : Option ℕ) → number ≡ g.whole.next_resource → Stands made self.old g → Stands made self.new (with_resource g resource destructor)) }
    {
        self.resources.push(resource, number)?;
        Ok(())
    }
}
