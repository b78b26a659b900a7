//! The core items of a component instance as it is made: what modules are given, and core instances and aliases of what they export.

ghost use Rattle.std.specs.Prelude.{◌≡◌, ◌++◌, List, Some, IfOk, OnOk};
ghost use Rattle.comp_link.specs.Linking.{Givens as GroupGivens, Making as GroupMaking, place_at as place_in, core_item as item_in, externs_for as externs_in, and_core_instance, link_item};
ghost use Rattle.comp_link.specs.Plans.{CoreItemOf, OfCoreItems};
ghost use Rattle.instance_making.specs.Named.{found, named_item, of_some};
ghost use Rattle.instance_making.specs.Shown.{Stands};

use crate::given::CoreItems;
use crate::making::Making;
use crate::named::Named;
use core_instance::{Extern, Externs, NamedExtern};
use std::alloc::Global;
use virt_base::{Items, NoMemory, Text};
use wasm_ast::{CoreArg, CoreExport, CoreSort, Module};

impl Making {
    /// The place of a core function.
    pub fn core_function(&self, index: u32) -> u32
        ensures { (made : List GroupGivens) (g : GroupMaking) → Stands made self.now g → result ≡ place_in g.core_functions index }
    {
        place_at(&self.core_functions, index)
    }

    fn core_item(&self, sort: CoreSort, index: u32) -> Extern
        ensures { (made : List GroupGivens) (g : GroupMaking) → Stands made self.now g → result ≡ item_in g sort index }
    {
        match sort {
            CoreSort::Func => Extern::Func(place_at(&self.core_functions, index)),
            CoreSort::Table => Extern::Table(place_at(&self.core_tables, index)),
            CoreSort::Memory => Extern::Memory(place_at(&self.core_memories, index)),
            CoreSort::Global => Extern::Global(place_at(&self.core_globals, index)),
        }
    }

    /// What a module's imports are, in order, by the instances that are its arguments.
    pub fn externs_for(
        &self,
        alloc: Global,
        module: &Module,
        args: &[CoreArg],
    ) -> Result<Externs, NoMemory>
        ensures { IfOk result (λ externs. (made : List GroupGivens) (g : GroupMaking) → Stands made self.now g → externs ≡ externs_in g «module».now args.now) }
    {
        let mut instances: Named<u32> = Named::none(alloc);
        for arg in args {
            instances.add(alloc, &arg.name, arg.instance)?;
        }
        let mut externs = Items::empty(alloc);
        for import in module.imports.as_slice() {
            let item = self.argument(&instances, &import.module, &import.name);
            push_some(&mut externs, item)?;
        }
        Ok(externs)
    }

    fn argument(&self, instances: &Named<u32>, module: &Text, name: &Text) -> Option<Extern>
        ensures { result ≡ named_item self.now.core_instances.items (found instances.now «module».now) name.now }
    {
        match instances.get(module) {
            None => None,
            Some(number) => self.item_there(*number, name),
        }
    }

    /// An item of a core instance.
    fn item_there(&self, instance: u32, name: &Text) -> Option<Extern>
        ensures { result ≡ named_item self.now.core_instances.items (Some instance) name.now }
    {
        match self.core_instances.get(instance as usize) {
            None => None,
            Some(items) => items.get(name).copied(),
        }
    }

    /// A core instance of items.
    pub fn name_core_items(&mut self, alloc: Global, exports: &[CoreExport]) -> Result<(), NoMemory>
        ensures { OnOk result ((made : List GroupGivens) (g : GroupMaking) → Stands made self.old g → Stands made self.new (link_item (OfCoreItems exports.now) g)) }
    {
        let mut items: CoreItems = Named::none(alloc);
        for export in exports {
            let item = self.core_item(export.sort, export.index);
            items.add(alloc, &export.name, item)?;
        }
        self.core_instances.push(items)?;
        Ok(())
    }

    /// An item of a core instance.
    pub fn alias_core_item(
        &mut self,
        sort: CoreSort,
        instance: u32,
        name: &Text,
    ) -> Result<(), NoMemory>
        ensures { OnOk result ((made : List GroupGivens) (g : GroupMaking) → Stands made self.old g → Stands made self.new (link_item (CoreItemOf sort instance name.now) g)) }
    {
        match self.item_there(instance, name) {
            None => Ok(()),
            Some(Extern::Func(at)) => Ok(self.core_functions.push(at)?),
            Some(Extern::Table(at)) => Ok(self.core_tables.push(at)?),
            Some(Extern::Memory(at)) => Ok(self.core_memories.push(at)?),
            Some(Extern::Global(at)) => Ok(self.core_globals.push(at)?),
        }
    }

    /// A core instance of a module, which exports these items.
    pub fn keep_core_items(
        &mut self,
        alloc: Global,
        exports: &[NamedExtern],
    ) -> Result<(), NoMemory>
        ensures { OnOk result ((made : List GroupGivens) (g : GroupMaking) → Stands made self.old g → Stands made self.new (and_core_instance g exports.now)) }
    {
        let mut items: CoreItems = Named::none(alloc);
        for export in exports {
            items.add(alloc, &export.name, export.item)?;
        }
        self.core_instances.push(items)?;
        Ok(())
    }
}

fn push_some(externs: &mut Externs, item: Option<Extern>) -> Result<(), NoMemory>
    ensures { OnOk result (externs.new ≡ externs.old ++ of_some item) }
{
    match item {
        None => Ok(()),
        Some(item) => externs.push(item),
    }
}

pub fn place_at(places: &Vec<u32>, index: u32) -> u32
    ensures { result ≡ place_in places.now.items index }
{
    match places.get(index as usize) {
        None => 0,
        Some(place) => *place,
    }
}
