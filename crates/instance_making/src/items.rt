//! The items of a component instance as it is made, but core items: named items, aliases, imports, exports, and instances of components in
//! it.

ghost use Rattle.std.specs.Prelude.{◌≡◌, ◌++◌, List, [], ◌∷◌, Some, IfOk, OnOk, option_map};
ghost use Rattle.comp_types.specs.Views.{item_of};
ghost use Rattle.comp_link.specs.Plans.{AFunc, AnInstanceAt, ItemOf, OfItems, Imports, Exports};
ghost use Rattle.comp_link.specs.Linking.{Givens as GroupGivens, Making as GroupMaking, find, given_at as item_at, givens_of as items_of, link_item, with_component};
ghost use Rattle.comp_link.specs.Planned.{item_named, args_named};
ghost use Rattle.comp_types.specs.GivenResources.{numbered};
ghost use Rattle.instance_making.specs.Named.{named_item};
ghost use Rattle.instance_making.specs.Made.{IsSame, Holds, AreMade, IsInstance};
ghost use Rattle.instance_making.specs.Shown.{Stands};

use crate::bound::{bind, bind_own, bind_stated};
use crate::given::{Given, Givens, MadeInstances};
use crate::making::Making;
use crate::named::Named;
use comp_link::{ItemAt, PlanArg};
use comp_types::ItemType;
use std::alloc::Global;
use virt_base::{NoMemory, Text};
use wasm_ast::Sort;

impl Making {
    fn function_at(&self, index: u32) -> Result<Option<Given>, NoMemory>
        ensures { IfOk result (λ given. (made : List GroupGivens) (g : GroupMaking) → Stands made self.now g → IsSame made given (item_at g (AFunc index))) }
    {
        match self.functions.get(index as usize) {
            None => Ok(None),
            Some(target) => Ok(Some(Given::Func(target.share()?))),
        }
    }

    fn instance_at(&self, index: u32) -> Option<Given>
        ensures { (made : List GroupGivens) (g : GroupMaking) → Stands made self.now g → IsSame made result (item_at g (AnInstanceAt index)) }
    {
        match self.instances.get(index as usize) {
            None => None,
            Some(number) => Some(Given::Instance(*number)),
        }
    }

    fn given_at(&self, item: ItemAt) -> Result<Option<Given>, NoMemory>
        ensures { IfOk result (λ given. (made : List GroupGivens) (g : GroupMaking) → Stands made self.now g → IsSame made given (item_at g (item_named item))) }
    {
        match item {
            ItemAt::Func(index) => {
                let given = self.function_at(index)?;
                Ok(given)
            }
            ItemAt::Instance(index) => Ok(self.instance_at(index)),
            ItemAt::Resource(resource) => {
                Ok(Some(Given::Resource(self.resources.partner(resource))))
            }
            ItemAt::Type => Ok(Some(Given::Type)),
        }
    }

    /// Named items.
    pub fn givens_of(&self, alloc: Global, args: &[PlanArg]) -> Result<Givens, NoMemory>
        ensures { IfOk result (λ givens. (made : List GroupGivens) (g : GroupMaking) → Stands made self.now g → Holds made givens (items_of g (args_named args.now))) }
    {
        let mut givens = Named::none(alloc);
        for arg in args {
            let item = self.given_at(arg.item)?;
            givens.add_some(alloc, &arg.name, item)?;
        }
        Ok(givens)
    }

    /// An instance of items.
    pub fn name_items(
        &mut self,
        alloc: Global,
        made: &mut MadeInstances,
        args: &[PlanArg],
    ) -> Result<(), NoMemory>
        ensures { OnOk result ((before : List GroupGivens) (g : GroupMaking) → AreMade made.old.items before → Stands before self.old g →
            AreMade made.new.items (before ++ items_of g (args_named args.now) ∷ []) × Stands (before ++ items_of g (args_named args.now) ∷ []) self.new (link_item (OfItems (args_named args.now)) g)) }
    {
        let items = self.givens_of(alloc, args)?;
        self.keep_instance(made, items)?;
        Ok(())
    }

    /// An item of an instance.
    pub fn alias_item(
        &mut self,
        made: &MadeInstances,
        sort: Sort,
        instance: u32,
        name: &Text,
    ) -> Result<(), NoMemory>
        ensures { OnOk result ((before : List GroupGivens) (g : GroupMaking) → AreMade made.now.items before → Stands before self.old g → Stands before self.new (link_item (ItemOf sort instance name.now) g)) }
    {
        match self.instances.get(instance as usize) {
            None => Ok(()),
            Some(number) => {
                let item = item_in(made, *number, name)?;
                self.keep_some(item)?;
                Ok(())
            }
        }
    }

    /// An import.
    pub fn import(
        &mut self,
        made: &MadeInstances,
        name: &Text,
        ty: &ItemType,
    ) -> Result<(), NoMemory>
        ensures { OnOk result ((before : List GroupGivens) (g : GroupMaking) → AreMade made.now.items before → Stands before self.old g → Stands before self.new (link_item (Imports name.now (item_of ty.now)) g)) }
    {
        let item = item_in(made, self.given, name)?;
        bind(&mut self.resources, made, item.as_ref(), ty)?;
        self.keep_some(item)?;
        Ok(())
    }

    /// An export, with the type that it states, if it states one.
    pub fn export(
        &mut self,
        alloc: Global,
        made: &MadeInstances,
        name: &Text,
        item: ItemAt,
        stated: &Option<ItemType>,
    ) -> Result<(), NoMemory>
        ensures { OnOk result ((before : List GroupGivens) (g : GroupMaking) → AreMade made.now.items before → Stands before self.old g → Stands before self.new (link_item (Exports name.now (item_named item) (option_map item_of stated.now)) g)) }
    {
        match self.given_at(item)? {
            None => Ok(()),
            Some(item) => {
                bind_stated(&mut self.resources, made, &item, stated)?;
                self.exports.add(alloc, name, item.share()?)?;
                self.keep(item)?;
                Ok(())
            }
        }
    }

    /// A component was made in it: its exports, and the numbers of its own resources, which are here those from a number on.
    pub fn hold(
        &mut self,
        made: &mut MadeInstances,
        inner: Making,
        own: &[u32],
        first: u32,
    ) -> Result<(), NoMemory>
        ensures { OnOk result ((before : List GroupGivens) (g h : GroupMaking) → AreMade made.old.items before → Stands before self.old g → Stands before inner h →
            AreMade made.new.items (before ++ h.exports ∷ []) × Stands (before ++ h.exports ∷ []) self.new (with_component g (numbered own.now first) h)) }
    {
        bind_own(&mut self.resources, &inner.resources, own, first)?;
        self.keep_instance(made, inner.exports)?;
        Ok(())
    }
}

fn item_there<'a>(made: &'a MadeInstances, number: usize, name: &Text) -> Option<&'a Given>
    ensures { option_map (λ g. g.now) result ≡ named_item made.now.items (Some number) name.now }
{
    match made.get(number) {
        None => None,
        Some(items) => items.get(name),
    }
}

/// An item of an instance that was made.
fn item_in(made: &MadeInstances, number: usize, name: &Text) -> Result<Option<Given>, NoMemory>
    ensures { IfOk result (λ item. (before : List GroupGivens) (items : GroupGivens) → AreMade made.now.items before → IsInstance before number items → IsSame before item (find name.now items)) }
{
    match item_there(made, number, name) {
        None => Ok(None),
        Some(item) => Ok(Some(item.share()?)),
    }
}
