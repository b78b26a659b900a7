//! The imports of the outermost component, as the host meets them, and the names of their resources.

ghost use Rattle.std.specs.Prelude.{◌≡◌, ◌+◌, ◌++◌, [], ◌∷◌, max, is_some, List, IfOk, OnOk, option_map};
ghost use Rattle.comp_types.specs.Items.{KindItem};
ghost use Rattle.comp_types.specs.Views.{item_of, kind_of, entries_of};
ghost use Rattle.comp_worlds.specs.Groups.{Theirs};
ghost use Rattle.instance_state.specs.Targets.{target_of};
ghost use Rattle.comp_link.specs.Linking.{Givens as GroupGivens, Known, outside as given_outside, all_outside, known, all_known};
ghost use Rattle.instance_making.specs.Made.{IsGiven, IsInstance, Holds, AreMade, AndMore};
ghost use Rattle.instance_making.specs.Outside.{resource_at, first_known, AreKnown};

use crate::call_types::call_type;
use crate::given::{Given, Givens, MadeInstances};
use crate::named::Named;
use crate::numbers::next_number;
use comp_types::{InstanceEntries, InstanceEntry, ItemType, KnownFunc, TypeItem};
use host_port::Resource;
use indexmap::IndexMap;
use instance_state::{Import, Target};
use std::alloc::Global;
use std::rc::Rc;
use virt_base::{NoMemory, Text};

/// The resources of imports, each by the first import in which it stands.
#[derive(Debug, Drop)]
pub struct HostResources {
    pub by_number: IndexMap<u32, Resource>,
    /// The first number after them.
    pub behind: u32,
}

impl HostResources {
    /// No resources, which takes no memory.
    pub fn none(alloc: Global) -> HostResources
        ensures { AreKnown result [] }
    {
        HostResources {
            by_number: IndexMap::new(alloc),
            behind: 0,
        }
    }

    /// The name of a resource.
    pub fn get(&self, number: u32) -> Option<&Resource>
        ensures { (ks : List Known) → AreKnown self.now ks → option_map (λ r. r.now) result ≡ first_known ks number }
    {
        self.by_number.get(&number)
    }

    fn has(&self, number: u32) -> bool
        ensures { result ≡ is_some (resource_at self.now number) }
    {
        match self.by_number.get(&number) {
            None => false,
            Some(_) => true,
        }
    }

    fn count(&mut self, number: u32) -> Result<(), NoMemory>
        ensures { OnOk result (self.new ≡ record self.old { behind = max self.old.behind (number + 1) }) }
    {
        if number >= self.behind {
            self.behind = next_number(number)?;
        }
        Ok(())
    }

    /// A resource of an import, unless it stands in one before it.
    fn note(
        &mut self,
        alloc: Global,
        number: u32,
        interface: &Text,
        name: &Text,
    ) -> Result<(), NoMemory>
        ensures { OnOk result ((ks : List Known) → AreKnown self.old ks → AreKnown self.new (ks ++ record { number = number; resource = record { interface = interface.now; name = name.now } } ∷ [])) }
    {
        self.count(number)?;
        if self.has(number) {
            return Ok(());
        }
        let resource = Resource {
            interface: interface.copy(alloc)?,
            name: name.copy(alloc)?,
        };
        self.by_number.insert(number, resource)?;
        Ok(())
    }
}

/// The imports of the outermost component, and their resources.
pub fn outside(
    alloc: Global,
    made: &mut MadeInstances,
    resources: &mut HostResources,
    imports: &InstanceEntries,
) -> Result<Givens, NoMemory>
    ensures given { IfOk result (λ givens. (before : List GroupGivens) → AreMade made.old.items before → AndMore before made.new.items (λ all. Holds all givens (all_outside [] imports.now))) }
    ensures known { OnOk result ((ks : List Known) → AreKnown resources.old ks → AreKnown resources.new (ks ++ all_known [] imports.now)) }
{
    let none = Text::from_str(alloc, "")?;
    outside_all(alloc, made, resources, &none, imports.as_slice())
}

#[cycle(outside)]
fn outside_all(
    alloc: Global,
    made: &mut MadeInstances,
    resources: &mut HostResources,
    interface: &Text,
    entries: &[InstanceEntry],
) -> Result<Givens, NoMemory>
    ensures given { IfOk result (λ givens. (before : List GroupGivens) → AreMade made.old.items before → AndMore before made.new.items (λ all. Holds all givens (all_outside interface.now (entries_of entries.now)))) }
    ensures known { OnOk result ((ks : List Known) → AreKnown resources.old ks → AreKnown resources.new (ks ++ all_known interface.now (entries_of entries.now))) }
{
    let mut givens = Named::none(alloc);
    for entry in entries {
        let item = outside_item(alloc, made, resources, interface, &entry.name, &entry.ty)?;
        givens.add(alloc, &entry.name, item)?;
    }
    Ok(givens)
}

#[cycle(outside)]
fn outside_item(
    alloc: Global,
    made: &mut MadeInstances,
    resources: &mut HostResources,
    interface: &Text,
    name: &Text,
    ty: &ItemType,
) -> Result<Given, NoMemory>
    ensures given { IfOk result (λ item. (before : List GroupGivens) → AreMade made.old.items before → AndMore before made.new.items (λ all. IsGiven all item (given_outside interface.now name.now (item_of ty.now)))) }
    ensures known { OnOk result ((ks : List Known) → AreKnown resources.old ks → AreKnown resources.new (ks ++ known interface.now name.now (item_of ty.now))) }
{
    match ty {
        ItemType::Func(ty) => {
            let target = import_of(alloc, interface, name, ty)?;
            Ok(Given::Func(target))
        }
        ItemType::Instance(ty) => {
            let items = outside_all(alloc, made, resources, name, ty.entries.as_slice())?;
            let number = and_instance(made, items)?;
            Ok(Given::Instance(number))
        }
        ItemType::Kind(kind) => {
            let item = outside_kind(alloc, resources, interface, name, kind)?;
            Ok(item)
        }
    }
}

fn outside_kind(
    alloc: Global,
    resources: &mut HostResources,
    interface: &Text,
    name: &Text,
    kind: &TypeItem,
) -> Result<Given, NoMemory>
    ensures given { IfOk result (λ item. (all : List GroupGivens) → IsGiven all item (given_outside interface.now name.now (KindItem (kind_of kind.now)))) }
    ensures known { OnOk result ((ks : List Known) → AreKnown resources.old ks → AreKnown resources.new (ks ++ known interface.now name.now (KindItem (kind_of kind.now)))) }
{
    match kind {
        TypeItem::Resource(number) => {
            resources.note(alloc, *number, interface, name)?;
            Ok(Given::Resource(*number))
        }
        TypeItem::Value(_) => Ok(Given::Type),
        TypeItem::Func(_) => Ok(Given::Type),
        TypeItem::Instance(_) => Ok(Given::Type),
    }
}

fn import_of(
    alloc: Global,
    interface: &Text,
    name: &Text,
    ty: &Rc<KnownFunc>,
) -> Result<Target, NoMemory>
    ensures { IfOk result (λ target. target_of target ≡ Theirs (record { interface = interface.now; function = name.now; ty = ty.now.value })) }
{
    let ty = call_type(alloc, ty.clone()?)?;
    let import = Import::new(alloc, interface, name, ty)?;
    Ok(Target::Theirs(Rc::new(alloc, import)?))
}

/// One instance more: its number.
fn and_instance(made: &mut MadeInstances, items: Givens) -> Result<usize, NoMemory>
    ensures { IfOk result (λ number. (before : List GroupGivens) (givens : GroupGivens) → AreMade made.old.items before → Holds before items givens →
        AreMade made.new.items (before ++ givens ∷ []) × IsInstance (before ++ givens ∷ []) number givens) }
{
    let number = made.len();
    made.push(items)?;
    Ok(number)
}
