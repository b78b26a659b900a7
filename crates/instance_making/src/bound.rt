//! The resources of items that are given get the numbers that they have in the group, by the types of the items.

ghost use Rattle.std.specs.Prelude.{◌≡◌, ◌++◌, List, Option, Some, OnOk, option_map, option_copied};
ghost use Rattle.comp_types.specs.Items.{KindItem, ResourceKind};
ghost use Rattle.comp_types.specs.Views.{item_of, kind_of, entries_of};
ghost use Rattle.comp_types.specs.GivenResources.{numbered};
ghost use Rattle.comp_link.specs.Linking.{Given as GroupGiven, Givens as GroupGivens, bound, bound_if, all_bound, own_bound};
ghost use Rattle.instance_making.specs.Bound.{number_of, resource_of};
ghost use Rattle.instance_making.specs.Made.{IsGiven, IsSame, IsInstance, AreMade};
ghost use Rattle.instance_making.specs.Shown.{SamePartners};

use crate::given::{Given, MadeInstances};
use crate::numbers::next_number;
use comp_types::{InstanceEntry, ItemType, Substitution, TypeItem};
use virt_base::NoMemory;

fn number_in(given: Option<&Given>) -> Option<usize>
    ensures { result ≡ number_of (option_copied given.entry) }
{
    match given {
        None => None,
        Some(given) => given.number(),
    }
}

fn resource_in(given: Option<&Given>) -> Option<u32>
    ensures { result ≡ resource_of (option_copied given.entry) }
{
    match given {
        None => None,
        Some(given) => given.resource(),
    }
}

/// A resource gets the number that it has in what is given for it.
fn bind_resource(
    resources: &mut Substitution,
    given: Option<&Given>,
    resource: u32,
) -> Result<(), NoMemory>
    ensures { OnOk result ((before : List GroupGivens) (o : Option GroupGiven) → IsSame before (option_copied given.entry) o →
        SamePartners resources.new (resources.old ++ bound o (KindItem (ResourceKind resource)))) }
{
    match resource_in(given) {
        None => Ok(()),
        Some(number) => {
            resources.push(resource, number)?;
            Ok(())
        }
    }
}

fn bind_kind(
    resources: &mut Substitution,
    given: Option<&Given>,
    kind: &TypeItem,
) -> Result<(), NoMemory>
    ensures { OnOk result ((before : List GroupGivens) (o : Option GroupGiven) → IsSame before (option_copied given.entry) o →
        SamePartners resources.new (resources.old ++ bound o (KindItem (kind_of kind.now)))) }
{
    match kind {
        TypeItem::Resource(resource) => {
            bind_resource(resources, given, *resource)?;
            Ok(())
        }
        TypeItem::Value(_) => Ok(()),
        TypeItem::Func(_) => Ok(()),
        TypeItem::Instance(_) => Ok(()),
    }
}

/// The resources of a described item get the numbers that they have in what is given for it.
#[cycle(bind)]
pub fn bind(
    resources: &mut Substitution,
    made: &MadeInstances,
    given: Option<&Given>,
    ty: &ItemType,
) -> Result<(), NoMemory>
    ensures { OnOk result ((before : List GroupGivens) (o : Option GroupGiven) → AreMade made.now.items before → IsSame before (option_copied given.entry) o →
        SamePartners resources.new (resources.old ++ bound o (item_of ty.now))) }
{
    match ty {
        ItemType::Func(_) => Ok(()),
        ItemType::Instance(ty) => match number_in(given) {
            None => Ok(()),
            Some(number) => {
                bind_all(resources, made, number, ty.entries.as_slice())?;
                Ok(())
            }
        },
        ItemType::Kind(kind) => {
            bind_kind(resources, given, kind)?;
            Ok(())
        }
    }
}

#[cycle(bind)]
fn bind_all(
    resources: &mut Substitution,
    made: &MadeInstances,
    number: usize,
    entries: &[InstanceEntry],
) -> Result<(), NoMemory>
    ensures { OnOk result ((before : List GroupGivens) (items : GroupGivens) → AreMade made.now.items before → IsInstance before number items →
        SamePartners resources.new (resources.old ++ all_bound items (entries_of entries.now))) }
{
    let Some(items) = made.get(number) else {
        return Ok(());
    };
    for entry in entries {
        bind(resources, made, items.get(&entry.name), &entry.ty)?;
    }
    Ok(())
}

/// The same by the type that an export states, if it states one.
pub fn bind_stated(
    resources: &mut Substitution,
    made: &MadeInstances,
    given: &Given,
    stated: &Option<ItemType>,
) -> Result<(), NoMemory>
    ensures { OnOk result ((before : List GroupGivens) (g : GroupGiven) → AreMade made.now.items before → IsGiven before given.now g →
        SamePartners resources.new (resources.old ++ bound_if (Some g) (option_map item_of stated.now))) }
{
    match stated {
        None => Ok(()),
        Some(ty) => {
            bind(resources, made, Some(given), ty)?;
            Ok(())
        }
    }
}

/// The own resources of a component that was made get the numbers from one on.
pub fn bind_own(
    resources: &mut Substitution,
    inner: &Substitution,
    own: &[u32],
    first: u32,
) -> Result<(), NoMemory>
    ensures { OnOk result (SamePartners resources.new (resources.old ++ own_bound inner.now (numbered own.now first))) }
{
    let mut number = first;
    for resource in own {
        resources.push(number, inner.partner(*resource))?;
        number = next_number(number)?;
    }
    Ok(())
}
