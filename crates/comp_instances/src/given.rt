//! The resources that arguments give for those of imports, name by name.

ghost use Rattle.std.specs.Prelude.{◌≡◌, OnOk, Some};
ghost use Rattle.comp_types.specs.Items.{InstanceItem, KindItem, ResourceKind, look_up};
ghost use Rattle.comp_types.specs.Views.{entries_of, item_of};
ghost use Rattle.comp_types.specs.GivenResources.{given_by, given_for};
ghost use Rattle.comp_instances.specs.Given.{and_pairs};

use comp_types::{InstanceEntries, InstanceEntry, InstanceType, ItemType, Substitution, TypeItem};
use virt_base::NoMemory;

/// Adds what a resource gives for an import: it stands for the one that is imported.
fn add_resource(by: &mut Substitution, given: u32, item: &ItemType) -> Result<(), NoMemory>
    ensures { OnOk result (by.new ≡ and_pairs by.old (given_for (Some (KindItem (ResourceKind given))) (item_of item.now))) }
{
    match item {
        ItemType::Func(_) => Ok(()),
        ItemType::Instance(_) => Ok(()),
        ItemType::Kind(TypeItem::Value(_)) => Ok(()),
        ItemType::Kind(TypeItem::Func(_)) => Ok(()),
        ItemType::Kind(TypeItem::Instance(_)) => Ok(()),
        ItemType::Kind(TypeItem::Resource(imported)) => {
            by.push(*imported, given)?;
            Ok(())
        }
    }
}

#[cycle(add_given)]
fn add_instance(
    by: &mut Substitution,
    given: &InstanceType,
    item: &ItemType,
) -> Result<(), NoMemory>
    ensures { OnOk result (by.new ≡ and_pairs by.old (given_for (Some (InstanceItem given.now.entries)) (item_of item.now))) }
{
    match item {
        ItemType::Func(_) => Ok(()),
        ItemType::Kind(_) => Ok(()),
        ItemType::Instance(ty) => {
            add_given(by, &given.entries, ty.entries.as_slice())?;
            Ok(())
        }
    }
}

/// Adds what an argument gives for the resources of an import.
#[cycle(add_given)]
fn add_given_for(by: &mut Substitution, given: &ItemType, item: &ItemType) -> Result<(), NoMemory>
    ensures { OnOk result (by.new ≡ and_pairs by.old (given_for (Some (item_of given.now)) (item_of item.now))) }
{
    match given {
        ItemType::Func(_) => Ok(()),
        ItemType::Instance(given) => {
            add_instance(by, given, item)?;
            Ok(())
        }
        ItemType::Kind(TypeItem::Value(_)) => Ok(()),
        ItemType::Kind(TypeItem::Func(_)) => Ok(()),
        ItemType::Kind(TypeItem::Instance(_)) => Ok(()),
        ItemType::Kind(TypeItem::Resource(given)) => {
            add_resource(by, *given, item)?;
            Ok(())
        }
    }
}

#[cycle(add_given)]
fn add_given_one(
    by: &mut Substitution,
    args: &InstanceEntries,
    import: &InstanceEntry,
) -> Result<(), NoMemory>
    ensures { OnOk result (by.new ≡ and_pairs by.old (given_for (look_up import.now.name args.now) (item_of import.now.ty))) }
{
    match args.look_up(&import.name) {
        None => Ok(()),
        Some(given) => {
            add_given_for(by, given, &import.ty)?;
            Ok(())
        }
    }
}

/// Adds what arguments give for the resources of imports, by the names under which these stand.
#[cycle(add_given)]
pub fn add_given(
    by: &mut Substitution,
    args: &InstanceEntries,
    imports: &[InstanceEntry],
) -> Result<(), NoMemory>
    ensures { OnOk result (by.new ≡ and_pairs by.old (given_by args.now (entries_of imports.now))) }
{
    for import in imports {
        add_given_one(by, args, import)?;
    }
    Ok(())
}
