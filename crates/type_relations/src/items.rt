//! The resources that a type of an item names, each once, in order: a walk through its entries, without what it declares itself.

ghost use Rattle.std.specs.Prelude.{◌≡◌, not, OnOk, IfOk};
ghost use Rattle.comp_types.specs.Views.{entries_of, item_of, kind_of};
ghost use Rattle.comp_types.specs.GivenResources.{distinct, named_in, named_in_item, named_in_kind, without};
ghost use Rattle.comp_types.specs.Rules.{is_filled};
ghost use Rattle.type_table.specs.Tables.{HasEntries, HasItem, HasKind, trees};
ghost use Rattle.type_relations.specs.Searches.{Finds};

use crate::nodes::{add_known_func, add_known_value};
use crate::resources::Resources;
use crate::search::Search;
use comp_types::{DeclaredInstance, InstanceEntries, InstanceEntry, ItemType, TypeItem};
use std::alloc::Global;
use type_table::TypeTable;
use virt_base::NoMemory;

#[cycle(add_item)]
fn add_slice(
    alloc: Global,
    types: &TypeTable,
    search: &mut Search,
    entries: &[InstanceEntry],
) -> Result<(), NoMemory>
    ensures { OnOk result (HasEntries types.now (entries_of entries.now) → Finds (trees types.now) search.old search.new (named_in (entries_of entries.now))) }
{
    for entry in entries {
        add_item(alloc, types, search, &entry.ty)?;
    }
    Ok(())
}

/// Adds what an instance type names but does not declare, by a search of its own inside.
#[cycle(add_item)]
fn add_declared(
    alloc: Global,
    types: &TypeTable,
    search: &mut Search,
    ty: &DeclaredInstance,
) -> Result<(), NoMemory>
    ensures { OnOk result (HasEntries types.now ty.now.instance.value.entries → Finds (trees types.now) search.old search.new (without ty.now.own (named_in ty.now.instance.value.entries))) }
{
    let mut inside = Search::new(alloc);
    add_slice(alloc, types, &mut inside, ty.instance.entries.as_slice())?;
    let own = Resources::of(alloc, ty.own.as_slice())?;
    search.found.push_without(&inside.found, &own)?;
    Ok(())
}

#[cycle(add_item)]
fn add_kind(
    alloc: Global,
    types: &TypeTable,
    search: &mut Search,
    kind: &TypeItem,
) -> Result<(), NoMemory>
    ensures { OnOk result (HasKind types.now (kind_of kind.now) → Finds (trees types.now) search.old search.new (named_in_kind (kind_of kind.now))) }
{
    match kind {
        TypeItem::Resource(resource) => {
            search.found.push(*resource)?;
            Ok(())
        }
        TypeItem::Value(ty) => {
            add_known_value(types, search, ty)?;
            Ok(())
        }
        TypeItem::Func(ty) => {
            add_known_func(types, search, ty)?;
            Ok(())
        }
        TypeItem::Instance(ty) => {
            add_declared(alloc, types, search, ty)?;
            Ok(())
        }
    }
}

/// Adds the resources that an item names; one that speaks of none is not walked.
#[cycle(add_item)]
fn add_item(
    alloc: Global,
    types: &TypeTable,
    search: &mut Search,
    ty: &ItemType,
) -> Result<(), NoMemory>
    ensures { OnOk result (HasItem types.now (item_of ty.now) → Finds (trees types.now) search.old search.new (named_in_item (item_of ty.now))) }
{
    if !ty.has_resource() {
        return Ok(());
    }
    match ty {
        ItemType::Func(ty) => {
            add_known_func(types, search, ty)?;
            Ok(())
        }
        ItemType::Instance(ty) => {
            add_slice(alloc, types, search, ty.entries.as_slice())?;
            Ok(())
        }
        ItemType::Kind(kind) => {
            add_kind(alloc, types, search, kind)?;
            Ok(())
        }
    }
}

/// The resources that a type names, but for those that it declares, in the order in which they stand in it.
pub fn resources_of_kind(
    alloc: Global,
    types: &TypeTable,
    kind: &TypeItem,
) -> Result<Resources, NoMemory>
    ensures { IfOk result (λ rs. HasKind types.now (kind_of kind.now) → rs ≡ distinct (named_in_kind (kind_of kind.now))) }
{
    let mut search = Search::new(alloc);
    add_kind(alloc, types, &mut search, kind)?;
    Ok(search.found)
}

/// The resources that entries name, in the order in which they stand in them: `NoMemory` at once where the walk is too long.
pub fn resources_of_entries(
    alloc: Global,
    types: &TypeTable,
    entries: &InstanceEntries,
) -> Result<Resources, NoMemory>
    ensures { IfOk result (λ rs. HasEntries types.now entries.now → rs ≡ distinct (named_in entries.now)) }
{
    if entries.is_too_large() {
        return Err(NoMemory);
    }
    let mut search = Search::new(alloc);
    add_slice(alloc, types, &mut search, entries.as_slice())?;
    Ok(search.found)
}

fn declares_all(alloc: Global, types: &TypeTable, ty: &DeclaredInstance) -> Result<bool, NoMemory>
    ensures { IfOk result (λ all. HasEntries types.now ty.now.instance.value.entries → all ≡ not (is_filled (without ty.now.own (named_in ty.now.instance.value.entries)))) }
{
    let mut search = Search::new(alloc);
    add_declared(alloc, types, &mut search, ty)?;
    Ok(search.found.is_empty())
}

/// Whether a type names no resource, but for those that it declares. Value types and functions are not walked.
pub fn names_none(alloc: Global, types: &TypeTable, kind: &TypeItem) -> Result<bool, NoMemory>
    ensures { IfOk result (λ none. HasKind types.now (kind_of kind.now) → none ≡ not (is_filled (named_in_kind (kind_of kind.now)))) }
{
    match kind {
        TypeItem::Resource(_) => Ok(false),
        TypeItem::Value(ty) => Ok(!ty.facts().handles),
        TypeItem::Func(ty) => Ok(!ty.facts().has_handle()),
        TypeItem::Instance(ty) => declares_all(alloc, types, ty),
    }
}
