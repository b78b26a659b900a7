//! Instances that are written out: the items that they name, and whether annotated names among them fit.

ghost use Rattle.std.specs.Prelude.{◌≡◌, [], IfOk, OnOk, option_map};
ghost use Rattle.comp_types.specs.Views.{item_of};
ghost use Rattle.comp_types.specs.Added.{and_some_entry, named_items};
ghost use Rattle.comp_types.specs.Rules.{if_there, name_fits, names_fit_in};
ghost use Rattle.comp_types.specs.Spaces.{Space};
ghost use Rattle.comp_scopes.specs.Stands.{Stands};

use crate::name_fits;
use comp_scopes::Scope;
use comp_types::{InstanceEntries, ItemType};
use std::alloc::Global;
use virt_base::NoMemory;
use wasm_ast::NamedItem;

/// Adds a named item, if it is there.
fn push_named(
    alloc: Global,
    entries: &mut InstanceEntries,
    item: &NamedItem,
    found: Option<ItemType>,
) -> Result<(), NoMemory>
    ensures { OnOk result (entries.new ≡ and_some_entry entries.old item.now.name (option_map item_of found)) }
{
    match found {
        None => Ok(()),
        Some(ty) => {
            entries.push(item.name.copy(alloc)?, ty)?;
            Ok(())
        }
    }
}

/// The items that stand at indexes, under names.
pub fn named_items(
    alloc: Global,
    scope: &Scope,
    items: &[NamedItem],
) -> Result<InstanceEntries, NoMemory>
    ensures { IfOk result (λ es. (s : Space) → Stands s scope.now → es ≡ named_items s items.now) }
{
    let mut entries = InstanceEntries::empty(alloc);
    for item in items {
        let found = scope.item_at(item.sort, item.index)?;
        push_named(alloc, &mut entries, item, found)?;
    }
    Ok(entries)
}

/// Whether the name of an item, if it is there, fits after those entries.
fn some_name_fits(
    alloc: Global,
    entries: &InstanceEntries,
    item: &NamedItem,
    found: &Option<ItemType>,
) -> Result<bool, NoMemory>
    ensures { IfOk result (λ fits. fits ≡ if_there (name_fits entries.now item.now.name) (option_map item_of found.now)) }
{
    match found {
        None => Ok(true),
        Some(ty) => {
            let fits = name_fits(alloc, entries, &item.name, ty)?;
            Ok(fits)
        }
    }
}

/// Whether the name of each item fits after those before it.
pub fn names_fit(alloc: Global, scope: &Scope, items: &[NamedItem]) -> Result<bool, NoMemory>
    ensures { IfOk result (λ fits. (s : Space) → Stands s scope.now → fits ≡ names_fit_in s [] items.now) }
{
    let mut entries = InstanceEntries::empty(alloc);
    for item in items {
        let found = scope.item_at(item.sort, item.index)?;
        let fits = some_name_fits(alloc, &entries, item, &found)?;
        if !fits {
            return Ok(false);
        }
        push_named(alloc, &mut entries, item, found)?;
    }
    Ok(true)
}
