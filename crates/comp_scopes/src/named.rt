//! The imports or the exports so far, with an index of their names by which one that is alike is found.

ghost use Rattle.std.specs.Prelude.{◌≡◌, IfOk, OnOk};
ghost use Rattle.comp_types.specs.Rules.{is_new_in};
ghost use Rattle.comp_types.specs.Items.{End, Entries, and_entry};
ghost use Rattle.comp_types.specs.Views.{item_of};

use comp_types::{InstanceEntries, ItemType};
use std::alloc::Global;
use std::collections::BTreeMap;
use virt_base::{NoMemory, Text};

/// Named items in order, of which a further name must differ.
#[derive(Drop)]
pub struct NamedEntries {
    entries: InstanceEntries,
    /// Their names, in which letters of either case are alike.
    seen: BTreeMap<String, bool>,
}

impl NamedEntries {
    ghost use Rattle.comp_scopes.specs.Named.{HasNamed};

    /// No item.
    pub fn none(alloc: Global) -> NamedEntries
        ensures { HasNamed End result }
    {
        NamedEntries {
            entries: InstanceEntries::empty(alloc),
            seen: BTreeMap::new(alloc),
        }
    }

    /// Whether no name is alike.
    pub fn is_new(&self, alloc: Global, name: &Text) -> Result<bool, NoMemory>
        ensures { IfOk result (λ new. (es : Entries) → HasNamed es self.now → new ≡ is_new_in es name.now) }
    {
        let key = name.as_str().to_ascii_lowercase(alloc)?;
        Ok(!self.seen.contains_key(key.as_str()))
    }

    /// Adds an item after the others.
    pub fn push(&mut self, alloc: Global, name: &Text, item: ItemType) -> Result<(), NoMemory>
        ensures { OnOk result ((es : Entries) → HasNamed es self.old → HasNamed (and_entry es name.now (item_of item)) self.new) }
    {
        let key = name.as_str().to_ascii_lowercase(alloc)?;
        self.seen.insert(key, true)?;
        self.entries.push(name.copy(alloc)?, item)
    }

    /// The items.
    pub fn entries(&self) -> &InstanceEntries
        ensures { (es : Entries) → HasNamed es self.now → result.now ≡ es }
    {
        &self.entries
    }

    /// The items alone.
    pub fn into_entries(self) -> InstanceEntries
        ensures { (es : Entries) → HasNamed es self → result ≡ es }
    {
        self.entries
    }
}
