//! Core items by name, as a module or a core instance exports them.

ghost use Rattle.std.specs.Prelude.{◌≡◌, if◌then◌else◌, List, ℕ, None, Some, OnOk, option_map};
ghost use Rattle.comp_types.specs.CoreMatching.{same_text};

use crate::items::SharedItem;
use std::alloc::Global;
use std::collections::BTreeMap;
use virt_base::{NoMemory, Text};

/// Core items by name.
#[derive(Drop)]
pub struct CoreMap {
    items: BTreeMap<String, SharedItem>,
}

impl CoreMap {
    ghost use Rattle.comp_scopes.specs.Found.{found};

    /// No item.
    pub fn new(alloc: Global) -> CoreMap
        ensures { (q : List ℕ) → found result q ≡ None }
    {
        CoreMap {
            items: BTreeMap::new(alloc),
        }
    }

    /// Puts an item under a name, in place of what stood there.
    pub fn put(&mut self, name: Text, item: SharedItem) -> Result<(), NoMemory>
        ensures { OnOk result ((q : List ℕ) → found self.new q ≡ (if same_text name q then Some item else found self.old q)) }
    {
        self.items.insert(name.into_string(), item)?;
        Ok(())
    }

    /// The item of a name.
    pub fn get(&self, name: &Text) -> Option<&SharedItem>
        ensures { option_map (λ i. i.now) result ≡ found self.now name.now }
    {
        self.items.get(name.as_str())
    }
}
