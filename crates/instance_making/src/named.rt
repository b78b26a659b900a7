//! Items under names, in a map ordered by the bytes of the names.

ghost use Rattle.std.specs.Prelude.{◌≡◌, if◌then◌else◌, List, ℕ, None, Some, OnOk, option_map};
ghost use Rattle.std.specs.Option.{option_or};
ghost use Rattle.comp_types.specs.Items.{same_name};
ghost use Rattle.instance_making.specs.Named.{found};

use std::alloc::Global;
use std::collections::BTreeMap;
use virt_base::{NoMemory, Text};

/// What stands under names; under each the first. Names are kept in the order of their bytes, so that no list of names makes a look-up
/// slow.
#[derive(Debug, Drop)]
pub struct Named<T> {
    by_name: BTreeMap<String, T>,
}

impl<T: Drop> Named<T> {
    /// Nothing, which takes no memory.
    pub fn none(alloc: Global) -> Named<T>
        ensures { (q : List ℕ) → found result q ≡ None }
    {
        Named {
            by_name: BTreeMap::new(alloc),
        }
    }

    /// What stands under a name that has nothing yet; what stands under others stays.
    pub fn add(&mut self, alloc: Global, name: &Text, item: T) -> Result<(), NoMemory>
        ensures { OnOk result ((q : List ℕ) → found self.new q ≡ option_or (found self.old q) (if same_name name.now q then Some item else None)) }
    {
        if self.by_name.contains_key(name.as_str()) {
            return Ok(());
        }
        let key = name.copy(alloc)?;
        self.by_name.insert(key.into_string(), item)?;
        Ok(())
    }

    /// The same of an item that there may be.
    pub fn add_some(&mut self, alloc: Global, name: &Text, item: Option<T>) -> Result<(), NoMemory>
        ensures { OnOk result ((q : List ℕ) → found self.new q ≡ option_or (found self.old q) (if same_name name.now q then item else None)) }
    {
        match item {
            None => Ok(()),
            Some(item) => {
                self.add(alloc, name, item)?;
                Ok(())
            }
        }
    }

    /// What stands under a name.
    pub fn get(&self, name: &Text) -> Option<&T>
        ensures { option_map (λ item. item.now) result ≡ found self.now name.now }
    {
        self.by_name.get(name.as_str())
    }
}
