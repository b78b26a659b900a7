//! A list of resources by number, with an index, so that asking for one takes no walk along the list.

ghost use Rattle.std.specs.Prelude.{◌≡◌, ◌++◌, ◌∷◌, [], List, ℕ, OnOk};
ghost use Rattle.comp_types.specs.GivenResources.{is_among};

use std::alloc::Global;
use std::collections::BTreeMap;
use virt_base::NoMemory;

/// Numbers of resources in order, among which one is found at once.
#[derive(Drop)]
pub struct Numbers {
    list: Vec<u32>,
    places: BTreeMap<u32, bool>,
}

impl Numbers {
    ghost use Rattle.comp_scopes.specs.Numbers.{HasNumbers};

    /// None.
    pub fn none(alloc: Global) -> Numbers
        ensures { HasNumbers [] result }
    {
        Numbers {
            list: Vec::new(alloc),
            places: BTreeMap::new(alloc),
        }
    }

    /// Adds one at the end.
    pub fn push(&mut self, number: u32) -> Result<(), NoMemory>
        ensures { OnOk result ((rs : List ℕ) → HasNumbers rs self.old → HasNumbers (rs ++ number ∷ []) self.new) }
    {
        self.places.insert(number, true)?;
        self.list.push(number)?;
        Ok(())
    }

    /// Whether it is among them.
    pub fn has(&self, number: u32) -> bool
        ensures { (rs : List ℕ) → HasNumbers rs self.now → result ≡ is_among rs number }
    {
        self.places.contains_key(&number)
    }

    /// All of them in order.
    pub fn as_slice(&self) -> &[u32]
        ensures { (rs : List ℕ) → HasNumbers rs self.now → result.now ≡ rs }
    {
        self.list.as_slice()
    }
}
