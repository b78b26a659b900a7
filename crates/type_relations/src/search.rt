//! The state of a search for resources: those that were found, and which places of the table were searched.

ghost use Rattle.std.specs.Prelude.{◌≡◌, [], OnOk};
ghost use Rattle.comp_types.specs.GivenResources.{is_among};
ghost use Rattle.type_relations.specs.Once.{and_once};

use crate::resources::Resources;
use indexmap::IndexSet;
use std::alloc::Global;
use virt_base::NoMemory;

/// The resources that were found so far, and the places of the types of a table that were searched for them.
#[derive(Drop)]
pub struct Search {
    pub found: Resources,
    searched: IndexSet<usize>,
}

impl Search {
    /// Nothing was found or searched.
    pub fn new(alloc: Global) -> Search
        ensures found { result.found ≡ [] }
        ensures searched { result.searched.keys ≡ [] }
    {
        Search {
            found: Resources::none(alloc),
            searched: IndexSet::new(alloc),
        }
    }

    /// Whether the type at a place was searched.
    pub fn has_searched(&self, at: usize) -> bool
        ensures { result ≡ is_among self.now.searched.keys at }
    {
        self.searched.contains(&at)
    }

    /// Remembers that the type at a place was searched.
    pub fn mark(&mut self, at: usize) -> Result<(), NoMemory>
        ensures searched { OnOk result (self.new.searched.keys ≡ and_once self.old.searched.keys at) }
        ensures found { self.new.found ≡ self.old.found }
    {
        self.searched.insert(at)?;
        Ok(())
    }
}
