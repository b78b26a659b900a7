//! The facts of the fields or cases of a type, with the keys of their types in order.

ghost use Rattle.std.specs.Prelude.{OnOk};
ghost use Rattle.wit_types.specs.Plain.{Parts, End};
ghost use Rattle.comp_facts.specs.Facts.{and_part, and_bare};
ghost use Rattle.comp_types.specs.Known.{AreKnownOf};

use crate::known::KnownValue;
use comp_facts::PartFacts;
use std::alloc::Global;
use virt_base::{Items, NoMemory};

/// What is kept of parts, and the keys of their types in order.
#[derive(Debug, Drop)]
pub struct KnownParts {
    pub facts: PartFacts,
    pub keys: Items<u64>,
}

impl KnownParts {
    /// No part.
    pub fn none(alloc: Global) -> KnownParts
        ensures { AreKnownOf End result }
    {
        KnownParts {
            facts: PartFacts::none(),
            keys: Items::empty(alloc),
        }
    }

    /// One part more, of this name.
    pub fn add(&mut self, name: &[u8], value: &KnownValue) -> Result<(), NoMemory>
        ensures { OnOk result ((ps : Parts) → AreKnownOf ps self.old → AreKnownOf (and_part ps name.now value.now) self.new) }
    {
        let facts = value.facts();
        self.keys.push(facts.key)?;
        self.facts.add(name, facts);
        Ok(())
    }

    /// One case more without a payload, of this name.
    pub fn add_bare(&mut self, name: &[u8])
        ensures { (ps : Parts) → AreKnownOf ps self.old → AreKnownOf (and_bare ps name.now) self.new }
    {
        self.facts.add_bare(name);
    }
}
