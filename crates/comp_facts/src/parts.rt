//! The facts of the fields or cases of a type together, which grow part by part.

ghost use Rattle.std.specs.Prelude.{◌≡◌, ◌≤◌, ◌||◌};
ghost use Rattle.wit_types.specs.Plain.{Plain, Parts, End};

use crate::facts::Facts;
use crate::keys::{and_name, and_number};
use abi_layout::{Flat, joined};

/// What is kept of the fields of a record, or of the cases of a variant.
#[derive(Debug, Clone, Copy)]
pub struct PartFacts {
    /// The depth of the deepest; 101 stands for more than 100.
    pub depth: u32,
    /// The parts of all of them; 1,000,001 stands for more than 1,000,000.
    pub parts: u32,
    pub borrows: bool,
    /// A handle is in one of them, owned or borrowed.
    pub handles: bool,
    pub pointed: bool,
    /// The flat types of the fields, one after another.
    pub fields: Flat,
    /// The flat types of the payloads, joined.
    pub cases: Flat,
    /// The same for equal parts, and seldom the same for others.
    pub key: u64,
    pub ghost shallow: { depth ≤ 101 },
    pub ghost few: { parts ≤ 1000001 },
}

fn either(one: bool, other: bool) -> bool
    ensures { result ≡ (one || other) }
{
    one || other
}

impl PartFacts {
    ghost use Rattle.comp_facts.specs.Facts.{IsFactsOf, AreFactsOf, and_part, and_bare};

    /// No part.
    pub fn none() -> PartFacts
        ensures { AreFactsOf End result }
    {
        PartFacts {
            depth: 0,
            parts: 0,
            borrows: false,
            handles: false,
            pointed: false,
            fields: Flat::empty(),
            cases: Flat::empty(),
            key: 0,
        }
    }

    /// One part more, of this name.
    pub fn add(&mut self, name: &[u8], ty: &Facts)
        ensures { (ps : Parts) → (t : Plain) → AreFactsOf ps self.old → IsFactsOf t ty.now → AreFactsOf (and_part ps name.now t) self.new }
    {
        let mut fields = self.fields;
        fields.append(&ty.flat);
        *self = PartFacts {
            depth: u32::max(self.depth, ty.depth),
            parts: u32::min(self.parts + ty.parts, 1_000_001),
            borrows: either(self.borrows, ty.borrows),
            handles: either(self.handles, ty.handles),
            pointed: either(self.pointed, ty.pointed),
            fields,
            cases: joined(&self.cases, &ty.flat),
            key: and_number(and_name(self.key, name), ty.key),
        };
    }

    /// One case more without a payload, of this name.
    pub fn add_bare(&mut self, name: &[u8])
        ensures { (ps : Parts) → AreFactsOf ps self.old → AreFactsOf (and_bare ps name.now) self.new }
    {
        self.key = and_number(and_name(self.key, name), 0);
    }
}
