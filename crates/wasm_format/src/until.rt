//! Items that end where one of them says so, and not by a count: expressions, and sections of types with their instance types.

ghost use Rattle.std.specs.Prelude.{◌≡◌, OnOk};
ghost use Rattle.virt_base.specs.Place.{place};
ghost use Rattle.wasm_format.specs.Sections.{Sections};
ghost use Rattle.wasm_format.specs.Until.{until};
ghost use Rattle.wasm_format.specs.Reads.{Reads};

use crate::stop::Stop;
use crate::trim::trimmed;
use std::alloc::Global;
use virt_base::{Cursor, Items, NoMemory};

/// A state that goes on from item to item, up to one that ends them.
pub trait Walk: Drop {
    type Item: Drop;

    /// How the next item is spelled, what state follows, and which states end the items.
    ghost sections: { Sections Self Self.Item };

    /// Reads the next item.
    fn read_item(&self, alloc: Global, c: &mut Cursor<'_>) -> Result<Self::Item, Stop>
        ensures input { c.new.bytes ≡ c.old.bytes }
        ensures value { Reads result c.new ((sections.form self.now).read (place c.old)) };

    /// Goes on. After `NoMemory` nothing is said of the state.
    fn step(&mut self, item: &Self::Item) -> Result<(), NoMemory>
        ensures { OnOk result (self.new ≡ sections.next self.old item.now) };

    /// Whether this state ends the items.
    fn is_over(&self) -> bool
        ensures { result ≡ sections.can_end self.now };
}

/// Reads items up to a state that ends them.
pub fn read_until<W: Walk>(
    alloc: Global,
    c: &mut Cursor<'_>,
    mut state: W,
) -> Result<Items<W::Item>, Stop>
    ensures input { c.new.bytes ≡ c.old.bytes }
    ensures value { Reads result c.new ((until W.sections state).read (place c.old)) }
{
    let mut items = Vec::new(alloc);
    for _ in 0..c.bytes.len() - c.at {
        if state.is_over() {
            let whole = trimmed(alloc, items)?;
            return Ok(Items::new(whole));
        }
        let item = state.read_item(alloc, c)?;
        state.step(&item)?;
        items.push(item)?;
    }
    if state.is_over() {
        let whole = trimmed(alloc, items)?;
        return Ok(Items::new(whole));
    }
    Err(Stop::Malformed)
}
