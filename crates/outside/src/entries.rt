//! Entries of a folder: whether they are in order, and copies of them.

ghost use Rattle.std.specs.Prelude.{◌≡◌, IfOk};
ghost use Rattle.outside.specs.Files.{in_order};

use crate::files::{Entries, Entry};
use std::alloc::Global;
use virt_base::{Items, NoMemory};

/// Whether entries stand in the order of the bytes of their names, each name once.
pub fn are_in_order(entries: &[Entry]) -> bool
    ensures { result ≡ in_order entries.now }
{
    let mut at = 1;
    while at < entries.len() {
        let before = entries[at - 1].name.as_str();
        if !before.cmp(entries[at].name.as_str()).is_lt() {
            return false;
        }
        at += 1;
    }
    true
}

/// A copy of entries.
pub fn copy_entries(alloc: Global, entries: &[Entry]) -> Result<Entries, NoMemory>
    ensures { IfOk result (λ copy. copy ≡ entries.now) }
{
    let mut copy = Vec::with_capacity(alloc, entries.len())?;
    for entry in entries {
        copy.push(Entry {
            name: entry.name.copy(alloc)?,
            kind: entry.kind,
        })?;
    }
    Ok(Items::new(copy))
}
