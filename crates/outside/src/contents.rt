//! What files in memory hold at the start: files with their bytes, and folders with their entries.

ghost use Rattle.std.specs.Prelude.{◌≡◌};
ghost use Rattle.outside.specs.MemFiles.{all_in_order};

use crate::entries::are_in_order;
use crate::files::Entries;
use virt_base::{Bytes, Items, Text};

/// A value under a name.
#[derive(Debug, Drop)]
pub struct Named<T> {
    pub name: Text,
    pub value: T,
}

/// Files: names with their bytes.
pub type NamedBytes = Items<Named<Bytes>>;

/// Folders: names with their entries.
pub type NamedEntries = Items<Named<Entries>>;

/// What files in memory hold at the start. Where a name stands twice, the first counts.
#[derive(Debug, Drop)]
pub struct Contents {
    pub files: NamedBytes,
    pub folders: NamedEntries,
}

impl Contents {
    /// Whether the entries of each folder stand in the order of the bytes of their names, each name once.
    pub fn is_in_order(&self) -> bool
        ensures { result ≡ all_in_order self.now.folders }
    {
        self.folders
            .as_slice()
            .iter()
            .all(|folder| are_in_order(folder.value.as_slice()))
    }
}
