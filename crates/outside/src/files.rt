//! The outside as files and folders by name: the trait, and why its calls fail.

ghost use Rattle.outside.specs.Files.{FilesState, Reads, Lists, Creates, Appends};

use std::alloc::Global;
use virt_base::{Items, Text};

/// Why a file is not read, or a folder not listed.
#[derive(Debug, Clone, Copy, PartialEq, Eq)]
pub enum FileFail {
    /// There is no file, or no folder, of this name.
    Missing,
    /// It is there, and the call failed.
    Failed,
    /// The file has that many bytes, which is more than the limit.
    TooLong(u64),
    NoMemory,
}

/// A file was not made, or not all bytes were added to it.
#[derive(Debug, Clone, Copy, PartialEq, Eq)]
pub struct WriteFailed;

/// What stands in a folder.
#[derive(Debug, Clone, Copy, PartialEq, Eq)]
pub enum EntryKind {
    File,
    Folder,
}

/// An entry of a folder, by its own name.
#[derive(Debug, Drop)]
pub struct Entry {
    pub name: Text,
    pub kind: EntryKind,
}

/// The entries of a folder.
pub type Entries = Items<Entry>;

/// Files and folders by name, whose faults are counted in a `u64` that never falls and stays at its greatest value.
pub trait Files {
    ghost state: { Self → FilesState };

    /// The bytes of a file of at most `limit`.
    fn read(&mut self, alloc: Global, name: &Text, limit: u64) -> Result<Vec<u8>, FileFail>
        ensures { Reads name.now limit (state self.old) (state self.new) result };

    /// The entries of a folder, in the order of the bytes of their names, each name once. Never `TooLong`.
    fn list(&mut self, alloc: Global, folder: &Text) -> Result<Entries, FileFail>
        ensures { Lists folder.now (state self.old) (state self.new) result };

    /// Makes the name hold no bytes. After a failure it is as before, or absent, or empty.
    fn create(&mut self, name: &Text) -> Result<(), WriteFailed>
        ensures { Creates name.now (state self.old) (state self.new) result };

    /// Adds bytes to the end of a file. After a failure a prefix of them was added.
    fn append(&mut self, name: &Text, bytes: &[u8]) -> Result<(), WriteFailed>
        ensures { Appends name.now bytes.now (state self.old) (state self.new) result };
}
