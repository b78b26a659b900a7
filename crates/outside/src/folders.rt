//! The folders of files in memory: a table by name. They stay as they were given at the start.

ghost use Rattle.std.specs.Prelude.{◌≡◌, ℕ, List, true, IfOk};
ghost use Rattle.std.specs.BTreeMap.{get_by_text};
ghost use Rattle.outside.specs.Files.{AreInOrder};
ghost use Rattle.outside.specs.FolderTable.{EachInOrder};
ghost use Rattle.outside.specs.MemFiles.{Answers, list_due, first_named, all_in_order};

use crate::contents::NamedEntries;
use crate::entries::copy_entries;
use crate::files::{Entries, FileFail};
use crate::mem_tables::put;
use std::alloc::Global;
use std::collections::BTreeMap;
use virt_base::NoMemory;

/// Folders by name, each in order.
#[derive(Drop)]
pub struct FolderTable {
    pub table: BTreeMap<String, Entries>,
    pub ghost each_in_order: { EachInOrder table },
}

fn table_of(alloc: Global, folders: NamedEntries) -> Result<BTreeMap<String, Entries>, NoMemory>
    ensures { IfOk result (λ table. (name : List ℕ) → get_by_text table name ≡ first_named folders name) }
{
    let mut table = BTreeMap::new(alloc);
    let mut rest = folders.into_vec();
    while let Some(folder) = rest.pop() {
        put(&mut table, folder.name.into_string(), folder.value)?;
    }
    Ok(table)
}

impl FolderTable {
    /// The folders that are there from the start.
    pub fn new(alloc: Global, folders: NamedEntries) -> Result<FolderTable, NoMemory>
        requires { all_in_order folders ≡ true }
        ensures { IfOk result (λ f. (name : List ℕ) → get_by_text f.table name ≡ first_named folders name) }
    {
        let table = table_of(alloc, folders)?;
        Ok(FolderTable { table })
    }

    pub fn list(&self, alloc: Global, name: &str, listed: bool) -> Result<Entries, FileFail>
        ensures answer { Answers (λ entries. entries) (list_due listed (get_by_text self.now.table name.now)) result }
        ensures in_order { IfOk result AreInOrder }
    {
        let Some(entries) = self.table.get(name) else {
            return Err(FileFail::Missing);
        };
        if listed {
            return Err(FileFail::Failed);
        }
        match copy_entries(alloc, entries.as_slice()) {
            Ok(entries) => Ok(entries),
            Err(NoMemory) => Err(FileFail::NoMemory),
        }
    }
}
