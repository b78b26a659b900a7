//! Files and folders in memory as the outside, whose listed calls fail. A file takes no more bytes than it has room for.

ghost use Rattle.std.specs.Prelude.{◌≡◌, true, IfOk, OnOk, OnErr, option_map};
ghost use Rattle.outside.specs.Failing.{from_start};
ghost use Rattle.outside.specs.Files.{AreInOrder, Reads, Lists, Creates, Appends};
ghost use Rattle.outside.specs.MemState.{mem_state};
ghost use Rattle.outside.specs.MemFiles.{files_state, held_at_start, all_in_order, with_room, MemReads, MemLists, MemCreates, MemAppends};

use crate::contents::Contents;
use crate::failing::{Failing, Places};
use crate::files::{Entries, FileFail, Files, WriteFailed};
use crate::folders::FolderTable;
use crate::mem_tables::{
    MemFile, empty_file, extend_file, failed, file_bytes, file_table, read_file, reserve_file,
};
use std::alloc::Global;
use std::collections::BTreeMap;
use virt_base::{NoMemory, Text};

/// Files in memory, of whose calls some are to fail. They take bytes only where room was made.
#[derive(Drop)]
pub struct MemFiles {
    files: BTreeMap<String, MemFile>,
    folders: FolderTable,
    calls: Failing,
}

impl MemFiles {
    /// These files and folders, with no room for more; the calls of these numbers fail.
    pub fn new(alloc: Global, contents: Contents, failing: Places) -> Result<MemFiles, NoMemory>
        requires { all_in_order contents.folders ≡ true }
        ensures { IfOk result (λ m. mem_state m ≡ record { calls = from_start failing; held = held_at_start contents }) }
    {
        let files = file_table(alloc, contents.files)?;
        let folders = FolderTable::new(alloc, contents.folders)?;
        Ok(MemFiles {
            files,
            folders,
            calls: Failing::new(failing),
        })
    }

    /// Makes room for that many bytes in all under a name; one that is absent stays absent and is noted.
    /// Where memory runs out nothing changes.
    pub fn reserve(&mut self, alloc: Global, name: &Text, bytes: usize) -> Result<(), NoMemory>
        ensures ok { OnOk result (mem_state self.new ≡ record (mem_state self.old) { held = with_room (mem_state self.old).held name.now bytes }) }
        ensures err { OnErr result (mem_state self.new ≡ mem_state self.old) }
    {
        reserve_file(&mut self.files, alloc, name.as_str(), bytes)
    }

    /// The bytes of a file.
    pub fn file(&self, name: &Text) -> Option<&[u8]>
        ensures { option_map (λ bytes. bytes.now) result ≡ (mem_state self.now).held.file name.now }
    {
        file_bytes(&self.files, name.as_str())
    }

    /// How many calls failed.
    pub fn faults(&self) -> u64
        ensures { result ≡ (mem_state self.now).calls.faults }
    {
        self.calls.faults()
    }

    fn read_counted(&mut self, alloc: Global, name: &Text, limit: u64) -> Result<Vec<u8>, FileFail>
        ensures { MemReads name.now limit (mem_state self.old) (mem_state self.new) result }
    {
        let listed = self.calls.is_due();
        let answer = read_file(alloc, &self.files, name.as_str(), limit, listed);
        if failed(&answer) {
            self.calls.count_fault();
        }
        answer
    }

    fn list_counted(&mut self, alloc: Global, folder: &Text) -> Result<Entries, FileFail>
        ensures exact { MemLists folder.now (mem_state self.old) (mem_state self.new) result }
        ensures in_order { IfOk result AreInOrder }
    {
        let listed = self.calls.is_due();
        let answer = self.folders.list(alloc, folder.as_str(), listed);
        if failed(&answer) {
            self.calls.count_fault();
        }
        answer
    }

    fn create_counted(&mut self, name: &Text) -> Result<(), WriteFailed>
        ensures { MemCreates name.now (mem_state self.old) (mem_state self.new) result }
    {
        let listed = self.calls.is_due();
        let answer = empty_file(&mut self.files, name.as_str(), listed);
        if answer.is_err() {
            self.calls.count_fault();
        }
        answer
    }

    fn append_counted(&mut self, name: &Text, bytes: &[u8]) -> Result<(), WriteFailed>
        ensures { MemAppends name.now bytes.now (mem_state self.old) (mem_state self.new) result }
    {
        let listed = self.calls.is_due();
        let answer = extend_file(&mut self.files, name.as_str(), bytes, listed);
        if answer.is_err() {
            self.calls.count_fault();
        }
        answer
    }
}

impl Files for MemFiles {
    ghost use Rattle.outside.specs.MemState.{mem_state};

    ghost state = { λ m. files_state (mem_state m) };

    /// `Missing` exactly where there is no file of this name, else `Failed` exactly where the call is listed.
    fn read(&mut self, alloc: Global, name: &Text, limit: u64) -> Result<Vec<u8>, FileFail>
        ensures exact { MemReads name.now limit (mem_state self.old) (mem_state self.new) result }
        ensures means { Reads name.now limit (files_state (mem_state self.old)) (files_state (mem_state self.new)) result }
    {
        self.read_counted(alloc, name, limit)
    }

    /// `Missing` exactly where there is no folder of this name, else `Failed` exactly where the call is listed.
    fn list(&mut self, alloc: Global, folder: &Text) -> Result<Entries, FileFail>
        ensures exact { MemLists folder.now (mem_state self.old) (mem_state self.new) result }
        ensures means { Lists folder.now (files_state (mem_state self.old)) (files_state (mem_state self.new)) result }
    {
        self.list_counted(alloc, folder)
    }

    /// Fails exactly where the call is listed, or the name is neither there nor noted; nothing changes then.
    fn create(&mut self, name: &Text) -> Result<(), WriteFailed>
        ensures exact { MemCreates name.now (mem_state self.old) (mem_state self.new) result }
        ensures means { Creates name.now (files_state (mem_state self.old)) (files_state (mem_state self.new)) result }
    {
        self.create_counted(name)
    }

    /// Fails exactly where the call is listed, which writes nothing, or there is no file of this name, or the bytes pass
    /// its room, where what fits is written.
    fn append(&mut self, name: &Text, bytes: &[u8]) -> Result<(), WriteFailed>
        ensures exact { MemAppends name.now bytes.now (mem_state self.old) (mem_state self.new) result }
        ensures means { Appends name.now bytes.now (files_state (mem_state self.old)) (files_state (mem_state self.new)) result }
    {
        self.append_counted(name, bytes)
    }
}
