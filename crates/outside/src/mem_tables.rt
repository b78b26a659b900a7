//! The files of files in memory: a table by name, in which a name that is only noted stands too.

ghost use Rattle.std.specs.Prelude.{◌≡◌, ℕ, List, [], Option, Some, IfOk, OnOk, OnErr, ◌||◌, is_err, true, option_map, length, string_bytes, if◌then◌else◌};
ghost use Rattle.std.specs.Str.{bytes_eq};
ghost use Rattle.std.specs.BTreeMap.{get_by_text};
ghost use Rattle.outside.specs.Buffer.{fill};
ghost use Rattle.outside.specs.Files.{is_over, with_file, with_more};
ghost use Rattle.outside.specs.MemFiles.{Answers, read_due, is_fault, first_named, what_fits, with_room};
ghost use Rattle.outside.specs.MemInside.{shown, room_of, is_no_place, held_by, full};
ghost use Rattle.outside.specs.declared.files.Entry.{Entry};

use crate::buffer::Buffer;
use crate::contents::NamedBytes;
use crate::files::{FileFail, WriteFailed};
use std::alloc::Global;
use std::collections::BTreeMap;
use virt_base::NoMemory;

/// A file in memory, or a name that is only noted.
#[derive(Drop)]
pub struct MemFile {
    pub held: Buffer,
    pub there: bool,
}

impl MemFile {
    /// Takes the bytes that there is room for, where the file is there.
    fn extend(&mut self, bytes: &[u8]) -> Result<(), WriteFailed>
        ensures fails { is_err result ≡ is_over self.old.held.room (length bytes.now) (shown (Some self.old)) }
        ensures held { self.new ≡ record self.old { held = if self.old.there then fill self.old.held bytes.now else self.old.held } }
    {
        if self.there && self.held.append(bytes) {
            Ok(())
        } else {
            Err(WriteFailed)
        }
    }

    fn empty(&mut self)
        ensures { self.new ≡ record { held = record self.old.held { bytes = [] }; there = true } }
    {
        self.held.clear();
        self.there = true;
    }
}

/// Whether a call failed, as its count of faults means it.
pub fn failed<T>(answer: &Result<T, FileFail>) -> bool
    ensures { result ≡ is_fault answer.now }
{
    match answer {
        Err(FileFail::Missing) | Err(FileFail::Failed) => true,
        Err(FileFail::TooLong(_)) | Err(FileFail::NoMemory) | Ok(_) => false,
    }
}

/// The bytes of a file that is there.
pub fn file_bytes<'a>(files: &'a BTreeMap<String, MemFile>, name: &str) -> Option<&'a [u8]>
    ensures { option_map (λ b. b.now) result ≡ shown (get_by_text files.now name.now) }
{
    match files.get(name) {
        Some(file) if file.there => Some(file.held.as_slice()),
        _ => None,
    }
}

pub fn read_file(
    alloc: Global,
    files: &BTreeMap<String, MemFile>,
    name: &str,
    limit: u64,
    listed: bool,
) -> Result<Vec<u8>, FileFail>
    ensures { Answers (λ bytes. bytes.items) (read_due listed limit (shown (get_by_text files.now name.now))) result }
{
    let Some(bytes) = file_bytes(files, name) else {
        return Err(FileFail::Missing);
    };
    if listed {
        return Err(FileFail::Failed);
    }
    let len = bytes.len() as u64;
    if len > limit {
        return Err(FileFail::TooLong(len));
    }
    match Vec::from_slice(alloc, bytes) {
        Ok(bytes) => Ok(bytes),
        Err(_) => Err(FileFail::NoMemory),
    }
}

/// Makes the name hold no bytes, where the call is not listed and the name is there or noted.
pub fn empty_file(
    files: &mut BTreeMap<String, MemFile>,
    name: &str,
    listed: bool,
) -> Result<(), WriteFailed>
    ensures fails { is_err result ≡ (listed || is_no_place (get_by_text files.old name.now)) }
    ensures held { (folder : List ℕ → Option (List Entry)) → held_by (λ n. get_by_text files.new n) folder ≡ (if listed || is_no_place (get_by_text files.old name.now) then held_by (λ n. get_by_text files.old n) folder else with_file (held_by (λ n. get_by_text files.old n) folder) name.now (Some [])) }
{
    if listed {
        return Err(WriteFailed);
    }
    match files.get_mut(name) {
        Some(file) => {
            file.empty();
            Ok(())
        }
        None => Err(WriteFailed),
    }
}

/// Adds the bytes that there is room for to the end of a file, where the call is not listed.
pub fn extend_file(
    files: &mut BTreeMap<String, MemFile>,
    name: &str,
    bytes: &[u8],
    listed: bool,
) -> Result<(), WriteFailed>
    ensures fails { is_err result ≡ (listed || is_over (room_of (get_by_text files.old name.now)) (length bytes.now) (shown (get_by_text files.old name.now))) }
    ensures held { (folder : List ℕ → Option (List Entry)) → held_by (λ n. get_by_text files.new n) folder ≡ (let old = held_by (λ n. get_by_text files.old n) folder in if listed then old else with_more old name.now (what_fits old name.now bytes.now)) }
{
    if listed {
        return Err(WriteFailed);
    }
    match files.get_mut(name) {
        Some(file) => file.extend(bytes),
        None => Err(WriteFailed),
    }
}

/// Puts a value under a name.
pub fn put<V: Drop>(table: &mut BTreeMap<String, V>, name: String, value: V) -> Result<(), NoMemory>
    ensures ok { OnOk result ((other : List ℕ) → get_by_text table.new other ≡ (if bytes_eq (string_bytes name) other then Some value else get_by_text table.old other)) }
    ensures err { OnErr result ((other : List ℕ) → get_by_text table.new other ≡ get_by_text table.old other) }
{
    table.insert(name, value)?;
    Ok(())
}

/// Makes room for that many bytes under a name, and notes it.
pub fn reserve_file(
    files: &mut BTreeMap<String, MemFile>,
    alloc: Global,
    name: &str,
    bytes: usize,
) -> Result<(), NoMemory>
    ensures ok { OnOk result ((folder : List ℕ → Option (List Entry)) → held_by (λ n. get_by_text files.new n) folder ≡ with_room (held_by (λ n. get_by_text files.old n) folder) name.now bytes) }
    ensures err { OnErr result ((folder : List ℕ → Option (List Entry)) → held_by (λ n. get_by_text files.new n) folder ≡ held_by (λ n. get_by_text files.old n) folder) }
{
    if let Some(file) = files.get_mut(name) {
        return file.held.reserve(bytes);
    }
    let mut held = Buffer::new(alloc);
    held.reserve(bytes)?;
    let key = String::from_str(alloc, name)?;
    put(files, key, MemFile { held, there: false })
}

/// The files that are there from the start.
pub fn file_table(alloc: Global, files: NamedBytes) -> Result<BTreeMap<String, MemFile>, NoMemory>
    ensures { IfOk result (λ table. (name : List ℕ) → get_by_text table name ≡ option_map full (first_named files name)) }
{
    let mut table = BTreeMap::new(alloc);
    let mut rest = files.into_vec();
    while let Some(file) = rest.pop() {
        let held = Buffer::full(file.value.into_vec());
        put(
            &mut table,
            file.name.into_string(),
            MemFile { held, there: true },
        )?;
    }
    Ok(table)
}
