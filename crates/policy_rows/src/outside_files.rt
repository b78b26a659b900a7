//! Files outside, in memory.

use crate::holding::{number_in, parts};
use outside::{Contents, Entries, Entry, EntryKind, MemFiles, Named, NamedBytes, NamedEntries};
use std::alloc::Global;
use std::test::Fail;
use virt_base::{Items, Text, copy_bytes};

/// Each row: a name, `=`, and what the file holds.
fn files_of(alloc: Global, rows: &str) -> Result<NamedBytes, Fail> {
    let mut files = Items::empty(alloc);
    for row in rows.lines() {
        let (name, bytes) = parts(row, '=')?;
        files.push(Named {
            name: Text::from_str(alloc, name)?,
            value: copy_bytes(alloc, bytes.as_bytes())?,
        })?;
    }
    Ok(files)
}

/// Names between blanks, of which those of folders end in `/`.
fn entries_of(alloc: Global, names: &str) -> Result<Entries, Fail> {
    let mut entries = Items::empty(alloc);
    for name in names.split_whitespace() {
        let (name, kind) = match name.strip_suffix('/') {
            Some(name) => (name, EntryKind::Folder),
            None => (name, EntryKind::File),
        };
        let name = Text::from_str(alloc, name)?;
        entries.push(Entry { name, kind })?;
    }
    Ok(entries)
}

/// Each row: a name, `=`, and the entries of the folder.
fn folders_of(alloc: Global, rows: &str) -> Result<NamedEntries, Fail> {
    let mut folders = Items::empty(alloc);
    for row in rows.lines() {
        let (name, entries) = parts(row, '=')?;
        folders.push(Named {
            name: Text::from_str(alloc, name)?,
            value: entries_of(alloc, entries)?,
        })?;
    }
    Ok(folders)
}

/// Files and folders of rows.
pub fn contents_of(alloc: Global, files: &str, folders: &str) -> Result<Contents, Fail> {
    Ok(Contents {
        files: files_of(alloc, files)?,
        folders: folders_of(alloc, folders)?,
    })
}

/// Files in memory, of whose calls those of these numbers fail.
pub fn outside_of(alloc: Global, contents: Contents, failing: &str) -> Result<MemFiles, Fail> {
    let mut numbers = Items::empty(alloc);
    for number in failing.split_whitespace() {
        numbers.push(number_in(number)?)?;
    }
    if !contents.is_in_order() {
        return Err(Fail::new("a folder's entries are in no order"));
    }
    Ok(MemFiles::new(alloc, contents, numbers)?)
}
