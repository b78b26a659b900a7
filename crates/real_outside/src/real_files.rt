//! The machine's files and folders as `Files`: reads within a limit, listings in the order of names, writes, and a count of the faults.

ghost use Rattle.std.specs.Prelude.{ℕ, IfErr};
ghost use Rattle.outside.specs.Files.{IsWithin, IsListing};

use crate::real_sink::one_more;
use outside::{Entries, Entry, EntryKind, FileFail, Files, WriteFailed, are_in_order};
use std::alloc::Global;
use std::cmp::Ordering;
use std::fs::{DirEntry, OpenFile, OpenOptions};
use std::io::{ErrorKind, Read, Write};
use std::{fs, io, rt};
use virt_base::{Items, Text};

/// This many bytes are read in one call.
const PIECE: usize = 16_384;

/// Why the machine's last call failed that did; nothing where none has, or where the fault is not of the machine.
type Told = Option<io::Error>;

/// What an error of the machine is here, which is kept; never that a file is too long.
fn why(told: &mut Told, e: io::Error) -> FileFail
    ensures within { (limit : ℕ) → IsWithin limit (Err result) }
    ensures listing { IsListing (Err result) }
{
    *told = Some(e);
    match e.kind() {
        ErrorKind::NotFound => FileFail::Missing,
        ErrorKind::OutOfMemory => FileFail::NoMemory,
        _ => FileFail::Failed,
    }
}

/// Reads to the end, unless there are more bytes than the limit.
fn read_all<R: Read>(
    file: &mut R,
    alloc: Global,
    limit: u64,
    told: &mut Told,
) -> Result<Vec<u8>, FileFail>
    ensures { IsWithin limit result }
{
    let mut bytes = Vec::new(alloc);
    let mut buffer = [0u8; PIECE];
    for _ in 0..u64::MAX {
        match file.read(&mut buffer) {
            Ok(0) => return Ok(bytes),
            Ok(count) => {
                let len = bytes.len() as u64 + count as u64;
                if len > limit {
                    return Err(FileFail::TooLong(len));
                }
                if bytes.extend_from_slice(&buffer[..count]).is_err() {
                    return Err(FileFail::NoMemory);
                }
            }
            Err(e) => {
                *told = Some(e);
                break;
            }
        }
    }
    Err(FileFail::Failed)
}

/// The bytes of a file. One that is longer than the limit is not read.
fn read_file<R: rt::Files>(
    rt: &R,
    alloc: Global,
    name: &str,
    limit: u64,
    told: &mut Told,
) -> Result<Vec<u8>, FileFail>
    ensures { IsWithin limit result }
{
    let mut file = match fs::open(rt, name) {
        Ok(file) => file,
        Err(e) => return Err(why(told, e)),
    };
    match file.metadata() {
        Ok(found) if found.is_file() && found.len() > limit => Err(FileFail::TooLong(found.len())),
        Ok(_) => read_all(&mut file, alloc, limit, told),
        Err(e) => {
            *told = Some(e);
            Err(FileFail::Failed)
        }
    }
}

const OTHER_KIND: &str = "an entry is neither a file nor a folder";

/// An entry that is a file or a folder; another, as a symbolic link, is a failure.
fn entry_of<R: rt::Files + Alloc>(
    alloc: Global,
    found: &DirEntry<R, R::A>,
    told: &mut Told,
) -> Result<Entry, FileFail>
    ensures { IfErr result (λ fail. IsListing (Err fail)) }
{
    let kind = match found.file_type() {
        Ok(kind) if kind.is_file() => EntryKind::File,
        Ok(kind) if kind.is_dir() => EntryKind::Folder,
        Ok(_) => {
            *told = Some(io::Error::other(OTHER_KIND));
            return Err(FileFail::Failed);
        }
        Err(e) => {
            *told = Some(e);
            return Err(FileFail::Failed);
        }
    };
    match Text::from_str(alloc, found.file_name()) {
        Ok(name) => Ok(Entry { name, kind }),
        Err(_) => Err(FileFail::NoMemory),
    }
}

fn by_name(a: &Entry, b: &Entry) -> Ordering {
    a.name.bytes().cmp(b.name.bytes())
}

/// The entries of a folder, in the order of the bytes of their names.
fn list_folder<R: rt::Files + Alloc + Clone + Drop>(
    rt: &R,
    alloc: Global,
    name: &str,
    told: &mut Told,
) -> Result<Entries, FileFail>
    ensures { IsListing result }
{
    let folder = match fs::read_dir(rt, name) {
        Ok(folder) => folder,
        Err(e) => return Err(why(told, e)),
    };
    let mut entries = Vec::new(alloc);
    for found in folder {
        let found = match found {
            Ok(found) => found,
            Err(e) => {
                *told = Some(e);
                return Err(FileFail::Failed);
            }
        };
        if entries.push(entry_of(alloc, &found, told)?).is_err() {
            return Err(FileFail::NoMemory);
        }
    }
    if entries.sort_by(by_name).is_err() {
        return Err(FileFail::NoMemory);
    }
    if !are_in_order(entries.as_slice()) {
        return Err(FileFail::Failed);
    }
    Ok(Items::new(entries))
}

/// Writes all of the bytes, or fails. A write that takes nothing of them is a failure.
fn write_whole<W: Write>(writer: &mut W, bytes: &[u8]) -> io::Result<()> {
    let mut rest = bytes;
    while !rest.is_empty() {
        match writer.write(rest) {
            Ok(0) => return Err(io::Error::from(ErrorKind::WriteZero)),
            Ok(count) => rest = &rest[count..],
            Err(e) => return Err(e),
        }
    }
    writer.flush()
}

/// The machine's files, with their faults counted.
#[derive(Drop)]
pub struct RealFiles<'r, R> {
    rt: &'r R,
    faults: u64,
    told: Told,
}

impl<'r, R> RealFiles<'r, R> {
    /// The files that this runtime reaches, with no fault counted yet.
    pub fn new(rt: &'r R) -> RealFiles<'r, R> {
        RealFiles {
            rt,
            faults: 0,
            told: None,
        }
    }

    /// The machine's reason of the last fault, where the fault is the machine's.
    pub fn reason(&self) -> Option<io::Error> {
        self.told
    }
}

impl<R: rt::Files + Alloc + Clone + Drop> Files for RealFiles<'_, R> {
    ghost use Rattle.real_outside.specs.Real.{untold_files};

    ghost state = { λ s. untold_files s.faults };

    fn read(&mut self, alloc: Global, name: &Text, limit: u64) -> Result<Vec<u8>, FileFail> {
        self.told = None;
        let read = read_file(self.rt, alloc, name.as_str(), limit, &mut self.told);
        if let Err(FileFail::Missing | FileFail::Failed) = &read {
            self.faults = one_more(self.faults);
        }
        read
    }

    fn list(&mut self, alloc: Global, folder: &Text) -> Result<Entries, FileFail> {
        self.told = None;
        let listed = list_folder(self.rt, alloc, folder.as_str(), &mut self.told);
        if let Err(FileFail::Missing | FileFail::Failed) = &listed {
            self.faults = one_more(self.faults);
        }
        listed
    }

    fn create(&mut self, name: &Text) -> Result<(), WriteFailed> {
        match fs::create(self.rt, name.as_str()) {
            Ok(_) => Ok(()),
            Err(e) => {
                self.told = Some(e);
                self.faults = one_more(self.faults);
                Err(WriteFailed)
            }
        }
    }

    fn append(&mut self, name: &Text, bytes: &[u8]) -> Result<(), WriteFailed> {
        let file = OpenOptions::new().append(true).open(self.rt, name.as_str());
        let written = match file {
            Ok(mut file) => write_whole(&mut file, bytes),
            Err(e) => Err(e),
        };
        match written {
            Ok(()) => Ok(()),
            Err(e) => {
                self.told = Some(e);
                self.faults = one_more(self.faults);
                Err(WriteFailed)
            }
        }
    }
}
