//! Files that tell nothing of what they hold, and answer what settings say.

ghost use Rattle.std.specs.Prelude.{◌≤◌};
ghost use Rattle.outside.specs.Fault.{Rose};
ghost use Rattle.outside.specs.Files.{IsWithin, IsListing};

use crate::calling::said;
use crate::memory::sink_for;
use crate::settings::{number, setting};
use crate::texts::{bytes_of, halves};
use outside::{Entries, FileFail, Files, WriteFailed};
use std::alloc::Global;
use virt_base::{Items, Text};

/// Files that answer so, of which that many writes come to pass before one fails, with their faults counted.
#[derive(Drop)]
struct Untold<'a> {
    settings: &'a [&'a str],
    writes: u64,
    faults: u64,
}

/// A count of faults, which stays at its greatest value.
fn one_more(faults: u64) -> u64
    ensures rose { Rose faults result }
    ensures later { faults ≤ result }
{
    faults.saturating_add(1)
}

/// The bytes of a file, where it is not longer than is asked for.
fn within(bytes: Vec<u8>, limit: u64) -> Result<Vec<u8>, FileFail>
    ensures { IsWithin limit result }
{
    let len = bytes.len() as u64;
    if len > limit {
        return Err(FileFail::TooLong(len));
    }
    Ok(bytes)
}

/// A file of that many bytes, each of them where it is not longer than is asked for, fails to be read.
fn as_long(len: u64, limit: u64) -> Result<Vec<u8>, FileFail>
    ensures { IsWithin limit result }
{
    if len > limit {
        return Err(FileFail::TooLong(len));
    }
    Err(FileFail::Failed)
}

/// The bytes that a setting says, or a failure to read that many.
fn bytes_or_length(alloc: Global, to: &str, limit: u64) -> Result<Vec<u8>, FileFail>
    ensures { IsWithin limit result }
{
    let (kind, text) = halves(to, " ");
    if kind == "!" {
        return as_long(text.parse::<u64>().unwrap_or(0), limit);
    }
    match bytes_of(alloc, kind, text) {
        Some(bytes) => within(bytes, limit),
        None => Err(FileFail::NoMemory),
    }
}

fn read_of(alloc: Global, to: &str, limit: u64) -> Result<Vec<u8>, FileFail>
    ensures { IsWithin limit result }
{
    match to {
        "! missing" => Err(FileFail::Missing),
        "! memory" => Err(FileFail::NoMemory),
        _ => bytes_or_length(alloc, to, limit),
    }
}

fn list_of(alloc: Global, to: &str) -> Result<Entries, FileFail>
    ensures { IsListing result }
{
    match to {
        "/" => Ok(Items::empty(alloc)),
        "! missing" => Err(FileFail::Missing),
        "! memory" => Err(FileFail::NoMemory),
        _ => Err(FileFail::Failed),
    }
}

impl Files for Untold<'_> {
    ghost use Rattle.engine_rows.specs.Untold.{untold};

    ghost state = { λ s. untold s.faults };

    fn read(&mut self, alloc: Global, name: &Text, limit: u64) -> Result<Vec<u8>, FileFail> {
        let to = setting(self.settings, name.as_str()).unwrap_or("! missing");
        let read = read_of(alloc, to, limit);
        if read.is_err() {
            self.faults = one_more(self.faults);
        }
        read
    }

    fn list(&mut self, alloc: Global, name: &Text) -> Result<Entries, FileFail> {
        let to = setting(self.settings, name.as_str()).unwrap_or("! missing");
        let listed = list_of(alloc, to);
        if listed.is_err() {
            self.faults = one_more(self.faults);
        }
        listed
    }

    fn create(&mut self, _: &Text) -> Result<(), WriteFailed> {
        if self.writes == 0 {
            self.faults = one_more(self.faults);
            return Err(WriteFailed);
        }
        self.writes -= 1;
        Ok(())
    }

    fn append(&mut self, _: &Text, _: &[u8]) -> Result<(), WriteFailed> {
        if self.writes == 0 {
            self.faults = one_more(self.faults);
            return Err(WriteFailed);
        }
        self.writes -= 1;
        Ok(())
    }
}

/// What comes of a row over files that tell nothing.
pub fn outcome(alloc: Global, settings: &[&str]) -> Option<String> {
    let writes = number(settings, "writes", 0);
    let mut files = Untold {
        settings,
        writes,
        faults: 0,
    };
    let mut out = sink_for(alloc, settings)?;
    said(alloc, setting(settings, "$")?, &mut files, &mut out)
}
