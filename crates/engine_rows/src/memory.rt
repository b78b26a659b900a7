//! Files in memory, of which settings say what they hold.

use crate::calling::{add_file, files_of, no_contents, said, sink_of};
use crate::settings::{failing, number, setting};
use crate::texts::{bytes_of, halves, written_out};
use crate::wrapped::{OUT, ROOM, words_for};
use outside::{Contents, Entries, Entry, EntryKind, MemFiles, MemSink, Named};
use std::alloc::Global;
use virt_base::{Items, NoMemory, Text};

/// Adds an entry of a folder, which is a folder where a `/` stands after its name.
fn add_entry(alloc: Global, word: &str, entries: &mut Entries) -> Result<(), NoMemory> {
    let (name, kind) = match word.strip_suffix("/") {
        Some(name) => (name, EntryKind::Folder),
        None => (word, EntryKind::File),
    };
    let name = Text::from_str(alloc, name)?;
    entries.push(Entry { name, kind })
}

fn add_folder(
    alloc: Global,
    name: &str,
    words: &str,
    contents: &mut Contents,
) -> Result<(), NoMemory> {
    let mut value = Items::empty(alloc);
    for word in words.split_whitespace() {
        add_entry(alloc, word, &mut value)?;
    }
    let name = Text::from_str(alloc, name)?;
    contents.folders.push(Named { name, value })
}

/// Adds what a setting says, if it is of a file or a folder.
fn add(alloc: Global, setting: &str, contents: &mut Contents) -> Result<(), NoMemory> {
    let (name, to) = halves(setting, " ");
    let (kind, text) = halves(to, " ");
    if kind == "/" {
        return add_folder(alloc, name, text, contents);
    }
    match bytes_of(alloc, kind, text) {
        Some(bytes) => add_file(alloc, name, bytes, contents),
        None => Ok(()),
    }
}

// Of files with one name the first counts.
fn files_for(alloc: Global, settings: &[&str]) -> Option<Box<MemFiles>> {
    let failing = failing(alloc, settings, "fails")?;
    let mut contents = no_contents(alloc);
    for setting in settings.iter().rev() {
        add(alloc, setting, &mut contents).ok()?;
    }
    files_of(alloc, contents, failing)
}

/// A sink with the room that is set, of whose calls one may fail.
pub fn sink_for(alloc: Global, settings: &[&str]) -> Option<MemSink> {
    let failing = failing(alloc, settings, "puts")?;
    sink_of(alloc, number(settings, "room", 1000) as usize, failing)
}

/// The digits of what a file holds.
fn shown(alloc: Global, name: &str, bytes: &[u8]) -> Option<String> {
    let digits = hex::encode(alloc, bytes).ok()?;
    format!(in alloc; " {name}={digits}").ok()
}

/// Adds what a file holds, if it is there.
fn show(alloc: Global, files: &MemFiles, name: &str, all: &mut String) -> Option<()> {
    match files.file(&Text::from_str(alloc, name).ok()?) {
        Some(bytes) => all.push_str(shown(alloc, name, bytes)?.as_str()).ok(),
        None => Some(()),
    }
}

/// What comes of the words, and what OUT holds then, or the files that are to be shown.
fn comes(
    alloc: Global,
    settings: &[&str],
    files: &mut MemFiles,
    out: &mut MemSink,
) -> Option<String> {
    let room = number(settings, "out", 200) as usize;
    files
        .reserve(alloc, &Text::from_str(alloc, "o").ok()?, room)
        .ok()?;
    if let Some(words) = setting(settings, "before") {
        said(alloc, words, files, &mut sink_for(alloc, settings)?)?;
    }
    let mut all = said(alloc, setting(settings, "$")?, files, out)?;
    for name in setting(settings, "show").unwrap_or("o").split_whitespace() {
        show(alloc, files, name, &mut all)?;
    }
    Some(all)
}

/// What comes of a row over files in memory.
pub fn outcome(alloc: Global, settings: &[&str]) -> Option<String> {
    let mut out = sink_for(alloc, settings)?;
    let mut files = files_for(alloc, settings)?;
    comes(alloc, settings, &mut files, &mut out)
}

/// The files of a row, with room for what `virt` writes.
fn files_to_wrap(alloc: Global, settings: &[&str]) -> Option<Box<MemFiles>> {
    let mut files = files_for(alloc, settings)?;
    files
        .reserve(alloc, &Text::from_str(alloc, OUT).ok()?, ROOM)
        .ok()?;
    Some(files)
}

/// What comes of a run under a policy where its component is wrapped under the policy and what that wrote runs without one; or why
/// nothing was written.
pub fn wrapped_outcome(alloc: Global, settings: &[&str]) -> Option<String> {
    let (wrap, run) = words_for(alloc, setting(settings, "$")?)?;
    let mut files = files_to_wrap(alloc, settings)?;
    let done = said(
        alloc,
        wrap.as_str(),
        &mut *files,
        &mut sink_for(alloc, settings)?,
    )?;
    if done.as_str().starts_with("0 ") {
        said(
            alloc,
            run.as_str(),
            &mut *files,
            &mut sink_for(alloc, settings)?,
        )
    } else {
        Some(done)
    }
}

/// What an output imports: the end of what is said of it.
pub fn imports_of(alloc: Global, settings: &[&str]) -> Option<String> {
    let mut out = sink_for(alloc, settings)?;
    let mut files = files_to_wrap(alloc, settings)?;
    let done = said(alloc, setting(settings, "$")?, &mut *files, &mut out)?;
    let (_, imports) = done.as_str().split_once("bytes out, ")?;
    String::from_str(alloc, imports).ok()
}

/// What is said of an output, without its length.
fn without_length(alloc: Global, said: &str) -> Option<String> {
    let (front, rest) = halves(said, " bytes in, ");
    match rest.split_once(" bytes out, ") {
        Some((_, imports)) => format!(in alloc; "{front} bytes in, {imports}").ok(),
        None => String::from_str(alloc, said).ok(),
    }
}

/// Whether the output holds the digits that are set as `within`.
fn is_within(alloc: Global, settings: &[&str], files: &MemFiles) -> Option<bool> {
    let (_, text) = halves(setting(settings, "within")?, " ");
    let part = written_out(alloc, text)?;
    let bytes = files.file(&Text::from_str(alloc, OUT).ok()?)?;
    Some(
        hex::encode(alloc, bytes)
            .ok()?
            .as_str()
            .contains(part.as_str()),
    )
}

/// What is said of an output, but for its length, and whether it holds what is set.
pub fn counts_of(alloc: Global, settings: &[&str]) -> Option<String> {
    let mut out = sink_for(alloc, settings)?;
    let mut files = files_to_wrap(alloc, settings)?;
    let done = said(alloc, setting(settings, "$")?, &mut *files, &mut out)?;
    let mut all = without_length(alloc, done.as_str())?;
    if is_within(alloc, settings, &*files) == Some(true) {
        all.push_str(" within").ok()?;
    }
    Some(all)
}
