//! Rows of tables: a status, a name, and the words of a call, which name the files that it reads.

use crate::calling::{add_file, files_of, joined, no_contents, said, sink_of};
use outside::{Contents, MemFiles, MemSink};
use std::alloc::Global;
use std::fs;
use virt_base::Items;

/// Lines have at most that many bytes together.
const ROOM: usize = 1_048_576;

/// Adds the file that a word names, if it names one.
fn add_named(rt: &HostRuntime, word: &str, contents: &mut Contents) -> Option<()> {
    if word.contains('.') {
        let bytes = fs::read(rt, word).ok()?;
        add_file(rt.alloc(), word, bytes, contents).ok()?;
    }
    Some(())
}

/// A sink for the lines of a run.
pub fn sink(alloc: Global) -> Option<MemSink> {
    sink_of(alloc, ROOM, Items::empty(alloc))
}

/// The files that words name.
pub fn files_for(rt: &HostRuntime, words: &str) -> Option<Box<MemFiles>> {
    let alloc = rt.alloc();
    let mut contents = no_contents(alloc);
    for word in words.split_whitespace() {
        add_named(rt, word, &mut contents)?;
    }
    files_of(alloc, contents, Items::empty(alloc))
}

/// What the words of a row came to.
fn came(rt: &HostRuntime, words: &str) -> Option<String> {
    let alloc = rt.alloc();
    let mut out = sink(alloc)?;
    let mut files = files_for(rt, words)?;
    said(alloc, words, &mut *files, &mut out)
}

/// What stands in the file of lines of a row of this name.
fn lines_of(rt: &HostRuntime, name: &str) -> Option<String> {
    let path = format!(in rt.alloc(); "{name}.lines").ok()?;
    fs::read_to_string(rt, path.as_str()).ok()
}

/// What a row is to give.
pub fn wanted(rt: &HostRuntime, status: &str, name: &str) -> Option<String> {
    let status = status.parse::<u8>().ok()?;
    joined(rt.alloc(), status, lines_of(rt, name)?.as_str())
}

/// Whether the words of a row come to its status and its lines.
pub fn comes_out(rt: &HostRuntime, status: &str, name: &str, words: &str) -> bool {
    match (came(rt, words), wanted(rt, status, name)) {
        (Some(came), Some(wanted)) => came == wanted,
        _ => false,
    }
}
