//! The top call over files in memory, of words that stand in one text.

use outside::{Contents, Files, MemFiles, MemSink, Named, Places, Sink};
use std::alloc::Global;
use virt_base::{Items, NoMemory, Text};
use virt_engine::{code, wasi_virt};

/// The exit status of these words. Its callers name their files and their sink, and what the call promises of any is not written out
/// for each.
fn exit_of<F: Files, S: Sink>(alloc: Global, words: &[Text], files: &mut F, out: &mut S) -> u8 {
    code(&wasi_virt(alloc, words, files, out))
}

fn words_of(alloc: Global, words: &str) -> Result<Vec<Text>, NoMemory> {
    let mut texts = Vec::new(alloc);
    for word in words.split_whitespace() {
        texts.push(Text::from_str(alloc, word)?)?;
    }
    Ok(texts)
}

/// The exit status of words in one text.
fn status_of<F: Files>(alloc: Global, words: &str, files: &mut F, out: &mut MemSink) -> Option<u8> {
    let words = words_of(alloc, words).ok()?;
    Some(exit_of(alloc, words.as_slice(), files, out))
}

/// A status and a text, with a space between where there is a text.
pub fn joined(alloc: Global, status: u8, text: &str) -> Option<String> {
    let space = if text.is_empty() { "" } else { " " };
    format!(in alloc; "{status}{space}{text}").ok()
}

/// The exit status of these words, and the text that is put.
pub fn said<F: Files>(
    alloc: Global,
    words: &str,
    files: &mut F,
    out: &mut MemSink,
) -> Option<String> {
    let status = status_of(alloc, words, files, out)?;
    joined(alloc, status, str::from_utf8(out.bytes()).ok()?)
}

pub fn no_contents(alloc: Global) -> Contents {
    Contents {
        files: Items::empty(alloc),
        folders: Items::empty(alloc),
    }
}

/// Adds a file.
pub fn add_file(
    alloc: Global,
    name: &str,
    bytes: Vec<u8>,
    contents: &mut Contents,
) -> Result<(), NoMemory> {
    let name = Text::from_str(alloc, name)?;
    let value = Items::new(bytes);
    contents.files.push(Named { name, value })
}

/// Files of which calls of these numbers fail. They are boxed, since each function that owns them as they are costs its check ten
/// seconds more.
pub fn files_of(alloc: Global, contents: Contents, failing: Places) -> Option<Box<MemFiles>> {
    if !contents.is_in_order() {
        return None;
    }
    let files = MemFiles::new(alloc, contents, failing).ok()?;
    Box::new(alloc, files).ok()
}

/// A sink with room for that many bytes, of whose calls those of these numbers fail.
pub fn sink_of(alloc: Global, room: usize, failing: Places) -> Option<MemSink> {
    let mut sink = MemSink::new(alloc, failing);
    sink.reserve(alloc, room).ok()?;
    Some(sink)
}
