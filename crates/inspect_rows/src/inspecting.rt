//! Blocks of rows, and what comes of them.
//!
//! A line `# REMARK` begins a block, in which nothing is set. Each other line sets a name: `NAME : TEXT` or `NAME x DIGITS` is a file,
//! `$ WORDS` are the words of a call, `fails N` and `puts N` say which call of the files and of the sink fails, and `room N` how many bytes
//! the sink takes. A line that goes on with ` => OUTCOME` is a row: with all that was set last in its block the call has this outcome, its
//! status and the text that is put, in which `&` ends a line.

use crate::texts::{bytes_of, halves, lines_of};
use inspect_engine::{code, wasi_inspect};
use outside::{Contents, Files, MemFiles, MemSink, Named, Places, Sink};
use std::alloc::Global;
use std::process::Abort;
use std::test::Fail;
use virt_base::{Items, NoMemory, Text};

/// What a name was set to last.
fn setting<'a>(settings: &[&'a str], name: &str) -> Option<&'a str> {
    let mut last = None;
    for setting in settings {
        let (set, to) = halves(setting, " ");
        if set == name {
            last = Some(to);
        }
    }
    last
}

/// The call that is to fail, if a name was set to its number.
fn failing(alloc: Global, settings: &[&str], name: &str) -> Option<Places> {
    let mut places = Items::empty(alloc);
    if let Some(text) = setting(settings, name) {
        places.push(text.parse::<u64>().ok()?).ok()?;
    }
    Some(places)
}

/// Adds what a setting says, if it is of a file.
fn add(alloc: Global, setting: &str, contents: &mut Contents) -> Result<(), NoMemory> {
    let (name, to) = halves(setting, " ");
    let (kind, text) = halves(to, " ");
    match bytes_of(alloc, kind, text) {
        None => Ok(()),
        Some(bytes) => {
            let name = Text::from_str(alloc, name)?;
            let value = Items::new(bytes);
            contents.files.push(Named { name, value })
        }
    }
}

/// The files of a row. Of those with one name the first counts, so they are added from the last on.
fn files_for(alloc: Global, settings: &[&str]) -> Option<Box<MemFiles>> {
    let mut contents = Contents {
        files: Items::empty(alloc),
        folders: Items::empty(alloc),
    };
    for setting in settings.iter().rev() {
        add(alloc, setting, &mut contents).ok()?;
    }
    if !contents.is_in_order() {
        return None;
    }
    let files = MemFiles::new(alloc, contents, failing(alloc, settings, "fails")?).ok()?;
    Box::new(alloc, files).ok()
}

fn sink_for(alloc: Global, settings: &[&str]) -> Option<MemSink> {
    let mut sink = MemSink::new(alloc, failing(alloc, settings, "puts")?);
    let room = match setting(settings, "room") {
        Some(text) => text.parse::<usize>().ok()?,
        None => 1_000,
    };
    sink.reserve(alloc, room).ok()?;
    Some(sink)
}

fn words_of(alloc: Global, words: &str) -> Option<Vec<Text>> {
    let mut texts = Vec::new(alloc);
    for word in words.split_whitespace() {
        texts.push(Text::from_str(alloc, word).ok()?).ok()?;
    }
    Some(texts)
}

/// The exit status of these words. Its callers name their files and their sink, and what the call promises of any is not written out
/// for each.
fn exit_of<F: Files, S: Sink>(alloc: Global, words: &[Text], files: &mut F, out: &mut S) -> u8 {
    code(&wasi_inspect(alloc, words, files, out))
}

/// The status of a call, and the text that was put, with a space between where there is a text.
fn outcome(alloc: Global, settings: &[&str]) -> Option<String> {
    let words = words_of(alloc, setting(settings, "$")?)?;
    let mut files = files_for(alloc, settings)?;
    let mut out = sink_for(alloc, settings)?;
    let status = exit_of(alloc, words.as_slice(), &mut *files, &mut out);
    let text = str::from_utf8(out.bytes()).ok()?;
    let space = if text.is_empty() { "" } else { " " };
    format!(in alloc; "{status}{space}{text}").ok()
}

fn same(rt: &impl Abort, found: &str, wanted: &str, row: &str) {
    assert_eq!(rt; found, wanted, "{row}");
}

/// Compares the outcome with what is wanted, unless a row cannot be read or memory runs out.
fn compare(
    rt: &impl Abort,
    alloc: Global,
    settings: &[&str],
    wanted: &str,
    row: &str,
) -> Option<()> {
    let wanted = lines_of(alloc, wanted)?;
    let found = outcome(alloc, settings)?;
    same(rt, found.as_str(), wanted.as_str(), row);
    Some(())
}

fn take<'a>(
    rt: &impl Abort,
    alloc: Global,
    line: &'a str,
    settings: &mut Vec<&'a str>,
) -> Result<(), Fail> {
    if line.starts_with("# ") {
        settings.clear();
        return Ok(());
    }
    let (setting, wanted) = halves(line, " => ");
    settings.push(setting)?;
    if wanted.is_empty() {
        return Ok(());
    }
    match compare(rt, alloc, settings.as_slice(), wanted, line) {
        Some(()) => Ok(()),
        None => Err(Fail::from("no row, or no memory")),
    }
}

/// Each row has the outcome that stands in it.
pub fn hold(rt: &impl Abort, alloc: Global, rows: &str) -> Result<(), Fail> {
    let mut settings = Vec::new(alloc);
    for line in rows.lines() {
        take(rt, alloc, line, &mut settings)?;
    }
    Ok(())
}
