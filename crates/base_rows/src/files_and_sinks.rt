//! Rows: calls of files and of a sink in memory, with what they answer where calls fail at listed places.

use crate::rows::{number_in, parts, printed, same};
use outside::{
    Contents, Entries, Entry, EntryKind, FileFail, Files, MemFiles, MemSink, Named, Places, Sink,
};
use std::alloc::Global;
use std::test::Fail;
use virt_base::{Items, Text, copy_bytes};

/// A file `x` and a folder `xy`.
fn entries(a: Global) -> Result<Entries, Fail> {
    let mut entries = Items::empty(a);
    for (name, kind) in [("x", EntryKind::File), ("xy", EntryKind::Folder)] {
        let name = Text::from_str(a, name)?;
        entries.push(Entry { name, kind })?;
    }
    Ok(entries)
}

/// The file `a` with two bytes, and the folder `d` with a file and a folder.
fn contents(a: Global) -> Result<Contents, Fail> {
    let mut files = Items::empty(a);
    files.push(Named {
        name: Text::from_str(a, "a")?,
        value: copy_bytes(a, b"12")?,
    })?;
    let mut folders = Items::empty(a);
    folders.push(Named {
        name: Text::from_str(a, "d")?,
        value: entries(a)?,
    })?;
    Ok(Contents { files, folders })
}

fn places(a: Global, numbers: &[u64]) -> Result<Places, Fail> {
    Ok(Items::new(Vec::from_slice(a, numbers)?))
}

/// They are boxed, since each function that owns them as they are costs its check ten seconds more.
fn files_with(a: Global, failing: &[u64]) -> Result<Box<MemFiles>, Fail> {
    let contents = contents(a)?;
    if !contents.is_in_order() {
        return Err(Fail::new("not in order"));
    }
    let files = MemFiles::new(a, contents, places(a, failing)?)?;
    Ok(Box::new(a, files)?)
}

const SEVENS: [u8; 30] = [7; 30];

/// A call that only writes, or makes room.
fn done(is_done: bool) -> Result<usize, FileFail> {
    if is_done {
        Ok(0)
    } else {
        Err(FileFail::Failed)
    }
}

/// How many bytes or entries a call gives.
fn called(
    a: Global,
    files: &mut MemFiles,
    name: &Text,
    call: &str,
    number: usize,
) -> Result<usize, FileFail> {
    match call {
        "read" => files.read(a, name, number as u64).map(|bytes| bytes.len()),
        "list" => files.list(a, name).map(|entries| entries.len()),
        "create" => done(files.create(name).is_ok()),
        "append" => done(files.append(name, &SEVENS[..number.min(30)]).is_ok()),
        _ => done(files.reserve(a, name, number).is_ok()),
    }
}

/// What a call answers, how long the name's file is then, and how many calls failed so far.
fn answer(a: Global, files: &mut MemFiles, asked: &str) -> Result<String, Fail> {
    let (name, rest) = parts(asked, " ")?;
    let (call, number) = parts(rest, " ")?;
    let name = Text::from_str(a, name)?;
    let number = usize::try_from(number_in(number)?)?;
    let answer = called(a, files, &name, call, number);
    let len = files.file(&name).map(|bytes| bytes.len());
    printed(a, &(answer, len, files.faults()))
}

/// Each row: a name, a call and its number, and after ` => ` its answer.
fn runs(a: Global, failing: &[u64], rows: &str) -> Result<(), Fail> {
    let mut files = files_with(a, failing)?;
    for row in rows.lines() {
        let (asked, wanted) = parts(row, " => ")?;
        same(row, answer(a, &mut files, asked)?.as_str(), wanted)?;
    }
    Ok(())
}

const KEPT: &str = "\
a read 2 => (Ok(2), Some(2), 0)
a read 1 => (Err(TooLong(2)), Some(2), 0)
d list 0 => (Ok(2), None, 0)
o read 9 => (Err(Missing), None, 1)
a list 0 => (Err(Missing), Some(2), 2)
o create 0 => (Err(Failed), None, 3)
o append 1 => (Err(Failed), None, 4)
a append 1 => (Err(Failed), Some(2), 5)
o reserve 50 => (Ok(0), None, 5)
o append 1 => (Err(Failed), None, 6)
o create 0 => (Ok(0), Some(0), 6)
o append 30 => (Ok(0), Some(30), 6)
o append 30 => (Err(Failed), Some(50), 7)
o read 50 => (Ok(50), Some(50), 7)
a create 0 => (Ok(0), Some(0), 7)
a append 2 => (Ok(0), Some(2), 7)";

/// With the calls 0, 2, 4, 6 and 8 to fail.
const FAILING: &str = "\
a reserve 9 => (Ok(0), Some(2), 0)
a read 1 => (Err(Failed), Some(2), 1)
a read 2 => (Ok(2), Some(2), 1)
d list 0 => (Err(Failed), None, 2)
d list 0 => (Ok(2), None, 2)
a create 0 => (Err(Failed), Some(2), 3)
a create 0 => (Ok(0), Some(0), 3)
a append 1 => (Err(Failed), Some(0), 4)
a append 1 => (Ok(0), Some(1), 4)
o read 1 => (Err(Missing), None, 5)";

#[test]
fn keeps_files(rt: HostRuntime) -> Result<(), Fail> {
    runs(rt.alloc(), &[], KEPT)
}

#[test]
fn fails_where_listed(rt: HostRuntime) -> Result<(), Fail> {
    runs(rt.alloc(), &[0, 2, 4, 6, 8], FAILING)
}

#[test]
fn gives_what_it_holds(rt: HostRuntime) -> Result<(), Fail> {
    let a = rt.alloc();
    let mut files = files_with(a, &[])?;
    let bytes = files.read(a, &Text::from_str(a, "a")?, 2)?;
    let entries = files.list(a, &Text::from_str(a, "d")?)?;
    let found = format!(in a; "{bytes:?} {:?}", entries.as_slice())?;
    let wanted =
        "[49, 50] [Entry { name: Text { chars: \"x\" }, kind: File }, Entry { name: Text { chars: \"xy\" }, kind: Folder }]";
    same("what is held", found.as_str(), wanted)
}

/// Each row: what is put, and after ` => ` how it goes, what the sink holds then, and how many calls failed so far.
const PUTS: &str = "\
1 => Ok(()) [49] 0
2 => Err(PutFailed) [49] 1
345 => Err(PutFailed) [49, 51, 52] 2
 => Ok(()) [49, 51, 52] 2";

fn put(a: Global, sink: &mut MemSink, text: &str) -> Result<String, Fail> {
    let done = sink.put(text.as_bytes());
    Ok(format!(in a; "{done:?} {:?} {}", sink.bytes(), sink.faults())?)
}

/// The call 1 is to fail, and there is room for three bytes.
#[test]
fn keeps_what_is_put(rt: HostRuntime) -> Result<(), Fail> {
    let a = rt.alloc();
    let mut sink = Box::new(a, MemSink::new(a, places(a, &[1])?))?;
    sink.reserve(a, 3)?;
    for row in PUTS.lines() {
        let (text, wanted) = parts(row, " => ")?;
        same(row, put(a, &mut sink, text)?.as_str(), wanted)?;
    }
    Ok(())
}
