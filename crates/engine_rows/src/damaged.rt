//! Damaged applications: each byte in turn is replaced by `FF`, and then cut off with all that follows.

use crate::calling::{add_file, files_of, no_contents, said, sink_of};
use crate::texts::bytes_of;
use outside::MemFiles;
use std::alloc::Global;
use std::process::Abort;
use std::test::Fail;
use virt_base::{Items, Text};

/// A policy that leaves to the machine what the applications ask.
const ALLOWED: &str = "clocks.monotonic = \"allow\"";

/// The name of the output.
const OUT: &str = "o";

/// Where the preamble and each section of the clock reader end.
const CLOCK: [usize; 11] = [8, 26, 66, 76, 83, 128, 144, 153, 160, 168, 177];

fn files_with(alloc: Global, app: Vec<u8>) -> Option<Box<MemFiles>> {
    let mut contents = no_contents(alloc);
    add_file(alloc, "a", app, &mut contents).ok()?;
    let policy = Vec::from_slice(alloc, ALLOWED.as_bytes()).ok()?;
    add_file(alloc, "p", policy, &mut contents).ok()?;
    files_of(alloc, contents, Items::empty(alloc))
}

/// What is said of an application, with ` o` after it where the output was made.
fn virt_of(alloc: Global, app: Vec<u8>) -> Option<String> {
    let mut files = files_with(alloc, app)?;
    let out = Text::from_str(alloc, OUT).ok()?;
    files.reserve(alloc, &out, 8192).ok()?;
    let mut sink = sink_of(alloc, 200, Items::empty(alloc))?;
    let said = said(alloc, "virt a -p p -o o", &mut *files, &mut sink)?;
    let made = if files.file(&out).is_some() { " o" } else { "" };
    format!(in alloc; "{said}{made}").ok()
}

/// Whether an application with `FF` at a place is refused as malformed or as unsupported, and no output made.
fn is_refused(alloc: Global, piece: &str, place: usize) -> Option<bool> {
    let mut app = bytes_of(alloc, "x", piece)?;
    if place >= app.len() {
        return None;
    }
    app[place] = 0xFF;
    let said = virt_of(alloc, app)?;
    let refused = said.as_str().strip_prefix("2 application refused: ")?;
    let cause = refused.starts_with("malformed at ") || refused.starts_with("unsupported at ");
    Some(cause && !refused.ends_with(" o"))
}

fn each_is_refused(rt: &impl Abort, alloc: Global, piece: &str, len: usize) {
    for place in 0..len {
        assert_eq!(rt;
            is_refused(alloc, piece, place),
            Some(true),
            "{piece} {place}"
        );
    }
}

/// Whether an application that is cut at a place is wrapped where a section ends there, after the preamble, and is malformed at the
/// last such end elsewhere.
fn is_cut(alloc: Global, piece: &str, ends: &[usize], place: usize) -> Option<bool> {
    let mut app = bytes_of(alloc, "x", piece)?;
    app.truncate(place);
    let said = virt_of(alloc, app)?;
    if ends.contains(&place) {
        return Some(said.as_str().starts_with("0 done: ") && said.as_str().ends_with(" o"));
    }
    let mut last = 0;
    for end in ends {
        if *end < place {
            last = *end;
        }
    }
    let wanted = format!(in alloc; "2 application refused: malformed at {last}\n").ok()?;
    Some(said == wanted)
}

fn each_is_cut(rt: &impl Abort, alloc: Global, piece: &str, ends: &[usize]) {
    for place in 0..*ends.last().unwrap_or(&0) {
        assert_eq!(rt;
            is_cut(alloc, piece, ends, place),
            Some(true),
            "{piece} {place}"
        );
    }
}

#[test]
fn replaced_bytes_are_refused(rt: HostRuntime) -> Result<(), Fail> {
    each_is_refused(&rt, rt.alloc(), "`seven`", 83);
    each_is_refused(&rt, rt.alloc(), "`clock`", 177);
    Ok(())
}

#[test]
fn cut_applications_are_refused(rt: HostRuntime) -> Result<(), Fail> {
    each_is_cut(&rt, rt.alloc(), "`clock`", &CLOCK);
    Ok(())
}
