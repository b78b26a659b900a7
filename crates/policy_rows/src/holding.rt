//! Tables of rows, and how they are read.

use crate::shown::{printed, shown};
use crate::{texts, trees, words};
use policy_text::Paths;
use policy_toml::read_policy;
use std::alloc::Global;
use std::test::Fail;

/// What was found is what was wanted.
pub fn same(row: &str, found: &str, wanted: &str) -> Result<(), Fail> {
    if found == wanted {
        return Ok(());
    }
    Err(Fail::new(format_args!("found {found}, not {wanted}: {row}")))
}

/// What stands before a mark and after it.
pub fn parts(row: &str, mark: char) -> Result<(&str, &str), Fail> {
    match row.split_once(mark) {
        Some(parts) => Ok(parts),
        None => Err(Fail::new("a row lacks a part")),
    }
}

pub fn number_in(word: &str) -> Result<u64, Fail> {
    Ok(word.parse::<u64>()?)
}

/// Adds a piece that many times, each time with the next number from 1000 on for a `#`.
fn repeat(alloc: Global, text: &mut String, count: u64, piece: &str) -> Result<(), Fail> {
    for number in 1000..count.saturating_add(1000) {
        match piece.split_once('#') {
            Some((before, behind)) => {
                text.push_str(before)?;
                text.push_str(printed(alloc, &number)?.as_str())?;
                text.push_str(behind)?;
            }
            None => text.push_str(piece)?,
        }
    }
    Ok(())
}

/// Adds what is between bars, where `3*x` stands for `xxx`.
fn expand(alloc: Global, text: &mut String, line: &str) -> Result<(), Fail> {
    for part in line.split('|') {
        match part.split_once('*') {
            Some((count, piece)) => repeat(alloc, text, number_in(count)?, piece)?,
            None => text.push_str(part)?,
        }
    }
    Ok(())
}

/// What comes of the text of a row of a kind. The paths are those of the table so far.
fn answer(alloc: Global, paths: &mut Paths, kind: &str, text: &str) -> Result<String, Fail> {
    match kind {
        "policy" => shown(alloc, &read_policy(alloc, text.as_bytes())),
        "text" => texts::read(alloc, paths, text),
        "words" => words::said(alloc, text),
        "tree" => trees::built(alloc, text),
        "nodes" => trees::crowded(alloc, text),
        _ => trees::weighed(alloc, text),
    }
}

/// Each row of a table of a kind is lines of a text, of which the last ends in ` => ` and what comes of the text.
pub fn hold(alloc: Global, kind: &str, table: &str) -> Result<(), Fail> {
    let mut paths = Paths::new(alloc);
    let mut text = String::new(alloc);
    for line in table.lines() {
        match line.split_once(" => ") {
            Some((last, answered)) => {
                expand(alloc, &mut text, last)?;
                let mut wanted = String::new(alloc);
                expand(alloc, &mut wanted, answered)?;
                let found = answer(alloc, &mut paths, kind, text.as_str())?;
                same(text.as_str(), found.as_str(), wanted.as_str())?;
                text.clear();
            }
            None => {
                expand(alloc, &mut text, line)?;
                text.push('\n')?;
            }
        }
    }
    same("behind the last row", text.as_str(), "")
}
