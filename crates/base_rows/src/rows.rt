//! Rows as lines of a text, and how they are read.

use crate::{formats, numbers, texts};
use std::alloc::Global;
use std::fmt::Debug;
use std::test::Fail;

/// A value as it is printed for debugging.
pub fn printed<T: Debug>(alloc: Global, value: &T) -> Result<String, Fail> {
    Ok(format!(in alloc; "{value:?}")?)
}

/// What was found is what was wanted.
pub fn same(row: &str, found: &str, wanted: &str) -> Result<(), Fail> {
    if found == wanted {
        return Ok(());
    }
    Err(Fail::new(format_args!("{row}: found {found}, not {wanted}")))
}

/// What stands before a text and after it.
pub fn parts<'a>(row: &'a str, between: &str) -> Result<(&'a str, &'a str), Fail> {
    match row.split_once(between) {
        Some(parts) => Ok(parts),
        None => Err(Fail::new("a row lacks a part")),
    }
}

pub fn number_in(word: &str) -> Result<i64, Fail> {
    Ok(word.parse::<i64>()?)
}

fn answer(alloc: Global, call: &str, given: &str) -> Result<String, Fail> {
    match call {
        "text" => texts::made(alloc, given),
        "leb" => numbers::read(alloc, given),
        "write" => numbers::written(alloc, given),
        _ => formats::number(alloc, given),
    }
}

/// Each row: a call, what it is given, and after ` => ` what it answers.
pub fn hold(alloc: Global, rows: &str) -> Result<(), Fail> {
    for row in rows.lines() {
        let (asked, wanted) = parts(row, " => ")?;
        let (call, given) = parts(asked, " ")?;
        same(row, answer(alloc, call, given)?.as_str(), wanted)?;
    }
    Ok(())
}
