//! Rows as lines of a text, and how they are read.

use crate::{items, layouts, relations, wasi};
use std::alloc::Global;
use std::fmt::Debug;
use std::test::Fail;

/// A value as it is printed for debugging.
pub fn printed<T: Debug>(alloc: Global, value: &T) -> Result<String, Fail> {
    Ok(format!(in alloc; "{value:?}")?)
}

/// What was found is what was wanted.
pub fn same(row: &str, found: &str, wanted: &str) -> Result<(), Fail> {
    if found == wanted {
        return Ok(());
    }
    Err(Fail::new(format_args!("{row}: found {found}, not {wanted}")))
}

/// A value is printed so for debugging.
pub fn is_printed<T: Debug>(alloc: Global, row: &str, value: &T, wanted: &str) -> Result<(), Fail> {
    same(row, printed(alloc, value)?.as_str(), wanted)
}

/// What stands before a text and after it.
pub fn parts<'a>(row: &'a str, between: &str) -> Result<(&'a str, &'a str), Fail> {
    match row.split_once(between) {
        Some(parts) => Ok(parts),
        None => Err(Fail::new("a row lacks a part")),
    }
}

pub fn number_in(word: &str) -> Result<u32, Fail> {
    Ok(word.parse::<u32>()?)
}

/// What the rows of a table ask.
#[derive(Clone, Copy)]
pub enum Asked {
    Layout,
    Interface,
    Function,
    Number,
    Name,
    Given,
    Equal,
    Subtype,
    Substituted,
}

fn answer(alloc: Global, asked: Asked, of: &'static str) -> Result<String, Fail> {
    match asked {
        Asked::Layout => layouts::laid_out(alloc, of),
        Asked::Interface => wasi::interface(alloc, of),
        Asked::Function => wasi::function_at(alloc, of),
        Asked::Number => printed(alloc, &wasi::number_of(of)),
        Asked::Name => items::looked_up(alloc, of),
        Asked::Given => items::given(alloc, of),
        Asked::Equal => items::equals(alloc, of),
        Asked::Subtype => relations::subtypes(alloc, of),
        Asked::Substituted => relations::substituted(alloc, of),
    }
}

/// Each row of a table: of what something is asked, and after ` => ` what is answered.
pub fn hold(alloc: Global, asked: Asked, rows: &'static str) -> Result<(), Fail> {
    for row in rows.lines() {
        let (of, wanted) = parts(row, " => ")?;
        same(row, answer(alloc, asked, of)?.as_str(), wanted)?;
    }
    Ok(())
}
