//! What came of a row, against what is wanted.
//!
//! What is wanted is a word for how it ended, the values that are left, and after `; ` what was done or asked on the way, as it
//! is printed for debugging.

use crate::reading::{halves, values};
use core_store::CoreValue;
use std::alloc::Global;
use std::process::Abort;
use std::test::Fail;

pub fn in_words(alloc: Global, end: &str, left: &[CoreValue], done: &str) -> Result<String, Fail> {
    Ok(format!(in alloc; "{end} {left:?} {done}")?)
}

fn wanted_in_words(alloc: Global, text: &str) -> Result<String, Fail> {
    let (ended, done) = halves(text, "; ");
    let (end, numbers) = halves(ended, " ");
    let left = values(alloc, numbers)?;
    in_words(
        alloc,
        end,
        left.as_slice(),
        if done.is_empty() { "[]" } else { done },
    )
}

pub fn same(rt: &impl Abort, row: &str, found: &str, wanted: &str) {
    assert_eq!(rt; found, wanted, "{row}");
}

/// What was found is what the text of a row wants.
pub fn holds(
    rt: &impl Abort,
    alloc: Global,
    row: &str,
    found: &str,
    wanted: &str,
) -> Result<(), Fail> {
    let wanted = wanted_in_words(alloc, wanted)?;
    same(rt, row, found, wanted.as_str());
    Ok(())
}

/// A count is the one that is wanted; nothing is wanted where there is no text.
pub fn counts(
    rt: &impl Abort,
    alloc: Global,
    row: &str,
    count: u64,
    wanted: &str,
) -> Result<(), Fail> {
    if !wanted.is_empty() {
        let found = format!(in alloc; "{count}")?;
        same(rt, row, found.as_str(), wanted);
    }
    Ok(())
}
