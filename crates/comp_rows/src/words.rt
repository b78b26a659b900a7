//! Answers in words.

use std::alloc::Global;
use std::fmt::Debug;
use std::test::Fail;

/// Words that are the same each time.
pub fn said(alloc: Global, words: &str) -> Result<String, Fail> {
    Ok(String::from_str(alloc, words)?)
}

/// A value after words, as it is printed for debugging.
pub fn shown<T: Debug>(alloc: Global, before: &str, value: &T) -> Result<String, Fail> {
    Ok(format!(in alloc; "{before}{value:?}")?)
}

/// A name after words.
pub fn named(alloc: Global, before: &str, name: &str) -> Result<String, Fail> {
    let mut words = String::from_str(alloc, before)?;
    words.push_str(name)?;
    Ok(words)
}

/// A rule that is broken, and where.
pub fn broken_rule(alloc: Global, rule: u32, section: u32) -> Result<String, Fail> {
    let mut words = shown(alloc, "rule ", &rule)?;
    words.push_str(" in section ")?;
    shown(alloc, words.as_str(), &section)
}

/// Adds words and a value after a text.
pub fn put<T: Debug>(
    alloc: Global,
    text: &mut String,
    before: &str,
    value: &T,
) -> Result<(), Fail> {
    let words = shown(alloc, before, value)?;
    text.push_str(words.as_str())?;
    Ok(())
}
