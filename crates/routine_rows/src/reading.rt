//! Numbers that a text spells.
//!
//! A number is written in decimal digits, or in hexadecimal ones after `0x`; of a local of 64 bits a `w` stands after it.

use adapter_code::{Local, Locals};
use core_store::CoreValue;
use std::alloc::Global;
use std::test::Fail;

/// The two parts of a text, in front of and after a mark. Without it nothing stands after.
pub fn halves<'a>(text: &'a str, mark: &'static str) -> (&'a str, &'a str) {
    match text.split_once(mark) {
        Some(parts) => parts,
        None => (text, ""),
    }
}

pub fn number(word: &str) -> Result<u64, Fail> {
    match word.strip_prefix("0x") {
        Some(digits) => Ok(u64::from_str_radix(digits, 16)?),
        None => Ok(word.parse::<u64>()?),
    }
}

/// A number of 32 bits; the greatest of them in place of a greater one.
pub fn low(number: u64) -> u32 {
    if number < 0x1_0000_0000 {
        number as u32
    } else {
        u32::MAX
    }
}

pub fn numbers(alloc: Global, words: &str) -> Result<Vec<u64>, Fail> {
    let mut all = Vec::new(alloc);
    for word in words.split_whitespace() {
        all.push(number(word)?)?;
    }
    Ok(all)
}

pub fn local(word: &str) -> Result<Local, Fail> {
    match word.strip_suffix("w") {
        Some(digits) => Ok(Local::Wide(number(digits)?)),
        None => Ok(Local::Small(low(number(word)?))),
    }
}

pub fn locals(alloc: Global, words: &str) -> Result<Locals, Fail> {
    let mut all = Vec::new(alloc);
    for word in words.split_whitespace() {
        all.push(local(word)?)?;
    }
    Ok(all)
}

/// A local as a value of the machine.
pub fn value(local: Local) -> CoreValue {
    match local {
        Local::Small(number) => CoreValue::I32(number),
        Local::Wide(number) => CoreValue::I64(number),
    }
}

pub fn values(alloc: Global, words: &str) -> Result<Vec<CoreValue>, Fail> {
    let mut all = Vec::new(alloc);
    for word in words.split_whitespace() {
        all.push(value(local(word)?))?;
    }
    Ok(all)
}
