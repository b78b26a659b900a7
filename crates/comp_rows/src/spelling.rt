//! How rows spell components: hexadecimal digits are its sections, and a name between two back quotes is a piece of them; after
//! `whole` they are all of its bytes, and after `around` and a number the bytes that as many components hold, the one in the other.
//! `types` and a number is a section of as many instance types in one another, around a `bool`, and `front` and a number as many
//! bytes at the front of the component of `SEVEN`.

use crate::pieces::piece_named;
use std::alloc::Global;
use std::test::Fail;
use virt_base::write_u32;

/// The sections of a component of 83 bytes whose export `f` answers 7.
pub const SEVEN: &str =
    "01220061736d010000000105016000017f03020100070501016600000a0601040041070b0204010000000607010000010001660705014000007908060100000000000b0701000166010000";

/// A number in decimal digits.
pub fn number(word: &str) -> Result<u32, Fail> {
    match word.parse::<u32>() {
        Ok(number) => Ok(number),
        Err(_) => Err(Fail::from("no number")),
    }
}

/// Digits in which a name between two back quotes stands for those of its piece.
fn written_out(alloc: Global, text: &str) -> Result<String, Fail> {
    let mut all = String::new(alloc);
    let mut is_name = false;
    for part in text.split('`') {
        let digits = if is_name {
            piece_named(part)
        } else {
            Some(part)
        };
        let Some(digits) = digits else {
            return Err(Fail::from("no such piece"));
        };
        all.push_str(digits)?;
        is_name = !is_name;
    }
    Ok(all)
}

fn digits(alloc: Global, text: &str) -> Result<Vec<u8>, Fail> {
    Ok(hex::decode(alloc, written_out(alloc, text)?.as_str().as_bytes())?)
}

/// What a component begins with, and after it these bytes.
fn begun(alloc: Global, behind: &[u8]) -> Result<Vec<u8>, Fail> {
    let mut bytes = digits(alloc, "0061736d0d000100")?;
    bytes.extend_from_slice(behind)?;
    Ok(bytes)
}

/// A component of one section.
fn section(alloc: Global, id: u8, content: &[u8]) -> Result<Vec<u8>, Fail> {
    let Ok(size) = u32::try_from(content.len()) else {
        return Err(Fail::from("a long section"));
    };
    let mut bytes = begun(alloc, &[id])?;
    write_u32(alloc, &mut bytes, size)?;
    bytes.extend_from_slice(content)?;
    Ok(bytes)
}

fn around(alloc: Global, text: &str) -> Result<Vec<u8>, Fail> {
    let Some((count, innermost)) = text.split_once(' ') else {
        return Err(Fail::from("no count"));
    };
    let mut bytes = digits(alloc, innermost)?;
    for _ in 0..number(count)? {
        bytes = section(alloc, 4, bytes.as_slice())?;
    }
    Ok(bytes)
}

fn types_in_one_another(alloc: Global, count: u32) -> Result<Vec<u8>, Fail> {
    let mut content = digits(alloc, "01")?;
    for _ in 0..count {
        content.extend_from_slice(b"\x42\x01\x01")?;
    }
    content.push(0x7F)?;
    section(alloc, 7, content.as_slice())
}

/// A component of these sections.
fn component(alloc: Global, sections: &str) -> Result<Vec<u8>, Fail> {
    let sections = digits(alloc, sections)?;
    begun(alloc, sections.as_slice())
}

fn front(alloc: Global, length: u32) -> Result<Vec<u8>, Fail> {
    let mut bytes = component(alloc, SEVEN)?;
    bytes.truncate(length as usize);
    Ok(bytes)
}

/// The bytes of a component.
pub fn component_of(alloc: Global, text: &str) -> Result<Vec<u8>, Fail> {
    match text.split_once(' ') {
        Some(("whole", bytes)) => digits(alloc, bytes),
        Some(("around", rest)) => around(alloc, rest),
        Some(("types", count)) => types_in_one_another(alloc, number(count)?),
        Some(("front", length)) => front(alloc, number(length)?),
        _ => component(alloc, text),
    }
}
