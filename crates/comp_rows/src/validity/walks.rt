//! How many entries of types, written out, are walked over at most, and types that are not told apart by their keys.

use super::answer;
use crate::rows::same;
use std::alloc::Global;
use std::test::Fail;

const PREAMBLE: [u8; 8] = [0, 0x61, 0x73, 0x6D, 0x0D, 0, 1, 0];

/// A number below 2^21, in three bytes.
fn put_number(out: &mut Vec<u8>, number: usize) -> Result<(), Fail> {
    out.push((number & 0x7F) as u8 | 0x80)?;
    out.push((number >> 7 & 0x7F) as u8 | 0x80)?;
    out.push((number >> 14 & 0x7F) as u8)?;
    Ok(())
}

fn put_section(out: &mut Vec<u8>, id: u8, content: &[u8]) -> Result<(), Fail> {
    out.push(id)?;
    put_number(out, content.len())?;
    out.extend_from_slice(content)?;
    Ok(())
}

/// 18 tuples of two in one another, and a function over the last, which has half a million parts.
fn large_function(alloc: Global) -> Result<Vec<u8>, Fail> {
    let mut types = Vec::new(alloc);
    types.extend_from_slice(&[20, 0x7D])?;
    for i in 0..18u8 {
        types.extend_from_slice(&[0x6F, 2, i, i])?;
    }
    types.extend_from_slice(&[0x40, 1, 1, b'a', 18, 1, 0])?;
    Ok(types)
}

/// 17 instance types, each exporting two instances of the one before it, so that the last has 262,142 entries when it is written out.
fn large_instance(alloc: Global) -> Result<Vec<u8>, Fail> {
    let mut types = Vec::new(alloc);
    types.extend_from_slice(&[18, 0x42, 0])?;
    for i in 0..17u8 {
        types.extend_from_slice(&[0x42, 3, 2, 3, 2, 1, i])?;
        types.extend_from_slice(&[4, 0, 1, b'a', 5, 0])?;
        types.extend_from_slice(&[4, 0, 1, b'b', 5, 0])?;
    }
    Ok(types)
}

/// That many imports that are described so, under names of four digits.
fn imports_of(alloc: Global, desc: [u8; 2], count: usize) -> Result<Vec<u8>, Fail> {
    let mut imports = Vec::new(alloc);
    put_number(&mut imports, count)?;
    for i in 0..count {
        imports.extend_from_slice(&[0, 5, b'f'])?;
        for power in [1000, 100, 10, 1] {
            imports.push(b'0' + (i / power % 10) as u8)?;
        }
        imports.extend_from_slice(&desc)?;
    }
    Ok(imports)
}

/// That many types of one byte.
fn bytes_of(alloc: Global, count: usize) -> Result<Vec<u8>, Fail> {
    let mut types = Vec::new(alloc);
    put_number(&mut types, count)?;
    for _ in 0..count {
        types.push(0x7D)?;
    }
    Ok(types)
}

/// A component in which another one with these types, that many such imports and that many types of one byte is instantiated without
/// arguments.
fn given_nothing(
    alloc: Global,
    types: &[u8],
    desc: [u8; 2],
    count: usize,
    spare: usize,
) -> Result<Vec<u8>, Fail> {
    let mut inner = Vec::new(alloc);
    inner.extend_from_slice(&PREAMBLE)?;
    put_section(&mut inner, 7, types)?;
    put_section(&mut inner, 10, imports_of(alloc, desc, count)?.as_slice())?;
    put_section(&mut inner, 7, bytes_of(alloc, spare)?.as_slice())?;
    let mut outer = Vec::new(alloc);
    outer.extend_from_slice(&PREAMBLE)?;
    put_section(&mut outer, 4, inner.as_slice())?;
    put_section(&mut outer, 5, &[1, 0, 0, 0])?;
    Ok(outer)
}

/// Entries of instances count as often as they stand there: 262,143 an import, of 16,777,216 and 512 for each definition.
#[test]
fn walks_have_a_bound(rt: HostRuntime) -> Result<(), Fail> {
    let types = large_instance(rt.alloc())?;
    for (count, spare, wanted) in [
        (64, 0, "rule 23 in section 1"),
        (65, 0, "no memory"),
        (65, 500, "rule 23 in section 1"),
    ] {
        let bytes = given_nothing(rt.alloc(), types.as_slice(), [5, 17], count, spare)?;
        let found = answer(rt.alloc(), bytes.as_slice())?;
        same(&rt, "instances compared", found.as_str(), wanted);
    }
    Ok(())
}

/// A value type counts as one, however large it is written out.
#[test]
fn value_types_are_one_step(rt: HostRuntime) -> Result<(), Fail> {
    let types = large_function(rt.alloc())?;
    let bytes = given_nothing(rt.alloc(), types.as_slice(), [1, 19], 4_000, 0)?;
    let found = answer(rt.alloc(), bytes.as_slice())?;
    same(
        &rt,
        "functions compared",
        found.as_str(),
        "rule 23 in section 1",
    );
    Ok(())
}

/// A record type of one byte, under a name of that many letters: a word of Thue and Morse, or that with its two letters turned.
fn put_record(out: &mut Vec<u8>, letters: usize, turned: u32) -> Result<(), Fail> {
    out.extend_from_slice(&[0x72, 1])?;
    put_number(out, letters)?;
    for i in 0..letters {
        out.push(b'a' + ((i.count_ones() % 2 + turned % 2) % 2) as u8)?;
    }
    out.push(0x7D)?;
    Ok(())
}

/// Names of a length that is a power of two, the tenth or a higher one, have the same key then: a polynomial whose value at an odd
/// number is a product of ten even factors or more, which is a multiple of 2^64. Unlike types of one key do not stand in a table.
#[test]
fn types_of_one_key(rt: HostRuntime) -> Result<(), Fail> {
    for (letters, wanted) in [(512, "valid"), (1_024, "no memory")] {
        let mut types = Vec::new(rt.alloc());
        types.push(2)?;
        put_record(&mut types, letters, 0)?;
        put_record(&mut types, letters, 1)?;
        let mut bytes = Vec::new(rt.alloc());
        bytes.extend_from_slice(&PREAMBLE)?;
        put_section(&mut bytes, 7, types.as_slice())?;
        let found = answer(rt.alloc(), bytes.as_slice())?;
        same(&rt, "two record types", found.as_str(), wanted);
    }
    Ok(())
}
