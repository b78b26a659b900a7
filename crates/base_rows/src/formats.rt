//! Rows: the readers and writers that every binary format shares: literals, numbers, counted lists, bytes and names.

use crate::rows::{hold, parts, printed, same};
use std::alloc::Global;
use std::test::Fail;
use virt_base::{Cursor, Items, Text, copy_bytes};
use wasm_format::{
    ByteLists, CountedVecs, Names, Reader, S32, S33Index, S64, Sized, U32, Vecs, Writer,
    expect_bytes, expect_tag, next_is_tag, put_byte, put_bytes,
};

fn cursor(bytes: &[u8]) -> Cursor<'_> {
    Cursor { bytes, at: 0 }
}

#[test]
fn literals(rt: HostRuntime) -> Result<(), Fail> {
    let mut c = cursor(b"\0as");
    let tag = expect_tag(&mut c, 0);
    let next = next_is_tag(&c);
    let other = expect_tag(&mut c, 0);
    c.at = 0;
    let magic = expect_bytes(&mut c, b"\0as");
    let end = next_is_tag(&c);
    c.at = 0;
    let unlike = expect_bytes(&mut c, b"\0aS");
    let found = printed(rt.alloc(), &(tag, next, other, magic, end, unlike))?;
    let wanted =
        "(Ok(()), Some(true), Err(Unsupported { at: 1, byte: 97 }), Ok(()), None, Err(Malformed))";
    same("literals", found.as_str(), wanted)
}

/// Spellings of one number in each format, by the examples of the DWARF standard and of WebAssembly Core 2.0, section 5.2.2.
const NUMBERS: &str = "\
number u32 020000 => Some(2)
number index 020000 => Some(2)
number u32 7f0000 => Some(127)
number index 7f0000 => None
number u32 800100 => Some(128)
number index 800100 => Some(128)
number u32 830000 => Some(3)
number index 830000 => Some(3)
number u32 fe7f00 => Some(16382)
number index fe7f00 => None
number u32 e58e26 => Some(624485)
number index e58e26 => Some(624485)
number s32 c0bb78 => Some(-123456)
number s64 c0bb78 => Some(-123456)";

pub fn number(alloc: Global, given: &str) -> Result<String, Fail> {
    let (form, digits) = parts(given, " ")?;
    let bytes = hex::decode(alloc, digits.as_bytes())?;
    let mut c = cursor(bytes.as_slice());
    let number = match form {
        "u32" => U32.read(alloc, &mut c).map(i64::from),
        "index" => S33Index.read(alloc, &mut c).map(i64::from),
        "s32" => S32.read(alloc, &mut c).map(i64::from),
        _ => S64.read(alloc, &mut c),
    };
    printed(alloc, &number.ok())
}

#[test]
fn numbers(rt: HostRuntime) -> Result<(), Fail> {
    hold(rt.alloc(), NUMBERS)
}

#[test]
fn lists(rt: HostRuntime) -> Result<(), Fail> {
    let alloc = rt.alloc();
    let bytes = [4, 2, b'o', b'k', 7];
    let mut c = Cursor {
        bytes: &bytes,
        at: 1,
    };
    let name = Names.read(alloc, &mut c);
    c.at = 1;
    let content = ByteLists.read(alloc, &mut c);
    let bytes = [0x84, 0x00, 2, 5, 0x86, 0x00, 1];
    let mut c = Cursor {
        bytes: &bytes,
        at: 0,
    };
    let sized = Sized(Vecs(U32)).read(alloc, &mut c);
    c.at = 2;
    let counted = CountedVecs {
        count: 2,
        item: U32,
    }
    .read(alloc, &mut c);
    c.at = 2;
    let more = CountedVecs {
        count: 3,
        item: U32,
    }
    .read(alloc, &mut c);
    let found = printed(alloc, &(name, content, sized, counted, more.is_err()))?;
    let wanted =
        "(Ok(Text { chars: \"ok\" }), Ok(Items { items: [111, 107] }), Ok(Items { items: [5, 6] }), Ok(Items { items: [5, 6] }), true)";
    same("lists", found.as_str(), wanted)
}

/// What is written, one after the other: a byte and bytes, four numbers, three lists, bytes, and a name.
const WRITTEN: &str = "ff6f6b\
    e58e26c0bb78ff7ec000\
    0105020506028001\
    026f6b026f6b";

/// Each number is written as the examples of the DWARF standard have it.
#[tactic(auto, unfolding(wasm_format::specs::Format::u32_format, wasm_format::specs::Numbers::s32_format, wasm_format::specs::Numbers::s64_format, wasm_format::specs::Numbers::s33_format, wasm_format::specs::Numbers::s33_index))]
fn write_numbers(alloc: Global, out: &mut Vec<u8>) -> Result<(), Fail> {
    put_byte(alloc, out, 0xFF)?;
    put_bytes(alloc, out, b"ok")?;
    U32.write(alloc, out, &624_485)?;
    S32.write(alloc, out, &-123_456)?;
    S64.write(alloc, out, &-129)?;
    S33Index.write(alloc, out, &64)?;
    Ok(())
}

#[tactic(auto, unfolding(wasm_format::specs::Format::u32_format))]
fn write_lists(alloc: Global, out: &mut Vec<u8>) -> Result<(), Fail> {
    let mut items = Items::empty(alloc);
    items.push(5)?;
    CountedVecs {
        count: 1,
        item: U32,
    }
    .write(alloc, out, &items)?;
    items.push(6)?;
    Vecs(U32).write(alloc, out, &items)?;
    Sized(U32).write(alloc, out, &128)?;
    ByteLists.write(alloc, out, &copy_bytes(alloc, b"ok")?)?;
    Ok(())
}

#[tactic(auto, unfolding(wasm_format::specs::Format::name), using(wasm_format::proofs::NameLaws::is_text))]
fn write_name(alloc: Global, out: &mut Vec<u8>) -> Result<(), Fail> {
    let name = Text::new(alloc, b"ok".as_slice())?;
    Names.write(alloc, out, &name)?;
    Ok(())
}

#[test]
fn written(rt: HostRuntime) -> Result<(), Fail> {
    let alloc = rt.alloc();
    let mut out = Vec::new(alloc);
    write_numbers(alloc, &mut out)?;
    write_lists(alloc, &mut out)?;
    write_name(alloc, &mut out)?;
    let found = hex::encode(alloc, out.as_slice())?;
    same("what is written", found.as_str(), WRITTEN)
}
