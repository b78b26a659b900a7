//! Rows: numbers in LEB128, read and written (WebAssembly Core 2.0, section 5.2.2).

use crate::rows::{hold, number_in, parts, printed};
use std::alloc::Global;
use std::test::Fail;
use virt_base::{Cursor, read_s32, read_s33, read_s64, read_u32, write_s64, write_u32};

/// Numbers in bytes, and after each what is read and the place after it: WebAssembly Core 2.0, section 5.2.2, and the values
/// of its test suite's `binary-leb128`.
const READS: &str = "\
leb u32 00 => (Ok(0), 1)
leb u32 03 => (Ok(3), 1)
leb u32 8300 => (Ok(3), 2)
leb u32 8780808000 => (Ok(7), 5)
leb u32 e58e26 => (Ok(624485), 3)
leb u32 ffffffff0f => (Ok(4294967295), 5)
leb u32 878080808000 => (Err(TooLong), 0)
leb u32 ffffffff1f => (Err(TooLong), 0)
leb u32 8280808070 => (Err(TooLong), 0)
leb u32 8780 => (Err(Short), 0)
leb u32 80808080 => (Err(Short), 0)
leb u32  => (Err(Short), 0)
leb s32 7e => (Ok(-2), 1)
leb s32 fe7f => (Ok(-2), 2)
leb s32 feff7f => (Ok(-2), 3)
leb s32 ffffffff7f => (Ok(-1), 5)
leb s32 8080808078 => (Ok(-2147483648), 5)
leb s32 ffffffff07 => (Ok(2147483647), 5)
leb s32 8080808070 => (Err(TooLong), 0)
leb s32 ffffffff0f => (Err(TooLong), 0)
leb s32 808080808000 => (Err(TooLong), 0)
leb s32 fe => (Err(Short), 0)
leb s33 40 => (Ok(-64), 1)
leb s33 ffffffff0f => (Ok(4294967295), 5)
leb s33 8080808070 => (Ok(-4294967296), 5)
leb s33 ffffffff1f => (Err(TooLong), 0)
leb s33 8080808060 => (Err(TooLong), 0)
leb s64 807f => (Ok(-128), 2)
leb s64 ffffffffffffffffff7f => (Ok(-1), 10)
leb s64 8080808080808080807f => (Ok(-9223372036854775808), 10)
leb s64 8080808080808080807e => (Err(TooLong), 0)
leb s64 ffffffffffffffffff01 => (Err(TooLong), 0)
leb s64 8080808080808080808000 => (Err(TooLong), 0)";

/// What is written after the byte 2a: the examples of DWARF 4, section 7.6, which the standard's LEB128 comes from, and the
/// ends of the ranges.
const WRITES: &str = "\
write u32 2 => 2a02
write u32 127 => 2a7f
write u32 128 => 2a8001
write u32 129 => 2a8101
write u32 12857 => 2ab964
write u32 4294967295 => 2affffffff0f
write s64 2 => 2a02
write s64 -2 => 2a7e
write s64 127 => 2aff00
write s64 -127 => 2a817f
write s64 128 => 2a8001
write s64 -128 => 2a807f
write s64 129 => 2a8101
write s64 -129 => 2aff7e
write s64 9223372036854775807 => 2affffffffffffffffff00
write s64 -9223372036854775808 => 2a8080808080808080807f";

pub fn read(alloc: Global, given: &str) -> Result<String, Fail> {
    let (form, digits) = parts(given, " ")?;
    let bytes = hex::decode(alloc, digits.as_bytes())?;
    let mut c = Cursor {
        bytes: bytes.as_slice(),
        at: 0,
    };
    let number = match form {
        "u32" => read_u32(&mut c).map(i64::from),
        "s32" => read_s32(&mut c).map(i64::from),
        "s33" => read_s33(&mut c),
        _ => read_s64(&mut c),
    };
    printed(alloc, &(number, c.at))
}

pub fn written(alloc: Global, given: &str) -> Result<String, Fail> {
    let (form, number) = parts(given, " ")?;
    let number = number_in(number)?;
    let mut out = Vec::new(alloc);
    out.push(0x2A)?;
    match form {
        "u32" => write_u32(alloc, &mut out, u32::try_from(number)?)?,
        _ => write_s64(alloc, &mut out, number)?,
    }
    Ok(hex::encode(alloc, out.as_slice())?)
}

#[test]
fn reads_numbers(rt: HostRuntime) -> Result<(), Fail> {
    hold(rt.alloc(), READS)
}

#[test]
fn writes_numbers(rt: HostRuntime) -> Result<(), Fail> {
    hold(rt.alloc(), WRITES)
}
