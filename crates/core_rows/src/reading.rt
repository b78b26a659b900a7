//! Rows: modules that are read, and where reading fails. The places and tags are those of WebAssembly Core 2.0, chapter 5.

use crate::pieces::{bytes_of, module_of};
use crate::rows::{hold, shown};
use core_read::read_module;
use std::alloc::Global;
use std::test::Fail;

const ROWS: &str = "\
# Whole modules, a tag that no table has, and sizes in long spellings.
start 0105016000017f03020100070501016600000a0601040041070b => None
start 0105016000017f03020100070501016600000a070105004107920b => Some(Unsupported(33, 146))
00*0 => Some(Malformed(0))
0061736d0d000100 => Some(Malformed(0))
start => None
start 0105056000005f => Some(Unsupported(14, 95))
start 01848080800001600000 => None
start 0184808080800001600000 => Some(Malformed(8))
# Opcodes and sub-opcodes that no table has (WebAssembly Core 2.0, section 5.4).
one 0a07010500 fc88000b => Some(Unsupported(24, 136))
one 0a06010400 fc120b => Some(Unsupported(24, 18))
one 0a05010300 060b => Some(Unsupported(23, 6))
one 0a05010300 430b => Some(Unsupported(23, 67))
one 0a09010700 25002601270b => Some(Unsupported(27, 39))
one 0a05010300 c50b => Some(Unsupported(23, 197))
one 0a05010300 a80b => Some(Unsupported(23, 168))
# The bytes 00 behind instructions on memory are tags.
one 0a07010500 3f001a0b => None
one 0a06010400 3f010b => Some(Unsupported(24, 1))
one 0a08010600 410040020b => Some(Unsupported(26, 2))
one 0a08010600 fc0800000b => None
one 0a08010600 fc0800010b => Some(Unsupported(26, 1))
one 0a08010600 fc0a00010b => Some(Unsupported(26, 1))
one 0a07010500 fc0b010b => Some(Unsupported(25, 1))
# The first byte of a block's type is a tag, or begins an index.
one 0a08010600 02c0000b0b => None
one 0a08010600 02c07f0b0b => Some(Malformed(14))
one 0a07010500 02400b0b => None
one 0a07010500 026f0b0b => None
one 0a07010500 026e0b0b => Some(Unsupported(24, 110))
one 0a07010500 027b0b0b => Some(Unsupported(24, 123))
one 0a07010500 02060b0b => None
one 0a08010600 0241000b0b => Some(Unsupported(24, 65))
# Each block has one end, and an `if` at most one `else`.
one 0a05010300 050b => Some(Malformed(14))
one 0a08010600 0240050b0b => Some(Malformed(14))
one 0a08010600 0440050b0b => None
one 0a09010700 044005050b0b => Some(Malformed(14))
one 0a06010400 04400b => Some(Malformed(14))
one 0a05010300 0b0b => Some(Malformed(14))
one 0a04010200 01 => Some(Malformed(14))
one 0a09010700 0440050b050b => Some(Malformed(14))
# Types, labels and indexes behind instructions.
one 0a06010400 d06e0b => Some(Unsupported(24, 110))
one 0a07010500 1c017f0b => None
one 0a07010500 1c017c0b => Some(Unsupported(25, 124))
one 0a09010700 0e020102030b => None
one 0a07010500 1103040b => None
one 0a06010400 d2000b => None
one 0a12011000 fc0c0102fc0e0102fc1100fc10000b => None
# Numbers in the longest spelling, and past it.
one 0a0a010800 41ffffffff070b => None
one 0a0a010800 41ffffffff0f0b => Some(Malformed(14))
one 0a0f010d00 42ffffffffffffffffff000b => None
one 0a0f010d00 42ffffffffffffffffff020b => Some(Malformed(14))
# Types of functions.
start 01060160017f017b => Some(Unsupported(15, 123))
start 0102015f => Some(Unsupported(11, 95))
start 01020060 => Some(Malformed(8))
start 0106026000006000 => Some(Malformed(8))
# Imports of functions, tables, memories and globals.
start 02050100000005 => None
start 0209010161016201700001 => None
start 02050100000400 => Some(Unsupported(13, 4))
start 0206010000037f01 => None
start 0206010001ff0000 => Some(Malformed(8))
start 0206010000020001 => None
# Types of elements, limits and mutability.
start 0606017f0041000b => None
start 0606017f0241000b => Some(Unsupported(12, 2))
start 0503010400 => Some(Unsupported(11, 4))
start 0503010001 => None
start 050401010102 => None
start 040401700000 => None
start 0404016f0000 => None
start 0404017f0000 => Some(Unsupported(11, 127))
# Exports, and a start section.
start 07050101610400 => Some(Unsupported(13, 4))
start 07050101610305 => None
start 080100 => None
start 08020001 => Some(Malformed(8))
# The eight kinds of element segments (WebAssembly Core 2.0, section 5.5.12).
start 090401010000 => None
start 090401010100 => Some(Unsupported(12, 1))
start 0903018000 => Some(Unsupported(11, 128))
start 09020108 => Some(Unsupported(11, 8))
start 0906010041000b00 => None
start 090801024141000b0000 => None
start 090701057001d0700b => None
start 090801060041000b6f00 => None
start 090401077e00 => Some(Unsupported(12, 126))
start 090401077000 => None
start 0909010441000b01d2000b => None
start 09050103000100 => None
# The three kinds of data segments (WebAssembly Core 2.0, section 5.5.14).
start 0b040101016f => None
start 0b07010041000b0161 => None
start 0b0701020041000b00 => None
start 0b020103 => Some(Unsupported(11, 3))
start 0b0401018000 => None
start 0b0401010561 => Some(Malformed(8))
start 0c0100 => None
# Sections come in order, each once at most.
start 0301000102015f => Some(Malformed(11))
start 0104016000000102015f => Some(Malformed(14))
start 0d => Some(Unsupported(8, 13))
start ff => Some(Unsupported(8, 255))
start 00 => Some(Malformed(8))
start 0c0100090100 => Some(Malformed(11))
start 0901000c01000a01000b0100 => None
start 0a01000c0100 => Some(Malformed(11))
# Sizes that pass the end, or fall short of what is in the section.
start 01 => Some(Malformed(8))
start 010501600000 => Some(Malformed(8))
start 010401600000 => None
start 01050160000000 => Some(Malformed(8))
start 010401600000030201000a040105000b => Some(Malformed(14))
# A custom section has a name, and anything behind it.
start 0003016101 => None
start 00020561 => Some(Malformed(8))
start 000201ff => Some(Malformed(8))
start 00040002ffff => None
start 0000 => Some(Malformed(8))
# There are as many bodies as functions.
start 01040160000003020100 => Some(Malformed(14))
start 01040160000003020100000100 => Some(Malformed(14))
start 010401600000030201000a040102000b => None
start 010401600000030201000a040102000b00010005 => Some(Malformed(27))
start 010401600000030201000a080202000b0300060b => Some(Malformed(14))
start 0104016000000a040102000b => Some(Malformed(14))
start 010401600000030201000a0100 => Some(Malformed(14))
start 0a0100 => None
# There are as many data segments as a data count says.
start 0c01010b0100 => Some(Malformed(8))
start 0c01010b03010100 => None
start 0c0101 => Some(Malformed(8))
start 0c01000b020103 => Some(Malformed(11))
start 0c01010b020103 => Some(Unsupported(14, 3))
start 010401600000030201000b020103 => Some(Unsupported(21, 3))
# Runs of locals may have more than any list can hold.
start 010401600000030201000a10010e02ffffffff0f7fffffffff0f7e0b => None
# A module of 34 bytes that exports a function which answers 7: each front of its bytes.
00*0 => Some(Malformed(0))
00 => Some(Malformed(0))
0061 => Some(Malformed(0))
006173 => Some(Malformed(0))
0061736d => Some(Malformed(0))
0061736d01 => Some(Malformed(0))
0061736d0100 => Some(Malformed(0))
0061736d010000 => Some(Malformed(0))
0061736d01000000 => None
0061736d0100000001 => Some(Malformed(8))
0061736d010000000105 => Some(Malformed(8))
0061736d01000000010501 => Some(Malformed(8))
0061736d0100000001050160 => Some(Malformed(8))
0061736d010000000105016000 => Some(Malformed(8))
0061736d01000000010501600001 => Some(Malformed(8))
0061736d010000000105016000017f => None
0061736d010000000105016000017f03 => Some(Malformed(15))
0061736d010000000105016000017f0302 => Some(Malformed(15))
0061736d010000000105016000017f030201 => Some(Malformed(15))
0061736d010000000105016000017f03020100 => Some(Malformed(15))
0061736d010000000105016000017f0302010007 => Some(Malformed(15))
0061736d010000000105016000017f030201000705 => Some(Malformed(15))
0061736d010000000105016000017f03020100070501 => Some(Malformed(15))
0061736d010000000105016000017f0302010007050101 => Some(Malformed(15))
0061736d010000000105016000017f030201000705010166 => Some(Malformed(15))
0061736d010000000105016000017f03020100070501016600 => Some(Malformed(15))
0061736d010000000105016000017f0302010007050101660000 => Some(Malformed(15))
0061736d010000000105016000017f03020100070501016600000a => Some(Malformed(15))
0061736d010000000105016000017f03020100070501016600000a06 => Some(Malformed(15))
0061736d010000000105016000017f03020100070501016600000a0601 => Some(Malformed(15))
0061736d010000000105016000017f03020100070501016600000a060104 => Some(Malformed(15))
0061736d010000000105016000017f03020100070501016600000a06010400 => Some(Malformed(15))
0061736d010000000105016000017f03020100070501016600000a0601040041 => Some(Malformed(15))
0061736d010000000105016000017f03020100070501016600000a060104004107 => Some(Malformed(15))";

/// Blocks in one another, a long body, many labels, and counts that nothing stands after.
const LARGE: &str = "\
one 0ae6a71201e2a71200 0240*100000 0b*100001 => None
one 0a87bab7030182bab70300 41001a*2400000 0b => None
one 0acb843d01c7843d00 0ec0843d 00*1000001 0b => None
start 0305ffffffff0f => Some(Malformed(8))";

/// What reading answers where the words spell no module.
fn fault_of(alloc: Global, words: &str) -> Result<String, Fail> {
    shown(
        alloc,
        &read_module(alloc, bytes_of(alloc, words)?.as_slice()).err(),
    )
}

#[test]
fn modules_are_read(rt: HostRuntime) -> Result<(), Fail> {
    hold(&rt, rt.alloc(), ROWS, fault_of)
}

#[test]
fn large_modules_are_read(rt: HostRuntime) -> Result<(), Fail> {
    hold(&rt, rt.alloc(), LARGE, fault_of)
}

/// A module of 34 bytes that exports a function which answers 7.
const SEVEN: &str = "\
start 0105016000017f03020100070501016600000a0601040041070b => \
Module { types: Lean { kept: Apart(Apart { inner: Items { items: [\
CoreFunc { params: Items { items: [] }, results: Items { items: [I32] } }] } }) }, \
imports: Lean { kept: Empty }, functions: Lean { kept: Apart(Apart { inner: Items { items: [0] } }) }, \
tables: Lean { kept: Empty }, memories: Lean { kept: Empty }, globals: Lean { kept: Empty }, \
exports: Lean { kept: Apart(Apart { inner: Items { items: [Export { name: Text { chars: \"f\" }, item: Func(0) }] } }) }, \
start: None, elements: Lean { kept: Empty }, data_count: None, \
code: Lean { kept: Apart(Apart { inner: Items { items: [Body { locals: Items { items: [] }, \
code: Items { items: [Plain(I32Const(7)), End] } }] } }) }, segments: Lean { kept: Empty } }";

fn read(alloc: Global, words: &str) -> Result<String, Fail> {
    shown(alloc, &module_of(alloc, words)?)
}

#[test]
fn what_is_read(rt: HostRuntime) -> Result<(), Fail> {
    hold(&rt, rt.alloc(), SEVEN, read)
}
