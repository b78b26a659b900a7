//! What reading bytes answers.

use crate::rows::{Asked, hold};
use crate::words::{said, shown};
use comp_read::{CompReadFault, read_component};
use std::alloc::Global;
use std::test::Fail;

/// Why no component is read, in words.
pub fn in_words(alloc: Global, fault: CompReadFault) -> Result<String, Fail> {
    match fault {
        CompReadFault::Malformed(at) => shown(alloc, "malformed at ", &at),
        CompReadFault::Unsupported(at, byte) => Ok(format!(in alloc;
            "unsupported at {at} byte {byte:02x}"
        )?),
        CompReadFault::TooNested(depth) => shown(alloc, "nested ", &depth),
        CompReadFault::NoMemory => said(alloc, "no memory"),
    }
}

pub fn answer(alloc: Global, bytes: &[u8]) -> Result<String, Fail> {
    match read_component(alloc, bytes) {
        Ok(_) => said(alloc, "read"),
        Err(fault) => in_words(alloc, fault),
    }
}

const ROWS: &str = "\
# Each front of a component of 83 bytes whose export `f` answers 7
front 0 => malformed at 0
front 1 => malformed at 0
front 2 => malformed at 0
front 3 => malformed at 0
front 4 => malformed at 0
front 5 => malformed at 0
front 6 => malformed at 0
front 7 => malformed at 0
front 8 => read
front 9 => malformed at 8
front 10 => malformed at 8
front 11 => malformed at 8
front 12 => malformed at 8
front 13 => malformed at 8
front 14 => malformed at 8
front 15 => malformed at 8
front 16 => malformed at 8
front 17 => malformed at 8
front 18 => malformed at 8
front 19 => malformed at 8
front 20 => malformed at 8
front 21 => malformed at 8
front 22 => malformed at 8
front 23 => malformed at 8
front 24 => malformed at 8
front 25 => malformed at 8
front 26 => malformed at 8
front 27 => malformed at 8
front 28 => malformed at 8
front 29 => malformed at 8
front 30 => malformed at 8
front 31 => malformed at 8
front 32 => malformed at 8
front 33 => malformed at 8
front 34 => malformed at 8
front 35 => malformed at 8
front 36 => malformed at 8
front 37 => malformed at 8
front 38 => malformed at 8
front 39 => malformed at 8
front 40 => malformed at 8
front 41 => malformed at 8
front 42 => malformed at 8
front 43 => malformed at 8
front 44 => read
front 45 => malformed at 44
front 46 => malformed at 44
front 47 => malformed at 44
front 48 => malformed at 44
front 49 => malformed at 44
front 50 => read
front 51 => malformed at 50
front 52 => malformed at 50
front 53 => malformed at 50
front 54 => malformed at 50
front 55 => malformed at 50
front 56 => malformed at 50
front 57 => malformed at 50
front 58 => malformed at 50
front 59 => read
front 60 => malformed at 59
front 61 => malformed at 59
front 62 => malformed at 59
front 63 => malformed at 59
front 64 => malformed at 59
front 65 => malformed at 59
front 66 => read
front 67 => malformed at 66
front 68 => malformed at 66
front 69 => malformed at 66
front 70 => malformed at 66
front 71 => malformed at 66
front 72 => malformed at 66
front 73 => malformed at 66
front 74 => read
front 75 => malformed at 74
front 76 => malformed at 74
front 77 => malformed at 74
front 78 => malformed at 74
front 79 => malformed at 74
front 80 => malformed at 74
front 81 => malformed at 74
front 82 => malformed at 74
# Whole components, one with an instruction on floats, fronts of one that imports a clock, and bytes that are none
whole  => malformed at 0
whole 0061736d0d0001 => malformed at 0
whole 0061736d01000000 => malformed at 0
whole 0061736d0d000000 => malformed at 0
whole 0061736d0d000100 => read
whole 0061736d0d00010000 => malformed at 8
whole 0061736d0d00010001220061736d010000000105016000017f03020100070501016600000a0601040041070b0204010000000607010000010001660705014000007908060100000000000b0701000166010000 => read
whole 0061736d0d00010001a2808080000061736d010000000105016000017f03020100070501016600000a0601040041070b0204010000000607010000010001660705014000007908060100000000000b0701000166010000 => read
whole 0061736d0d00010001230061736d010000000105016000017f03020100070501016600000a070105004107920b0204010000000607010000010001660705014000007908060100000000000b0701000166010000 => unsupported at 43 byte 92
whole 0061736d0d000100071001420201400000770400036e6f7701000a26010021776173693a636c6f636b732f6d6f6e6f746f6e69632d636c6f636b40302e322e300500060801010000036e6f7708050101000000012b0061736d010000000105016000017e0207010168016e000003020100070501016600010a0601040010000b020e020101016e0000000001016812000607010000010101660705014000007708060100000100010b0701000166010100 => read
whole 0061736d0d000100071001420201400000770400036e6f770100 => read
whole 0061736d0d000100071001420201400000770400036e6f7701000a => malformed at 26
# Ids, sizes and counts of sections, and custom ones
0c => unsupported at 8 byte 0c
0cffffffff0f => unsupported at 8 byte 0c
03 => unsupported at 8 byte 03
09 => unsupported at 8 byte 09
0d => unsupported at 8 byte 0d
ff => unsupported at 8 byte ff
07 => malformed at 8
0705017f => malformed at 8
0702017f => read
0703017f7f => malformed at 8
0701 => malformed at 8
070100 => read
0700 => malformed at 8
0702017f0702017f => read
0b01000a0100 => read
0704057f7f64 => unsupported at 13 byte 64
0703057f7f => malformed at 8
0706ffffffff0f7f => malformed at 8
0707ffffffff0f7f64 => unsupported at 16 byte 64
00020561 => malformed at 8
000201ff => malformed at 8
000300ffff => read
000100 => read
0000 => malformed at 8
0003016105 => read
00010007 => malformed at 11
0001000d => unsupported at 11 byte 0d
078280808000017f => read
07828080808000017f => malformed at 8
# Core modules, in which offsets are those of the whole input
`empty-module` => read
01080061736d0d000100 => malformed at 8
0107 => malformed at 8
01070061736d010000 => malformed at 8
01120061736d0100000001040160000003020100 => malformed at 8
010a0061736d010000000d00 => unsupported at 18 byte 0d
000100010a0061736d010000000d00 => unsupported at 21 byte 0d
000100010a0061736d010000000100 => malformed at 11
# Core instances: 12 before an argument's instance, and core sorts
02080100000101611200 => read
02080100000101611300 => unsupported at 16 byte 13
`instance-of-module` => read
02020102 => unsupported at 11 byte 02
02020180 => unsupported at 11 byte 80
020701010101610000 => read
020701010101610300 => read
020701010101610400 => unsupported at 15 byte 04
020701010101611100 => unsupported at 15 byte 11
020701010101618000 => unsupported at 15 byte 80
0206010000010012 => malformed at 8
# Instances: sorts of arguments, and names of exports that are written out
`instance-of-0` => read
050701000001000100 => read
050701000001000500 => read
050701000001000300 => read
050701000001000200 => unsupported at 15 byte 02
050701000001000400 => unsupported at 15 byte 04
050701000001000000 => unsupported at 15 byte 00
050701000001008000 => unsupported at 15 byte 80
05020102 => unsupported at 11 byte 02
050701010100000100 => read
050701010101000100 => read
050701010102000100 => unsupported at 13 byte 02
# Aliases: the first byte from the left that no table continues
06050103020000 => read
06050104020000 => read
06050104000000 => unsupported at 12 byte 00
06050101000000 => read
06050101010000 => unsupported at 12 byte 01
06050105000000 => read
06050105020000 => unsupported at 12 byte 02
0606010011020000 => read
0606010011010000 => unsupported at 13 byte 01
0606010010020000 => unsupported at 12 byte 10
0606010000010000 => read
0606010003010000 => read
0606010003000000 => unsupported at 13 byte 00
0606010004010000 => unsupported at 12 byte 04
06050102000000 => unsupported at 11 byte 02
06050103010000 => unsupported at 12 byte 01
06050103000000 => read
06050180000000 => unsupported at 11 byte 80
# Forms of types, and the bytes in them that are tags
0702017f => read
07020173 => read
07020175 => unsupported at 11 byte 75
07020176 => unsupported at 11 byte 76
07020141 => unsupported at 11 byte 41
07020143 => unsupported at 11 byte 43
07020164 => unsupported at 11 byte 64
07020165 => unsupported at 11 byte 65
07020166 => unsupported at 11 byte 66
07020167 => unsupported at 11 byte 67
0702016c => unsupported at 11 byte 6c
07020180 => unsupported at 11 byte 80
07020100 => unsupported at 11 byte 00
0705014000007f => read
`function-type` => read
07050140000101 => unsupported at 14 byte 01
07050140000200 => unsupported at 13 byte 02
070801400101617f0100 => read
070701710101610000 => read
070701710101610001 => unsupported at 16 byte 01
07080171010161017f00 => read
07080171010161027f00 => unsupported at 15 byte 02
`resource` => read
0705013f7f0105 => read
0704013f7e00 => unsupported at 12 byte 7e
0704013f7f02 => unsupported at 13 byte 02
0704016a0000 => read
0706016a017f017f => read
0704016a0200 => unsupported at 12 byte 02
0703016905 => read
0703016805 => read
0703016b7f => read
070601720101617f => read
0705016e010161 => read
0705016d010161 => read
0705016f027f7e => read
0705016e0101ff => malformed at 8
# Value types: a tag from 40 to 7F, and else an index that is not negative
070401708000 => read
070301703f => read
07040170c07f => malformed at 8
0703017040 => unsupported at 12 byte 40
0703017072 => unsupported at 12 byte 72
070301707f => read
07070170ffffffff0f => read
07070170ffffffff7f => malformed at 8
07040170c000 => read
0703017000 => read
# Instance types: their declarations, at any depth, and what stands behind them
`instance-type` => read
0709014201014201017f00 => malformed at 8
0708014201014201017f => read
07070242010142007f => read
0706024201014200 => malformed at 8
070702420101420001 => unsupported at 16 byte 01
070401420100 => unsupported at 13 byte 00
070401420103 => unsupported at 13 byte 03
070401420105 => unsupported at 13 byte 05
07080142010203000000 => read
07080142010203020000 => read
07080142010201000000 => unsupported at 14 byte 01
07080142010203010000 => unsupported at 15 byte 01
07080142010400000100 => read
07080142010402000100 => unsupported at 14 byte 02
07080142010400000200 => unsupported at 16 byte 02
070401420201 => malformed at 8
0706014202017f01 => malformed at 8
0707014202017f017f => read
070a014202014201017f017f => read
# Canonical functions and their options
`lift` => read
0806010001000000 => unsupported at 12 byte 01
08050101000000 => read
08050101010000 => unsupported at 12 byte 01
0803010205 => read
0803010305 => read
0803010405 => read
0803010505 => unsupported at 11 byte 05
080701000000010000 => read
080701000000010100 => unsupported at 15 byte 01
080701000000010200 => unsupported at 15 byte 02
080701000000010600 => unsupported at 15 byte 06
080701000000010700 => unsupported at 15 byte 07
08080100000001030000 => read
08080100000001040000 => read
08080100000001050000 => read
# Imports and exports: their names, sorts and descriptions
0a050100000105 => read
0a050101000105 => read
0a050102000105 => unsupported at 11 byte 02
0a050100000505 => read
0a06010000030005 => read
0a050100000301 => read
0a050100000302 => unsupported at 14 byte 02
0a050100000205 => unsupported at 13 byte 02
0a050100000405 => unsupported at 13 byte 04
0a050100000005 => unsupported at 13 byte 00
0b06010000010000 => read
0b06010100010000 => read
0b06010200010000 => unsupported at 11 byte 02
0b06010000020000 => unsupported at 13 byte 02
0b06010000040000 => unsupported at 13 byte 04
0b06010000000000 => unsupported at 13 byte 00
0b06010000800000 => unsupported at 13 byte 80
0b06010000010002 => unsupported at 15 byte 02
0b080100000300010301 => read
0b080100000300010302 => unsupported at 17 byte 02
0b050100000100 => malformed at 8
# Nested components: offsets are those of the whole input, and a failure counts from the last whole outermost section
`empty-component` => read
04080061736d01000000 => malformed at 8
04090061736d0d000100 => malformed at 8
04090061736d0d0001000d => unsupported at 18 byte 0d
04090061736d0d00010007 => malformed at 8
00010004090061736d0d00010007 => malformed at 11
04120061736d0d00010004080061736d0d000100 => read
04130061736d0d00010004090061736d0d0001000d => unsupported at 28 byte 0d
0400 => malformed at 8
04140061736d0d000100010a0061736d010000000d00 => unsupported at 28 byte 0d
# A component may stand 100 deep. One that stands 101 deep is reached where its size fits, and what is in it is not looked at
around 0 0061736d0d000100 => read
around 99 0061736d0d000100 => read
around 100 0061736d0d000100 => nested 101
around 101 0061736d0d000100 => nested 101
around 300 0061736d0d000100 => nested 101
around 100  => nested 101
around 100 ffff => nested 101
around 100 0061736d0d0001000d => nested 101
around 99 0061736d0d0001000409 => malformed at 8
around 99 0061736d0d0001000d => unsupported at 1085 byte 0d
# Instance types nest without bound
types 100000 => read";

#[test]
fn components_are_read(rt: HostRuntime) -> Result<(), Fail> {
    hold(&rt, rt.alloc(), Asked::Reading, ROWS)
}
