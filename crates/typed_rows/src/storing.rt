//! Values that are stored in memory, and lowered to flat values.

use crate::headings::first_type;
use crate::memories::{filled_with, push_digits};
use crate::plans::store_value;
use crate::rows::{Kind, hold};
use crate::scripts::{args_in, script_of};
use crate::texts::{halves, written_out};
use abi_store::Target;
use std::alloc::Global;
use std::test::Fail;
use wasi_table::Interface;
use wit_types::{Value, Values};

fn target_in(word: &str) -> Result<Target, Fail> {
    if word == "flat" {
        return Ok(Target::Flat);
    }
    if word == "spill" {
        return Ok(Target::Spill);
    }
    Ok(Target::At(word.parse::<u32>()?))
}

/// The value for which JSON stands by the last function's parameter.
fn value_in(alloc: Global, interface: &Interface, json: &str) -> Result<Value, Fail> {
    let json = written_out(alloc, json)?;
    let script = script_of(alloc, interface, "", json.as_str())??;
    match args_in(script.calls)? {
        Values::Each(mut values) => match values.pop() {
            Some(value) => Ok(value),
            None => Err(Fail::from("no value")),
        },
        Values::Bytes(_) => Err(Fail::from("a run of bytes")),
    }
}

/// `VALUE | FILL FROM COUNT | TARGET | ANSWERS`: the steps of storing a value, with these answers to what is asked for, and then bytes
/// of the memory, which began with 64 bytes ff where the fill is `ones`. The target is a place, `flat` or `spill`. The value is read
/// by the last function's parameter, and stored by the first one's: where these differ, it is kept in another form.
pub fn stored(alloc: Global, interface: &Interface, input: &str) -> Result<String, Fail> {
    let (json, rest) = halves(input, " | ");
    let (memory, rest) = halves(rest, " | ");
    let (target, answers) = halves(rest, " | ");
    let (filled, range) = halves(memory, " ");
    let ty = first_type(interface)?;
    let target = target_in(target)?;
    let mut text = String::new(alloc);
    let mut store = filled_with(alloc, filled)?;
    let value = value_in(alloc, interface, json)?;
    store_value(alloc, &mut store, ty, value, target, answers, &mut text)?;
    push_digits(alloc, &store, range, &mut text)?;
    Ok(text)
}

/// Each is stored at 16, and what lies around is left as it was.
const NUMBERS: &str = r#"# numbers: truth;function f bool
false | ones 0 18 | 16 => Done(Items { items: [] }); ffffffffffffffffffffffffffffffff00ff
true | ones 0 18 | 16 => Done(Items { items: [] }); ffffffffffffffffffffffffffffffff01ff
# numbers: one byte;function f s8
-128 | ones 0 18 | 16 => Done(Items { items: [] }); ffffffffffffffffffffffffffffffff80ff
-1 | ones 0 18 | 16 => Done(Items { items: [] }); ffffffffffffffffffffffffffffffffffff
# numbers: one byte;function f u8
254 | ones 0 18 | 16 => Done(Items { items: [] }); fffffffffffffffffffffffffffffffffeff
# numbers: two bytes;function f s16
-32768 | ones 0 19 | 16 => Done(Items { items: [] }); ffffffffffffffffffffffffffffffff0080ff
# numbers: two bytes;function f u16
258 | ones 0 19 | 16 => Done(Items { items: [] }); ffffffffffffffffffffffffffffffff0201ff
# numbers: four bytes;function f s32
-2 | ones 0 21 | 16 => Done(Items { items: [] }); fffffffffffffffffffffffffffffffffeffffffff
# numbers: four bytes;function f u32
67305985 | ones 0 21 | 16 => Done(Items { items: [] }); ffffffffffffffffffffffffffffffff01020304ff
# numbers: eight bytes;function f s64
-9223372036854775808 | ones 0 25 | 16 => Done(Items { items: [] }); ffffffffffffffffffffffffffffffff0000000000000080ff
# numbers: eight bytes;function f u64
18446744073709551614 | ones 0 25 | 16 => Done(Items { items: [] }); fffffffffffffffffffffffffffffffffeffffffffffffffff
# numbers: a character;function f char
"\udbff\udfff" | ones 0 21 | 16 => Done(Items { items: [] }); ffffffffffffffffffffffffffffffffffff1000ff
# handles: own;resource output-stream;function f own output-stream
7 | ones 0 21 | 16 => Done(Items { items: [] }); ffffffffffffffffffffffffffffffff07000000ff
# handles: borrow;resource output-stream;function f borrow output-stream
4294967294 | ones 0 21 | 16 => Done(Items { items: [] }); fffffffffffffffffffffffffffffffffeffffffff
# flags: 8;flags t a b c d e f g h;function f t
["a","h"] | ones 0 18 | 16 => Done(Items { items: [] }); ffffffffffffffffffffffffffffffff81ff
# flags: 9;flags t a b c d e f g h i;function f t
["a","i"] | ones 0 19 | 16 => Done(Items { items: [] }); ffffffffffffffffffffffffffffffff0101ff
# flags: 17;flags t a b c d e f g h i j k l m n o p q;function f t
["b","q"] | ones 0 21 | 16 => Done(Items { items: [] }); ffffffffffffffffffffffffffffffff02000100ff
# flags: 32;flags t a b c d e f g h i j k l m n o p q r s t u v w x y z aa bb cc dd ee ff;function f t
["a","ff"] | ones 0 21 | 16 => Done(Items { items: [] }); ffffffffffffffffffffffffffffffff01000080ff
# 256: labels;function f labels
"z" | ones 0 18 | 16 => Done(Items { items: [] }); ffffffffffffffffffffffffffffffffffff
# 257: labels;function f labels
"z" | ones 0 19 | 16 => Done(Items { items: [] }); ffffffffffffffffffffffffffffffff0001ff
# 65537: labels;function f labels
"z" | ones 0 21 | 16 => Done(Items { items: [] }); ffffffffffffffffffffffffffffffff00000100ff"#;

/// A field lies at its own alignment and a payload at the greatest of the payloads; what lies between is left as it was.
const PARTS: &str = r#"# records: own alignments;record t,a u8,b u32,c u16,d u64;function f t
{"a":1,"b":2,"c":3,"d":4} | ones 0 40 | 16 => Done(Items { items: [] }); ffffffffffffffffffffffffffffffff01ffffff020000000300ffffffffffff0400000000000000
# records: in one another;function f tuple2 tuple2 bool u16 u8
[[true,2],3] | ones 0 22 | 16 => Done(Items { items: [] }); ffffffffffffffffffffffffffffffff01ff020003ff
# variants: the greatest alignment;variant t,a u8,b,c u64;function f t
{"a":5} | ones 0 26 | 16 => Done(Items { items: [] }); ffffffffffffffffffffffffffffffff00ffffffffffffff05ff
{"b":null} | ones 0 19 | 16 => Done(Items { items: [] }); ffffffffffffffffffffffffffffffff01ffff
{"c":6} | ones 0 32 | 16 => Done(Items { items: [] }); ffffffffffffffffffffffffffffffff02ffffffffffffff0600000000000000
# options: of four bytes;function f option u32
null | ones 0 22 | 16 => Done(Items { items: [] }); ffffffffffffffffffffffffffffffff00ffffffffff
{"some":7} | ones 0 25 | 16 => Done(Items { items: [] }); ffffffffffffffffffffffffffffffff01ffffff07000000ff
# results: of both;function f result u16 u8
{"ok":8} | ones 0 21 | 16 => Done(Items { items: [] }); ffffffffffffffffffffffffffffffff00ff0800ff
{"err":9} | ones 0 20 | 16 => Done(Items { items: [] }); ffffffffffffffffffffffffffffffff01ff09ff"#;

/// What lies at the answer to a request is written first, then the answer and the length.
const REQUESTS: &str = r#"# strings: behind what lies at the answer;function f string
"abc" | ones 0 32 | 16 | 29 => NeedsRealloc { place: 0, old_len: 0, align: 1, len: 3 }; Done(Items { items: [] }); ffffffffffffffffffffffffffffffff1d00000003000000ffffffffff616263
"" | ones 0 25 | 16 | 65536 => NeedsRealloc { place: 0, old_len: 0, align: 1, len: 0 }; Done(Items { items: [] }); ffffffffffffffffffffffffffffffff0000010000000000ff
# strings: the second is asked for when the first is stored;function f tuple2 string string
["ab","c"] | ones 0 36 | 16 | 32 34 => NeedsRealloc { place: 0, old_len: 0, align: 1, len: 2 }; NeedsRealloc { place: 0, old_len: 0, align: 1, len: 1 }; Done(Items { items: [] }); ffffffffffffffffffffffffffffffff20000000020000002200000001000000616263ff
# lists: empty;function f list u32
[] | ones 0 25 | 16 | 24 => NeedsRealloc { place: 0, old_len: 0, align: 4, len: 0 }; Done(Items { items: [] }); ffffffffffffffffffffffffffffffff1800000000000000ff
# lists: a run of bytes;function f list u8
[255,7,8] | ones 0 28 | 16 | 24 => NeedsRealloc { place: 0, old_len: 0, align: 1, len: 3 }; Done(Items { items: [] }); ffffffffffffffffffffffffffffffff1800000003000000ff0708ff
# lists: a run of bytes where each takes two;function f list u16;function run list u8
[255,7,8] | ones 0 31 | 16 | 24 => NeedsRealloc { place: 0, old_len: 0, align: 2, len: 6 }; Done(Items { items: [] }); ffffffffffffffffffffffffffffffff1800000003000000ff0007000800ff
# lists: the place of the list before those of what it holds, and these in order;function f list string
["a",""] | ones 0 41 | 16 | 24 40 41 => NeedsRealloc { place: 0, old_len: 0, align: 4, len: 16 }; NeedsRealloc { place: 0, old_len: 0, align: 1, len: 1 }; NeedsRealloc { place: 0, old_len: 0, align: 1, len: 0 }; Done(Items { items: [] }); ffffffffffffffffffffffffffffffff18000000020000002800000001000000290000000000000061
# lists: fields behind a string;function f list tuple2 string u8
[["x",1],["yz",2]] | ones 0 48 | 16 | 24 49 50 => NeedsRealloc { place: 0, old_len: 0, align: 4, len: 24 }; NeedsRealloc { place: 0, old_len: 0, align: 1, len: 1 }; NeedsRealloc { place: 0, old_len: 0, align: 1, len: 2 }; Done(Items { items: [] }); ffffffffffffffffffffffffffffffff1800000002000000310000000100000001ffffff320000000200000002ffffff
# lists: options of lists;function f list option list u8
[null,{"some":[9]}] | ones 0 49 | 16 | 24 48 => NeedsRealloc { place: 0, old_len: 0, align: 4, len: 24 }; NeedsRealloc { place: 0, old_len: 0, align: 1, len: 1 }; Done(Items { items: [] }); ffffffffffffffffffffffffffffffff180000000200000000ffffffffffffffffffffff01ffffff300000000100000009
# lists: a variant in a record in a list, of which the payload is a variant;variant v,a,b result u16 string;function f list tuple2 u8 v
[[5,{"b":{"ok":258}}],[6,{"b":{"err":"a"}}]] | ones 0 65 | 16 | 24 64 => NeedsRealloc { place: 0, old_len: 0, align: 4, len: 40 }; NeedsRealloc { place: 0, old_len: 0, align: 1, len: 1 }; Done(Items { items: [] }); ffffffffffffffffffffffffffffffff180000000200000005ffffff01ffffff00ffffff0201ffffffffffff06ffffff01ffffff01ffffff400000000100000061"#;

/// Lists of two, each stored as one run.
const LISTS: &str = r#"# lists: bytes one by one;function f list u8;function each list u16
[7,255] | ones 0 27 | 16 | 24 => NeedsRealloc { place: 0, old_len: 0, align: 1, len: 2 }; Done(Items { items: [] }); ffffffffffffffffffffffffffffffff180000000200000007ffff
# lists: of one byte each;function f list s8
[-2,127] | ones 0 27 | 16 | 24 => NeedsRealloc { place: 0, old_len: 0, align: 1, len: 2 }; Done(Items { items: [] }); ffffffffffffffffffffffffffffffff1800000002000000fe7fff
# lists: truths;function f list bool
[true,false] | ones 0 27 | 16 | 24 => NeedsRealloc { place: 0, old_len: 0, align: 1, len: 2 }; Done(Items { items: [] }); ffffffffffffffffffffffffffffffff18000000020000000100ff
# lists: of two bytes each;function f list s16
[-2,513] | ones 0 29 | 16 | 24 => NeedsRealloc { place: 0, old_len: 0, align: 2, len: 4 }; Done(Items { items: [] }); ffffffffffffffffffffffffffffffff1800000002000000feff0102ff
# lists: of four bytes each;function f list u32
[1,2] | ones 0 33 | 16 | 24 => NeedsRealloc { place: 0, old_len: 0, align: 4, len: 8 }; Done(Items { items: [] }); ffffffffffffffffffffffffffffffff18000000020000000100000002000000ff
# lists: characters;function f list char
["a","é"] | ones 0 33 | 16 | 24 => NeedsRealloc { place: 0, old_len: 0, align: 4, len: 8 }; Done(Items { items: [] }); ffffffffffffffffffffffffffffffff180000000200000061000000e9000000ff
# lists: handles;resource pollable;function f list own pollable
[3,256] | ones 0 33 | 16 | 24 => NeedsRealloc { place: 0, old_len: 0, align: 4, len: 8 }; Done(Items { items: [] }); ffffffffffffffffffffffffffffffff18000000020000000300000000010000ff
# lists: of eight bytes each;function f list s64
[-1,1] | ones 0 41 | 16 | 24 => NeedsRealloc { place: 0, old_len: 0, align: 8, len: 16 }; Done(Items { items: [] }); ffffffffffffffffffffffffffffffff1800000002000000ffffffffffffffff0100000000000000ff
# lists: flags;flags t a b c d e f g h i;function f list t
[["a","i"],["b"]] | ones 0 29 | 16 | 24 => NeedsRealloc { place: 0, old_len: 0, align: 2, len: 4 }; Done(Items { items: [] }); ffffffffffffffffffffffffffffffff180000000200000001010200ff"#;

/// Flat values, also where they are spilled. At 0 nothing is written.
const FLAT: &str = r#"# numbers: truth;function f bool
true | zeros 0 1 | flat => Done(Items { items: [I32(1)] }); 00
# numbers: one byte;function f s8
-1 | zeros 0 1 | flat => Done(Items { items: [I32(4294967295)] }); 00
# numbers: one byte;function f u8
255 | zeros 0 1 | flat => Done(Items { items: [I32(255)] }); 00
# numbers: two bytes;function f s16
-32768 | zeros 0 1 | flat => Done(Items { items: [I32(4294934528)] }); 00
# numbers: two bytes;function f u16
65535 | zeros 0 1 | flat => Done(Items { items: [I32(65535)] }); 00
# numbers: four bytes;function f s32
-2 | zeros 0 1 | flat => Done(Items { items: [I32(4294967294)] }); 00
# numbers: four bytes;function f u32
4294967295 | zeros 0 1 | flat => Done(Items { items: [I32(4294967295)] }); 00
# numbers: eight bytes;function f s64
-1 | zeros 0 1 | flat => Done(Items { items: [I64(18446744073709551615)] }); 00
# numbers: eight bytes;function f u64
18446744073709551614 | zeros 0 1 | flat => Done(Items { items: [I64(18446744073709551614)] }); 00
# numbers: a character;function f char
"A" | zeros 0 1 | flat => Done(Items { items: [I32(65)] }); 00
# numbers: own;resource error;function f own error
3 | zeros 0 1 | flat => Done(Items { items: [I32(3)] }); 00
# numbers: borrow;resource error;function f borrow error
4294967295 | zeros 0 1 | flat => Done(Items { items: [I32(4294967295)] }); 00
# flags: 32;flags t a b c d e f g h i j k l m n o p q r s t u v w x y z aa bb cc dd ee ff;function f t
["a","ff"] | zeros 0 1 | flat => Done(Items { items: [I32(2147483649)] }); 00
# 300: labels;function f labels
"z" | zeros 0 1 | flat => Done(Items { items: [I32(299)] }); 00
# joined payloads: 32 bits stand in 64 where another case has 64;variant t,a u64,b tuple2 u32 u8,c,d string;function f t
{"b":[4294967295,9]} | zeros 0 1 | flat => Done(Items { items: [I32(1), I64(4294967295), I32(9)] }); 00
{"d":"ab"} | zeros 0 1 | flat | 77 => NeedsRealloc { place: 0, old_len: 0, align: 1, len: 2 }; Done(Items { items: [I32(3), I64(77), I32(2)] }); 00
# joined payloads: what a case has less than another one is 0;variant t,a u64,b tuple2 u32 u8,c,d string;function f t
{"a":18446744073709551615} | zeros 0 1 | flat => Done(Items { items: [I32(0), I64(18446744073709551615), I32(0)] }); 00
{"c":null} | zeros 0 1 | flat => Done(Items { items: [I32(2), I64(0), I32(0)] }); 00
# options: of one byte;function f option s8
null | zeros 0 1 | flat => Done(Items { items: [I32(0), I32(0)] }); 00
{"some":-1} | zeros 0 1 | flat => Done(Items { items: [I32(1), I32(4294967295)] }); 00
# results: of both;function f result u8 s64
{"ok":5} | zeros 0 1 | flat => Done(Items { items: [I32(0), I64(5)] }); 00
# nothing to write: a list;function f list u32
[] | zeros 0 1 | flat | 65536 => NeedsRealloc { place: 0, old_len: 0, align: 4, len: 0 }; Done(Items { items: [I32(65536), I32(0)] }); 00
# nothing to write: a string;function f string
"" | zeros 0 1 | flat | 65536 => NeedsRealloc { place: 0, old_len: 0, align: 1, len: 0 }; Done(Items { items: [I32(65536), I32(0)] }); 00
# several places: in the order of the value, those of the items of a list behind its own;record t,a u8,b list string,c string;function f t
{"a":1,"b":["a","bc"],"c":"d"} | zeros 0 1 | flat | 8 24 25 27 => NeedsRealloc { place: 0, old_len: 0, align: 4, len: 16 }; NeedsRealloc { place: 0, old_len: 0, align: 1, len: 1 }; NeedsRealloc { place: 0, old_len: 0, align: 1, len: 2 }; NeedsRealloc { place: 0, old_len: 0, align: 1, len: 1 }; Done(Items { items: [I32(1), I32(8), I32(2), I32(27), I32(1)] }); 00
# spilled: room for all first, whose place is the flat value;function f tuple3 u8 list u8 u64
[1,[5,6],2] | zeros 16 28 | spill | 16 40 => NeedsRealloc { place: 0, old_len: 0, align: 8, len: 24 }; NeedsRealloc { place: 0, old_len: 0, align: 1, len: 2 }; Done(Items { items: [I32(16)] }); 01000000280000000200000000000000020000000000000005060000"#;

/// Storing traps in a memory of one page, and from 65520 on no byte is changed. A list of 5,368 items of 800,008 bytes is below 2^32
/// bytes, one of 5,369 is not.
const TRAPS: &str = r#"# places of the caller: two bytes;function f u16
1 | zeros 65520 16 | 1 => Trap; 00000000000000000000000000000000
# places of the caller: four bytes;function f u32
1 | zeros 65520 16 | 65534 => Trap; 00000000000000000000000000000000
# places of the caller: eight bytes;function f u64
1 | zeros 65520 16 | 65532 => Trap; 00000000000000000000000000000000
1 | zeros 65520 16 | 65536 => Trap; 00000000000000000000000000000000
# places of the caller: one byte;function f u8
1 | zeros 65520 16 | 65536 => Trap; 00000000000000000000000000000000
1 | zeros 65520 16 | 4294967295 => Trap; 00000000000000000000000000000000
# strings: without room;function f string
"abc" | zeros 65520 16 | 16 | 65534 => NeedsRealloc { place: 0, old_len: 0, align: 1, len: 3 }; Trap; 00000000000000000000000000000000
"abc" | zeros 65520 16 | flat | 65534 => NeedsRealloc { place: 0, old_len: 0, align: 1, len: 3 }; Trap; 00000000000000000000000000000000
"" | zeros 65520 16 | flat | 65537 => NeedsRealloc { place: 0, old_len: 0, align: 1, len: 0 }; Trap; 00000000000000000000000000000000
# lists: without room;function f list u32
[] | zeros 65520 16 | flat | 65540 => NeedsRealloc { place: 0, old_len: 0, align: 4, len: 0 }; Trap; 00000000000000000000000000000000
# lists: bytes without room;function f list u8
[1,2] | zeros 65520 16 | flat | 4294967295 => NeedsRealloc { place: 0, old_len: 0, align: 1, len: 2 }; Trap; 00000000000000000000000000000000
# answers: not aligned;function f list u32
[] | zeros 65520 16 | flat | 2 => NeedsRealloc { place: 0, old_len: 0, align: 4, len: 0 }; Trap; 00000000000000000000000000000000
[1] | zeros 65520 16 | spill | 16 26 => NeedsRealloc { place: 0, old_len: 0, align: 4, len: 8 }; NeedsRealloc { place: 0, old_len: 0, align: 4, len: 4 }; Trap; 00000000000000000000000000000000
# 100000: numbers in a list of options;function f list option numbers
[`5367*null,`null] | zeros 65520 16 | flat | 0 => NeedsRealloc { place: 0, old_len: 0, align: 8, len: 4294442944 }; Trap; 00000000000000000000000000000000
[`5368*null,`null] | zeros 65520 16 | flat => Trap; 00000000000000000000000000000000"#;

#[test]
fn values_are_stored(rt: HostRuntime) -> Result<(), Fail> {
    hold(&rt, rt.alloc(), Kind::Stored, NUMBERS)?;
    hold(&rt, rt.alloc(), Kind::Stored, PARTS)?;
    hold(&rt, rt.alloc(), Kind::Stored, REQUESTS)?;
    hold(&rt, rt.alloc(), Kind::Stored, LISTS)
}

#[test]
fn values_are_lowered(rt: HostRuntime) -> Result<(), Fail> {
    hold(&rt, rt.alloc(), Kind::Stored, FLAT)
}

#[test]
fn storing_traps(rt: HostRuntime) -> Result<(), Fail> {
    hold(&rt, rt.alloc(), Kind::Stored, TRAPS)
}
