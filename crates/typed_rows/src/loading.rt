//! Values that are loaded from memory.

use crate::memories::memory_with;
use crate::rows::{Kind, hold};
use crate::texts::halves;
use abi_layout::is_small;
use abi_load::{LoadFault, load};
use std::alloc::Global;
use std::test::Fail;
use wit_types::{Value, WitType};

/// A value as it is written for debugging, or the fault.
pub fn found_in_words(alloc: Global, found: &Result<Value, LoadFault>) -> Result<String, Fail> {
    Ok(format!(in alloc; "{found:?}")?)
}

/// What is loaded from a place, where bytes lie at 8: `PLACE`, or `PLACE: BYTES`.
pub fn loaded(alloc: Global, ty: &WitType, input: &str) -> Result<String, Fail> {
    if !is_small(ty) {
        return Err(Fail::from("a large type"));
    }
    let (place, digits) = halves(input, ": ");
    let bytes = hex::decode(alloc, digits)?;
    let store = memory_with(alloc, 8, &bytes)?;
    found_in_words(alloc, &load(alloc, &store, 0, ty, place.parse::<u64>()?))
}

/// Of flags the bits that no flag has are ignored.
const SCALARS: &str = r#"# narrow integers: truth;function f bool
8: 00 => Ok(Bool(false))
8: 01 => Ok(Bool(true))
8: 02 => Ok(Bool(true))
# narrow integers: one byte;function f s8
8: 80 => Ok(Int(-128))
8: 7f => Ok(Int(127))
8: ff => Ok(Int(-1))
# narrow integers: one byte;function f u8
8: ff => Ok(Int(255))
# narrow integers: two bytes;function f s16
8: 0080 => Ok(Int(-32768))
8: ff7f => Ok(Int(32767))
# narrow integers: two bytes;function f u16
8: feff => Ok(Int(65534))
# wide integers: four bytes;function f s32
8: 00000080 => Ok(Int(-2147483648))
# wide integers: four bytes;function f u32
8: ffffffff => Ok(Int(4294967295))
# wide integers: eight bytes;function f s64
8: 0000000000000080 => Ok(Int(-9223372036854775808))
8: ffffffffffffff7f => Ok(Int(9223372036854775807))
# wide integers: eight bytes;function f u64
8: ffffffffffffffff => Ok(Int(18446744073709551615))
# characters: any;function f char
8: 41000000 => Ok(Char('A'))
8: ffd70000 => Ok(Char('\u{d7ff}'))
8: 00e00000 => Ok(Char('\u{e000}'))
8: ffff1000 => Ok(Char('\u{10ffff}'))
# handles: own;resource output-stream;function f own output-stream
8: 07000000 => Ok(Handle(7))
# handles: borrow;resource output-stream;function f borrow output-stream
8: ffffffff => Ok(Handle(4294967295))
# flags: 2;flags t a b;function f t
8: ff => Ok(Flags(3))
# flags: 8;flags t a b c d e f g h;function f t
8: fe => Ok(Flags(254))
# flags: 9;flags t a b c d e f g h i;function f t
8: ffff => Ok(Flags(511))
# flags: 17;flags t a b c d e f g h i j k l m n o p q;function f t
8: ffffffff => Ok(Flags(131071))
# flags: 32;flags t a b c d e f g h i j k l m n o p q r s t u v w x y z aa bb cc dd ee ff;function f t
8: ffffffff => Ok(Flags(4294967295))"#;

/// A string or a list is a place, here 16, and a length; then come the bytes there.
const PARTS: &str = r#"# records: padded;record t,a u8,b u32,c u16;function f t
8: 01ffffff020000000300ffff => Ok(Record(Each([Int(1), Int(2), Int(3)])))
# records: a tuple;function f tuple2 u8 u64
8: 05ffffffffffffff0600000000000000 => Ok(Record(Each([Int(5), Int(6)])))
# variants: padded;variant t,a u8,b u64,c;function f t
8: 00ffffffffffffff09 => Ok(Variant(0, Some(Int(9))))
8: 01ffffffffffffff0100000000000000 => Ok(Variant(1, Some(Int(1))))
8: 02 => Ok(Variant(2, None))
# 256: bare cases;function f cases
8: 0000ff => Ok(Variant(0, Some(Int(255))))
8: 0001 => Ok(Variant(256, None))
# 257: labels;function f labels
8: 0001 => Ok(Variant(256, None))
# 256: labels;function f labels
8: ff01 => Ok(Variant(255, None))
# options: of two bytes;function f option u16
8: 00ff0700 => Ok(Variant(0, None))
8: 01ff0700 => Ok(Variant(1, Some(Int(7))))
# results: of both;function f result u32 u8
8: 00ffffff07010000 => Ok(Variant(0, Some(Int(263))))
8: 01ffffff07010000 => Ok(Variant(1, Some(Int(7))))
# results: of nothing;function f result _ _
8: 01 => Ok(Variant(1, None))
# strings: any;function f string
8: 1000000003000000616263 => Ok(Str(Text { chars: "abc" }))
8: 1000000002000000c3a9 => Ok(Str(Text { chars: "é" }))
8: 0000010000000000 => Ok(Str(Text { chars: "" }))
# lists: bytes;function f list u8
8: 1000000003000000616263 => Ok(List(Bytes(Items { items: [97, 98, 99] })))
8: 0000010000000000 => Ok(List(Bytes(Items { items: [] })))
# lists: of two bytes each;function f list u16
8: 100000000200000001000200 => Ok(List(Each([Int(1), Int(2)])))
8: 0000010000000000 => Ok(List(Each([])))
# lists: strings;function f list string
8: 1000000002000000200000000100000000000100000000006100 => Ok(List(Each([Str(Text { chars: "a" }), Str(Text { chars: "" })])))
# a record in a list in a variant in a tuple: own alignments;record item,a u16,b bool,c string;variant v,a s8,b list item;function f tuple2 u8 v
8: 09ffffff00ffffff80 => Ok(Record(Each([Int(9), Variant(0, Some(Int(-128)))])))
8: 09ffffff01ffffff1800000002000000010005ff3000000001000000020000ff310000000000000061 => Ok(Record(Each([Int(9), Variant(1, Some(List(Each([Record(Each([Int(1), Bool(true), Str(Text { chars: "a" })])), Record(Each([Int(2), Bool(false), Str(Text { chars: "" })]))]))))])))
# 65537: labels with a number in four bytes;function f labels
8: 00000100 => Ok(Variant(65536, None))
8: ffff0000 => Ok(Variant(65535, None))
# 65536: labels;function f labels
8: ffff01 => Ok(Variant(65535, None))
# results: of one alone;function f result u16 _
8: 00ff0201 => Ok(Variant(0, Some(Int(258))))
8: 01ff0201 => Ok(Variant(1, None))
# results: of the other alone;function f result _ u8
8: 0007 => Ok(Variant(0, None))
8: 0107 => Ok(Variant(1, Some(Int(7))))"#;

/// Numbers that are none of the type, and places that are not aligned or from which the value passes the end.
const SCALAR_TRAPS: &str = r#"# characters: none;function f char
8: 00d80000 => Err(Trap)
8: ffdf0000 => Err(Trap)
8: 00001100 => Err(Trap)
8: ffffffff => Err(Trap)
# cases: two labels;enum t a b;function f t
8: 02 => Err(Trap)
8: ff => Err(Trap)
# 257: labels;function f labels
8: 0101 => Err(Trap)
8: ffff => Err(Trap)
# 65537: labels;function f labels
8: 01000100 => Err(Trap)
8: 00000001 => Err(Trap)
# cases: an option;function f option u8
8: 02 => Err(Trap)
# cases: a result;function f result u8 u8
8: 02 => Err(Trap)
# cases: a variant;variant t,a u8,b;function f t
8: 02 => Err(Trap)
# places: two bytes;function f u16
9 => Err(Trap)
# places: four bytes;function f u32
10 => Err(Trap)
# places: eight bytes;function f u64
12 => Err(Trap)
65536 => Err(Trap)
# places: a string;function f string
10 => Err(Trap)
# places: one byte;function f u8
65536 => Err(Trap)
18446744073709551615 => Err(Trap)
# places: the padding behind the last field passes the end;record t,a u64,b u8;function f t
65528 => Err(Trap)"#;

/// Of strings and lists: the end is passed by one byte; an empty string lies after the end, or an empty list, or one at an odd place.
const PART_TRAPS: &str = r#"# strings: ends;function f string
8: ffff000002000000 => Err(Trap)
8: 0100010000000000 => Err(Trap)
8: ffffffffffffffff => Err(Trap)
# strings: a byte that begins nothing, half a character, a surrogate;function f string
8: 1000000001000000ff => Err(Trap)
8: 1000000001000000c3 => Err(Trap)
8: 1000000003000000eda080 => Err(Trap)
# lists: of two bytes each;function f list u16
8: 1100000000000000 => Err(Trap)
8: 0200010000000000 => Err(Trap)
8: feff000002000000 => Err(Trap)
8: 10000000ffffffff => Err(Trap)
# lists: bytes;function f list u8
8: 0100010000000000 => Err(Trap)
8: ffff000002000000 => Err(Trap)
# lists: aligned to four bytes alone, twice, and one item more than there is room for;function f list u64
8: 1400000000000000 => Err(Trap)
8: 1400000001000000 => Err(Trap)
8: 0800000000200000 => Err(Trap)
# lists: strings;function f list string
8: 0a00000000000000 => Err(Trap)
# lists: a surrogate;function f list char
8: 100000000100000000d80000 => Err(Trap)
# parts: the second string is no text;function f list string
8: 10000000020000002000000001000000210000000100000061ff => Err(Trap)
# parts: the payload is no case;function f option option u8
8: 0102 => Err(Trap)
8: 02 => Err(Trap)
# parts: the field is no character;record t,a u8,b char;function f t
8: 00000000ffdf0000 => Err(Trap)"#;

#[test]
fn values_are_loaded(rt: HostRuntime) -> Result<(), Fail> {
    hold(&rt, rt.alloc(), Kind::Loaded, SCALARS)?;
    hold(&rt, rt.alloc(), Kind::Loaded, PARTS)
}

/// A trap of a part is one of the whole.
#[test]
fn loading_traps(rt: HostRuntime) -> Result<(), Fail> {
    hold(&rt, rt.alloc(), Kind::Loaded, SCALAR_TRAPS)?;
    hold(&rt, rt.alloc(), Kind::Loaded, PART_TRAPS)
}
