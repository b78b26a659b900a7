//! Values that are lifted from flat values.

use crate::loading::found_in_words;
use crate::memories::memory_with;
use crate::rows::{Kind, hold, same};
use crate::texts::halves;
use abi_layout::is_small;
use abi_load::{is_flat, lift_flat};
use core_store::{CoreValue, Store};
use std::alloc::Global;
use std::test::Fail;
use virt_base::Items;
use wit_types::WitType;

fn core_value(word: &str) -> Result<CoreValue, Fail> {
    match word.strip_prefix("i64:") {
        Some(number) => Ok(CoreValue::I64(number.parse::<u64>()?)),
        None => Ok(CoreValue::I32(word.parse::<u32>()?)),
    }
}

fn core_values(alloc: Global, words: &str) -> Result<Items<CoreValue>, Fail> {
    let mut values = Items::empty(alloc);
    for word in words.split_whitespace() {
        values.push(core_value(word)?)?;
    }
    Ok(values)
}

/// What flat values stand for, where bytes lie at 8: `VALUES`, or `VALUES: BYTES`.
pub fn lifted(alloc: Global, ty: &WitType, input: &str) -> Result<String, Fail> {
    if !is_small(ty) || !is_flat(ty) {
        return Err(Fail::from("a large type"));
    }
    let (words, digits) = halves(input, ": ");
    let bytes = hex::decode(alloc, digits)?;
    let store = memory_with(alloc, 8, &bytes)?;
    let flat = core_values(alloc, words)?;
    found_in_words(alloc, &lift_flat(alloc, &store, 0, ty, &flat))
}

/// Narrow integers are the low bits of an i32, and bits that no flag has are ignored.
const SCALARS: &str = r#"# narrow integers: truth;function f bool
0 => Ok(Bool(false))
1 => Ok(Bool(true))
256 => Ok(Bool(true))
# narrow integers: one byte;function f s8
4294967168 => Ok(Int(-128))
383 => Ok(Int(127))
# narrow integers: one byte;function f u8
511 => Ok(Int(255))
# narrow integers: two bytes;function f s16
98304 => Ok(Int(-32768))
# narrow integers: two bytes;function f u16
131071 => Ok(Int(65535))
# wide integers: four bytes;function f s32
2147483648 => Ok(Int(-2147483648))
# wide integers: four bytes;function f u32
4294967295 => Ok(Int(4294967295))
# wide integers: eight bytes;function f s64
i64:9223372036854775808 => Ok(Int(-9223372036854775808))
# wide integers: eight bytes;function f u64
i64:9223372036854775808 => Ok(Int(9223372036854775808))
# characters: any;function f char
65 => Ok(Char('A'))
1114111 => Ok(Char('\u{10ffff}'))
# handles: own;resource output-stream;function f own output-stream
7 => Ok(Handle(7))
# handles: borrow;resource output-stream;function f borrow output-stream
8 => Ok(Handle(8))
# flags: 2;flags t a b;function f t
255 => Ok(Flags(3))
# flags: 32;flags t a b c d e f g h i j k l m n o p q r s t u v w x y z aa bb cc dd ee ff;function f t
4294967295 => Ok(Flags(4294967295))"#;

/// Strings and lists are a place and a length. Payloads are joined: one that is an i32 is the low half of an i64, one that is an
/// i64 is the whole of it. What stands after a variant begins after all its payloads, also where the case has none.
const PARTS: &str = r#"# strings: any;function f string
8 3: 616263000100020003 => Ok(Str(Text { chars: "abc" }))
65536 0: 616263000100020003 => Ok(Str(Text { chars: "" }))
# lists: bytes;function f list u8
8 3: 616263000100020003 => Ok(List(Bytes(Items { items: [97, 98, 99] })))
# lists: of two bytes each;function f list u16
12 2: 616263000100020003 => Ok(List(Each([Int(1), Int(2)])))
# records: in one another;record t,a string,b tuple2 u64 bool,c s8;function f t
9 2 i64:4294967296 1 255: 616263 => Ok(Record(Each([Str(Text { chars: "bc" }), Record(Each([Int(4294967296), Bool(true)])), Int(-1)])))
# variants: joined;variant t,a u32,b u64,c string,d;function f t
0 i64:18446743820306481160 3: 616263 => Ok(Variant(0, Some(Int(8))))
1 i64:18446743820306481160 3: 616263 => Ok(Variant(1, Some(Int(18446743820306481160))))
2 i64:18446743820306481160 3: 616263 => Ok(Variant(2, Some(Str(Text { chars: "abc" }))))
3 i64:18446743820306481160 3: 616263 => Ok(Variant(3, None))
# variants: one behind the other;enum three a b c;function f tuple3 option u64 result u8 string three
0 i64:9 0 5 6 2 => Ok(Record(Each([Variant(0, None), Variant(0, Some(Int(5))), Variant(2, None)])))
# options: some;function f option u64
1 i64:9 => Ok(Variant(1, Some(Int(9))))
# results: an error;function f result u8 string
1 8 1: 61 => Ok(Variant(1, Some(Str(Text { chars: "a" }))))
# results: of nothing;function f result _ _
0 => Ok(Variant(0, None))"#;

/// Numbers that are none of the type; strings and lists that pass the end, that are not aligned, and that are no text.
const TRAPS: &str = r#"# characters: none;function f char
55296 0: ff => Err(Trap)
57343 0: ff => Err(Trap)
1114112 0: ff => Err(Trap)
# 300: labels;function f labels
300 0: ff => Err(Trap)
# cases: a result;function f result _ _
2 0: ff => Err(Trap)
# cases: an option;function f option u8
2 0: ff => Err(Trap)
# cases: a variant;variant t,a u8,b;function f t
2 0: ff => Err(Trap)
4294967295 0: ff => Err(Trap)
# strings: any;function f string
65535 2: ff => Err(Trap)
65537 0: ff => Err(Trap)
4294967295 4294967295: ff => Err(Trap)
8 1: ff => Err(Trap)
# lists: bytes;function f list u8
65537 0: ff => Err(Trap)
65535 2: ff => Err(Trap)
# lists: of two bytes each;function f list u16
9 0: ff => Err(Trap)
65536 1: ff => Err(Trap)
# lists: of eight bytes each;function f list u64
0 4294967295: ff => Err(Trap)"#;

#[test]
fn values_are_lifted(rt: HostRuntime) -> Result<(), Fail> {
    hold(&rt, rt.alloc(), Kind::Lifted, SCALARS)?;
    hold(&rt, rt.alloc(), Kind::Lifted, PARTS)?;
    hold(&rt, rt.alloc(), Kind::Lifted, TRAPS)
}

/// What flat values stand for as a number, in a store without memory.
#[tactic(auto, using(wit_types::proofs::PlainLemmas::plains))]
fn lifted_alone(alloc: Global, flat: &Items<CoreValue>) -> Result<String, Fail> {
    let store = Store::new(alloc);
    found_in_words(alloc, &lift_flat(alloc, &store, 0, &WitType::U32, flat))
}

/// Where no string or list is passed, no memory is needed.
#[test]
fn no_memory_is_needed(rt: HostRuntime) -> Result<(), Fail> {
    let flat = core_values(rt.alloc(), "6")?;
    let found = lifted_alone(rt.alloc(), &flat)?;
    same(&rt, found.as_str(), "Ok(Int(6))", "without memory")
}
