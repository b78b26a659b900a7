//! Which values are of which types.

use crate::named::read;
use crate::rows::{is_printed, number_in, parts, same};
use std::alloc::Global;
use std::test::Fail;
use virt_base::Text;
use wasi_table::{Meaning, NamedType};
use wit_types::{Value, Values, copy_func, copy_type, copy_value, has_type};

/// The types that are asked of each value.
const TYPES: &str = "types;\
    type bool bool;type s8 s8;type u8 u8;type s16 s16;type u16 u16;type s32 s32;type u32 u32;type s64 s64;type u64 u64;\
    type char char;type string string;\
    record record,first u8,second bool;type tuple tuple2 u8 u8;variant variant,full u8,empty;type bytes list u8;\
    flags nine a b c d e f g h i;enum two a b;type option option u8;type ok result u8 _;type err result _ u8;\
    resource error;resource pollable;type own own error;type borrow borrow pollable;\
    function f string own error -> char;function g string own error";

/// The names of the types that a value has.
fn types_of(alloc: Global, types: &[NamedType], value: &Value) -> Result<String, Fail> {
    let mut names = String::new(alloc);
    for named in types {
        if let Meaning::Value(ty) = &named.meaning
            && has_type(value, &copy_type(alloc, ty)?)
        {
            names.push(' ')?;
            names.push_str(named.name.as_str())?;
        }
    }
    Ok(names)
}

/// A truth or an integer.
fn scalar(word: &str) -> Value {
    match word.parse::<i128>() {
        Ok(number) => Value::Int(number),
        Err(_) => Value::Bool(word == "true"),
    }
}

/// Two values, or none.
fn scalars(alloc: Global, words: &str) -> Result<Values, Fail> {
    let mut all = Vec::new(alloc);
    if let Some((first, second)) = words.split_once(' ') {
        all.push(scalar(first))?;
        all.push(scalar(second))?;
    }
    Ok(Values::Each(all))
}

/// A case by its number, and its payload if it has one.
fn case(alloc: Global, words: &str) -> Result<Value, Fail> {
    match words.split_once(' ') {
        Some((number, payload)) => {
            let payload = Box::new(alloc, scalar(payload))?;
            Ok(Value::Variant(number_in(number)?, Some(payload)))
        }
        None => Ok(Value::Variant(number_in(words)?, None)),
    }
}

/// A value that is one number.
fn numbered(form: &str, number: u32) -> Result<Value, Fail> {
    match form {
        "flags" => Ok(Value::Flags(number)),
        "handle" => Ok(Value::Handle(number)),
        _ => match char::from_u32(number) {
            Some(c) => Ok(Value::Char(c)),
            None => Err(Fail::new("no character")),
        },
    }
}

fn value_of(alloc: Global, text: &str) -> Result<Value, Fail> {
    let Some((form, words)) = text.split_once(": ") else {
        return Ok(scalar(text));
    };
    match form {
        "text" => Ok(Value::Str(Text::from_str(alloc, words)?)),
        "list" => Ok(Value::List(scalars(alloc, words)?)),
        "record" => Ok(Value::Record(scalars(alloc, words)?)),
        "case" => case(alloc, words),
        _ => numbered(form, number_in(words)?),
    }
}

/// Values, and after each the types that it has: integers at and past the ends of each type, and values of the other forms.
const VALUES: &str = "\
-9223372036854775809 =>
-9223372036854775808 => s64
-2147483649 => s64
-2147483648 => s32 s64
-32769 => s32 s64
-32768 => s16 s32 s64
-129 => s16 s32 s64
-128 => s8 s16 s32 s64
-1 => s8 s16 s32 s64
0 => s8 u8 s16 u16 s32 u32 s64 u64
127 => s8 u8 s16 u16 s32 u32 s64 u64
128 => u8 s16 u16 s32 u32 s64 u64
255 => u8 s16 u16 s32 u32 s64 u64
256 => s16 u16 s32 u32 s64 u64
32767 => s16 u16 s32 u32 s64 u64
32768 => u16 s32 u32 s64 u64
65535 => u16 s32 u32 s64 u64
65536 => s32 u32 s64 u64
2147483647 => s32 u32 s64 u64
2147483648 => u32 s64 u64
4294967295 => u32 s64 u64
4294967296 => s64 u64
9223372036854775807 => s64 u64
9223372036854775808 => u64
18446744073709551615 => u64
18446744073709551616 =>
true => bool
false => bool
char: 0 => char
char: 55295 => char
char: 57344 => char
char: 1114111 => char
text:  => string
text: hello => string
record: 255 true => record
record: 255 0 => tuple
list: 255 0 => bytes
list: 255 256 =>
case: 0 => two option err
case: 1 => variant two ok
case: 2 =>
case: 0 1 => variant ok
case: 1 1 => option err
case: 0 true =>
flags: 511 => nine
flags: 512 =>
handle: 4294967295 => own borrow
record:  =>";

fn row_holds(alloc: Global, types: &[NamedType], row: &str) -> Result<(), Fail> {
    let (text, wanted) = parts(row, " =>")?;
    let value = value_of(alloc, text)?;
    let copy = copy_value(alloc, &value)?;
    let names = types_of(alloc, types, &copy)?;
    same(row, names.as_str(), wanted)
}

#[test]
fn values_of_types(rt: HostRuntime) -> Result<(), Fail> {
    let interface = read(rt.alloc(), TYPES)?;
    for row in VALUES.lines() {
        row_holds(rt.alloc(), interface.types.as_slice(), row)?;
    }
    Ok(())
}

/// A copy is equal by its contract.
#[test]
fn copied_functions(rt: HostRuntime) -> Result<(), Fail> {
    let alloc = rt.alloc();
    let interface = read(alloc, TYPES)?;
    let mut params = 0usize;
    for func in interface.functions.as_slice() {
        let copy = copy_func(alloc, &func.ty)?;
        params = params.saturating_add(copy.params.items.len());
    }
    is_printed(alloc, "parameters", &params, "4")
}
