//! Whether a value has a type (Component Model, Explainer.md, "Type Definitions").

#![tactic(auto, using(crate::proofs::PlainLemmas::plains, crate::proofs::ValueLemmas::values, crate::proofs::Only::only))]

ghost use Rattle.std.specs.Prelude.{◌≡◌, ◌↔◌, ◌&&◌, nat_lt, pos, IsTrue, []};
ghost use Rattle.wit_types.specs.Plain.{plain, payload_of, fields_of, types_of, cases_of, case_part, End, More, Bare};
ghost use Rattle.wit_types.specs.PlainValue.{FlagsValue, IntValue, plain_value, payload_of as value_payload_of, plain_values, values_of, byte_values};
ghost use Rattle.wit_types.specs.HasType.{is_of, are_of, is_of_case, is_of_payload, is_without, is_with, is_scalar, is_bool, is_integer, is_char, is_string, is_list, all_pass, is_record, is_variant, is_flags, is_handle, HasType};

use crate::types::{Case, Field, WitType};
use crate::value::{Value, Values};
use std::rc::Rc;

fn is_bool(value: &Value) -> bool
    ensures { result ≡ is_bool (plain_value value.now) }
{
    match value {
        Value::Bool(_) => true,
        _ => false,
    }
}

fn is_string(value: &Value) -> bool
    ensures { result ≡ is_string (plain_value value.now) }
{
    match value {
        Value::Str(_) => true,
        _ => false,
    }
}

fn is_integer(value: &Value, low: i128, end: i128) -> bool
    ensures { result ≡ is_integer low end (plain_value value.now) }
{
    match value {
        Value::Int(n) => low <= *n && *n < end,
        _ => false,
    }
}

/// Whether a code point is no surrogate. Every `char` is one; the definition speaks of bare numbers.
fn is_scalar(c: char) -> bool
    ensures { result ≡ is_scalar c }
{
    let code = u32::from(c);
    code < 0xd800 || (0xe000 <= code && code < 0x11_0000)
}

fn is_char(value: &Value) -> bool
    ensures { result ≡ is_char (plain_value value.now) }
{
    match value {
        Value::Char(c) => is_scalar(*c),
        _ => false,
    }
}

/// Whether the bits are of that many flags.
fn fits_flags(bits: u32, count: usize) -> bool
    ensures { result ≡ is_flags count (FlagsValue bits) }
{
    count >= 32 || bits < 1 << count
}

fn is_flags(value: &Value, count: usize) -> bool
    ensures { result ≡ is_flags count (plain_value value.now) }
{
    match value {
        Value::Flags(bits) => fits_flags(*bits, count),
        _ => false,
    }
}

fn is_handle(value: &Value) -> bool
    ensures { result ≡ is_handle (plain_value value.now) }
{
    match value {
        Value::Handle(_) => true,
        _ => false,
    }
}

/// Whether a byte as an integer has the type.
fn is_byte_of(byte: u8, ty: &WitType) -> bool
    ensures { result ≡ is_of (plain ty.now) (IntValue (pos byte)) }
{
    match ty {
        WitType::S8 => byte < 0x80,
        WitType::U8 | WitType::S16 | WitType::U16 | WitType::S32 | WitType::U32 => true,
        WitType::S64 | WitType::U64 => true,
        _ => false,
    }
}

/// Whether bytes are of one type; those of a `list<u8>` are so at once.
fn are_bytes(bytes: &[u8], item: &WitType) -> bool
    ensures { result ≡ all_pass (λ v. is_of (plain item.now) v) (byte_values bytes.now) }
{
    if let WitType::U8 = item {
        return true;
    }
    for byte in bytes {
        if !is_byte_of(*byte, item) {
            return false;
        }
    }
    true
}

fn are_fields_bytes(bytes: &[u8], fields: &[Field]) -> bool
    ensures { result ≡ are_of (fields_of fields.now) (byte_values bytes.now) }
{
    if bytes.len() != fields.len() {
        return false;
    }
    for i in 0..fields.len() {
        if !is_byte_of(bytes[i], &fields[i].ty) {
            return false;
        }
    }
    true
}

fn are_types_bytes(bytes: &[u8], types: &[WitType]) -> bool
    ensures { result ≡ are_of (types_of types.now) (byte_values bytes.now) }
{
    if bytes.len() != types.len() {
        return false;
    }
    for i in 0..types.len() {
        if !is_byte_of(bytes[i], &types[i]) {
            return false;
        }
    }
    true
}

#[cycle(passes)]
fn is_payload(payload: &Option<Box<Value>>, ty: &Option<Rc<WitType>>) -> bool
    ensures { result ≡ is_of_payload (payload_of ty.now) (value_payload_of payload.now) }
{
    match ty {
        None => payload.is_none(),
        Some(ty) => is_present(payload, ty),
    }
}

#[cycle(passes)]
fn is_present(payload: &Option<Box<Value>>, ty: &WitType) -> bool
    ensures { result ≡ is_with (λ v. is_of (plain ty.now) v) (value_payload_of payload.now) }
{
    match payload {
        None => false,
        Some(value) => passes(value, ty),
    }
}

#[cycle(passes)]
fn is_list(value: &Value, item: &WitType) -> bool
    ensures { result ≡ is_list (λ v. is_of (plain item.now) v) (plain_value value.now) }
{
    match value {
        Value::List(values) => are_items(values, item),
        _ => false,
    }
}

#[cycle(passes)]
fn are_items(values: &Values, item: &WitType) -> bool
    ensures { result ≡ all_pass (λ v. is_of (plain item.now) v) (plain_values values.now) }
{
    match values {
        Values::Each(items) => are_values(items, item),
        Values::Bytes(bytes) => are_bytes(bytes.as_slice(), item),
    }
}

#[cycle(passes)]
fn are_values(values: &[Value], item: &WitType) -> bool
    ensures { result ≡ all_pass (λ v. is_of (plain item.now) v) (values_of values.now) }
{
    for value in values {
        if !passes(value, item) {
            return false;
        }
    }
    true
}

#[cycle(passes)]
fn is_record(value: &Value, fields: &[Field]) -> bool
    ensures { result ≡ is_record (λ xs. are_of (fields_of fields.now) xs) (plain_value value.now) }
{
    match value {
        Value::Record(values) => are_fields(values, fields),
        _ => false,
    }
}

#[cycle(passes)]
fn are_fields(values: &Values, fields: &[Field]) -> bool
    ensures { result ≡ are_of (fields_of fields.now) (plain_values values.now) }
{
    match values {
        Values::Each(items) => are_fields_each(items, fields),
        Values::Bytes(bytes) => are_fields_bytes(bytes.as_slice(), fields),
    }
}

#[cycle(passes)]
fn are_fields_each(values: &[Value], fields: &[Field]) -> bool
    ensures { result ≡ are_of (fields_of fields.now) (values_of values.now) }
{
    if values.len() != fields.len() {
        return false;
    }
    for i in 0..fields.len() {
        if !passes(&values[i], &fields[i].ty) {
            return false;
        }
    }
    true
}

#[cycle(passes)]
fn is_tuple(value: &Value, types: &[WitType]) -> bool
    ensures { result ≡ is_record (λ xs. are_of (types_of types.now) xs) (plain_value value.now) }
{
    match value {
        Value::Record(values) => are_parts(values, types),
        _ => false,
    }
}

#[cycle(passes)]
fn are_parts(values: &Values, types: &[WitType]) -> bool
    ensures { result ≡ are_of (types_of types.now) (plain_values values.now) }
{
    match values {
        Values::Each(items) => are_types_each(items, types),
        Values::Bytes(bytes) => are_types_bytes(bytes.as_slice(), types),
    }
}

#[cycle(passes)]
fn are_types_each(values: &[Value], types: &[WitType]) -> bool
    ensures { result ≡ are_of (types_of types.now) (values_of values.now) }
{
    if values.len() != types.len() {
        return false;
    }
    for i in 0..types.len() {
        if !passes(&values[i], &types[i]) {
            return false;
        }
    }
    true
}

#[cycle(passes)]
fn is_variant(value: &Value, cases: &[Case]) -> bool
    ensures { result ≡ is_variant (λ n x. is_of_case (cases_of cases.now) n x) (plain_value value.now) }
{
    match value {
        Value::Variant(number, payload) => {
            let number = *number as usize;
            number < cases.len() && is_payload(payload, &cases[number].ty)
        }
        _ => false,
    }
}

fn is_enum(value: &Value, count: usize) -> bool
    ensures { result ≡ is_variant (λ n x. nat_lt n count && is_without x) (plain_value value.now) }
{
    match value {
        Value::Variant(number, payload) => (*number as usize) < count && payload.is_none(),
        _ => false,
    }
}

#[cycle(passes)]
fn is_option(value: &Value, some: &WitType) -> bool
    ensures { result ≡ is_variant (λ n x. is_of_case (Bare [] (More [] (plain some.now) End)) n x) (plain_value value.now) }
{
    match value {
        Value::Variant(number, payload) => {
            if *number == 0 {
                payload.is_none()
            } else {
                *number == 1 && is_present(payload, some)
            }
        }
        _ => false,
    }
}

#[cycle(passes)]
fn is_result(value: &Value, ok: &Option<Rc<WitType>>, err: &Option<Rc<WitType>>) -> bool
    ensures { result ≡ is_variant (λ n x. is_of_case (case_part [] (payload_of ok.now) (case_part [] (payload_of err.now) End)) n x) (plain_value value.now) }
{
    match value {
        Value::Variant(number, payload) => {
            if *number == 0 {
                is_payload(payload, ok)
            } else {
                *number == 1 && is_payload(payload, err)
            }
        }
        _ => false,
    }
}

#[cycle(passes)]
#[tactic(auto, using(crate::proofs::PlainLemmas::plains, crate::proofs::ValueLemmas::values))]
fn passes(value: &Value, ty: &WitType) -> bool
    ensures { result ≡ is_of (plain ty.now) (plain_value value.now) }
{
    match ty {
        WitType::Bool => is_bool(value),
        WitType::S8 => is_integer(value, -0x80, 0x80),
        WitType::U8 => is_integer(value, 0, 0x100),
        WitType::S16 => is_integer(value, -0x8000, 0x8000),
        WitType::U16 => is_integer(value, 0, 0x1_0000),
        WitType::S32 => is_integer(value, -0x8000_0000, 0x8000_0000),
        WitType::U32 => is_integer(value, 0, 0x1_0000_0000),
        WitType::S64 => is_integer(value, -0x8000_0000_0000_0000, 0x8000_0000_0000_0000),
        WitType::U64 => is_integer(value, 0, 0x1_0000_0000_0000_0000),
        WitType::Char => is_char(value),
        WitType::Str => is_string(value),
        WitType::Record(fields) => is_record(value, &fields.items),
        WitType::Tuple(types) => is_tuple(value, &types.items),
        WitType::Variant(cases) => is_variant(value, &cases.items),
        WitType::List(item) => is_list(value, item),
        WitType::Flags(labels) => is_flags(value, labels.len()),
        WitType::Enum(labels) => is_enum(value, labels.len()),
        WitType::Option(some) => is_option(value, some),
        WitType::Result(ok, err) => is_result(value, ok, err),
        WitType::Own(_) | WitType::Borrow(_) => is_handle(value),
    }
}

/// Whether the value has the type. A handle type has every handle.
pub fn has_type(value: &Value, ty: &WitType) -> bool
    ensures value { result ≡ is_of (plain ty.now) (plain_value value.now) }
    ensures rule { IsTrue result ↔ HasType value.now ty.now }
{
    passes(value, ty)
}
