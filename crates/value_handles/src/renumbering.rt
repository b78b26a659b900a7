//! The handles of a value get other numbers, in place, by a walk in the order in which `collecting` finds them.

#![tactic(auto, using(crate::proofs::NumbersViews::changes))]

ghost use Rattle.std.specs.Prelude.{◌≡◌, ◌+◌, ◌≤◌, [], length, drop};
ghost use Rattle.wit_types.specs.Plain.{plain, payload_of, case_part, fields_of, types_of, cases_of, End, More, Bare, OwnType};
ghost use Rattle.wit_types.specs.PlainValue.{VariantValue, plain_value, plain_values, values_of, payload_of as value_payload_of};
ghost use Rattle.abi_layout.specs.Storing.{on_payload};
ghost use Rattle.abi_layout.specs.Handles.{handles, field_handles, case_handles, item_handles, renumbered, renumbered_fields, renumbered_case, renumbered_items};
ghost use Rattle.value_handles.specs.Parts.{payload_handles};
ghost use Rattle.value_handles.specs.Payloads.{renumbered_payload, renumbered_present, list_handles, record_handles, variant_handles, renumbered_list, renumbered_record, renumbered_variant};

use crate::has_handles;
use crate::places::{put_boxed, put_item, take_boxed, take_item};
use std::rc::Rc;
use wit_types::{Case, Field, Value, Values, WitType};

#[cycle(renumber)]
fn renumber_payload(
    payload: Option<Box<Value>>,
    ty: &Option<Rc<WitType>>,
    numbers: &[u32],
    at: &mut usize,
) -> Option<Box<Value>>
    requires room { at.old + length (payload_handles (payload_of ty.now) (value_payload_of payload)) ≤ length numbers.now }
    ensures value { value_payload_of result ≡ renumbered_payload (payload_of ty.now) (value_payload_of payload) (drop at.old numbers.now) }
    ensures next { at.new ≡ at.old + length (payload_handles (payload_of ty.now) (value_payload_of payload)) }
{
    match ty {
        None => payload,
        Some(ty) => renumber_present(payload, ty, numbers, at),
    }
}

#[cycle(renumber)]
fn renumber_present(
    payload: Option<Box<Value>>,
    ty: &WitType,
    numbers: &[u32],
    at: &mut usize,
) -> Option<Box<Value>>
    requires room { at.old + length (on_payload [] (λ v. handles (plain ty.now) v) (value_payload_of payload)) ≤ length numbers.now }
    ensures value { value_payload_of result ≡ renumbered_present (plain ty.now) (value_payload_of payload) (drop at.old numbers.now) }
    ensures next { at.new ≡ at.old + length (on_payload [] (λ v. handles (plain ty.now) v) (value_payload_of payload)) }
{
    match payload {
        None => None,
        Some(boxed) => {
            let mut place = boxed;
            let value = take_boxed(&mut place);
            put_boxed(&mut place, renumber(value, ty, numbers, at));
            Some(place)
        }
    }
}

#[cycle(renumber)]
fn renumber_items(values: Values, item: &WitType, numbers: &[u32], at: &mut usize) -> Values
    requires room { at.old + length (item_handles (λ v. handles (plain item.now) v) (plain_values values)) ≤ length numbers.now }
    ensures value { plain_values result ≡ renumbered_items (λ v. handles (plain item.now) v) (λ v ns. renumbered (plain item.now) v ns) (plain_values values) (drop at.old numbers.now) }
    ensures next { at.new ≡ at.old + length (item_handles (λ v. handles (plain item.now) v) (plain_values values)) }
{
    match values {
        Values::Each(items) => Values::Each(renumber_each(items, item, numbers, at)),
        Values::Bytes(bytes) => Values::Bytes(bytes),
    }
}

#[cycle(renumber)]
fn renumber_each(values: Vec<Value>, item: &WitType, numbers: &[u32], at: &mut usize) -> Vec<Value>
    requires room { at.old + length (item_handles (λ v. handles (plain item.now) v) (values_of values.items)) ≤ length numbers.now }
    ensures value { values_of result.items ≡ renumbered_items (λ v. handles (plain item.now) v) (λ v ns. renumbered (plain item.now) v ns) (values_of values.items) (drop at.old numbers.now) }
    ensures next { at.new ≡ at.old + length (item_handles (λ v. handles (plain item.now) v) (values_of values.items)) }
{
    let mut items = values;
    for i in 0..items.len() {
        let value = take_item(&mut items, i);
        put_item(&mut items, i, renumber(value, item, numbers, at));
    }
    items
}

#[cycle(renumber)]
fn renumber_fields(values: Values, fields: &[Field], numbers: &[u32], at: &mut usize) -> Values
    requires room { at.old + length (field_handles (fields_of fields.now) (plain_values values)) ≤ length numbers.now }
    ensures value { plain_values result ≡ renumbered_fields (fields_of fields.now) (plain_values values) (drop at.old numbers.now) }
    ensures next { at.new ≡ at.old + length (field_handles (fields_of fields.now) (plain_values values)) }
{
    match values {
        Values::Each(items) => Values::Each(renumber_fields_each(items, fields, numbers, at)),
        Values::Bytes(bytes) => Values::Bytes(bytes),
    }
}

#[cycle(renumber)]
fn renumber_fields_each(
    values: Vec<Value>,
    fields: &[Field],
    numbers: &[u32],
    at: &mut usize,
) -> Vec<Value>
    requires room { at.old + length (field_handles (fields_of fields.now) (values_of values.items)) ≤ length numbers.now }
    ensures value { values_of result.items ≡ renumbered_fields (fields_of fields.now) (values_of values.items) (drop at.old numbers.now) }
    ensures next { at.new ≡ at.old + length (field_handles (fields_of fields.now) (values_of values.items)) }
{
    let mut items = values;
    for i in 0..fields.len() {
        if i >= items.len() {
            return items;
        }
        let value = take_item(&mut items, i);
        put_item(&mut items, i, renumber(value, &fields[i].ty, numbers, at));
    }
    items
}

#[cycle(renumber)]
fn renumber_parts(values: Values, types: &[WitType], numbers: &[u32], at: &mut usize) -> Values
    requires room { at.old + length (field_handles (types_of types.now) (plain_values values)) ≤ length numbers.now }
    ensures value { plain_values result ≡ renumbered_fields (types_of types.now) (plain_values values) (drop at.old numbers.now) }
    ensures next { at.new ≡ at.old + length (field_handles (types_of types.now) (plain_values values)) }
{
    match values {
        Values::Each(items) => Values::Each(renumber_parts_each(items, types, numbers, at)),
        Values::Bytes(bytes) => Values::Bytes(bytes),
    }
}

#[cycle(renumber)]
fn renumber_parts_each(
    values: Vec<Value>,
    types: &[WitType],
    numbers: &[u32],
    at: &mut usize,
) -> Vec<Value>
    requires room { at.old + length (field_handles (types_of types.now) (values_of values.items)) ≤ length numbers.now }
    ensures value { values_of result.items ≡ renumbered_fields (types_of types.now) (values_of values.items) (drop at.old numbers.now) }
    ensures next { at.new ≡ at.old + length (field_handles (types_of types.now) (values_of values.items)) }
{
    let mut items = values;
    for i in 0..types.len() {
        if i >= items.len() {
            return items;
        }
        let value = take_item(&mut items, i);
        put_item(&mut items, i, renumber(value, &types[i], numbers, at));
    }
    items
}

#[cycle(renumber)]
fn renumber_case(
    number: usize,
    payload: Option<Box<Value>>,
    cases: &[Case],
    numbers: &[u32],
    at: &mut usize,
) -> Option<Box<Value>>
    requires room { at.old + length (case_handles (cases_of cases.now) number (value_payload_of payload)) ≤ length numbers.now }
    ensures value { value_payload_of result ≡ renumbered_case (cases_of cases.now) number (value_payload_of payload) (drop at.old numbers.now) }
    ensures next { at.new ≡ at.old + length (case_handles (cases_of cases.now) number (value_payload_of payload)) }
{
    if number >= cases.len() {
        return payload;
    }
    renumber_payload(payload, &cases[number].ty, numbers, at)
}

#[cycle(renumber)]
fn renumber_list(value: Value, item: &WitType, numbers: &[u32], at: &mut usize) -> Value
    requires room { at.old + length (list_handles (plain item.now) (plain_value value)) ≤ length numbers.now }
    ensures value { plain_value result ≡ renumbered_list (plain item.now) (plain_value value) (drop at.old numbers.now) }
    ensures next { at.new ≡ at.old + length (list_handles (plain item.now) (plain_value value)) }
{
    match value {
        Value::List(values) => {
            if has_handles(item) {
                Value::List(renumber_items(values, item, numbers, at))
            } else {
                Value::List(values)
            }
        }
        Value::Bool(b) => Value::Bool(b),
        Value::Int(n) => Value::Int(n),
        Value::Char(c) => Value::Char(c),
        Value::Str(text) => Value::Str(text),
        Value::Record(values) => Value::Record(values),
        Value::Variant(number, payload) => Value::Variant(number, payload),
        Value::Flags(bits) => Value::Flags(bits),
        Value::Handle(number) => Value::Handle(number),
    }
}

#[cycle(renumber)]
fn renumber_record(value: Value, fields: &[Field], numbers: &[u32], at: &mut usize) -> Value
    requires room { at.old + length (record_handles (fields_of fields.now) (plain_value value)) ≤ length numbers.now }
    ensures value { plain_value result ≡ renumbered_record (fields_of fields.now) (plain_value value) (drop at.old numbers.now) }
    ensures next { at.new ≡ at.old + length (record_handles (fields_of fields.now) (plain_value value)) }
{
    match value {
        Value::Record(values) => Value::Record(renumber_fields(values, fields, numbers, at)),
        Value::Bool(b) => Value::Bool(b),
        Value::Int(n) => Value::Int(n),
        Value::Char(c) => Value::Char(c),
        Value::Str(text) => Value::Str(text),
        Value::List(values) => Value::List(values),
        Value::Variant(number, payload) => Value::Variant(number, payload),
        Value::Flags(bits) => Value::Flags(bits),
        Value::Handle(number) => Value::Handle(number),
    }
}

#[cycle(renumber)]
fn renumber_tuple(value: Value, types: &[WitType], numbers: &[u32], at: &mut usize) -> Value
    requires room { at.old + length (record_handles (types_of types.now) (plain_value value)) ≤ length numbers.now }
    ensures value { plain_value result ≡ renumbered_record (types_of types.now) (plain_value value) (drop at.old numbers.now) }
    ensures next { at.new ≡ at.old + length (record_handles (types_of types.now) (plain_value value)) }
{
    match value {
        Value::Record(values) => Value::Record(renumber_parts(values, types, numbers, at)),
        Value::Bool(b) => Value::Bool(b),
        Value::Int(n) => Value::Int(n),
        Value::Char(c) => Value::Char(c),
        Value::Str(text) => Value::Str(text),
        Value::List(values) => Value::List(values),
        Value::Variant(number, payload) => Value::Variant(number, payload),
        Value::Flags(bits) => Value::Flags(bits),
        Value::Handle(number) => Value::Handle(number),
    }
}

#[cycle(renumber)]
fn renumber_variant(value: Value, cases: &[Case], numbers: &[u32], at: &mut usize) -> Value
    requires room { at.old + length (variant_handles (cases_of cases.now) (plain_value value)) ≤ length numbers.now }
    ensures value { plain_value result ≡ renumbered_variant (cases_of cases.now) (plain_value value) (drop at.old numbers.now) }
    ensures next { at.new ≡ at.old + length (variant_handles (cases_of cases.now) (plain_value value)) }
{
    match value {
        Value::Variant(number, payload) => {
            let changed = renumber_case(number as usize, payload, cases, numbers, at);
            Value::Variant(number, changed)
        }
        Value::Bool(b) => Value::Bool(b),
        Value::Int(n) => Value::Int(n),
        Value::Char(c) => Value::Char(c),
        Value::Str(text) => Value::Str(text),
        Value::List(values) => Value::List(values),
        Value::Record(values) => Value::Record(values),
        Value::Flags(bits) => Value::Flags(bits),
        Value::Handle(number) => Value::Handle(number),
    }
}

#[cycle(renumber)]
fn renumber_option(value: Value, some: &WitType, numbers: &[u32], at: &mut usize) -> Value
    requires room { at.old + length (variant_handles (Bare [] (More [] (plain some.now) End)) (plain_value value)) ≤ length numbers.now }
    ensures value { plain_value result ≡ renumbered_variant (Bare [] (More [] (plain some.now) End)) (plain_value value) (drop at.old numbers.now) }
    ensures next { at.new ≡ at.old + length (variant_handles (Bare [] (More [] (plain some.now) End)) (plain_value value)) }
{
    match value {
        Value::Variant(number, payload) => {
            if number == 1 {
                Value::Variant(number, renumber_present(payload, some, numbers, at))
            } else {
                Value::Variant(number, payload)
            }
        }
        Value::Bool(b) => Value::Bool(b),
        Value::Int(n) => Value::Int(n),
        Value::Char(c) => Value::Char(c),
        Value::Str(text) => Value::Str(text),
        Value::List(values) => Value::List(values),
        Value::Record(values) => Value::Record(values),
        Value::Flags(bits) => Value::Flags(bits),
        Value::Handle(number) => Value::Handle(number),
    }
}

#[cycle(renumber)]
fn renumber_result(
    value: Value,
    ok: &Option<Rc<WitType>>,
    err: &Option<Rc<WitType>>,
    numbers: &[u32],
    at: &mut usize,
) -> Value
    requires room { at.old + length (variant_handles (case_part [] (payload_of ok.now) (case_part [] (payload_of err.now) End)) (plain_value value)) ≤ length numbers.now }
    ensures value { plain_value result ≡ renumbered_variant (case_part [] (payload_of ok.now) (case_part [] (payload_of err.now) End)) (plain_value value) (drop at.old numbers.now) }
    ensures next { at.new ≡ at.old + length (variant_handles (case_part [] (payload_of ok.now) (case_part [] (payload_of err.now) End)) (plain_value value)) }
{
    match value {
        Value::Variant(number, payload) => {
            if number == 0 {
                Value::Variant(number, renumber_payload(payload, ok, numbers, at))
            } else if number == 1 {
                Value::Variant(number, renumber_payload(payload, err, numbers, at))
            } else {
                Value::Variant(number, payload)
            }
        }
        Value::Bool(b) => Value::Bool(b),
        Value::Int(n) => Value::Int(n),
        Value::Char(c) => Value::Char(c),
        Value::Str(text) => Value::Str(text),
        Value::List(values) => Value::List(values),
        Value::Record(values) => Value::Record(values),
        Value::Flags(bits) => Value::Flags(bits),
        Value::Handle(number) => Value::Handle(number),
    }
}

fn renumber_handle(value: Value, numbers: &[u32], at: &mut usize) -> Value
    requires room { at.old + length (handles (OwnType 0) (plain_value value)) ≤ length numbers.now }
    ensures value { plain_value result ≡ renumbered (OwnType 0) (plain_value value) (drop at.old numbers.now) }
    ensures next { at.new ≡ at.old + length (handles (OwnType 0) (plain_value value)) }
{
    match value {
        Value::Handle(_) => {
            let number = numbers[*at];
            *at += 1;
            Value::Handle(number)
        }
        Value::Bool(b) => Value::Bool(b),
        Value::Int(n) => Value::Int(n),
        Value::Char(c) => Value::Char(c),
        Value::Str(text) => Value::Str(text),
        Value::List(values) => Value::List(values),
        Value::Record(values) => Value::Record(values),
        Value::Variant(number, payload) => Value::Variant(number, payload),
        Value::Flags(bits) => Value::Flags(bits),
    }
}

/// Puts numbers in the places of those of a value's handles, in order, from the one at a position on, and moves the position after
/// them. Nothing is copied, and it takes no memory.
#[cycle(renumber)]
pub fn renumber(value: Value, ty: &WitType, numbers: &[u32], at: &mut usize) -> Value
    requires room { at.old + length (handles (plain ty.now) (plain_value value)) ≤ length numbers.now }
    ensures value { plain_value result ≡ renumbered (plain ty.now) (plain_value value) (drop at.old numbers.now) }
    ensures next { at.new ≡ at.old + length (handles (plain ty.now) (plain_value value)) }
{
    match ty {
        WitType::List(item) => renumber_list(value, item, numbers, at),
        WitType::Record(fields) => renumber_record(value, &fields.items, numbers, at),
        WitType::Tuple(types) => renumber_tuple(value, &types.items, numbers, at),
        WitType::Variant(cases) => renumber_variant(value, &cases.items, numbers, at),
        WitType::Option(some) => renumber_option(value, some, numbers, at),
        WitType::Result(ok, err) => renumber_result(value, ok, err, numbers, at),
        WitType::Own(_) | WitType::Borrow(_) => renumber_handle(value, numbers, at),
        WitType::Bool | WitType::S8 | WitType::U8 | WitType::S16 | WitType::U16 => value,
        WitType::S32 | WitType::U32 | WitType::S64 | WitType::U64 => value,
        WitType::Char | WitType::Str | WitType::Flags(_) => value,
        WitType::Enum(_) => value,
    }
}
