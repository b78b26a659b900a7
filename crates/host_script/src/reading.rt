//! Values of the interface language (WIT) from JSON, by recursion on the type.

#![tactic(auto, using(wit_types::proofs::PlainLemmas::plains, wit_types::proofs::ValueLemmas::values, crate::proofs::Views::untypeds))]

ghost use Rattle.std.specs.Prelude.{pos, [], Some, None, option_map};
ghost use Rattle.serde_json.specs.View.{view, items_view, members_view};
ghost use Rattle.wit_types.specs.Plain.{plain, payload_of as type_of_payload, fields_of, types_of, cases_of, bare, Bare, More, End};
ghost use Rattle.wit_types.specs.PlainValue.{plain_value, plain_values, values_of, byte_values, payload_of, VariantValue};
ghost use Rattle.host_port.specs.Untyped.{reading, parts_reading, fields_reading, case_reading, list_in, each_item, tuple_in, record_in, variant_of, choice_in, label_in, option_in, case_named, integer_in};
ghost use Rattle.host_port.specs.Calls.{fields_in};
ghost use Rattle.host_script.specs.Json.{untyped, untyped_items, untyped_members};
ghost use Rattle.host_script.specs.Reads.{Gives, payload_by};

use crate::labels::{case_named, flags_in, label_named};
use crate::members::{end_in, member_in};
use crate::scalars::{byte_in, char_in, handle_in, integer_in, text_in, truth_in};
use crate::values_fault::ReadValueFault;
use serde_json::{Map, Value as Json};
use std::alloc::Global;
use std::rc::Rc;
use virt_base::{Bytes, Items, Text};
use wit_types::{Case, Field, Fields, Value, Values, WitType};

fn read_bytes(alloc: Global, items: &[Json]) -> Result<Bytes, ReadValueFault>
    ensures { Gives byte_values (each_item (λ u. integer_in (pos 0) (pos 0x100) u) (untyped_items (items_view items.now))) result }
{
    let mut bytes = Vec::new(alloc);
    for json in items {
        bytes.push(byte_in(json)?)?;
    }
    Ok(Items::new(bytes))
}

#[cycle(read_value)]
fn read_each(alloc: Global, item: &WitType, items: Vec<Json>) -> Result<Vec<Value>, ReadValueFault>
    ensures { Gives (λ vs. values_of vs.items) (each_item (λ u. reading (plain item.now) u) (untyped_items (items_view items.items))) result }
{
    let mut values = Vec::new(alloc);
    let mut rest = items.into_iter();
    while let Some(json) = rest.next() {
        values.push(read_value(alloc, item, json)?)?;
    }
    Ok(values)
}

/// A list of bytes is kept as a run of them.
#[cycle(read_value)]
fn read_items(alloc: Global, item: &WitType, items: Vec<Json>) -> Result<Values, ReadValueFault>
    ensures { Gives plain_values (each_item (λ u. reading (plain item.now) u) (untyped_items (items_view items.items))) result }
{
    if let WitType::U8 = item {
        return Ok(Values::Bytes(read_bytes(alloc, &items)?));
    }
    Ok(Values::Each(read_each(alloc, item, items)?))
}

#[cycle(read_value)]
fn read_list(alloc: Global, item: &WitType, json: Json) -> Result<Value, ReadValueFault>
    ensures { Gives plain_value (list_in (λ u. reading (plain item.now) u) (untyped (view json))) result }
{
    match json {
        Json::Array(items) => Ok(Value::List(read_items(alloc, item, items)?)),
        Json::Null | Json::Bool(_) | Json::Number(_) | Json::String(_) | Json::Object(_) => Err(
            ReadValueFault::NotOfType,
        ),
    }
}

#[cycle(read_value)]
fn read_parts(alloc: Global, types: &[WitType], items: Vec<Json>) -> Result<Values, ReadValueFault>
    ensures { Gives plain_values (parts_reading (types_of types.now) (untyped_items (items_view items.items))) result }
{
    let mut values = Vec::new(alloc);
    let mut rest = items.into_iter();
    for ty in types {
        let json = match rest.next() {
            Some(json) => json,
            None => return Err(ReadValueFault::NotOfType),
        };
        values.push(read_value(alloc, ty, json)?)?;
    }
    match rest.next() {
        None => Ok(Values::Each(values)),
        Some(_) => Err(ReadValueFault::NotOfType),
    }
}

#[cycle(read_value)]
fn read_tuple(alloc: Global, types: &[WitType], json: Json) -> Result<Value, ReadValueFault>
    ensures { Gives plain_value (tuple_in (λ items. parts_reading (types_of types.now) items) (untyped (view json))) result }
{
    match json {
        Json::Array(items) => Ok(Value::Record(read_parts(alloc, types, items)?)),
        Json::Null | Json::Bool(_) | Json::Number(_) | Json::String(_) | Json::Object(_) => Err(
            ReadValueFault::NotOfType,
        ),
    }
}

/// A member for each field, and no other.
#[cycle(read_value)]
fn read_fields(
    alloc: Global,
    fields: &[Field],
    members: Map<String, Json>,
) -> Result<Values, ReadValueFault>
    ensures { Gives plain_values (fields_reading (fields_of fields.now) (untyped_members (members_view members.entries))) result }
{
    let mut values = Vec::new(alloc);
    let mut others = members;
    for field in fields {
        let json = match others.remove(field.name.as_str()) {
            Some(json) => json,
            None => return Err(ReadValueFault::NotOfType),
        };
        values.push(read_value(alloc, &field.ty, json)?)?;
    }
    if others.is_empty() {
        Ok(Values::Each(values))
    } else {
        Err(ReadValueFault::NotOfType)
    }
}

#[cycle(read_value)]
fn read_record(alloc: Global, fields: &[Field], json: Json) -> Result<Value, ReadValueFault>
    ensures { Gives plain_value (record_in (λ members. fields_reading (fields_of fields.now) members) (untyped (view json))) result }
{
    match json {
        Json::Object(members) => Ok(Value::Record(read_fields(alloc, fields, members)?)),
        Json::Null | Json::Bool(_) | Json::Number(_) | Json::String(_) | Json::Array(_) => Err(
            ReadValueFault::NotOfType,
        ),
    }
}

#[cycle(read_value)]
fn read_boxed(alloc: Global, ty: &WitType, json: Json) -> Result<Option<Box<Value>>, ReadValueFault>
    ensures { Gives payload_of (payload_by (Some (plain ty.now)) (untyped (view json))) result }
{
    let value = read_value(alloc, ty, json)?;
    Ok(Some(Box::new(alloc, value)?))
}

/// The payload of a case, which is null where the case has none.
#[cycle(read_value)]
fn read_payload(
    alloc: Global,
    ty: &Option<Rc<WitType>>,
    json: Json,
) -> Result<Option<Box<Value>>, ReadValueFault>
    ensures { Gives payload_of (payload_by (type_of_payload ty.now) (untyped (view json))) result }
{
    match ty {
        Some(ty) => read_boxed(alloc, ty, json),
        None => no_payload(&json),
    }
}

fn no_payload(json: &Json) -> Result<Option<Box<Value>>, ReadValueFault>
    ensures { Gives payload_of (payload_by None (untyped (view json.now))) result }
{
    match json {
        Json::Null => Ok(None),
        Json::Bool(_) | Json::Number(_) | Json::String(_) | Json::Array(_) | Json::Object(_) => Err(
            ReadValueFault::NotOfType,
        ),
    }
}

/// The number of a case as it is kept. No type has as many cases as would pass it.
fn kept_number(number: usize) -> Result<u32, ReadValueFault>
    ensures { Gives (λ n. n) (Some number) result }
{
    match u32::try_from(number) {
        Ok(number) => Ok(number),
        Err(_) => Err(ReadValueFault::NoMemory),
    }
}

#[cycle(read_value)]
fn read_variant(alloc: Global, cases: &[Case], json: Json) -> Result<Value, ReadValueFault>
    ensures { Gives plain_value (variant_of (λ n u. case_reading (cases_of cases.now) n u) (choice_in (λ label. case_named label (cases_of cases.now)) (untyped (view json)))) result }
{
    let (label, json) = member_in(json)?;
    let Some(number) = case_named(label.as_str(), cases) else {
        return Err(ReadValueFault::NotOfType);
    };
    let payload = read_payload(alloc, &cases[number].ty, json)?;
    let number = kept_number(number)?;
    Ok(Value::Variant(number, payload))
}

fn read_enum(json: &Json, labels: &[Text]) -> Result<Value, ReadValueFault>
    ensures { Gives plain_value (variant_of (λ n u. case_reading (bare labels.now) n u) (label_in (λ label. case_named label (bare labels.now)) (untyped (view json.now)))) result }
{
    match json {
        Json::String(label) => match label_named(label.as_str(), labels) {
            Some(number) => Ok(Value::Variant(kept_number(number)?, None)),
            None => Err(ReadValueFault::NotOfType),
        },
        Json::Null | Json::Bool(_) | Json::Number(_) | Json::Array(_) | Json::Object(_) => Err(
            ReadValueFault::NotOfType,
        ),
    }
}

#[cycle(read_value)]
fn read_option(alloc: Global, some: &WitType, json: Json) -> Result<Value, ReadValueFault>
    ensures { Gives plain_value (variant_of (λ n u. case_reading (Bare [] (More [] (plain some.now) End)) n u) (option_in (untyped (view json)))) result }
{
    if json.is_null() {
        return Ok(Value::Variant(0, None));
    }
    let (name, json) = member_in(json)?;
    if name.as_str() != "some" {
        return Err(ReadValueFault::NotOfType);
    }
    Ok(Value::Variant(1, read_boxed(alloc, some, json)?))
}

/// The value of a result: of its first case, or of its second, with a payload of the case's type.
#[cycle(read_value)]
fn read_end(
    alloc: Global,
    ty: &Option<Rc<WitType>>,
    number: u32,
    json: Json,
) -> Result<Value, ReadValueFault>
    ensures { Gives plain_value (option_map (λ p. VariantValue number p) (payload_by (type_of_payload ty.now) (untyped (view json)))) result }
{
    let payload = read_payload(alloc, ty, json)?;
    Ok(Value::Variant(number, payload))
}

/// The value for which JSON stands by a type. Texts and the parts of arrays and objects are moved into it.
#[cycle(read_value)]
pub fn read_value(alloc: Global, ty: &WitType, json: Json) -> Result<Value, ReadValueFault>
    ensures { Gives plain_value (reading (plain ty.now) (untyped (view json))) result }
{
    match ty {
        WitType::Bool => truth_in(&json),
        WitType::S8 => integer_in(&json, -0x80, 0x80),
        WitType::U8 => integer_in(&json, 0, 0x100),
        WitType::S16 => integer_in(&json, -0x8000, 0x8000),
        WitType::U16 => integer_in(&json, 0, 0x1_0000),
        WitType::S32 => integer_in(&json, -0x8000_0000, 0x8000_0000),
        WitType::U32 => integer_in(&json, 0, 0x1_0000_0000),
        WitType::S64 => integer_in(&json, -0x8000_0000_0000_0000, 0x8000_0000_0000_0000),
        WitType::U64 => integer_in(&json, 0, 0x1_0000_0000_0000_0000),
        WitType::Char => char_in(&json),
        WitType::Str => text_in(json),
        WitType::Record(fields) => read_record(alloc, &fields.items, json),
        WitType::Tuple(types) => read_tuple(alloc, &types.items, json),
        WitType::Variant(cases) => read_variant(alloc, &cases.items, json),
        WitType::List(item) => read_list(alloc, item, json),
        WitType::Flags(labels) => flags_in(&json, labels),
        WitType::Enum(labels) => read_enum(&json, labels),
        WitType::Option(some) => read_option(alloc, some, json),
        WitType::Result(ok, err) => {
            let (is_ok, json) = end_in(json)?;
            if is_ok {
                read_end(alloc, ok, 0, json)
            } else {
                read_end(alloc, err, 1, json)
            }
        }
        WitType::Own(_) | WitType::Borrow(_) => handle_in(&json),
    }
}

fn read_each_arg(
    alloc: Global,
    params: &[Field],
    items: Vec<Json>,
) -> Result<Values, ReadValueFault>
    ensures { Gives plain_values (parts_reading (fields_of params.now) (untyped_items (items_view items.items))) result }
{
    let mut values = Vec::new(alloc);
    let mut rest = items.into_iter();
    for param in params {
        let json = match rest.next() {
            Some(json) => json,
            None => return Err(ReadValueFault::NotOfType),
        };
        values.push(read_value(alloc, &param.ty, json)?)?;
    }
    match rest.next() {
        None => Ok(Values::Each(values)),
        Some(_) => Err(ReadValueFault::NotOfType),
    }
}

/// The arguments for which an array stands: one for each parameter, in order.
pub fn read_args(alloc: Global, params: &Fields, items: Vec<Json>) -> Result<Values, ReadValueFault>
    ensures { Gives plain_values (parts_reading (fields_in params.now) (untyped_items (items_view items.items))) result }
{
    read_each_arg(alloc, &params.items, items)
}
