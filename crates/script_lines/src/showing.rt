//! A value as a tree of JSON, by its type (RFC 8259).

#![tactic(auto, using(wit_types::proofs::PlainLemmas::plains, wit_types::proofs::ValueLemmas::values, crate::proofs::Views::views, crate::proofs::Places::counts))]

ghost use Rattle.std.specs.Prelude.{◌≡◌, ◌<◌, [], IfOk};
ghost use Rattle.serde_json.specs.Data.{no_members, string};
ghost use Rattle.serde_json.specs.View.{view, items_view, members_view};
ghost use Rattle.wit_types.specs.Plain.{plain, payload_of as type_of_payload, fields_of, types_of, cases_of, bare, Bare, More, End, AsRecord, AsTuple, AsVariant, AsEnum, AsOption};
ghost use Rattle.wit_types.specs.PlainValue.{plain_value, plain_values, payload_of};
ghost use Rattle.script_lines.specs.Shown.{shown, parts_shown, fields_shown, case_shown, each_shown, list_shown, record_shown, variant_shown, choice_shown, payload_shown, labelled, label_at};
ghost use Rattle.script_lines.specs.Shows.{payload_shown_by, value_count, value_at, end_shown};

use crate::texts::{
    object_of, show_char, show_flags, show_handle, show_integer, show_text, show_truth, text_of,
};
use crate::values::{case_number, count, show_nth_byte};
use serde_json::{Map, Value as Json, put};
use std::alloc::Global;
use std::rc::Rc;
use virt_base::{NoMemory, Text};
use wit_types::{Case, Field, Value, Values, WitType};

/// The value at a place.
#[cycle(show_value)]
fn show_nth(alloc: Global, ty: &WitType, values: &Values, place: usize) -> Result<Json, NoMemory>
    requires { place < value_count (plain_values values.now) }
    ensures { IfOk result (λ json. view json ≡ shown (plain ty.now) (value_at place (plain_values values.now))) }
{
    match values {
        Values::Each(items) => show_value(alloc, ty, &items[place]),
        Values::Bytes(bytes) => Ok(show_nth_byte(ty, bytes.as_slice(), place)),
    }
}

#[cycle(show_value)]
fn show_each(alloc: Global, item: &WitType, values: &Values) -> Result<Vec<Json>, NoMemory>
    ensures { IfOk result (λ items. items_view items.items ≡ each_shown (λ v. shown (plain item.now) v) (plain_values values.now)) }
{
    let mut items = Vec::new(alloc);
    for place in 0..count(values) {
        items.push(show_nth(alloc, item, values, place)?)?;
    }
    Ok(items)
}

#[cycle(show_value)]
fn show_list(alloc: Global, item: &WitType, value: &Value) -> Result<Json, NoMemory>
    ensures { IfOk result (λ json. view json ≡ list_shown (λ v. shown (plain item.now) v) (plain_value value.now)) }
{
    match value {
        Value::List(values) => Ok(Json::Array(show_each(alloc, item, values)?)),
        Value::Bool(_)
        | Value::Int(_)
        | Value::Char(_)
        | Value::Str(_)
        | Value::Record(_)
        | Value::Variant(_, _)
        | Value::Flags(_)
        | Value::Handle(_) => Ok(Json::Null),
    }
}

#[cycle(show_value)]
fn show_parts(alloc: Global, types: &[WitType], values: &Values) -> Result<Vec<Json>, NoMemory>
    ensures { IfOk result (λ items. items_view items.items ≡ parts_shown (types_of types.now) (plain_values values.now)) }
{
    let mut items = Vec::new(alloc);
    let count = count(values);
    for place in 0..types.len() {
        if place >= count {
            return Ok(items);
        }
        items.push(show_nth(alloc, &types[place], values, place)?)?;
    }
    Ok(items)
}

#[cycle(show_value)]
fn show_tuple(alloc: Global, types: &[WitType], value: &Value) -> Result<Json, NoMemory>
    ensures { IfOk result (λ json. view json ≡ record_shown AsTuple (λ vs. parts_shown (types_of types.now) vs) (λ vs there. fields_shown (types_of types.now) vs there) (plain_value value.now)) }
{
    match value {
        Value::Record(values) => Ok(Json::Array(show_parts(alloc, types, values)?)),
        Value::Bool(_)
        | Value::Int(_)
        | Value::Char(_)
        | Value::Str(_)
        | Value::List(_)
        | Value::Variant(_, _)
        | Value::Flags(_)
        | Value::Handle(_) => Ok(Json::Null),
    }
}

#[cycle(show_value)]
fn show_fields(
    alloc: Global,
    fields: &[Field],
    values: &Values,
) -> Result<Map<String, Json>, NoMemory>
    ensures { IfOk result (λ members. members_view members.entries ≡ fields_shown (fields_of fields.now) (plain_values values.now) no_members) }
{
    let mut members = Map::new(alloc);
    let count = count(values);
    for place in 0..fields.len() {
        if place >= count {
            return Ok(members);
        }
        let json = show_nth(alloc, &fields[place].ty, values, place)?;
        put(&mut members, alloc, fields[place].name.as_str(), json)?;
    }
    Ok(members)
}

#[cycle(show_value)]
fn show_record(alloc: Global, fields: &[Field], value: &Value) -> Result<Json, NoMemory>
    ensures { IfOk result (λ json. view json ≡ record_shown AsRecord (λ vs. parts_shown (fields_of fields.now) vs) (λ vs there. fields_shown (fields_of fields.now) vs there) (plain_value value.now)) }
{
    match value {
        Value::Record(values) => Ok(Json::Object(show_fields(alloc, fields, values)?)),
        Value::Bool(_)
        | Value::Int(_)
        | Value::Char(_)
        | Value::Str(_)
        | Value::List(_)
        | Value::Variant(_, _)
        | Value::Flags(_)
        | Value::Handle(_) => Ok(Json::Null),
    }
}

#[cycle(show_value)]
fn show_present(alloc: Global, ty: &WitType, payload: &Option<Box<Value>>) -> Result<Json, NoMemory>
    ensures { IfOk result (λ json. view json ≡ payload_shown (λ v. shown (plain ty.now) v) (payload_of payload.now)) }
{
    match payload {
        None => Ok(Json::Null),
        Some(value) => show_value(alloc, ty, value),
    }
}

/// The payload of a case, which is null where the case has none.
#[cycle(show_value)]
fn show_payload(
    alloc: Global,
    ty: &Option<Rc<WitType>>,
    payload: &Option<Box<Value>>,
) -> Result<Json, NoMemory>
    ensures { IfOk result (λ json. view json ≡ payload_shown_by (type_of_payload ty.now) (payload_of payload.now)) }
{
    match ty {
        None => Ok(Json::Null),
        Some(ty) => show_present(alloc, ty, payload),
    }
}

#[cycle(show_value)]
fn show_case(
    alloc: Global,
    cases: &[Case],
    number: usize,
    payload: &Option<Box<Value>>,
) -> Result<Json, NoMemory>
    ensures { IfOk result (λ json. view json ≡ choice_shown AsVariant (cases_of cases.now) number (case_shown (cases_of cases.now) number (payload_of payload.now))) }
{
    if number >= cases.len() {
        return Ok(Json::Null);
    }
    let json = show_payload(alloc, &cases[number].ty, payload)?;
    object_of(alloc, cases[number].name.as_str(), json)
}

#[cycle(show_value)]
fn show_variant(alloc: Global, cases: &[Case], value: &Value) -> Result<Json, NoMemory>
    ensures { IfOk result (λ json. view json ≡ variant_shown (λ n d. choice_shown AsVariant (cases_of cases.now) n d) (λ n p. case_shown (cases_of cases.now) n p) (plain_value value.now)) }
{
    match value {
        Value::Variant(number, payload) => show_case(alloc, cases, *number as usize, payload),
        Value::Bool(_)
        | Value::Int(_)
        | Value::Char(_)
        | Value::Str(_)
        | Value::List(_)
        | Value::Record(_)
        | Value::Flags(_)
        | Value::Handle(_) => Ok(Json::Null),
    }
}

fn show_label(alloc: Global, labels: &[Text], number: usize) -> Result<Json, NoMemory>
    ensures { IfOk result (λ json. view json ≡ labelled string (label_at number (bare labels.now))) }
{
    if number >= labels.len() {
        return Ok(Json::Null);
    }
    text_of(alloc, labels[number].as_str())
}

fn show_enum(alloc: Global, labels: &[Text], value: &Value) -> Result<Json, NoMemory>
    ensures { IfOk result (λ json. view json ≡ variant_shown (λ n d. choice_shown AsEnum (bare labels.now) n d) (λ n p. case_shown (bare labels.now) n p) (plain_value value.now)) }
{
    match value {
        Value::Variant(number, _) => show_label(alloc, labels, *number as usize),
        Value::Bool(_)
        | Value::Int(_)
        | Value::Char(_)
        | Value::Str(_)
        | Value::List(_)
        | Value::Record(_)
        | Value::Flags(_)
        | Value::Handle(_) => Ok(Json::Null),
    }
}

#[cycle(show_value)]
fn show_some(
    alloc: Global,
    some: &WitType,
    number: u32,
    payload: &Option<Box<Value>>,
) -> Result<Json, NoMemory>
    ensures { IfOk result (λ json. view json ≡ choice_shown AsOption (Bare [] (More [] (plain some.now) End)) number (case_shown (Bare [] (More [] (plain some.now) End)) number (payload_of payload.now))) }
{
    match number {
        0 => Ok(Json::Null),
        1 => {
            let json = show_present(alloc, some, payload)?;
            object_of(alloc, "some", json)
        }
        _ => Ok(Json::Null),
    }
}

#[cycle(show_value)]
fn show_option(alloc: Global, some: &WitType, value: &Value) -> Result<Json, NoMemory>
    ensures { IfOk result (λ json. view json ≡ variant_shown (λ n d. choice_shown AsOption (Bare [] (More [] (plain some.now) End)) n d) (λ n p. case_shown (Bare [] (More [] (plain some.now) End)) n p) (plain_value value.now)) }
{
    match value {
        Value::Variant(number, payload) => show_some(alloc, some, *number, payload),
        Value::Bool(_)
        | Value::Int(_)
        | Value::Char(_)
        | Value::Str(_)
        | Value::List(_)
        | Value::Record(_)
        | Value::Flags(_)
        | Value::Handle(_) => Ok(Json::Null),
    }
}

/// A case of a result with its payload.
#[cycle(show_value)]
fn show_end(
    alloc: Global,
    name: &str,
    ty: &Option<Rc<WitType>>,
    value: &Value,
) -> Result<Json, NoMemory>
    ensures { IfOk result (λ json. view json ≡ end_shown name.now (type_of_payload ty.now) (plain_value value.now)) }
{
    match value {
        Value::Variant(_, payload) => {
            let json = show_payload(alloc, ty, payload)?;
            object_of(alloc, name, json)
        }
        Value::Bool(_)
        | Value::Int(_)
        | Value::Char(_)
        | Value::Str(_)
        | Value::List(_)
        | Value::Record(_)
        | Value::Flags(_)
        | Value::Handle(_) => Ok(Json::Null),
    }
}

/// A value as JSON by its type. In place of what is not of its type stands null.
#[cycle(show_value)]
pub fn show_value(alloc: Global, ty: &WitType, value: &Value) -> Result<Json, NoMemory>
    ensures { IfOk result (λ json. view json ≡ shown (plain ty.now) (plain_value value.now)) }
{
    match ty {
        WitType::Bool => Ok(show_truth(value)),
        WitType::S8 | WitType::S16 | WitType::S32 | WitType::S64 => Ok(show_integer(value)),
        WitType::U8 | WitType::U16 | WitType::U32 | WitType::U64 => Ok(show_integer(value)),
        WitType::Char => show_char(alloc, value),
        WitType::Str => show_text(alloc, value),
        WitType::Record(fields) => show_record(alloc, &fields.items, value),
        WitType::Tuple(types) => show_tuple(alloc, &types.items, value),
        WitType::Variant(cases) => show_variant(alloc, &cases.items, value),
        WitType::List(item) => show_list(alloc, item, value),
        WitType::Flags(labels) => show_flags(alloc, labels, value),
        WitType::Enum(labels) => show_enum(alloc, labels, value),
        WitType::Option(some) => show_option(alloc, some, value),
        WitType::Result(ok, err) => match case_number(value) {
            Some(0) => show_end(alloc, "ok", ok, value),
            Some(1) => show_end(alloc, "err", err, value),
            Some(_) => Ok(Json::Null),
            None => Ok(Json::Null),
        },
        WitType::Own(_) | WitType::Borrow(_) => Ok(show_handle(value)),
    }
}
