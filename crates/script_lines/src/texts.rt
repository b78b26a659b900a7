//! Values without parts as JSON: truth values, integers, characters, texts, handles and flags.

#![tactic(auto, using(wit_types::proofs::ValueLemmas::values, crate::proofs::Views::views))]

ghost use Rattle.std.specs.Prelude.{◌≡◌, IfOk, OnOk};
ghost use Rattle.std.specs.Char.{encode_utf8};
ghost use Rattle.serde_json.specs.Data.{string};
ghost use Rattle.serde_json.specs.View.{view, items_view};
ghost use Rattle.wit_types.specs.PlainValue.{plain_value};
ghost use Rattle.script_lines.specs.Shown.{truth_shown, integer_shown, number_shown, char_shown, text_shown, handle_shown, flags_shown, labels_set, one_member};
ghost use Rattle.script_lines.specs.Shows.{items_then, label_if};

use serde_json::{Map, Value as Json, put};
use std::alloc::Global;
use virt_base::{NoMemory, Text};
use wit_types::Value;

/// A text as JSON.
pub fn text_of(alloc: Global, text: &str) -> Result<Json, NoMemory>
    ensures { IfOk result (λ json. view json ≡ string text.now) }
{
    Ok(Json::String(String::from_str(alloc, text)?))
}

/// An object with one member.
pub fn object_of(alloc: Global, name: &str, json: Json) -> Result<Json, NoMemory>
    ensures { IfOk result (λ made. view made ≡ one_member name.now (view json)) }
{
    let mut members = Map::new(alloc);
    put(&mut members, alloc, name, json)?;
    Ok(Json::Object(members))
}

pub fn show_truth(value: &Value) -> Json
    ensures { view result ≡ truth_shown (plain_value value.now) }
{
    match value {
        Value::Bool(truth) => Json::Bool(*truth),
        Value::Int(_)
        | Value::Char(_)
        | Value::Str(_)
        | Value::List(_)
        | Value::Record(_)
        | Value::Variant(_, _)
        | Value::Flags(_)
        | Value::Handle(_) => Json::Null,
    }
}

fn number_of(n: i128) -> Json
    ensures { view result ≡ number_shown n }
{
    if 0 <= n && n < 0x1_0000_0000_0000_0000 {
        Json::from(n as u64)
    } else if -0x8000_0000_0000_0000 <= n && n < 0 {
        Json::from(n as i64)
    } else {
        Json::Null
    }
}

pub fn show_integer(value: &Value) -> Json
    ensures { view result ≡ integer_shown (plain_value value.now) }
{
    match value {
        Value::Int(n) => number_of(*n),
        Value::Bool(_)
        | Value::Char(_)
        | Value::Str(_)
        | Value::List(_)
        | Value::Record(_)
        | Value::Variant(_, _)
        | Value::Flags(_)
        | Value::Handle(_) => Json::Null,
    }
}

fn text_of_char(alloc: Global, c: char) -> Result<Json, NoMemory>
    ensures { IfOk result (λ json. view json ≡ string (encode_utf8 c)) }
{
    let mut text = String::new(alloc);
    text.push(c)?;
    Ok(Json::String(text))
}

pub fn show_char(alloc: Global, value: &Value) -> Result<Json, NoMemory>
    ensures { IfOk result (λ json. view json ≡ char_shown (plain_value value.now)) }
{
    match value {
        Value::Char(c) => text_of_char(alloc, *c),
        Value::Bool(_)
        | Value::Int(_)
        | Value::Str(_)
        | Value::List(_)
        | Value::Record(_)
        | Value::Variant(_, _)
        | Value::Flags(_)
        | Value::Handle(_) => Ok(Json::Null),
    }
}

pub fn show_text(alloc: Global, value: &Value) -> Result<Json, NoMemory>
    ensures { IfOk result (λ json. view json ≡ text_shown (plain_value value.now)) }
{
    match value {
        Value::Str(text) => text_of(alloc, text.as_str()),
        Value::Bool(_)
        | Value::Int(_)
        | Value::Char(_)
        | Value::List(_)
        | Value::Record(_)
        | Value::Variant(_, _)
        | Value::Flags(_)
        | Value::Handle(_) => Ok(Json::Null),
    }
}

pub fn show_handle(value: &Value) -> Json
    ensures { view result ≡ handle_shown (plain_value value.now) }
{
    match value {
        Value::Handle(id) => Json::from(*id),
        Value::Bool(_)
        | Value::Int(_)
        | Value::Char(_)
        | Value::Str(_)
        | Value::List(_)
        | Value::Record(_)
        | Value::Variant(_, _)
        | Value::Flags(_) => Json::Null,
    }
}

fn push_label(
    alloc: Global,
    items: &mut Vec<Json>,
    is_set: bool,
    label: &str,
) -> Result<(), NoMemory>
    ensures { OnOk result (items_view items.new.items ≡ items_then (items_view items.old.items) (label_if is_set label.now)) }
{
    if is_set {
        items.push(text_of(alloc, label)?)?;
    }
    Ok(())
}

fn show_labels(alloc: Global, labels: &[Text], bits: u32) -> Result<Vec<Json>, NoMemory>
    ensures { IfOk result (λ items. items_view items.items ≡ labels_set labels.now bits) }
{
    let mut items = Vec::new(alloc);
    let mut left = bits;
    for label in labels {
        push_label(alloc, &mut items, left % 2 == 1, label.as_str())?;
        left /= 2;
    }
    Ok(items)
}

/// Flags as the labels that are set.
pub fn show_flags(alloc: Global, labels: &[Text], value: &Value) -> Result<Json, NoMemory>
    ensures { IfOk result (λ json. view json ≡ flags_shown labels.now (plain_value value.now)) }
{
    match value {
        Value::Flags(bits) => Ok(Json::Array(show_labels(alloc, labels, *bits)?)),
        Value::Bool(_)
        | Value::Int(_)
        | Value::Char(_)
        | Value::Str(_)
        | Value::List(_)
        | Value::Record(_)
        | Value::Variant(_, _)
        | Value::Handle(_) => Ok(Json::Null),
    }
}
