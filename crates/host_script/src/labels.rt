//! Cases and flags by their labels.

#![tactic(auto, using(wit_types::proofs::ValueLemmas::values, crate::proofs::Views::untypeds))]

ghost use Rattle.std.specs.Prelude.{◌≡◌, ◌<◌, IsTrue, IfSome, drop, length};
ghost use Rattle.serde_json.specs.View.{view, items_view};
ghost use Rattle.wit_types.specs.Plain.{bare, cases_of};
ghost use Rattle.wit_types.specs.PlainValue.{plain_value};
ghost use Rattle.host_port.specs.Untyped.{case_named, flags_in, flags_from};
ghost use Rattle.host_script.specs.Json.{untyped, untyped_items};
ghost use Rattle.host_script.specs.Reads.{Gives, begins_with};

use crate::values_fault::ReadValueFault;
use serde_json::Value as Json;
use virt_base::Text;
use wit_types::{Case, Value};

/// The number of the case with a label.
pub fn case_named(label: &str, cases: &[Case]) -> Option<usize>
    ensures value { result ≡ case_named label.now (cases_of cases.now) }
    ensures within { IfSome result (λ number. number < length cases.now) }
{
    for number in 0..cases.len() {
        if cases[number].name.as_str() == label {
            return Some(number);
        }
    }
    None
}

/// The number of a label.
pub fn label_named(label: &str, labels: &[Text]) -> Option<usize>
    ensures value { result ≡ case_named label.now (bare labels.now) }
    ensures within { IfSome result (λ number. number < length labels.now) }
{
    for number in 0..labels.len() {
        if labels[number].as_str() == label {
            return Some(number);
        }
    }
    None
}

/// Whether a label stands at a place of an array.
fn is_next(label: &str, items: &[Json], read: usize) -> bool
    ensures value { result ≡ begins_with label.now (untyped_items (items_view (drop read items.now))) }
    ensures within { IsTrue result → read < length items.now }
{
    if read >= items.len() {
        return false;
    }
    match items[read].as_str() {
        Some(text) => text == label,
        None => false,
    }
}

/// The bits of labels that stand in an array in order. No type has more than 32, which is what `Flags` holds.
fn bits_in(labels: &[Text], items: &[Json]) -> Result<u32, ReadValueFault>
    ensures { Gives (λ bits. bits) (flags_from 1 labels.now (untyped_items (items_view items.now))) result }
{
    if labels.len() > 32 {
        return Err(ReadValueFault::NoMemory);
    }
    let mut bits: u64 = 0;
    let mut bit: u64 = 1;
    let mut read = 0;
    for label in labels {
        if is_next(label.as_str(), items, read) {
            bits += bit;
            read += 1;
        }
        bit *= 2;
    }
    if read < items.len() {
        return Err(ReadValueFault::NotOfType);
    }
    Ok(bits as u32)
}

/// Flags are an array of the labels that are set.
pub fn flags_in(json: &Json, labels: &[Text]) -> Result<Value, ReadValueFault>
    ensures { Gives plain_value (flags_in labels.now (untyped (view json.now))) result }
{
    match json {
        Json::Array(items) => Ok(Value::Flags(bits_in(labels, items)?)),
        Json::Null | Json::Bool(_) | Json::Number(_) | Json::String(_) | Json::Object(_) => Err(
            ReadValueFault::NotOfType,
        ),
    }
}
