//! The calls of a script: `[NAME,[V, ..]]`, with a value for each parameter.

#![tactic(auto, using(crate::proofs::Views::untypeds))]

ghost use Rattle.std.specs.Prelude.{map, ◌≡◌, option_map, string_bytes};
ghost use Rattle.serde_json.specs.View.{view, items_view};
ghost use Rattle.host_port.specs.Calls.{fields_in};
ghost use Rattle.host_script.specs.Json.{untyped, untyped_items};
ghost use Rattle.host_script.specs.Script.{Gives, Finds, text_of, items_of, two_in, pair_in, call_by, call_of, call_at, each_at, call_seen, exports_seen, params_named};

use crate::answers::bad_item;
use crate::exports::ExportTypes;
use crate::fault::ScriptFault;
use crate::script::{Call, Calls};
use crate::{ReadValueFault, read_args};
use serde_json::Value as Json;
use std::alloc::Global;
use virt_base::{Items, Text};
use wit_types::Fields;

/// The parameters of the function with a name.
fn params_named<'a>(exports: &'a ExportTypes, name: &str) -> Option<&'a Fields>
    ensures { option_map (λ params. fields_in params.now) result ≡ params_named name.now (exports_seen exports.now) }
{
    match exports.find(name) {
        Some(export) => Some(&export.ty.params),
        None => None,
    }
}

fn text_of(json: Json) -> Option<String>
    ensures { Finds (λ text. string_bytes text) (text_of (untyped (view json))) result }
{
    match json {
        Json::String(text) => Some(text),
        Json::Null | Json::Bool(_) | Json::Number(_) | Json::Array(_) | Json::Object(_) => None,
    }
}

/// The items of an array.
pub fn items_of(json: Json) -> Option<Vec<Json>>
    ensures { Finds (λ items. untyped_items (items_view items.items)) (items_of (untyped (view json))) result }
{
    match json {
        Json::Array(items) => Some(items),
        Json::Null | Json::Bool(_) | Json::Number(_) | Json::String(_) | Json::Object(_) => None,
    }
}

fn two_in(items: Vec<Json>) -> Option<(String, Vec<Json>)>
    ensures { Finds (λ pair. (string_bytes pair.0, untyped_items (items_view pair.1.items))) (two_in (untyped_items (items_view items.items))) result }
{
    let mut rest = items.into_iter();
    let Some(first) = rest.next() else {
        return None;
    };
    let Some(second) = rest.next() else {
        return None;
    };
    if rest.next().is_some() {
        return None;
    }
    let Some(name) = text_of(first) else {
        return None;
    };
    let Some(args) = items_of(second) else {
        return None;
    };
    Some((name, args))
}

/// The name and the arguments of a call.
fn pair_in(json: Json) -> Option<(String, Vec<Json>)>
    ensures { Finds (λ pair. (string_bytes pair.0, untyped_items (items_view pair.1.items))) (pair_in (untyped (view json))) result }
{
    match json {
        Json::Array(items) => two_in(items),
        Json::Null | Json::Bool(_) | Json::Number(_) | Json::String(_) | Json::Object(_) => None,
    }
}

/// The call at an index of the array.
pub fn call_in(
    alloc: Global,
    exports: &ExportTypes,
    index: usize,
    json: Json,
) -> Result<Call, ScriptFault>
    ensures { Gives call_seen (call_at (exports_seen exports.now) index (untyped (view json))) result }
{
    let Some((name, args)) = pair_in(json) else {
        return Err(bad_item(alloc, "calls", index));
    };
    let Some(params) = params_named(exports, name.as_str()) else {
        return Err(bad_item(alloc, "calls", index));
    };
    match read_args(alloc, params, args) {
        Ok(args) => Ok(Call {
            name: Text::from_string(name),
            args,
        }),
        Err(ReadValueFault::NotOfType) => Err(bad_item(alloc, "calls", index)),
        Err(ReadValueFault::NoMemory) => Err(ScriptFault::NoMemory),
    }
}

pub fn read_calls(
    alloc: Global,
    exports: &ExportTypes,
    items: Vec<Json>,
) -> Result<Calls, ScriptFault>
    ensures { Gives (λ calls. map call_seen calls) (each_at (call_at (exports_seen exports.now)) 0 (untyped_items (items_view items.items))) result }
{
    let mut calls = Items::empty(alloc);
    let mut rest = items.into_iter();
    while let Some(json) = rest.next() {
        let call = call_in(alloc, exports, calls.len(), json)?;
        calls.push(call)?;
    }
    Ok(calls)
}
