//! The answers of a script: `"trap"`, `{}` or `{"value":V}`.

#![tactic(auto, using(crate::proofs::Views::untypeds))]

ghost use Rattle.std.specs.Prelude.{map, codes, string_bytes};
ghost use Rattle.serde_json.specs.View.{view, items_view, members_view};
ghost use Rattle.host_script.specs.Json.{untyped, untyped_items, untyped_members};
ghost use Rattle.host_script.specs.Script.{Gives, Finds, IsBad, item_in, only_value, named_value, answer_at, each_at, item_read, nth};

use crate::fault::ScriptFault;
use crate::script::ScriptItem;
use serde_json::{Map, Value as Json};
use std::alloc::Global;
use virt_base::{Items, Text};

/// The fault of an item of the array at a path.
pub fn bad_item(alloc: Global, path: &str, index: usize) -> ScriptFault
    ensures { IsBad (nth path.now index) result }
{
    match format!(in alloc; "{path}[{index}]") {
        Ok(chars) => ScriptFault::BadScript(Text::from_string(chars)),
        Err(_) => ScriptFault::NoMemory,
    }
}

fn named_value(name: String, json: Json) -> Option<ScriptItem>
    ensures { Finds item_read (named_value (string_bytes name) (untyped (view json))) result }
{
    if name.as_str() == "value" {
        Some(ScriptItem::Value(json))
    } else {
        None
    }
}

fn only_value(members: Map<String, Json>) -> Option<ScriptItem>
    ensures { Finds item_read (only_value (untyped_members (members_view members.entries))) result }
{
    let mut others = members;
    match others.pop_first() {
        None => Some(ScriptItem::NoValue),
        Some((name, json)) => if others.is_empty() {
            named_value(name, json)
        } else {
            None
        },
    }
}

/// An answer is `"trap"`, `{}` or `{"value":V}`.
pub fn item_in(json: Json) -> Option<ScriptItem>
    ensures { Finds item_read (item_in (untyped (view json))) result }
{
    match json {
        Json::String(word) => if word.as_str() == "trap" {
            Some(ScriptItem::Traps)
        } else {
            None
        },
        Json::Object(members) => only_value(members),
        Json::Null | Json::Bool(_) | Json::Number(_) | Json::Array(_) => None,
    }
}

fn answer_in(alloc: Global, index: usize, json: Json) -> Result<ScriptItem, ScriptFault>
    ensures { Gives item_read (answer_at index (untyped (view json))) result }
{
    match item_in(json) {
        Some(item) => Ok(item),
        None => Err(bad_item(alloc, "answers", index)),
    }
}

pub fn read_answers(alloc: Global, items: Vec<Json>) -> Result<Items<ScriptItem>, ScriptFault>
    ensures { Gives (λ answers. map item_read answers) (each_at answer_at 0 (untyped_items (items_view items.items))) result }
{
    let mut answers = Items::empty(alloc);
    let mut rest = items.into_iter();
    while let Some(json) = rest.next() {
        let answer = answer_in(alloc, answers.len(), json)?;
        answers.push(answer)?;
    }
    Ok(answers)
}
