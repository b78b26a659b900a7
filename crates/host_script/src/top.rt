//! Reading a script: its regular form in one pass, any other as a whole, which then names the first fault.

#![tactic(auto, using(crate::proofs::Views::untypeds, crate::proofs::Whole::bads))]

ghost use Rattle.std.specs.Prelude.{◌≡◌, ◌≢◌, [], List, ℕ, Err, IfOk, option_map};
ghost use Rattle.serde_json.specs.View.{view, items_view, members_view};
ghost use Rattle.host_script.specs.Json.{untyped, untyped_items, untyped_members};
ghost use Rattle.host_script.specs.Script.{Gives, IsBad, IsNoJson, array_in, value_at, is_known, first_unknown, unless_bad, made_of, script_in, script_of, due_script, script_seen, whole_seen, exports_seen, json_in, AreTyped};

use crate::answers::read_answers;
use crate::calls::{items_of, read_calls};
use crate::exports::ExportTypes;
use crate::fault::ScriptFault;
use crate::regular::read_regular;
use crate::script::{Script, WholeScript};
use crate::unread::Unread;
use serde_json::{Error, Map, Value as Json};
use std::alloc::Global;
use virt_base::Text;

fn bad(alloc: Global, path: &str) -> ScriptFault
    ensures { IsBad path.now result }
{
    match Text::from_str(alloc, path) {
        Ok(path) => ScriptFault::BadScript(path),
        Err(_) => ScriptFault::NoMemory,
    }
}

fn is_known(key: &str) -> bool
    ensures { result ≡ is_known key.now }
{
    key == "answers" || key == "calls"
}

/// The first key that is not known.
fn first_unknown<'a>(members: &'a Map<String, Json>) -> Option<&'a str>
    ensures { option_map (λ key. key.now) result ≡ first_unknown (untyped_members (members_view members.now.entries)) }
{
    for (key, _) in members {
        if !is_known(key.as_str()) {
            return Some(key.as_str());
        }
    }
    None
}

fn known_keys(alloc: Global, members: &Map<String, Json>) -> Result<(), ScriptFault>
    ensures { Gives (λ done. done) (unless_bad (first_unknown (untyped_members (members_view members.now.entries)))) result }
{
    match first_unknown(members) {
        Some(key) => Err(bad(alloc, key)),
        None => Ok(()),
    }
}

/// Takes the value at a key.
fn take_value(members: &mut Map<String, Json>, key: &str) -> Option<Json>
    ensures value { option_map (λ json. untyped (view json)) result ≡ value_at key.now (untyped_members (members_view members.old.entries)) }
    ensures others { (other : List ℕ) → other ≢ key.now → value_at other (untyped_members (members_view members.new.entries)) ≡ value_at other (untyped_members (members_view members.old.entries)) }
{
    members.remove(key)
}

/// The items of the array at a key.
fn array_in(alloc: Global, key: &str, json: Option<Json>) -> Result<Vec<Json>, ScriptFault>
    ensures { Gives (λ items. untyped_items (items_view items.items)) (array_in key.now (option_map (λ json. untyped (view json)) json)) result }
{
    match json {
        None => Err(bad(alloc, key)),
        Some(json) => match items_of(json) {
            Some(items) => Ok(items),
            None => Err(bad(alloc, key)),
        },
    }
}

fn read_both(
    alloc: Global,
    exports: &ExportTypes,
    answers: Vec<Json>,
    calls: Vec<Json>,
) -> Result<WholeScript, ScriptFault>
    ensures { Gives whole_seen (made_of (exports_seen exports.now) (untyped_items (items_view answers.items)) (untyped_items (items_view calls.items))) result }
{
    let read = read_answers(alloc, answers)?;
    let made = read_calls(alloc, exports, calls)?;
    Ok(WholeScript {
        answers: read,
        calls: made,
    })
}

fn script_in(
    alloc: Global,
    exports: &ExportTypes,
    members: Map<String, Json>,
) -> Result<WholeScript, ScriptFault>
    ensures { Gives whole_seen (script_in (exports_seen exports.now) (untyped_members (members_view members.entries))) result }
{
    known_keys(alloc, &members)?;
    let mut others = members;
    let answer_items = array_in(alloc, "answers", take_value(&mut others, "answers"))?;
    let call_items = array_in(alloc, "calls", take_value(&mut others, "calls"))?;
    read_both(alloc, exports, answer_items, call_items)
}

fn script_of(alloc: Global, exports: &ExportTypes, json: Json) -> Result<WholeScript, ScriptFault>
    ensures { Gives whole_seen (script_of (exports_seen exports.now) (untyped (view json))) result }
{
    match json {
        Json::Object(members) => script_in(alloc, exports, members),
        Json::Null | Json::Bool(_) | Json::Number(_) | Json::String(_) | Json::Array(_) => Err(bad(
            alloc, "",
        )),
    }
}

fn no_json(alloc: Global, e: &Error) -> ScriptFault
    ensures { IsNoJson e.now result }
{
    if e.is_memory() {
        ScriptFault::NoMemory
    } else {
        bad(alloc, "")
    }
}

/// The fault of a script that is read whole.
fn fault_in(alloc: Global, exports: &ExportTypes, json: Json) -> ScriptFault
    ensures { Gives script_seen (script_of (exports_seen exports.now) (untyped (view json))) (Err result) }
{
    match script_of(alloc, exports, json) {
        Err(fault) => fault,
        // A script without fault was read before.
        Ok(_) => ScriptFault::NoMemory,
    }
}

/// Reads a script of any form. With its members in order, each once, it is of the usual form.
fn read_any(alloc: Global, json: &[u8], exports: &ExportTypes) -> Result<Script, ScriptFault>
    ensures due { Gives script_seen (due_script (exports_seen exports.now) (json_in json.now)) result }
    ensures typed { IfOk result (λ script. AreTyped (exports_seen exports.now) script.calls) }
{
    let json = match Json::from_slice(alloc, json) {
        Ok(json) => json,
        Err(e) => return Err(no_json(alloc, &e)),
    };
    let Ok(text) = json.to_string(alloc) else {
        return Err(ScriptFault::NoMemory);
    };
    match read_regular(alloc, exports, text.as_bytes()) {
        Ok(script) => Ok(script),
        Err(Unread::OtherForm) => Err(fault_in(alloc, exports, json)),
        Err(Unread::NoMemory) => Err(ScriptFault::NoMemory),
    }
}

/// Reads a script, or finds its first fault: the bytes are a JSON text (RFC 8259, at most 127 arrays and objects in one
/// another) of an object with the keys `answers` and `calls` and no other; each answer is `"trap"`, `{}` or `{"value":V}`; each
/// call is `[NAME,[V, ..]]` with the name of a function that can be called and a value for each of its parameters.
pub fn read_script(alloc: Global, json: &[u8], exports: &ExportTypes) -> Result<Script, ScriptFault>
    ensures due { Gives script_seen (due_script (exports_seen exports.now) (json_in json.now)) result }
    // The arguments of each call are of its function's parameters.
    ensures typed { IfOk result (λ script. AreTyped (exports_seen exports.now) script.calls) }
{
    match read_regular(alloc, exports, json) {
        Ok(script) => Ok(script),
        Err(Unread::OtherForm) => read_any(alloc, json, exports),
        Err(Unread::NoMemory) => Err(ScriptFault::NoMemory),
    }
}
