//! A script whose members are `answers` and then `calls`, and which is not at fault, is read in one pass: each answer is kept as
//! its text, so that no tree of all of them stands in memory.

ghost use Rattle.std.specs.Prelude.{◌≡◌, ◌<◌, ◌≤◌, [], ◌∷◌, length, Ok, IfOk, OnOk, IsUtf8};
ghost use Rattle.json.specs.Token.{begin_object, end_object, begin_array, key as key_token};
ghost use Rattle.serde_json.specs.Data.{depth as nesting};
ghost use Rattle.serde_json.specs.Read.{max_depth};
ghost use Rattle.serde_json.specs.View.{view};
ghost use Rattle.host_script.specs.Script.{AreTyped, due_script, exports_seen, json_in, script_seen};
ghost use Rattle.host_script.specs.Taken.{IsNext, IsAnswer, IsCall, Takes, TakesAll};

use crate::answers::item_in;
use crate::calls::call_in;
use crate::exports::ExportTypes;
use crate::fault::ScriptFault;
use crate::json_value::read_json;
use crate::kept::Answers;
use crate::script::{Calls, Script};
use crate::unread::Unread;
use json::{Reader, Scratch, Token};
use serde_json::Value as Json;
use std::alloc::Global;
use virt_base::Items;

/// So deep may arrays and objects nest in an item of an array in an object.
const DEPTH: usize = 125;

/// The next item of an array.
fn next_item(alloc: Global, reader: &mut Reader<'_>) -> Result<Json, Unread>
    ensures next { IfOk result (λ json. IsNext (view json) reader.old reader.new) }
    ensures nests { IfOk result (λ json. nesting (view json) ≤ max_depth) }
    ensures shorter { OnOk result (length reader.new < length reader.old) }
{
    let json = read_json(alloc, reader, DEPTH)?;
    Ok(json)
}

fn keep_answer(alloc: Global, reader: &mut Reader<'_>, answers: &mut Answers) -> Result<(), Unread>
    ensures { OnOk result (Takes IsAnswer answers.old answers.new reader.old reader.new) }
{
    let json = next_item(alloc, reader)?;
    let text = json.to_vec(alloc)?;
    match item_in(json) {
        Some(_) => {
            answers.push(text.as_slice())?;
            Ok(())
        }
        None => Err(Unread::OtherForm),
    }
}

fn keep_answers(alloc: Global, reader: &mut Reader<'_>) -> Result<Answers, Unread>
    ensures { IfOk result (λ answers. TakesAll IsAnswer answers reader.old reader.new) }
{
    let mut answers = Answers::none(alloc);
    'answers: while !reader.take_end_array() {
        keep_answer(alloc, reader, &mut answers)?;
    }
    Ok(answers)
}

fn keep_call(
    alloc: Global,
    exports: &ExportTypes,
    reader: &mut Reader<'_>,
    calls: &mut Calls,
) -> Result<(), Unread>
    ensures due { OnOk result (Takes (IsCall (exports_seen exports.now)) calls.old calls.new reader.old reader.new) }
    ensures typed { OnOk result (AreTyped (exports_seen exports.now) calls.old → AreTyped (exports_seen exports.now) calls.new) }
{
    let json = next_item(alloc, reader)?;
    match call_in(alloc, exports, calls.len(), json) {
        Ok(call) => {
            calls.push(call)?;
            Ok(())
        }
        Err(ScriptFault::BadScript(_)) => Err(Unread::OtherForm),
        Err(ScriptFault::NoMemory) => Err(Unread::NoMemory),
    }
}

fn keep_calls(
    alloc: Global,
    exports: &ExportTypes,
    reader: &mut Reader<'_>,
) -> Result<Calls, Unread>
    ensures due { IfOk result (λ calls. TakesAll (IsCall (exports_seen exports.now)) calls reader.old reader.new) }
    ensures typed { IfOk result (λ calls. AreTyped (exports_seen exports.now) calls) }
{
    let mut calls = Items::empty(alloc);
    'calls: while !reader.take_end_array() {
        keep_call(alloc, exports, reader, &mut calls)?;
    }
    Ok(calls)
}

fn begin_object(reader: &mut Reader<'_>) -> Result<(), Unread>
    ensures { OnOk result (reader.old ≡ begin_object ∷ reader.new) }
{
    match reader.next() {
        Some(Token::BeginObject) => Ok(()),
        _ => Err(Unread::OtherForm),
    }
}

/// The next member begins, which has this key and is an array.
fn begin_array(reader: &mut Reader<'_>, key: &str) -> Result<(), Unread>
    ensures { OnOk result (reader.old ≡ key_token key.now ∷ begin_array ∷ reader.new) }
{
    match reader.next_key()? {
        Some(name) => if name != key {
            return Err(Unread::OtherForm);
        },
        None => return Err(Unread::OtherForm),
    }
    match reader.next() {
        Some(Token::BeginArray) => Ok(()),
        _ => Err(Unread::OtherForm),
    }
}

/// The object ends, and the text.
fn end_object(reader: &mut Reader<'_>) -> Result<(), Unread>
    ensures { OnOk result (reader.old ≡ end_object ∷ []) }
{
    match reader.next_key()? {
        Some(_) => return Err(Unread::OtherForm),
        None => {}
    }
    match reader.next() {
        Some(_) => Err(Unread::OtherForm),
        None => Ok(()),
    }
}

fn read_text(alloc: Global, exports: &ExportTypes, text: &str) -> Result<Script, Unread>
    ensures due { IfOk result (λ script. IsUtf8 text.now → due_script (exports_seen exports.now) (json_in text.now) ≡ Ok (script_seen script)) }
    ensures typed { IfOk result (λ script. AreTyped (exports_seen exports.now) script.calls) }
{
    let mut scratch = Scratch::new(alloc);
    let mut reader = Reader::new(text, &mut scratch)?;
    begin_object(&mut reader)?;
    begin_array(&mut reader, "answers")?;
    let answers = keep_answers(alloc, &mut reader)?;
    begin_array(&mut reader, "calls")?;
    let calls = keep_calls(alloc, exports, &mut reader)?;
    end_object(&mut reader)?;
    Ok(Script { answers, calls })
}

/// Reads a script of the usual form.
pub fn read_regular(alloc: Global, exports: &ExportTypes, bytes: &[u8]) -> Result<Script, Unread>
    ensures due { IfOk result (λ script. due_script (exports_seen exports.now) (json_in bytes.now) ≡ Ok (script_seen script)) }
    ensures typed { IfOk result (λ script. AreTyped (exports_seen exports.now) script.calls) }
{
    match std::str::from_utf8(bytes) {
        Ok(text) => read_text(alloc, exports, text),
        Err(_) => Err(Unread::OtherForm),
    }
}
