//! JSON in memory, from the tokens of a reader that goes on after it. `serde_json` reads whole texts alone, and each such text
//! anew fills tables for the places of its tokens, which takes longer than a short text itself.

ghost use Rattle.std.specs.Prelude.{◌≡◌, ◌<◌, ◌==◌, length, slice_index, true, false, Some, IfOk, IsTrue, OnOk, option_map};
ghost use Rattle.fast_float.specs.Text.{minus};
ghost use Rattle.json.specs.Json.{value, items, members};
ghost use Rattle.serde_json.specs.Data.{no_members};
ghost use Rattle.serde_json.specs.Read.{of_json, of_items, of_members, converted, float_of, number_from, number_of};
ghost use Rattle.serde_json.specs.View.{view, items_view, members_view, number_view};

use crate::unread::Unread;
use fast_float::Numeral;
use json::{Reader, Token};
use serde_json::{Map, Number, Value as Json};
use std::alloc::Global;

fn nearest(negative: bool, numeral: &Numeral<'_>) -> Option<Number>
    ensures { option_map number_view result ≡ float_of negative numeral.now }
{
    Number::from_f64(numeral.to_float::<f64>(negative))
}

fn without_sign(numeral: &Numeral<'_>) -> Option<Number>
    ensures { option_map number_view result ≡ number_from false numeral.now }
{
    match numeral.to_u64() {
        Some(n) => Some(Number::from(n)),
        None => nearest(false, numeral),
    }
}

fn behind_minus(numeral: &Numeral<'_>) -> Option<Number>
    ensures { option_map number_view result ≡ number_from true numeral.now }
{
    if let Some(n) = numeral.to_i64(true) {
        if n < 0 {
            return Some(Number::from(n));
        }
    }
    nearest(true, numeral)
}

fn has_minus(bytes: &[u8]) -> bool
    ensures value { result ≡ (slice_index bytes.now 0 == minus) }
    ensures len { IsTrue result → 0 < length bytes.now }
{
    !bytes.is_empty() && bytes[0] == b'-'
}

/// The number that a token writes, where it is in range.
fn read_number(text: &str) -> Option<Number>
    ensures { option_map number_view result ≡ number_of text.now }
{
    let bytes = text.as_bytes();
    if has_minus(bytes) {
        behind_minus(&Numeral::scan(&bytes[1..]))
    } else {
        without_sign(&Numeral::scan(bytes))
    }
}

/// The next value. Arrays and objects nest so deep at most.
#[cycle(json_value)]
pub fn read_json(alloc: Global, reader: &mut Reader<'_>, depth: usize) -> Result<Json, Unread>
    ensures ok { IfOk result (λ json. converted of_json (value depth reader.old) ≡ Some (view json, reader.new)) }
    ensures shorter { OnOk result (length reader.new < length reader.old) }
{
    let token = reader.next().ok_or(Unread::OtherForm)?;
    match token {
        Token::String(text) => Ok(Json::String(String::from_str(alloc, text)?)),
        Token::Number(text) => match read_number(text) {
            Some(number) => Ok(Json::Number(number)),
            None => Err(Unread::OtherForm),
        },
        Token::Bool(b) => Ok(Json::Bool(b)),
        Token::Null => Ok(Json::Null),
        Token::EndObject | Token::EndArray | Token::Key(_) | Token::Bad => Err(Unread::OtherForm),
        Token::BeginArray => {
            if depth == 0 {
                return Err(Unread::OtherForm);
            }
            Ok(Json::Array(read_items(alloc, reader, depth - 1)?))
        }
        Token::BeginObject => {
            if depth == 0 {
                return Err(Unread::OtherForm);
            }
            Ok(Json::Object(read_members(alloc, reader, depth - 1)?))
        }
    }
}

#[cycle(json_value)]
fn read_items(alloc: Global, reader: &mut Reader<'_>, depth: usize) -> Result<Vec<Json>, Unread>
    ensures ok { IfOk result (λ v. converted of_items (items (value depth) (length reader.old) reader.old) ≡ Some (items_view v.items, reader.new)) }
    ensures shorter { OnOk result (length reader.new < length reader.old) }
{
    let mut found = Vec::new(alloc);
    'items: while !reader.take_end_array() {
        let item = read_json(alloc, reader, depth)?;
        found.push(item)?;
    }
    Ok(found)
}

#[cycle(json_value)]
fn read_members(
    alloc: Global,
    reader: &mut Reader<'_>,
    depth: usize,
) -> Result<Map<String, Json>, Unread>
    ensures ok { IfOk result (λ m. converted (λ ms. of_members ms no_members) (members (value depth) (length reader.old) reader.old) ≡ Some (members_view m.entries, reader.new)) }
    ensures shorter { OnOk result (length reader.new < length reader.old) }
{
    let mut found = Map::new(alloc);
    'members: while let Some(name) = reader.next_key()? {
        let key = String::from_str(alloc, name)?;
        let member = read_json(alloc, reader, depth)?;
        drop(found.insert(key, member)?);
    }
    Ok(found)
}
