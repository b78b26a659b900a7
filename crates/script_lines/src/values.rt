//! What values are read by: how many there are in a list, a byte of a run as an integer, the number of a case.

#![tactic(auto, using(wit_types::proofs::PlainLemmas::plains, wit_types::proofs::ValueLemmas::values, crate::proofs::Views::views, crate::proofs::Places::counts))]

ghost use Rattle.std.specs.Prelude.{◌≡◌, ◌<◌, pos, length};
ghost use Rattle.serde_json.specs.View.{view};
ghost use Rattle.wit_types.specs.Plain.{plain};
ghost use Rattle.wit_types.specs.PlainValue.{plain_value, plain_values, byte_values, IntValue};
ghost use Rattle.script_lines.specs.Shown.{shown};
ghost use Rattle.script_lines.specs.Shows.{case_number, value_at, value_count};

use serde_json::Value as Json;
use wit_types::{Value, Values, WitType};

/// How many values there are.
pub fn count(values: &Values) -> usize
    ensures { result ≡ value_count (plain_values values.now) }
{
    match values {
        Values::Each(items) => items.len(),
        Values::Bytes(bytes) => bytes.len(),
    }
}

/// An integer that is a byte.
pub fn show_byte(ty: &WitType, byte: u8) -> Json
    ensures { view result ≡ shown (plain ty.now) (IntValue (pos byte)) }
{
    match ty {
        WitType::S8 | WitType::S16 | WitType::S32 | WitType::S64 => Json::from(byte),
        WitType::U8 | WitType::U16 | WitType::U32 | WitType::U64 => Json::from(byte),
        WitType::Bool | WitType::Char | WitType::Str | WitType::Flags(_) | WitType::Enum(_) => {
            Json::Null
        }
        WitType::Record(_) | WitType::Tuple(_) | WitType::Variant(_) | WitType::List(_) => {
            Json::Null
        }
        WitType::Option(_) | WitType::Result(_, _) | WitType::Own(_) | WitType::Borrow(_) => {
            Json::Null
        }
    }
}

/// The byte at a place.
pub fn show_nth_byte(ty: &WitType, bytes: &[u8], place: usize) -> Json
    requires { place < length bytes.now }
    ensures { view result ≡ shown (plain ty.now) (value_at place (byte_values bytes.now)) }
{
    show_byte(ty, bytes[place])
}

/// The number of a variant's case.
pub fn case_number(value: &Value) -> Option<u32>
    ensures { result ≡ case_number (plain_value value.now) }
{
    match value {
        Value::Variant(number, _) => Some(*number),
        Value::Bool(_)
        | Value::Int(_)
        | Value::Char(_)
        | Value::Str(_)
        | Value::List(_)
        | Value::Record(_)
        | Value::Flags(_)
        | Value::Handle(_) => None,
    }
}
