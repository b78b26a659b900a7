//! Booleans, integers, characters, texts and handles from JSON.

#![tactic(auto, using(wit_types::proofs::ValueLemmas::values, crate::proofs::Views::untypeds))]

ghost use Rattle.std.specs.Prelude.{pos, ◌^◌};
ghost use Rattle.serde_json.specs.View.{view};
ghost use Rattle.wit_types.specs.PlainValue.{plain_value, IntValue};
ghost use Rattle.host_port.specs.Untyped.{truth_in, integer_in, char_in, text_in, handle_in};
ghost use Rattle.host_script.specs.Json.{untyped};
ghost use Rattle.host_script.specs.Reads.{Gives};

use crate::values_fault::ReadValueFault;
use serde_json::Value as Json;
use virt_base::Text;
use wit_types::Value;

pub fn truth_in(json: &Json) -> Result<Value, ReadValueFault>
    ensures { Gives plain_value (truth_in (untyped (view json.now))) result }
{
    match json {
        Json::Bool(truth) => Ok(Value::Bool(*truth)),
        Json::Null | Json::Number(_) | Json::String(_) | Json::Array(_) | Json::Object(_) => Err(
            ReadValueFault::NotOfType,
        ),
    }
}

/// An integer from low to end - 1.
pub fn integer_in(json: &Json, low: i128, end: i128) -> Result<Value, ReadValueFault>
    ensures { Gives plain_value (integer_in low end (untyped (view json.now))) result }
{
    match json {
        Json::Number(number) => match number.as_i128() {
            Some(n) if low <= n && n < end => Ok(Value::Int(n)),
            Some(_) | None => Err(ReadValueFault::NotOfType),
        },
        Json::Null | Json::Bool(_) | Json::String(_) | Json::Array(_) | Json::Object(_) => Err(
            ReadValueFault::NotOfType,
        ),
    }
}

pub fn byte_in(json: &Json) -> Result<u8, ReadValueFault>
    ensures { Gives (λ b. IntValue (pos b)) (integer_in (pos 0) (pos (2 ^ 8)) (untyped (view json.now))) result }
{
    match json {
        Json::Number(number) => match number.as_u64() {
            Some(n) if n < 256 => Ok(n as u8),
            Some(_) | None => Err(ReadValueFault::NotOfType),
        },
        Json::Null | Json::Bool(_) | Json::String(_) | Json::Array(_) | Json::Object(_) => Err(
            ReadValueFault::NotOfType,
        ),
    }
}

pub fn char_in(json: &Json) -> Result<Value, ReadValueFault>
    ensures { Gives plain_value (char_in (untyped (view json.now))) result }
{
    match json {
        Json::String(text) => match text.as_str().parse::<char>() {
            Ok(c) => Ok(Value::Char(c)),
            Err(_) => Err(ReadValueFault::NotOfType),
        },
        Json::Null | Json::Bool(_) | Json::Number(_) | Json::Array(_) | Json::Object(_) => Err(
            ReadValueFault::NotOfType,
        ),
    }
}

pub fn text_in(json: Json) -> Result<Value, ReadValueFault>
    ensures { Gives plain_value (text_in (untyped (view json))) result }
{
    match json {
        Json::String(text) => Ok(Value::Str(Text::from_string(text))),
        Json::Null | Json::Bool(_) | Json::Number(_) | Json::Array(_) | Json::Object(_) => Err(
            ReadValueFault::NotOfType,
        ),
    }
}

/// A handle is its number.
pub fn handle_in(json: &Json) -> Result<Value, ReadValueFault>
    ensures { Gives plain_value (handle_in (untyped (view json.now))) result }
{
    match json {
        Json::Number(number) => match number.as_u64() {
            Some(n) if n < 0x1_0000_0000 => Ok(Value::Handle(n as u32)),
            Some(_) | None => Err(ReadValueFault::NotOfType),
        },
        Json::Null | Json::Bool(_) | Json::String(_) | Json::Array(_) | Json::Object(_) => Err(
            ReadValueFault::NotOfType,
        ),
    }
}
