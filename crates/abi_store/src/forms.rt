//! Values are taken apart by the form that their type has: the text, list, record or variant that a value is.

#![tactic(auto, using(crate::proofs::Views::views))]

ghost use Rattle.std.specs.Prelude.{◌≡◌, IfOk, IfSome, IfNone, pos, reverse};
ghost use Rattle.wit_types.specs.PlainValue.{IntValue, StringValue, ListValue, RecordValue, VariantValue, plain_value, plain_values, values_of, byte_values, payload_of};
ghost use Rattle.abi_layout.specs.Storing.{count_values};
ghost use Rattle.abi_store.specs.Forms.{IsNoString, IsNoList, IsNoRecord, IsNoVariant};

use std::alloc::Global;
use virt_base::{NoMemory, Text};
use wit_types::{Value, Values};

pub fn text_in(value: Value) -> Option<Text>
    ensures some { IfSome result (λ t. plain_value value ≡ StringValue t) }
    ensures none { IfNone result (IsNoString (plain_value value)) }
{
    match value {
        Value::Str(text) => Some(text),
        Value::Bool(_) | Value::Int(_) | Value::Char(_) | Value::Flags(_) | Value::Handle(_) =>
            None,
        Value::List(_) | Value::Record(_) | Value::Variant(_, _) => None,
    }
}

pub fn list_in(value: Value) -> Option<Values>
    ensures some { IfSome result (λ vs. plain_value value ≡ ListValue (plain_values vs)) }
    ensures none { IfNone result (IsNoList (plain_value value)) }
{
    match value {
        Value::List(values) => Some(values),
        Value::Bool(_) | Value::Int(_) | Value::Char(_) | Value::Flags(_) | Value::Handle(_) =>
            None,
        Value::Str(_) | Value::Record(_) | Value::Variant(_, _) => None,
    }
}

pub fn record_in(value: Value) -> Option<Values>
    ensures some { IfSome result (λ vs. plain_value value ≡ RecordValue (plain_values vs)) }
    ensures none { IfNone result (IsNoRecord (plain_value value)) }
{
    match value {
        Value::Record(values) => Some(values),
        Value::Bool(_) | Value::Int(_) | Value::Char(_) | Value::Flags(_) | Value::Handle(_) =>
            None,
        Value::Str(_) | Value::List(_) | Value::Variant(_, _) => None,
    }
}

/// The number of a variant's case, and its payload.
pub fn variant_in(value: Value) -> Option<(u32, Option<Box<Value>>)>
    ensures some { IfSome result (λ v. plain_value value ≡ VariantValue v.0 (payload_of v.1)) }
    ensures none { IfNone result (IsNoVariant (plain_value value)) }
{
    match value {
        Value::Variant(number, payload) => Some((number, payload)),
        Value::Bool(_) | Value::Int(_) | Value::Char(_) | Value::Flags(_) | Value::Handle(_) =>
            None,
        Value::Str(_) | Value::List(_) | Value::Record(_) => None,
    }
}

pub fn count(values: &Values) -> usize
    ensures { result ≡ count_values (plain_values values.now) }
{
    match values {
        Values::Each(values) => values.len(),
        Values::Bytes(bytes) => bytes.len(),
    }
}

fn integer(byte: u8) -> Value
    ensures { plain_value result ≡ IntValue (pos byte) }
{
    Value::Int(byte as i128)
}

/// Integers that are bytes, each as a value.
fn integers(alloc: Global, bytes: &[u8]) -> Result<Vec<Value>, NoMemory>
    ensures { IfOk result (λ vs. values_of vs.items ≡ byte_values bytes.now) }
{
    let mut values = Vec::new(alloc);
    for byte in bytes {
        values.push(integer(*byte))?;
    }
    Ok(values)
}

fn each_of(alloc: Global, values: Values) -> Result<Vec<Value>, NoMemory>
    ensures { IfOk result (λ vs. values_of vs.items ≡ plain_values values) }
{
    match values {
        Values::Each(values) => Ok(values),
        Values::Bytes(bytes) => integers(alloc, bytes.as_slice()),
    }
}

/// The values, the last one first, so that each is taken off the end in its turn.
pub fn backwards(alloc: Global, values: Values) -> Result<Vec<Value>, NoMemory>
    ensures { IfOk result (λ vs. values_of (reverse vs.items) ≡ plain_values values) }
{
    let mut each = each_of(alloc, values)?;
    each.reverse();
    Ok(each)
}
