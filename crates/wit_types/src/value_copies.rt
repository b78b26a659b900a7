//! Copies of values, with memory of their own.

#![tactic(auto, using(crate::proofs::ValueLemmas::values))]

ghost use Rattle.std.specs.Prelude.{◌≡◌, IfOk};
ghost use Rattle.wit_types.specs.PlainValue.{plain_value, plain_values, values_of, payload_of};

use crate::value::{Value, Values};
use std::alloc::Global;
use virt_base::{NoMemory, copy_bytes};

#[cycle(copy_value)]
fn copy_payload(alloc: Global, payload: &Option<Box<Value>>) -> Result<Option<Box<Value>>, NoMemory>
    ensures { IfOk result (λ copy. payload_of copy ≡ payload_of payload.now) }
{
    match payload {
        None => Ok(None),
        Some(value) => Ok(Some(Box::new(alloc, copy_value(alloc, value)?)?)),
    }
}

#[cycle(copy_value)]
fn copy_each(alloc: Global, values: &[Value]) -> Result<Vec<Value>, NoMemory>
    ensures { IfOk result (λ copies. values_of copies.items ≡ values_of values.now) }
{
    let mut items = Vec::with_capacity(alloc, values.len())?;
    for value in values {
        items.push(copy_value(alloc, value)?)?;
    }
    Ok(items)
}

/// Equal values.
#[cycle(copy_value)]
pub fn copy_values(alloc: Global, values: &Values) -> Result<Values, NoMemory>
    ensures { IfOk result (λ copy. plain_values copy ≡ plain_values values.now) }
{
    match values {
        Values::Each(items) => Ok(Values::Each(copy_each(alloc, items)?)),
        Values::Bytes(bytes) => Ok(Values::Bytes(copy_bytes(alloc, bytes.as_slice())?)),
    }
}

/// An equal value.
#[cycle(copy_value)]
pub fn copy_value(alloc: Global, value: &Value) -> Result<Value, NoMemory>
    ensures { IfOk result (λ copy. plain_value copy ≡ plain_value value.now) }
{
    match value {
        Value::Bool(b) => Ok(Value::Bool(*b)),
        Value::Int(n) => Ok(Value::Int(*n)),
        Value::Char(c) => Ok(Value::Char(*c)),
        Value::Str(text) => Ok(Value::Str(text.copy(alloc)?)),
        Value::List(values) => Ok(Value::List(copy_values(alloc, values)?)),
        Value::Record(values) => Ok(Value::Record(copy_values(alloc, values)?)),
        Value::Variant(number, payload) => {
            Ok(Value::Variant(*number, copy_payload(alloc, payload)?))
        }
        Value::Flags(bits) => Ok(Value::Flags(*bits)),
        Value::Handle(index) => Ok(Value::Handle(*index)),
    }
}
