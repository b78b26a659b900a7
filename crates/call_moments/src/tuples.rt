//! Parameters and results as tuples, which are the values that pass between instances.

#![tactic(auto, using(wit_types::proofs::ValueLemmas::values, crate::proofs::Firsts::firsts))]

ghost use Rattle.std.specs.Prelude.{◌≡◌, IfOk, pos};
ghost use Rattle.wit_types.specs.PlainValue.{plain_value, plain_values, values_of as row_of, byte_values, IntValue};
ghost use Rattle.host_port.specs.Calls.{plain_option};
ghost use Rattle.comp_worlds.specs.Passing.{in_tuple as tuple_of, values_in as values_of, first_in as first_of, out_of_tuple as value_of};

use std::alloc::Global;
use virt_base::NoMemory;
use wit_types::{Value, Values};

/// The values of a tuple.
pub fn values_in(alloc: Global, value: Value) -> Values
    ensures { plain_values result ≡ values_of (plain_value value) }
{
    match value {
        Value::Record(values) => values,
        Value::Bool(_) | Value::Int(_) | Value::Char(_) => Values::Each(Vec::new(alloc)),
        Value::Str(_) | Value::List(_) | Value::Variant(_, _) => Values::Each(Vec::new(alloc)),
        Value::Flags(_) | Value::Handle(_) => Values::Each(Vec::new(alloc)),
    }
}

/// A tuple of the value, if there is one.
pub fn in_tuple(alloc: Global, value: Option<Value>) -> Result<Value, NoMemory>
    ensures { IfOk result (λ tuple. plain_value tuple ≡ tuple_of (plain_option value)) }
{
    let mut values = Vec::new(alloc);
    if let Some(value) = value {
        values.push(value)?;
    }
    Ok(Value::Record(Values::Each(values)))
}

fn first_of_row(mut values: Vec<Value>) -> Option<Value>
    ensures { plain_option result ≡ first_of (row_of values.items) }
{
    if values.is_empty() {
        return None;
    }
    Some(values.swap_remove(0))
}

/// A byte as an integer.
fn byte_value(byte: u8) -> Value
    ensures { plain_value result ≡ IntValue (pos byte) }
{
    Value::Int(i128::from(byte))
}

fn first_of_bytes(bytes: &[u8]) -> Option<Value>
    ensures { plain_option result ≡ first_of (byte_values bytes.now) }
{
    Some(byte_value(*bytes.first()?))
}

fn first_in(values: Values) -> Option<Value>
    ensures { plain_option result ≡ first_of (plain_values values) }
{
    match values {
        Values::Each(values) => first_of_row(values),
        Values::Bytes(bytes) => first_of_bytes(bytes.as_slice()),
    }
}

/// The first value of a tuple, if it has one.
pub fn out_of_tuple(value: Value) -> Option<Value>
    ensures { plain_option result ≡ value_of (plain_value value) }
{
    match value {
        Value::Record(values) => first_in(values),
        Value::Bool(_) | Value::Int(_) | Value::Char(_) => None,
        Value::Str(_) | Value::List(_) | Value::Variant(_, _) => None,
        Value::Flags(_) | Value::Handle(_) => None,
    }
}
