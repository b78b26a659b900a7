//! Values of the interface language (WIT) as rows write them: numbers, labels, texts, options, results, lists and records.

#![tactic(auto, using(wit_types::proofs::ValueLemmas::values, crate::proofs::ValueLemmas::byte_numbers, crate::proofs::ValueLemmas::values_listed))]

ghost use Rattle.std.specs.Prelude.{◌≡◌, [], ◌∷◌, IfOk, map};
ghost use Rattle.wit_types.specs.PlainValue.{plain_value, StringValue};
ghost use Rattle.reference_step.specs.Values as made;

use std::alloc::Global;
use virt_base::{Items, NoMemory, Text};
use wit_types::{Value, Values};

pub fn number(n: u64) -> Value
    ensures { plain_value result ≡ made.number n }
{
    Value::Int(i128::from(n))
}

/// A case without payload, as the label of an enum.
pub fn label(case: u32) -> Value
    ensures { plain_value result ≡ made.label case }
{
    Value::Variant(case, None)
}

/// None of an option.
pub fn none() -> Value
    ensures { plain_value result ≡ made.none }
{
    Value::Variant(0, None)
}

/// A result without a value.
pub fn done() -> Value
    ensures { plain_value result ≡ made.done }
{
    Value::Variant(0, None)
}

pub fn some(alloc: Global, value: Value) -> Result<Value, NoMemory>
    ensures { IfOk result (λ v. plain_value v ≡ made.some (plain_value value)) }
{
    Ok(Value::Variant(1, Some(Box::new(alloc, value)?)))
}

pub fn ok(alloc: Global, value: Value) -> Result<Value, NoMemory>
    ensures { IfOk result (λ v. plain_value v ≡ made.ok (plain_value value)) }
{
    Ok(Value::Variant(0, Some(Box::new(alloc, value)?)))
}

pub fn error(alloc: Global, value: Value) -> Result<Value, NoMemory>
    ensures { IfOk result (λ v. plain_value v ≡ made.error (plain_value value)) }
{
    Ok(Value::Variant(1, Some(Box::new(alloc, value)?)))
}

/// An error code of filesystem or sockets.
pub fn error_code(alloc: Global, code: u32) -> Result<Value, NoMemory>
    ensures { IfOk result (λ v. plain_value v ≡ made.error_code code) }
{
    error(alloc, label(code))
}

/// `closed` of `wasi:io/streams`.
pub fn closed(alloc: Global) -> Result<Value, NoMemory>
    ensures { IfOk result (λ v. plain_value v ≡ made.closed) }
{
    error(alloc, label(1))
}

/// A text's own value.
pub fn text(alloc: Global, text: &Text) -> Result<Value, NoMemory>
    ensures { IfOk result (λ v. plain_value v ≡ StringValue text.now) }
{
    Ok(Value::Str(text.copy(alloc)?))
}

/// A record of two fields.
pub fn pair(alloc: Global, first: Value, second: Value) -> Result<Value, NoMemory>
    ensures { IfOk result (λ v. plain_value v ≡ made.record_of (plain_value first ∷ plain_value second ∷ [])) }
{
    let mut fields = Vec::with_capacity(alloc, 2)?;
    fields.push_reserved(first);
    fields.push_reserved(second);
    Ok(Value::Record(Values::Each(fields)))
}

/// A list of bytes.
pub fn bytes(bytes: Vec<u8>) -> Value
    ensures { plain_value result ≡ made.numbers bytes.items }
{
    Value::List(Values::Bytes(Items::new(bytes)))
}

/// A list of values.
pub fn list(values: Vec<Value>) -> Value
    ensures { plain_value result ≡ made.list (map plain_value values.items) }
{
    Value::List(Values::Each(values))
}

/// A record of these fields.
pub fn record(fields: Vec<Value>) -> Value
    ensures { plain_value result ≡ made.record_of (map plain_value fields.items) }
{
    Value::Record(Values::Each(fields))
}
