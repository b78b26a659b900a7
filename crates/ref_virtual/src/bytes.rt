//! The bytes of an argument, which is a list of numbers or a run of bytes.

#![tactic(auto, using(wit_types::proofs::ValueLemmas::values, crate::proofs::ByteLemmas::each_number, crate::proofs::ByteLemmas::byte_number))]

ghost use Rattle.std.specs.Prelude.{◌≡◌, ◌<◌, All, IfOk, map};
ghost use Rattle.wit_types.specs.PlainValue.{plain_value, plain_values};
ghost use Rattle.reference_step.specs.Values.{number_in, numbers_of, numbers_in, items, nth};
ghost use Rattle.ref_rules.specs.Parts.{shown};
ghost use Rattle.ref_virtual.specs.Known.{AreBytes};

use ref_rules::{Part, number_of, part_at};
use std::alloc::Global;
use virt_base::NoMemory;
use wit_types::{Value, Values};

/// The byte that a value is.
fn byte_in(value: &Value) -> u8
    requires { number_in (plain_value value.now) < 256 }
    ensures { result ≡ number_in (plain_value value.now) }
{
    number_of(Part::Value(value)) as u8
}

fn bytes_of(alloc: Global, values: &[Value]) -> Result<Vec<u8>, NoMemory>
    requires { All (λ v. number_in (plain_value v) < 256) values.now }
    ensures { IfOk result (λ bytes. bytes.items ≡ map (λ v. number_in (plain_value v)) values.now) }
{
    let mut bytes = Vec::new(alloc);
    for value in values {
        bytes.push(byte_in(value))?;
    }
    Ok(bytes)
}

fn bytes_among(alloc: Global, values: &Values) -> Result<Vec<u8>, NoMemory>
    requires { All (λ n. n < 256) (numbers_of (items (plain_values values.now))) }
    ensures { IfOk result (λ bytes. bytes.items ≡ numbers_of (items (plain_values values.now))) }
{
    match values {
        Values::Each(values) => bytes_of(alloc, values.as_slice()),
        Values::Bytes(bytes) => Ok(Vec::from_slice(alloc, bytes.as_slice())?),
    }
}

fn bytes_in(alloc: Global, value: &Value) -> Result<Vec<u8>, NoMemory>
    requires { All (λ n. n < 256) (numbers_in (plain_value value.now)) }
    ensures { IfOk result (λ bytes. bytes.items ≡ numbers_in (plain_value value.now)) }
{
    match value {
        Value::List(values) => bytes_among(alloc, values),
        Value::Bool(_)
        | Value::Int(_)
        | Value::Char(_)
        | Value::Str(_)
        | Value::Record(_)
        | Value::Variant(_, _)
        | Value::Flags(_)
        | Value::Handle(_) => Ok(Vec::new(alloc)),
    }
}

fn bytes_in_part(alloc: Global, part: Part<'_>) -> Result<Vec<u8>, NoMemory>
    requires { All (λ n. n < 256) (numbers_in (shown part)) }
    ensures { IfOk result (λ bytes. bytes.items ≡ numbers_in (shown part.entry)) }
{
    match part {
        Part::Value(value) => bytes_in(alloc, value),
        Part::Byte(_) => Ok(Vec::new(alloc)),
        Part::Missing => Ok(Vec::new(alloc)),
    }
}

/// The bytes that the second argument is; none of another value.
pub fn written_bytes(alloc: Global, args: &Values) -> Result<Vec<u8>, NoMemory>
    requires { AreBytes (plain_values args.now) }
    ensures { IfOk result (λ bytes. bytes.items ≡ numbers_in (nth 1 (plain_values args.now))) }
{
    bytes_in_part(alloc, part_at(args, 1))
}
