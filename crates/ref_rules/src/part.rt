//! Parts of arguments, by their places.

#![tactic(auto, using(wit_types::proofs::ValueLemmas::values, crate::proofs::PartLemmas::nth_there, crate::proofs::PartLemmas::nth_missing, crate::proofs::PartLemmas::byte_there, crate::proofs::PartLemmas::byte_missing))]

// Parts of arguments, by their places.
ghost use Rattle.std.specs.Prelude.{◌≡◌};
ghost use Rattle.wit_types.specs.PlainValue.{plain_value, plain_values};
ghost use Rattle.reference_step.specs.Values.{nth, number_in, text_in, bits_in, id_in};
ghost use Rattle.ref_rules.specs.Parts.{shown};

use wit_types::{Value, Values};

/// A value among others. One in a run of bytes is a number, and where there is none, it is none of an option.
#[derive(Clone, Copy)]
pub enum Part<'a> {
    Value(&'a Value),
    Byte(u8),
    Missing,
}

/// The value at a place, from 0.
pub fn part_at(values: &Values, place: usize) -> Part<'_>
    ensures { shown result ≡ nth place (plain_values values.now) }
{
    match values {
        Values::Each(items) => {
            if place < items.len() {
                Part::Value(&items[place])
            } else {
                Part::Missing
            }
        }
        Values::Bytes(bytes) => {
            let bytes = bytes.as_slice();
            if place < bytes.len() {
                Part::Byte(bytes[place])
            } else {
                Part::Missing
            }
        }
    }
}

fn number_in(value: &Value) -> u128
    ensures { result ≡ number_in (plain_value value.now) }
{
    match value {
        Value::Int(n) => n.unsigned_abs(),
        Value::Bool(_)
        | Value::Char(_)
        | Value::Str(_)
        | Value::List(_)
        | Value::Record(_)
        | Value::Variant(_, _)
        | Value::Flags(_)
        | Value::Handle(_) => 0,
    }
}

/// The number that a part is; 0 of another.
pub fn number_of(part: Part<'_>) -> u128
    ensures { result ≡ number_in (shown part.entry) }
{
    match part {
        Part::Value(value) => number_in(value),
        Part::Byte(byte) => u128::from(byte),
        Part::Missing => 0,
    }
}

fn text_in(value: &Value) -> &[u8]
    ensures { result.now ≡ text_in (plain_value value.now) }
{
    match value {
        Value::Str(text) => text.bytes(),
        Value::Bool(_)
        | Value::Int(_)
        | Value::Char(_)
        | Value::List(_)
        | Value::Record(_)
        | Value::Variant(_, _)
        | Value::Flags(_)
        | Value::Handle(_) => &[],
    }
}

/// The bytes of the text that a part is; none of another.
pub fn text_of<'a>(part: Part<'a>) -> &'a [u8]
    ensures { result.now ≡ text_in (shown part.entry) }
{
    match part {
        Part::Value(value) => text_in(value),
        Part::Byte(_) => &[],
        Part::Missing => &[],
    }
}

fn bits_in(value: &Value) -> u32
    ensures { result ≡ bits_in (plain_value value.now) }
{
    match value {
        Value::Flags(bits) => *bits,
        Value::Bool(_)
        | Value::Int(_)
        | Value::Char(_)
        | Value::Str(_)
        | Value::List(_)
        | Value::Record(_)
        | Value::Variant(_, _)
        | Value::Handle(_) => 0,
    }
}

/// The flags that a part is; none of another.
pub fn bits_of(part: Part<'_>) -> u32
    ensures { result ≡ bits_in (shown part.entry) }
{
    match part {
        Part::Value(value) => bits_in(value),
        Part::Byte(_) => 0,
        Part::Missing => 0,
    }
}

fn id_in(value: &Value) -> u32
    ensures { result ≡ id_in (plain_value value.now) }
{
    match value {
        Value::Handle(id) => *id,
        Value::Bool(_)
        | Value::Int(_)
        | Value::Char(_)
        | Value::Str(_)
        | Value::List(_)
        | Value::Record(_)
        | Value::Variant(_, _)
        | Value::Flags(_) => 0,
    }
}

/// The number of the handle that a part is; 0 of another.
pub fn id_of(part: Part<'_>) -> u32
    ensures { result ≡ id_in (shown part.entry) }
{
    match part {
        Part::Value(value) => id_in(value),
        Part::Byte(_) => 0,
        Part::Missing => 0,
    }
}
