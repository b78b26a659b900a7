//! Arguments by their places, from 0.

#![tactic(auto, using(wit_types::proofs::ValueLemmas::values))]

ghost use Rattle.std.specs.Prelude.{◌≡◌, ◌<◌, ◌^◌};
ghost use Rattle.wit_types.specs.PlainValue.{plain_value, plain_values};
ghost use Rattle.reference_step.specs.Values.{nth, number_in, text_in, bits_in, id_in};
ghost use Rattle.ref_rules.specs.Parts.{shown};
ghost use Rattle.ref_virtual.specs.Held.{content_held};

use ref_rules::{Content, LiveHandles, Part, bits_of, id_of, number_of, part_at, text_of};
use wit_types::{Value, Values};

/// The number at a place; 0 where another value stands.
pub fn number_at(args: &Values, place: usize) -> u64
    requires { number_in (nth place (plain_values args.now)) < 2 ^ 64 }
    ensures { result ≡ number_in (nth place (plain_values args.now)) }
{
    number_of(part_at(args, place)) as u64
}

/// The flags at a place; none where another value stands.
pub fn flags_at(args: &Values, place: usize) -> u32
    ensures { result ≡ bits_in (nth place (plain_values args.now)) }
{
    bits_of(part_at(args, place))
}

/// The bytes of the text at a place; none where another value stands.
pub fn bytes_at(args: &Values, place: usize) -> &[u8]
    ensures { result.now ≡ text_in (nth place (plain_values args.now)) }
{
    text_of(part_at(args, place))
}

fn text_in(value: &Value) -> &str
    ensures { result.now ≡ text_in (plain_value value.now) }
{
    match value {
        Value::Str(text) => text.as_str(),
        Value::Bool(_)
        | Value::Int(_)
        | Value::Char(_)
        | Value::List(_)
        | Value::Record(_)
        | Value::Variant(_, _)
        | Value::Flags(_)
        | Value::Handle(_) => "",
    }
}

fn str_of<'a>(part: Part<'a>) -> &'a str
    ensures { result.now ≡ text_in (shown part.entry) }
{
    match part {
        Part::Value(value) => text_in(value),
        Part::Byte(_) => "",
        Part::Missing => "",
    }
}

/// The text at a place; an empty one where another value stands.
pub fn text_at(args: &Values, place: usize) -> &str
    ensures { result.now ≡ text_in (nth place (plain_values args.now)) }
{
    str_of(part_at(args, place))
}

fn content_of(live: &LiveHandles, id: u32) -> Content
    ensures { result ≡ content_held live.now.handles id }
{
    match live.find(id) {
        Some(handle) => handle.content,
        None => Content::Always,
    }
}

/// What the handle at a place stands for; of one that is not live, a pollable that is ready.
pub fn content_at(live: &LiveHandles, args: &Values, place: usize) -> Content
    ensures { result ≡ content_held live.now.handles (id_in (nth place (plain_values args.now))) }
{
    content_of(live, id_of(part_at(args, place)))
}
