//! The family, the numbers and the port of a value of the type `ip-socket-address` (WASI 0.2, `wasi:sockets/network`).

#![tactic(auto, using(wit_types::proofs::ValueLemmas::values, crate::proofs::FieldLemmas::field_there, crate::proofs::FieldLemmas::field_missing, crate::proofs::FieldLemmas::byte_there, crate::proofs::FieldLemmas::byte_missing, crate::proofs::FieldLemmas::no_record))]

ghost use Rattle.std.specs.Prelude.{◌≡◌, Bool};
ghost use Rattle.wit_types.specs.PlainValue.{plain_value, payload_of, End};
ghost use Rattle.net_policy.specs.Allowed.{address_in, address_of, address_by, all_numbers, numbers_in, number_in, fields_in, field_at, record_values};
ghost use Rattle.net_policy.specs.Seen.{seen};

use crate::network::number_in;
use wit_types::{Value, Values};

/// An address of IPv4 or IPv6, with its numbers where they stand in a value; none where it has no numbers.
#[derive(Clone, Copy)]
pub struct Address<'a> {
    pub six: bool,
    pub numbers: Option<&'a Values>,
    pub port: u128,
}

/// The fields of a payload; none of what has no fields.
fn fields_in(payload: &Option<Box<Value>>) -> Option<&Values>
    ensures { seen result ≡ fields_in (payload_of payload.now) }
{
    match payload {
        Some(value) => values_in(value),
        None => None,
    }
}

/// The values of a record; none of another value.
fn values_in(value: &Value) -> Option<&Values>
    ensures { seen result ≡ record_values (plain_value value.now) }
{
    match value {
        Value::Record(values) => Some(values),
        Value::Bool(_)
        | Value::Int(_)
        | Value::Char(_)
        | Value::Str(_)
        | Value::List(_)
        | Value::Variant(_, _)
        | Value::Flags(_)
        | Value::Handle(_) => None,
    }
}

/// The numbers in the field at a place; a byte holds none.
fn numbers_at(fields: Option<&Values>, place: usize) -> Option<&Values>
    ensures { all_numbers (seen result) ≡ numbers_in (field_at place (seen fields.entry)) }
{
    match fields? {
        Values::Each(items) => {
            if place < items.len() {
                values_in(&items[place])
            } else {
                None
            }
        }
        Values::Bytes(_) => None,
    }
}

fn number_at(fields: Option<&Values>, place: usize) -> u128
    ensures { result ≡ number_in (field_at place (seen fields.entry)) }
{
    match fields {
        None => 0,
        Some(Values::Each(items)) => {
            if place < items.len() {
                number_in(&items[place])
            } else {
                0
            }
        }
        Some(Values::Bytes(bytes)) => {
            let bytes = bytes.as_slice();
            if place < bytes.len() {
                u128::from(bytes[place])
            } else {
                0
            }
        }
    }
}

/// The address that a value of the type `ip-socket-address` is.
pub fn address_in(value: &Value) -> Address<'_>
    ensures { address_of result.six (seen result.numbers) result.port ≡ address_in (plain_value value.now) }
{
    match value {
        Value::Variant(family, payload) => {
            let fields = fields_in(payload);
            let six = *family != 0;
            let place = if six { 2 } else { 1 };
            Address {
                six,
                numbers: numbers_at(fields, place),
                port: number_at(fields, 0),
            }
        }
        Value::Bool(_)
        | Value::Int(_)
        | Value::Char(_)
        | Value::Str(_)
        | Value::List(_)
        | Value::Record(_)
        | Value::Flags(_)
        | Value::Handle(_) => Address {
            six: false,
            numbers: None,
            port: 0,
        },
    }
}
