//! Whether there is an argument for each parameter, of its type.

#![tactic(auto, using(wit_types::proofs::ValueLemmas::values))]

ghost use Rattle.std.specs.Prelude.{◌≡◌, pos};
ghost use Rattle.wit_types.specs.Plain.{plain, fields_of};
ghost use Rattle.wit_types.specs.PlainValue.{IntValue, plain_values, values_of, byte_values};
ghost use Rattle.wit_types.specs.HasType.{is_of, are_of};
ghost use Rattle.host_port.specs.Calls.{fields_in};

use wit_types::{Field, Fields, Value, Values, WitType, has_type};

fn are_each_of(values: &[Value], params: &[Field]) -> bool
    ensures { result ≡ are_of (fields_of params.now) (values_of values.now) }
{
    if values.len() != params.len() {
        return false;
    }
    for i in 0..params.len() {
        if !has_type(&values[i], &params[i].ty) {
            return false;
        }
    }
    true
}

/// Whether a byte as an integer has the type.
fn is_byte_of(byte: u8, ty: &WitType) -> bool
    ensures { result ≡ is_of (plain ty.now) (IntValue (pos byte)) }
{
    has_type(&Value::Int(i128::from(byte)), ty)
}

/// The same of a run of bytes, which are integers.
fn are_bytes_of(bytes: &[u8], params: &[Field]) -> bool
    ensures { result ≡ are_of (fields_of params.now) (byte_values bytes.now) }
{
    if bytes.len() != params.len() {
        return false;
    }
    for i in 0..params.len() {
        if !is_byte_of(bytes[i], &params[i].ty) {
            return false;
        }
    }
    true
}

/// Whether there is an argument for each parameter, of its type. A handle type has every handle.
pub fn are_arguments(args: &Values, params: &Fields) -> bool
    ensures { result ≡ are_of (fields_in params.now) (plain_values args.now) }
{
    match args {
        Values::Each(values) => are_each_of(values, &params.items),
        Values::Bytes(bytes) => are_bytes_of(bytes.as_slice(), &params.items),
    }
}
