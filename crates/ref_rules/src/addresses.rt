//! Which calls the rules on addresses refuse: those of functions of `wasi:sockets` (WASI 0.2) whose arguments hold an address, and those
//! that resolve names.

#![tactic(auto, using(wit_types::proofs::ValueLemmas::values, crate::proofs::AddressLemmas::no_datagrams))]

ghost use Rattle.std.specs.Prelude.{◌≡◌};
ghost use Rattle.wit_types.specs.PlainValue.{plain_value, plain_values, payload_of, values_of, byte_values, PlainValue};
ghost use Rattle.reference_step.specs.Values.{none, nth, list_in, items, fields_in, some_in, payload_in};
ghost use Rattle.reference_step.specs.Refused.{by_rules, refuses, refuses_some, refuses_any, refused_by, refused};
ghost use Rattle.ref_rules.specs.Parts.{shown};

use crate::part::{Part, part_at};
use net_policy::allows;
use policy_data::{NetRules, Policy, Rules, Sockets};
use wit_types::{Value, Values};

/// What stands where there is no value.
fn no_value() -> Value
    ensures { plain_value result ≡ none }
{
    Value::Variant(0, None)
}

fn refuses(rules: &Rules, part: Part<'_>) -> bool
    ensures { result ≡ refuses rules.now (shown part.entry) }
{
    match part {
        Part::Value(value) => !allows(rules, value),
        Part::Byte(byte) => !allows(rules, &Value::Int(i128::from(byte))),
        Part::Missing => !allows(rules, &no_value()),
    }
}

/// The same of an address that may be missing.
fn refuses_some(rules: &Rules, part: Part<'_>) -> bool
    ensures { result ≡ refuses_some rules.now (some_in (shown part.entry)) }
{
    match part {
        Part::Value(value) => refuses_payload(rules, value),
        Part::Byte(_) => false,
        Part::Missing => false,
    }
}

fn refuses_payload(rules: &Rules, value: &Value) -> bool
    ensures { result ≡ refuses_some rules.now (some_in (plain_value value.now)) }
{
    match value {
        Value::Variant(_, payload) => match payload {
            Some(address) => !allows(rules, address),
            None => false,
        },
        Value::Bool(_)
        | Value::Int(_)
        | Value::Char(_)
        | Value::Str(_)
        | Value::List(_)
        | Value::Record(_)
        | Value::Flags(_)
        | Value::Handle(_) => false,
    }
}

/// Whether the remote address of a datagram is refused.
fn refuses_datagram(rules: &Rules, value: &Value) -> bool
    ensures { result ≡ refuses_some rules.now (some_in (nth 1 (fields_in (plain_value value.now)))) }
{
    match value {
        Value::Record(values) => refuses_some(rules, part_at(values, 1)),
        Value::Bool(_)
        | Value::Int(_)
        | Value::Char(_)
        | Value::Str(_)
        | Value::List(_)
        | Value::Variant(_, _)
        | Value::Flags(_)
        | Value::Handle(_) => false,
    }
}

fn refuses_each(rules: &Rules, datagrams: &[Value]) -> bool
    ensures { result ≡ refuses_any rules.now (items (values_of datagrams.now)) }
{
    for datagram in datagrams {
        if refuses_datagram(rules, datagram) {
            return true;
        }
    }
    false
}

fn refuses_listed(rules: &Rules, values: &Values) -> bool
    ensures { result ≡ refuses_any rules.now (items (plain_values values.now)) }
{
    match values {
        Values::Each(datagrams) => refuses_each(rules, datagrams),
        Values::Bytes(_) => false,
    }
}

/// Whether the remote address of some datagram is refused.
fn refuses_any(rules: &Rules, value: &Value) -> bool
    ensures { result ≡ refuses_any rules.now (list_in (plain_value value.now)) }
{
    match value {
        Value::List(values) => refuses_listed(rules, values),
        Value::Bool(_)
        | Value::Int(_)
        | Value::Char(_)
        | Value::Str(_)
        | Value::Record(_)
        | Value::Variant(_, _)
        | Value::Flags(_)
        | Value::Handle(_) => false,
    }
}

fn refuses_datagrams(rules: &Rules, part: Part<'_>) -> bool
    ensures { result ≡ refuses_any rules.now (list_in (shown part.entry)) }
{
    match part {
        Part::Value(value) => refuses_any(rules, value),
        Part::Byte(_) => false,
        Part::Missing => false,
    }
}

fn refused_by(net: &NetRules, function: &str, args: &Values) -> bool
    ensures { result ≡ refused_by net.now function.now (plain_values args.now) }
{
    if function == "[method]tcp-socket.start-connect" {
        refuses(&net.connect, part_at(args, 2))
    } else if function == "[method]tcp-socket.start-bind" {
        refuses(&net.bind, part_at(args, 2))
    } else if function == "[method]udp-socket.start-bind" {
        refuses(&net.bind, part_at(args, 2))
    } else if function == "[method]udp-socket.stream" {
        refuses_some(&net.connect, part_at(args, 1))
    } else if function == "[method]outgoing-datagram-stream.send" {
        refuses_datagrams(&net.connect, part_at(args, 1))
    } else if function == "resolve-addresses" {
        !net.names
    } else {
        false
    }
}

/// Whether the rules on addresses refuse a call, where sockets go by rules. It takes no memory.
pub fn refused(policy: &Policy, function: &str, args: &Values) -> bool
    ensures { result ≡ refused policy.now function.now (plain_values args.now) }
{
    match policy.sockets {
        Sockets::Rules => refused_by(&policy.net, function, args),
        Sockets::Allow => false,
        Sockets::Deny => false,
    }
}
