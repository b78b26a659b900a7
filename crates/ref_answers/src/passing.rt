//! `wasi:cli/environment` (WASI 0.2), where the policy passes variables of the host: which are kept of those that it answers.

#![tactic(auto, using(wit_types::proofs::ValueLemmas::values, crate::proofs::PassLemmas::passing))]

ghost use Rattle.std.specs.Prelude.{◌≡◌, ◌++◌, pos, IfOk, OnOk, map, filter};
ghost use Rattle.std.specs.List.{list_any};
ghost use Rattle.std.specs.Str.{bytes_eq};
ghost use Rattle.wit_types.specs.PlainValue.{IntValue, plain_value, plain_values, byte_values};
ghost use Rattle.reference_step.specs.Environment.{is_passed, all_variables, set_variables};
ghost use Rattle.reference_step.specs.Values.{items, list_in, fields_in, nth, text_in};
ghost use Rattle.ref_answers.specs.Passed.{name_in, kept};

use crate::environment::variable_values;
use policy_data::{Policy, Variable};
use ref_rules::{part_at, text_of};
use std::alloc::Global;
use virt_base::{NoMemory, Text};
use wit_types::{Value, Values};

fn is_among(names: &[Text], name: &[u8]) -> bool
    ensures { result ≡ list_any (λ allowed. bytes_eq allowed name.now) names.now }
{
    for allowed in names {
        if allowed.bytes() == name {
            return true;
        }
    }
    false
}

fn is_set(variables: &[Variable], name: &[u8]) -> bool
    ensures { result ≡ list_any (λ s. bytes_eq s.name name.now) variables.now }
{
    for variable in variables {
        if variable.name.bytes() == name {
            return true;
        }
    }
    false
}

/// Whether a variable of the host is passed: the policy names it, or passes all, and does not set it.
fn is_passed(policy: &Policy, name: &[u8]) -> bool
    ensures { result ≡ is_passed policy.now name.now }
{
    (policy.env_pass || is_among(policy.env_allow.as_slice(), name))
        && !is_set(policy.env_set.as_slice(), name)
}

/// The name in a pair of a name and a value.
fn name_in(variable: &Value) -> &[u8]
    ensures { result.now ≡ name_in (plain_value variable.now) }
{
    match variable {
        Value::Record(values) => text_of(part_at(values, 0)),
        Value::Bool(_)
        | Value::Int(_)
        | Value::Char(_)
        | Value::Str(_)
        | Value::List(_)
        | Value::Variant(_, _)
        | Value::Flags(_)
        | Value::Handle(_) => &[],
    }
}

/// Adds a variable, if it is passed.
fn keep(policy: &Policy, variable: Value, passed: &mut Vec<Value>) -> Result<(), NoMemory>
    ensures { OnOk result (map plain_value passed.new.items ≡ map plain_value passed.old.items ++ kept policy.now (plain_value variable)) }
{
    if is_passed(policy, name_in(&variable)) {
        passed.push(variable)?;
    }
    Ok(())
}

fn keep_each(
    policy: &Policy,
    variables: Vec<Value>,
    passed: &mut Vec<Value>,
) -> Result<(), NoMemory>
    ensures { OnOk result (map plain_value passed.new.items ≡ map plain_value passed.old.items ++ filter (λ v. is_passed policy.now (name_in v)) (map plain_value variables.items)) }
{
    for variable in variables {
        keep(policy, variable, passed)?;
    }
    Ok(())
}

/// A byte as an integer.
fn byte_value(byte: u8) -> Value
    ensures { plain_value result ≡ IntValue (pos byte) }
{
    Value::Int(i128::from(byte))
}

/// Bytes are no variables of a host, but numbers without a name.
fn keep_bytes(policy: &Policy, bytes: &[u8], passed: &mut Vec<Value>) -> Result<(), NoMemory>
    ensures { OnOk result (map plain_value passed.new.items ≡ map plain_value passed.old.items ++ filter (λ v. is_passed policy.now (name_in v)) (items (byte_values bytes.now))) }
{
    for byte in bytes {
        keep(policy, byte_value(*byte), passed)?;
    }
    Ok(())
}

fn keep_values(policy: &Policy, values: Values, passed: &mut Vec<Value>) -> Result<(), NoMemory>
    ensures { OnOk result (map plain_value passed.new.items ≡ map plain_value passed.old.items ++ filter (λ v. is_passed policy.now (name_in v)) (items (plain_values values))) }
{
    match values {
        Values::Each(variables) => keep_each(policy, variables, passed),
        Values::Bytes(bytes) => keep_bytes(policy, bytes.as_slice(), passed),
    }
}

fn keep_listed(policy: &Policy, answer: Value, passed: &mut Vec<Value>) -> Result<(), NoMemory>
    ensures { OnOk result (map plain_value passed.new.items ≡ map plain_value passed.old.items ++ filter (λ v. is_passed policy.now (name_in v)) (list_in (plain_value answer))) }
{
    match answer {
        Value::List(values) => keep_values(policy, values, passed),
        Value::Bool(_) => Ok(()),
        Value::Int(_) => Ok(()),
        Value::Char(_) => Ok(()),
        Value::Str(_) => Ok(()),
        Value::Record(_) => Ok(()),
        Value::Variant(_, _) => Ok(()),
        Value::Flags(_) => Ok(()),
        Value::Handle(_) => Ok(()),
    }
}

/// Of the variables that the host answers those that are passed, in order, and after them those that the policy sets.
pub fn passed_variables(
    alloc: Global,
    policy: &Policy,
    answer: Value,
) -> Result<Vec<Value>, NoMemory>
    ensures { IfOk result (λ vs. map plain_value vs.items ≡ all_variables policy.now (plain_value answer)) }
{
    let mut passed = Vec::new(alloc);
    keep_listed(policy, answer, &mut passed)?;
    for variable in variable_values(alloc, policy.env_set.as_slice())? {
        passed.push(variable)?;
    }
    Ok(passed)
}
