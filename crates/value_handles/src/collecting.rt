//! The handles of a value are found by a walk through the value and its type, in the order in which they are lifted.

#![tactic(auto, using(crate::proofs::Views::views))]

ghost use Rattle.std.specs.Prelude.{◌≡◌, ◌++◌, OnOk, [], ℕ};
ghost use Rattle.wit_types.specs.Plain.{plain, payload_of, case_part, fields_of, types_of, cases_of, End, More, Bare, OwnType, BorrowType};
ghost use Rattle.wit_types.specs.PlainValue.{plain_value, plain_values, values_of, payload_of as value_payload_of};
ghost use Rattle.abi_layout.specs.Storing.{on_list, on_record, on_variant, on_payload};
ghost use Rattle.abi_layout.specs.Handles.{handles, field_handles, case_handles, item_handles};
ghost use Rattle.value_handles.specs.Shown.{shown};
ghost use Rattle.value_handles.specs.Parts.{payload_handles};

use crate::handle::{ValueHandle, ValueHandles};
use crate::types::has_handles;
use std::rc::Rc;
use virt_base::NoMemory;
use wit_types::{Case, Field, Value, Values, WitType};

#[cycle(collect_handles)]
fn collect_payload(
    payload: &Option<Box<Value>>,
    ty: &Option<Rc<WitType>>,
    found: &mut ValueHandles,
) -> Result<(), NoMemory>
    ensures { OnOk result (shown found.new.items ≡ shown found.old.items ++ payload_handles (payload_of ty.now) (value_payload_of payload.now)) }
{
    match ty {
        None => Ok(()),
        Some(ty) => collect_present(payload, ty, found),
    }
}

#[cycle(collect_handles)]
fn collect_present(
    payload: &Option<Box<Value>>,
    ty: &WitType,
    found: &mut ValueHandles,
) -> Result<(), NoMemory>
    ensures { OnOk result (shown found.new.items ≡ shown found.old.items ++ on_payload [] (λ v. handles (plain ty.now) v) (value_payload_of payload.now)) }
{
    match payload {
        None => Ok(()),
        Some(value) => collect_handles(value, ty, found),
    }
}

#[cycle(collect_handles)]
fn collect_items(values: &Values, item: &WitType, found: &mut ValueHandles) -> Result<(), NoMemory>
    ensures { OnOk result (shown found.new.items ≡ shown found.old.items ++ item_handles (λ v. handles (plain item.now) v) (plain_values values.now)) }
{
    match values {
        Values::Each(values) => collect_each(values, item, found),
        Values::Bytes(_) => Ok(()),
    }
}

#[cycle(collect_handles)]
fn collect_each(values: &[Value], item: &WitType, found: &mut ValueHandles) -> Result<(), NoMemory>
    ensures { OnOk result (shown found.new.items ≡ shown found.old.items ++ item_handles (λ v. handles (plain item.now) v) (values_of values.now)) }
{
    for value in values {
        collect_handles(value, item, found)?;
    }
    Ok(())
}

#[cycle(collect_handles)]
fn collect_fields(
    values: &Values,
    fields: &[Field],
    found: &mut ValueHandles,
) -> Result<(), NoMemory>
    ensures { OnOk result (shown found.new.items ≡ shown found.old.items ++ field_handles (fields_of fields.now) (plain_values values.now)) }
{
    match values {
        Values::Each(values) => collect_fields_each(values, fields, found),
        Values::Bytes(_) => Ok(()),
    }
}

#[cycle(collect_handles)]
fn collect_fields_each(
    values: &[Value],
    fields: &[Field],
    found: &mut ValueHandles,
) -> Result<(), NoMemory>
    ensures { OnOk result (shown found.new.items ≡ shown found.old.items ++ field_handles (fields_of fields.now) (values_of values.now)) }
{
    for i in 0..fields.len() {
        if i >= values.len() {
            return Ok(());
        }
        collect_handles(&values[i], &fields[i].ty, found)?;
    }
    Ok(())
}

#[cycle(collect_handles)]
fn collect_parts(
    values: &Values,
    types: &[WitType],
    found: &mut ValueHandles,
) -> Result<(), NoMemory>
    ensures { OnOk result (shown found.new.items ≡ shown found.old.items ++ field_handles (types_of types.now) (plain_values values.now)) }
{
    match values {
        Values::Each(values) => collect_parts_each(values, types, found),
        Values::Bytes(_) => Ok(()),
    }
}

#[cycle(collect_handles)]
fn collect_parts_each(
    values: &[Value],
    types: &[WitType],
    found: &mut ValueHandles,
) -> Result<(), NoMemory>
    ensures { OnOk result (shown found.new.items ≡ shown found.old.items ++ field_handles (types_of types.now) (values_of values.now)) }
{
    for i in 0..types.len() {
        if i >= values.len() {
            return Ok(());
        }
        collect_handles(&values[i], &types[i], found)?;
    }
    Ok(())
}

#[cycle(collect_handles)]
fn collect_case(
    number: usize,
    payload: &Option<Box<Value>>,
    cases: &[Case],
    found: &mut ValueHandles,
) -> Result<(), NoMemory>
    ensures { OnOk result (shown found.new.items ≡ shown found.old.items ++ case_handles (cases_of cases.now) number (value_payload_of payload.now)) }
{
    if number >= cases.len() {
        return Ok(());
    }
    collect_payload(payload, &cases[number].ty, found)
}

#[cycle(collect_handles)]
fn collect_list(value: &Value, item: &WitType, found: &mut ValueHandles) -> Result<(), NoMemory>
    ensures { OnOk result (shown found.new.items ≡ shown found.old.items ++ on_list [] (λ vs. item_handles (λ v. handles (plain item.now) v) vs) (plain_value value.now)) }
{
    match value {
        Value::List(values) => {
            if has_handles(item) {
                collect_items(values, item, found)
            } else {
                Ok(())
            }
        }
        _ => Ok(()),
    }
}

#[cycle(collect_handles)]
fn collect_record(value: &Value, fields: &[Field], found: &mut ValueHandles) -> Result<(), NoMemory>
    ensures { OnOk result (shown found.new.items ≡ shown found.old.items ++ on_record [] (λ vs. field_handles (fields_of fields.now) vs) (plain_value value.now)) }
{
    match value {
        Value::Record(values) => collect_fields(values, fields, found),
        _ => Ok(()),
    }
}

#[cycle(collect_handles)]
fn collect_tuple(value: &Value, types: &[WitType], found: &mut ValueHandles) -> Result<(), NoMemory>
    ensures { OnOk result (shown found.new.items ≡ shown found.old.items ++ on_record [] (λ vs. field_handles (types_of types.now) vs) (plain_value value.now)) }
{
    match value {
        Value::Record(values) => collect_parts(values, types, found),
        _ => Ok(()),
    }
}

#[cycle(collect_handles)]
fn collect_variant(value: &Value, cases: &[Case], found: &mut ValueHandles) -> Result<(), NoMemory>
    ensures { OnOk result (shown found.new.items ≡ shown found.old.items ++ on_variant [] (λ n p. case_handles (cases_of cases.now) n p) (plain_value value.now)) }
{
    match value {
        Value::Variant(number, payload) => { collect_case(*number as usize, payload, cases, found) }
        _ => Ok(()),
    }
}

#[cycle(collect_handles)]
fn collect_option(value: &Value, some: &WitType, found: &mut ValueHandles) -> Result<(), NoMemory>
    ensures { OnOk result (shown found.new.items ≡ shown found.old.items ++ on_variant [] (λ n p. case_handles (Bare [] (More [] (plain some.now) End)) n p) (plain_value value.now)) }
{
    match value {
        Value::Variant(number, payload) => {
            if *number == 1 {
                collect_present(payload, some, found)
            } else {
                Ok(())
            }
        }
        _ => Ok(()),
    }
}

#[cycle(collect_handles)]
fn collect_result(
    value: &Value,
    ok: &Option<Rc<WitType>>,
    err: &Option<Rc<WitType>>,
    found: &mut ValueHandles,
) -> Result<(), NoMemory>
    ensures { OnOk result (shown found.new.items ≡ shown found.old.items ++ on_variant [] (λ n p. case_handles (case_part [] (payload_of ok.now) (case_part [] (payload_of err.now) End)) n p) (plain_value value.now)) }
{
    match value {
        Value::Variant(number, payload) => {
            if *number == 0 {
                collect_payload(payload, ok, found)
            } else if *number == 1 {
                collect_payload(payload, err, found)
            } else {
                Ok(())
            }
        }
        _ => Ok(()),
    }
}

#[tactic(auto, using(crate::proofs::Views::views, crate::proofs::Only::only_handle))]
fn collect_own(resource: u32, value: &Value, found: &mut ValueHandles) -> Result<(), NoMemory>
    ensures { OnOk result (shown found.new.items ≡ shown found.old.items ++ handles (OwnType resource) (plain_value value.now)) }
{
    match value {
        Value::Handle(number) => {
            found.push(ValueHandle::Own {
                resource,
                number: *number,
            })?;
            Ok(())
        }
        _ => Ok(()),
    }
}

#[tactic(auto, using(crate::proofs::Views::views, crate::proofs::Only::only_handle))]
fn collect_borrow(resource: u32, value: &Value, found: &mut ValueHandles) -> Result<(), NoMemory>
    ensures { OnOk result (shown found.new.items ≡ shown found.old.items ++ handles (BorrowType resource) (plain_value value.now)) }
{
    match value {
        Value::Handle(number) => {
            found.push(ValueHandle::Borrow {
                resource,
                number: *number,
            })?;
            Ok(())
        }
        _ => Ok(()),
    }
}

/// Adds the handles of a value of a type, in order.
#[cycle(collect_handles)]
pub fn collect_handles(
    value: &Value,
    ty: &WitType,
    found: &mut ValueHandles,
) -> Result<(), NoMemory>
    ensures { OnOk result (shown found.new.items ≡ shown found.old.items ++ handles (plain ty.now) (plain_value value.now)) }
{
    match ty {
        WitType::List(item) => collect_list(value, item, found),
        WitType::Record(fields) => collect_record(value, &fields.items, found),
        WitType::Tuple(types) => collect_tuple(value, &types.items, found),
        WitType::Variant(cases) => collect_variant(value, &cases.items, found),
        WitType::Option(some) => collect_option(value, some, found),
        WitType::Result(ok, err) => collect_result(value, ok, err, found),
        WitType::Own(resource) => collect_own(*resource, value, found),
        WitType::Borrow(resource) => collect_borrow(*resource, value, found),
        _ => Ok(()),
    }
}
