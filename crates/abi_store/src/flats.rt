//! The flat values of a value; strings and lists ask for memory later (Component Model, CanonicalABI.md, "Flat Lowering").

#![tactic(auto, using(crate::proofs::Views::views))]

ghost use Rattle.std.specs.Prelude.{◌≡◌, ◌≤◌, ◌<◌, ◌+◌, ◌-◌, ◌^◌, length, reverse, IfOk};
ghost use Rattle.wit_types.specs.Plain.{plain, payload_of, Parts as PlainParts, VariantForm, VariantType, StringType, ListType};
ghost use Rattle.wit_types.specs.PlainValue.{ListValue, plain_value, plain_values, values_of, payload_of as value_payload_of};
ghost use Rattle.wit_types.specs.Layout.{flat, flat_fields};
ghost use Rattle.wit_types.specs.Limits.{parts as parts_in, all_parts};
ghost use Rattle.abi_layout.specs.Numbers.{number_of};
ghost use Rattle.abi_layout.specs.Storing.{lower_flat, lower_fields, one_number};
ghost use Rattle.abi_store.specs.Parts.{parts_from, cases_in, payload_flat, payload_parts};
ghost use Rattle.abi_store.specs.Slots.{Appends, zeros, place_flats, record_flats, variant_flats, payload_flats};

use crate::cases::payload_type;
use crate::content::{Content, ListContent};
use crate::forms::{backwards, list_in, record_in, text_in, variant_in};
use crate::number::{LONG, SHORT, number};
use crate::parts::{Parts, part};
use crate::room::len_of;
use crate::slot::Slot;
use abi_layout::flatten;
use std::alloc::Global;
use std::rc::Rc;
use virt_base::NoMemory;
use wit_types::{Value, WitType};

fn push_number(slots: &mut Vec<Slot>, number: u64) -> Result<(), NoMemory>
    ensures flats { IfOk result (λ _. Appends slots.old.items slots.new.items (λ k. one_number number)) }
    ensures count { IfOk result (λ _. length slots.new.items ≡ length slots.old.items + 1) }
{
    slots.push(Slot::Number(number))?;
    Ok(())
}

/// The place of what is stored, and its length.
fn push_content(slots: &mut Vec<Slot>, content: Content) -> Result<(), NoMemory>
    ensures { IfOk result (λ _. Appends slots.old.items slots.new.items (place_flats content)) }
{
    let len = len_of(&content);
    slots.push(Slot::Place(content))?;
    slots.push(Slot::Number(len))?;
    Ok(())
}

fn lower_string(slots: &mut Vec<Slot>, value: Value) -> Result<(), NoMemory>
    ensures { IfOk result (λ _. Appends slots.old.items slots.new.items (lower_flat StringType (plain_value value))) }
{
    match text_in(value) {
        None => Ok(()),
        Some(text) => {
            push_content(slots, Content::Text(text))?;
            Ok(())
        }
    }
}

fn push_list(slots: &mut Vec<Slot>, list: ListContent) -> Result<(), NoMemory>
    ensures { IfOk result (λ _. Appends slots.old.items slots.new.items (lower_flat (ListType (plain list.item.value)) (ListValue (plain_values list.values)))) }
{
    push_content(slots, Content::List(list))?;
    Ok(())
}

fn lower_list(slots: &mut Vec<Slot>, item: &Rc<WitType>, value: Value) -> Result<(), NoMemory>
    requires { parts_in (plain item.now.value) ≤ 1000000 }
    ensures { IfOk result (λ _. Appends slots.old.items slots.new.items (lower_flat (ListType (plain item.now.value)) (plain_value value))) }
{
    match list_in(value) {
        None => Ok(()),
        Some(values) => {
            let item = item.clone()?;
            push_list(slots, ListContent { item, values })?;
            Ok(())
        }
    }
}

fn lower_number(slots: &mut Vec<Slot>, count: u128, value: Value) -> Result<(), NoMemory>
    requires some { 0 < count }
    requires fits { count ≤ 2 ^ 64 }
    ensures { IfOk result (λ _. Appends slots.old.items slots.new.items (λ k. one_number (number_of count (plain_value value)))) }
{
    push_number(slots, number(count, &value))?;
    Ok(())
}

/// Zeros up to a length.
fn pad(slots: &mut Vec<Slot>, end: usize) -> Result<(), NoMemory>
    ensures { IfOk result (λ _. Appends slots.old.items slots.new.items (zeros (end - length slots.old.items))) }
{
    while slots.len() < end {
        push_number(slots, 0)?;
    }
    Ok(())
}

/// The fields of a record or a tuple, by their values, the last one first.
#[cycle(lower)]
fn lower_parts(
    alloc: Global,
    slots: &mut Vec<Slot>,
    parts: &Parts,
    values: Vec<Value>,
) -> Result<(), NoMemory>
    requires small { all_parts (parts_from parts.now 0) ≤ 1000000 }
    requires few { length (flat_fields (parts_from parts.now 0)) ≤ 16 }
    ensures { IfOk result (λ _. Appends slots.old.items slots.new.items (lower_fields (parts_from parts.now 0) (values_of (reverse values.items)))) }
{
    let mut left = values;
    let mut next = 0;
    while let Some(value) = left.pop() {
        match part(alloc, parts, next)? {
            None => return Ok(()),
            Some(ty) => lower(alloc, slots, &ty, value)?,
        }
        next += 1;
    }
    Ok(())
}

#[cycle(lower)]
fn lower_record(
    alloc: Global,
    slots: &mut Vec<Slot>,
    parts: Parts,
    value: Value,
) -> Result<(), NoMemory>
    requires small { all_parts (parts_from parts 0) ≤ 1000000 }
    requires few { length (flat_fields (parts_from parts 0)) ≤ 16 }
    ensures { IfOk result (λ _. Appends slots.old.items slots.new.items (record_flats (parts_from parts 0) (plain_value value))) }
{
    match record_in(value) {
        None => Ok(()),
        Some(values) => {
            let left = backwards(alloc, values)?;
            lower_parts(alloc, slots, &parts, left)
        }
    }
}

#[cycle(lower)]
fn lower_payload(
    alloc: Global,
    slots: &mut Vec<Slot>,
    ty: Option<Rc<WitType>>,
    payload: Option<Box<Value>>,
) -> Result<(), NoMemory>
    requires small { payload_parts (payload_of ty) ≤ 1000000 }
    requires few { length (payload_flat (payload_of ty)) ≤ 16 }
    ensures { IfOk result (λ _. Appends slots.old.items slots.new.items (payload_flats (payload_of ty) (value_payload_of payload))) }
{
    match ty {
        None => Ok(()),
        Some(ty) => match payload {
            None => Ok(()),
            Some(value) => lower(alloc, slots, &ty, Box::into_inner(value)),
        },
    }
}

/// The number of a case, its payload, and 0 for the flat values that other cases have more.
#[cycle(lower)]
fn lower_variant(
    alloc: Global,
    slots: &mut Vec<Slot>,
    ty: &WitType,
    value: Value,
) -> Result<(), NoMemory>
    requires small { parts_in (plain ty.now) ≤ 1000000 }
    requires kind { (form : VariantForm) × (cases : PlainParts) × (plain ty.now ≡ VariantType form cases) }
    requires few { length (flat (plain ty.now)) ≤ 16 }
    ensures { IfOk result (λ _. Appends slots.old.items slots.new.items (variant_flats (cases_in (plain ty.now)) (plain_value value))) }
{
    match variant_in(value) {
        None => Ok(()),
        Some((number, payload)) => {
            let end = slots.len() + flatten(ty).count as usize;
            push_number(slots, number as u64)?;
            let payload_ty = payload_type(ty, number)?;
            lower_payload(alloc, slots, payload_ty, payload)?;
            pad(slots, end)?;
            Ok(())
        }
    }
}

/// Adds the flat values of a value.
#[cycle(lower)]
pub fn lower(
    alloc: Global,
    slots: &mut Vec<Slot>,
    ty: &WitType,
    value: Value,
) -> Result<(), NoMemory>
    requires small { parts_in (plain ty.now) ≤ 1000000 }
    requires few { length (flat (plain ty.now)) ≤ 16 }
    ensures { IfOk result (λ _. Appends slots.old.items slots.new.items (lower_flat (plain ty.now) (plain_value value))) }
{
    match ty {
        WitType::S64 | WitType::U64 => lower_number(slots, LONG, value),
        WitType::Str => lower_string(slots, value),
        WitType::List(item) => lower_list(slots, item, value),
        WitType::Record(fields) => {
            lower_record(alloc, slots, Parts::Fields(fields.clone()?), value)
        }
        WitType::Tuple(types) => lower_record(alloc, slots, Parts::Types(types.clone()?), value),
        WitType::Variant(_) | WitType::Enum(_) | WitType::Option(_) | WitType::Result(_, _) => {
            lower_variant(alloc, slots, ty, value)
        }
        _ => lower_number(slots, SHORT, value),
    }
}
