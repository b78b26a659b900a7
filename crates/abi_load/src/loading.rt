//! Values are loaded from a memory (Component Model, CanonicalABI.md, "Loading").

#![tactic(auto, using(crate::proofs::Views::views))]

ghost use Rattle.std.specs.Prelude.{◌≡◌, ◌<◌, ◌≤◌, ◌^◌, ◌+◌, ◌*◌, length, Some, None, IfOk, IsErrOf, ◌∷◌, [], ◌==◌, if◌then◌else◌};
ghost use Rattle.wit_types.specs.Plain.{plain, payload_of, case_part, fields_of, types_of, cases_of, End, More, Bare, StringType, ListType};
ghost use Rattle.wit_types.specs.PlainValue.{plain_value, plain_values, values_of};
ghost use Rattle.wit_types.specs.HasType.{HasType};
ghost use Rattle.wit_types.specs.Layout.{size, alignment};
ghost use Rattle.wit_types.specs.Limits.{parts, all_parts, IsSmall};
ghost use Rattle.abi_layout.specs.Loading.{loads, loads_at, fields_at, items_at, list_at};
ghost use Rattle.abi_load.specs.Loaded.{bytes_at, chosen_at, variant_at, enum_at};

use crate::fault::LoadFault;
use crate::number::{load_number, long_number, short_number, with_sign};
use crate::range::{is_within, load_bytes, load_string};
use abi_layout::{
    align_to, discriminant_width, flags_width, layout_of, layout_of_cases, layout_of_payload,
    payload_offset,
};
use core_store::Store;
use std::alloc::Global;
use std::rc::Rc;
use wit_types::{Case, Field, Value, Values, WitType};

/// The string whose place and length lie at a place.
fn load_text(store: &Store, memory: u32, at: u64) -> Result<Value, LoadFault>
    requires memory { memory < length store.now.memories }
    requires low { at ≤ 2 ^ 50 }
    ensures ok { IfOk result (λ v. loads_at (bytes_at store.now memory) StringType at ≡ Some (plain_value v)) }
    ensures trap { IsErrOf result LoadFault.Trap → loads_at (bytes_at store.now memory) StringType at ≡ None }
{
    let place = short_number(store, memory, at, 4)?;
    let len = short_number(store, memory, at + 4, 4)?;
    let text = load_string(store, memory, place as u64, len as u64)?;
    Ok(Value::Str(text))
}

/// A variant without payloads.
fn load_enum(store: &Store, memory: u32, labels: usize, at: u64) -> Result<Value, LoadFault>
    requires memory { memory < length store.now.memories }
    ensures ok { IfOk result (λ v. enum_at (bytes_at store.now memory) labels at ≡ Some (plain_value v)) }
    ensures trap { IsErrOf result LoadFault.Trap → enum_at (bytes_at store.now memory) labels at ≡ None }
{
    let number = short_number(store, memory, at, discriminant_width(labels))?;
    if number as usize >= labels {
        return Err(LoadFault::Trap);
    }
    Ok(Value::Variant(number, None))
}

/// Which case lies at a place, and where its payload lies.
#[derive(Clone, Copy)]
struct FoundCase {
    number: u32,
    place: u64,
}

fn find_result_case(
    store: &Store,
    memory: u32,
    ok: &Option<Rc<WitType>>,
    err: &Option<Rc<WitType>>,
    at: u64,
) -> Result<FoundCase, LoadFault>
    requires memory { memory < length store.now.memories }
    requires small { all_parts (case_part [] (payload_of ok.now) (case_part [] (payload_of err.now) End)) ≤ 1000000 }
    requires low { at ≤ 2 ^ 50 }
    ensures ok { IfOk result (λ c. variant_at (bytes_at store.now memory) (case_part [] (payload_of ok.now) (case_part [] (payload_of err.now) End)) at ≡ chosen_at (bytes_at store.now memory) c.number (if c.number == 0 then payload_of ok.now else payload_of err.now) c.place) }
    ensures near { IfOk result (λ c. c.place ≤ at + 11) }
    ensures trap { IsErrOf result LoadFault.Trap → variant_at (bytes_at store.now memory) (case_part [] (payload_of ok.now) (case_part [] (payload_of err.now) End)) at ≡ None }
{
    let number = short_number(store, memory, at, 1)?;
    if number > 1 {
        return Err(LoadFault::Trap);
    }
    let align = u32::max(layout_of_payload(ok).align, layout_of_payload(err).align);
    let place = at + payload_offset(2, align) as u64;
    Ok(FoundCase { number, place })
}

/// A variant of this case, whose payload lies at a place if it has one.
#[cycle(load_at)]
fn load_case(
    alloc: Global,
    store: &Store,
    memory: u32,
    number: u32,
    ty: &Option<Rc<WitType>>,
    at: u64,
) -> Result<Value, LoadFault>
    requires memory { memory < length store.now.memories }
    requires small { all_parts (case_part [] (payload_of ty.now) End) ≤ 1000000 }
    requires low { at + 32 * all_parts (case_part [] (payload_of ty.now) End) ≤ 2 ^ 50 }
    ensures ok { IfOk result (λ v. chosen_at (bytes_at store.now memory) number (payload_of ty.now) at ≡ Some (plain_value v)) }
    ensures trap { IsErrOf result LoadFault.Trap → chosen_at (bytes_at store.now memory) number (payload_of ty.now) at ≡ None }
{
    match ty {
        None => Ok(Value::Variant(number, None)),
        Some(ty) => {
            let value = load_at(alloc, store, memory, ty, at)?;
            Ok(Value::Variant(number, Some(Box::new(alloc, value)?)))
        }
    }
}

#[cycle(load_at)]
fn load_variant(
    alloc: Global,
    store: &Store,
    memory: u32,
    cases: &[Case],
    at: u64,
) -> Result<Value, LoadFault>
    requires memory { memory < length store.now.memories }
    requires small { all_parts (cases_of cases.now) ≤ 1000000 }
    requires low { at + 32 * all_parts (cases_of cases.now) + 32 ≤ 2 ^ 50 }
    ensures ok { IfOk result (λ v. variant_at (bytes_at store.now memory) (cases_of cases.now) at ≡ Some (plain_value v)) }
    ensures trap { IsErrOf result LoadFault.Trap → variant_at (bytes_at store.now memory) (cases_of cases.now) at ≡ None }
{
    let number = short_number(store, memory, at, discriminant_width(cases.len()))?;
    let index = number as usize;
    if index >= cases.len() {
        return Err(LoadFault::Trap);
    }
    let offset = payload_offset(cases.len(), layout_of_cases(cases).align);
    let place = at + offset as u64;
    load_case(alloc, store, memory, number, &cases[index].ty, place)
}

#[cycle(load_at)]
fn load_option(
    alloc: Global,
    store: &Store,
    memory: u32,
    some: &WitType,
    at: u64,
) -> Result<Value, LoadFault>
    requires memory { memory < length store.now.memories }
    requires small { parts (plain some.now) ≤ 1000000 }
    requires low { at + 32 * parts (plain some.now) + 32 ≤ 2 ^ 50 }
    ensures ok { IfOk result (λ v. variant_at (bytes_at store.now memory) (Bare [] (More [] (plain some.now) End)) at ≡ Some (plain_value v)) }
    ensures trap { IsErrOf result LoadFault.Trap → variant_at (bytes_at store.now memory) (Bare [] (More [] (plain some.now) End)) at ≡ None }
{
    let number = short_number(store, memory, at, 1)?;
    if number == 0 {
        return Ok(Value::Variant(0, None));
    }
    if number > 1 {
        return Err(LoadFault::Trap);
    }
    let offset = payload_offset(2, layout_of(some).align);
    let value = load_at(alloc, store, memory, some, at + offset as u64)?;
    Ok(Value::Variant(1, Some(Box::new(alloc, value)?)))
}

#[cycle(load_at)]
fn load_fields(
    alloc: Global,
    store: &Store,
    memory: u32,
    fields: &[Field],
    at: u64,
) -> Result<Vec<Value>, LoadFault>
    requires memory { memory < length store.now.memories }
    requires small { all_parts (fields_of fields.now) ≤ 1000000 }
    requires low { at + 32 * all_parts (fields_of fields.now) + 32 ≤ 2 ^ 50 }
    ensures ok { IfOk result (λ vs. fields_at (bytes_at store.now memory) (fields_of fields.now) at 0 ≡ Some (values_of vs.items)) }
    ensures trap { IsErrOf result LoadFault.Trap → fields_at (bytes_at store.now memory) (fields_of fields.now) at 0 ≡ None }
{
    let mut values = Vec::with_capacity(alloc, fields.len())?;
    let mut offset = 0;
    for field in fields {
        let layout = layout_of(&field.ty);
        let start = align_to(offset, layout.align);
        let value = load_at(alloc, store, memory, &field.ty, at + start as u64)?;
        values.push(value)?;
        offset = start + layout.size;
    }
    Ok(values)
}

#[cycle(load_at)]
fn load_types(
    alloc: Global,
    store: &Store,
    memory: u32,
    types: &[WitType],
    at: u64,
) -> Result<Vec<Value>, LoadFault>
    requires memory { memory < length store.now.memories }
    requires small { all_parts (types_of types.now) ≤ 1000000 }
    requires low { at + 32 * all_parts (types_of types.now) + 32 ≤ 2 ^ 50 }
    ensures ok { IfOk result (λ vs. fields_at (bytes_at store.now memory) (types_of types.now) at 0 ≡ Some (values_of vs.items)) }
    ensures trap { IsErrOf result LoadFault.Trap → fields_at (bytes_at store.now memory) (types_of types.now) at 0 ≡ None }
{
    let mut values = Vec::with_capacity(alloc, types.len())?;
    let mut offset = 0;
    for ty in types {
        let layout = layout_of(ty);
        let start = align_to(offset, layout.align);
        let value = load_at(alloc, store, memory, ty, at + start as u64)?;
        values.push(value)?;
        offset = start + layout.size;
    }
    Ok(values)
}

/// `count` items of one size, one after the other.
#[cycle(load_at)]
fn load_items(
    alloc: Global,
    store: &Store,
    memory: u32,
    item: &WitType,
    width: u64,
    place: u64,
    count: u64,
) -> Result<Vec<Value>, LoadFault>
    requires memory { memory < length store.now.memories }
    requires small { parts (plain item.now) ≤ 1000000 }
    requires low { place + count * width ≤ 2 ^ 49 }
    ensures ok { IfOk result (λ vs. items_at (λ p. loads_at (bytes_at store.now memory) (plain item.now) p) width place count ≡ Some (values_of vs.items)) }
    ensures trap { IsErrOf result LoadFault.Trap → items_at (λ p. loads_at (bytes_at store.now memory) (plain item.now) p) width place count ≡ None }
{
    let mut values = Vec::with_capacity(alloc, count as usize)?;
    let mut at = place;
    for _done in 0..count {
        let value = load_at(alloc, store, memory, item, at)?;
        values.push(value)?;
        at += width;
    }
    Ok(values)
}

/// The items of a list that are within the memory; bytes are loaded as one run.
#[cycle(load_at)]
fn load_values(
    alloc: Global,
    store: &Store,
    memory: u32,
    item: &WitType,
    place: u64,
    count: u64,
) -> Result<Values, LoadFault>
    requires memory { memory < length store.now.memories }
    requires small { parts (plain item.now) ≤ 1000000 }
    requires within { place + count * size (plain item.now) ≤ length (bytes_at store.now memory) }
    requires low { place + count * size (plain item.now) ≤ 2 ^ 49 }
    ensures ok { IfOk result (λ vs. items_at (λ p. loads_at (bytes_at store.now memory) (plain item.now) p) (size (plain item.now)) place count ≡ Some (plain_values vs)) }
    ensures trap { IsErrOf result LoadFault.Trap → items_at (λ p. loads_at (bytes_at store.now memory) (plain item.now) p) (size (plain item.now)) place count ≡ None }
{
    match item {
        WitType::U8 => Ok(Values::Bytes(load_bytes(store, memory, place, count)?)),
        _ => {
            let width = layout_of(item).size as u64;
            Ok(Values::Each(load_items(alloc, store, memory, item, width, place, count)?))
        }
    }
}

/// The list of `count` items at a place.
#[cycle(load_at)]
pub(crate) fn load_range(
    alloc: Global,
    store: &Store,
    memory: u32,
    item: &WitType,
    place: u32,
    count: u32,
) -> Result<Value, LoadFault>
    requires memory { memory < length store.now.memories }
    requires small { parts (plain item.now) ≤ 1000000 }
    ensures ok { IfOk result (λ v. list_at (bytes_at store.now memory) (λ p. loads_at (bytes_at store.now memory) (plain item.now) p) (size (plain item.now)) (alignment (plain item.now)) place count ≡ Some (plain_value v)) }
    ensures trap { IsErrOf result LoadFault.Trap → list_at (bytes_at store.now memory) (λ p. loads_at (bytes_at store.now memory) (plain item.now) p) (size (plain item.now)) (alignment (plain item.now)) place count ≡ None }
{
    let layout = layout_of(item);
    if place % layout.align != 0 {
        return Err(LoadFault::Trap);
    }
    let len = count as u64 * layout.size as u64;
    if !is_within(store, memory, place as u64, len) {
        return Err(LoadFault::Trap);
    }
    let values = load_values(alloc, store, memory, item, place as u64, count as u64)?;
    Ok(Value::List(values))
}

/// The list whose place and length lie at a place.
#[cycle(load_at)]
fn load_list(
    alloc: Global,
    store: &Store,
    memory: u32,
    item: &WitType,
    at: u64,
) -> Result<Value, LoadFault>
    requires memory { memory < length store.now.memories }
    requires small { parts (plain item.now) ≤ 1000000 }
    requires low { at ≤ 2 ^ 50 }
    ensures ok { IfOk result (λ v. loads_at (bytes_at store.now memory) (ListType (plain item.now)) at ≡ Some (plain_value v)) }
    ensures trap { IsErrOf result LoadFault.Trap → loads_at (bytes_at store.now memory) (ListType (plain item.now)) at ≡ None }
{
    let place = short_number(store, memory, at, 4)?;
    let count = short_number(store, memory, at + 4, 4)?;
    load_range(alloc, store, memory, item, place, count)
}

/// The value at a place that is aligned and has room for it.
#[cycle(load_at)]
fn load_at(
    alloc: Global,
    store: &Store,
    memory: u32,
    ty: &WitType,
    at: u64,
) -> Result<Value, LoadFault>
    requires memory { memory < length store.now.memories }
    requires small { parts (plain ty.now) ≤ 1000000 }
    requires low { at + 32 * parts (plain ty.now) ≤ 2 ^ 50 }
    ensures ok { IfOk result (λ v. loads_at (bytes_at store.now memory) (plain ty.now) at ≡ Some (plain_value v)) }
    ensures trap { IsErrOf result LoadFault.Trap → loads_at (bytes_at store.now memory) (plain ty.now) at ≡ None }
{
    match ty {
        WitType::Bool | WitType::S8 | WitType::U8 => load_number(store, memory, ty, at, 1),
        WitType::S16 | WitType::U16 => load_number(store, memory, ty, at, 2),
        WitType::Flags(labels) => load_number(store, memory, ty, at, flags_width(labels.len())),
        WitType::S64 => {
            let bits = long_number(store, memory, at)?;
            Ok(Value::Int(with_sign(bits, 0x8000_0000_0000_0000)))
        }
        WitType::U64 => Ok(Value::Int(long_number(store, memory, at)? as i128)),
        WitType::Str => load_text(store, memory, at),
        WitType::List(item) => load_list(alloc, store, memory, item, at),
        WitType::Record(fields) => {
            let values = load_fields(alloc, store, memory, &fields.items, at)?;
            Ok(Value::Record(Values::Each(values)))
        }
        WitType::Tuple(types) => {
            let values = load_types(alloc, store, memory, &types.items, at)?;
            Ok(Value::Record(Values::Each(values)))
        }
        WitType::Variant(cases) => load_variant(alloc, store, memory, &cases.items, at),
        WitType::Enum(labels) => load_enum(store, memory, labels.len(), at),
        WitType::Option(some) => load_option(alloc, store, memory, some, at),
        WitType::Result(ok, err) => {
            let case = find_result_case(store, memory, ok, err, at)?;
            if case.number == 0 {
                load_case(alloc, store, memory, case.number, ok, case.place)
            } else {
                load_case(alloc, store, memory, case.number, err, case.place)
            }
        }
        _ => load_number(store, memory, ty, at, 4),
    }
}

/// The value of a type at a place of a memory. `Trap` comes exactly where loading traps: where the place is not aligned, where
/// bytes of the value pass the end of the memory, where a list's place is not aligned, where a string is no UTF-8, a char no
/// Unicode scalar value, or the number of a case not that of one. A handle is the index that lies there.
pub fn load(
    alloc: Global,
    store: &Store,
    memory: u32,
    ty: &WitType,
    at: u64,
) -> Result<Value, LoadFault>
    requires memory { memory < length store.now.memories }
    requires small { IsSmall ty.now }
    ensures ok { IfOk result (λ v. loads (bytes_at store.now memory) (plain ty.now) at ≡ Some (plain_value v)) }
    ensures trap { IsErrOf result LoadFault.Trap → loads (bytes_at store.now memory) (plain ty.now) at ≡ None }
    ensures typed { IfOk result (λ v. HasType v ty.now) }
{
    let layout = layout_of(ty);
    if at % layout.align as u64 != 0 || !is_within(store, memory, at, layout.size as u64) {
        return Err(LoadFault::Trap);
    }
    load_at(alloc, store, memory, ty, at)
}
