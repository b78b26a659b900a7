//! Values are lifted from flat values (Component Model, CanonicalABI.md, "Flat Lifting").

#![tactic(auto, using(crate::proofs::Views::views))]

ghost use Rattle.std.specs.Prelude.{◌≡◌, ◌↔◌, ◌<◌, ◌≤◌, ◌+◌, length, slice_index, Some, None, IfOk, IsErrOf, IsTrue, List, ℕ, []};
ghost use Rattle.wit_types.specs.Plain.{plain, payload_of, case_part, fields_of, types_of, cases_of, End, More, Bare};
ghost use Rattle.wit_types.specs.PlainValue.{plain_value, values_of};
ghost use Rattle.wit_types.specs.HasType.{HasType};
ghost use Rattle.wit_types.specs.Layout.{flat_fields, flat_cases, flat_of};
ghost use Rattle.wit_types.specs.Limits.{parts, all_parts, IsSmall};
ghost use Rattle.abi_layout.specs.Loading.{low_word as low_bits, lift_flat as lifted, lift_fields as fields_lifted, has_ranges, parts_have_ranges};
ghost use Rattle.abi_load.specs.Loaded.{bytes_at};
ghost use Rattle.abi_load.specs.Lifted.{words, case_lifted, variant_lifted, enum_lifted, is_short};

use crate::fault::LoadFault;
use crate::loading::load_range;
use crate::number::{short_value, with_sign};
use crate::range::load_string;
use abi_layout::flatten;
use core_store::{CoreValue, Store};
use std::alloc::Global;
use std::rc::Rc;
use virt_base::Items;
use wit_types::{Case, Field, Value, Values, WitType};

/// The number of the flat value at a position.
fn wide_word(flat: &[CoreValue], k: usize) -> u64
    ensures { result ≡ slice_index (words flat.now) k }
{
    if k >= flat.len() {
        return 0;
    }
    match flat[k] {
        CoreValue::I32(number) => number as u64,
        CoreValue::I64(number) => number,
        CoreValue::Ref(_) => 0,
    }
}

/// Its low bits: where payloads are joined, an i64 may hold an i32.
fn low_word(flat: &[CoreValue], k: usize) -> u32
    ensures { result ≡ low_bits (words flat.now) k }
{
    (wide_word(flat, k) % 0x1_0000_0000) as u32
}

/// By how many flat values a value is passed.
fn flat_count(ty: &WitType) -> usize
    requires { length (flat_of ty.now) ≤ 16 }
    ensures { result ≡ length (flat_of ty.now) }
{
    let flat = flatten(ty);
    flat.count as usize
}

/// Whether a value is passed by at most 16 flat values, which lifting asks for.
pub fn is_flat(ty: &WitType) -> bool
    ensures { IsTrue result ↔ (length (flat_of ty.now) ≤ 16) }
{
    let flat = flatten(ty);
    flat.count <= 16
}

/// The value of a type whose values are one number of at most 32 bits each, which lifting finds in any memory.
fn lift_short(ty: &WitType, flat: &[CoreValue], k: usize) -> Result<Value, LoadFault>
    requires { IsTrue (is_short (plain ty.now)) }
    ensures ok { IfOk result (λ v. (m : List ℕ) → lifted m (plain ty.now) (words flat.now) k ≡ Some (plain_value v)) }
    ensures trap { IsErrOf result LoadFault.Trap → (m : List ℕ) → lifted m (plain ty.now) (words flat.now) k ≡ None }
{
    match short_value(ty, low_word(flat, k)) {
        Some(value) => Ok(value),
        None => Err(LoadFault::Trap),
    }
}

/// A variant without payloads.
fn lift_enum(labels: usize, flat: &[CoreValue], k: usize) -> Result<Value, LoadFault>
    ensures ok { IfOk result (λ v. enum_lifted labels (words flat.now) k ≡ Some (plain_value v)) }
    ensures trap { IsErrOf result LoadFault.Trap → enum_lifted labels (words flat.now) k ≡ None }
{
    let number = low_word(flat, k);
    if number as usize >= labels {
        return Err(LoadFault::Trap);
    }
    Ok(Value::Variant(number, None))
}

/// A variant of this case, with the payload that flat values from a position on stand for if it has one.
#[cycle(lift_at)]
fn lift_case(
    alloc: Global,
    store: &Store,
    memory: u32,
    number: u32,
    ty: &Option<Rc<WitType>>,
    flat: &[CoreValue],
    k: usize,
) -> Result<Value, LoadFault>
    requires memory { IsTrue (parts_have_ranges (case_part [] (payload_of ty.now) End)) → memory < length store.now.memories }
    requires small { all_parts (case_part [] (payload_of ty.now) End) ≤ 1000000 }
    requires few { k + length (flat_cases (case_part [] (payload_of ty.now) End)) ≤ 16 }
    ensures ok { IfOk result (λ v. case_lifted (bytes_at store.now memory) number (payload_of ty.now) (words flat.now) k ≡ Some (plain_value v)) }
    ensures trap { IsErrOf result LoadFault.Trap → case_lifted (bytes_at store.now memory) number (payload_of ty.now) (words flat.now) k ≡ None }
{
    match ty {
        None => Ok(Value::Variant(number, None)),
        Some(ty) => {
            let value = lift_at(alloc, store, memory, ty, flat, k)?;
            Ok(Value::Variant(number, Some(Box::new(alloc, value)?)))
        }
    }
}

#[cycle(lift_at)]
fn lift_variant(
    alloc: Global,
    store: &Store,
    memory: u32,
    cases: &[Case],
    flat: &[CoreValue],
    k: usize,
) -> Result<Value, LoadFault>
    requires memory { IsTrue (parts_have_ranges (cases_of cases.now)) → memory < length store.now.memories }
    requires small { all_parts (cases_of cases.now) ≤ 1000000 }
    requires few { k + 1 + length (flat_cases (cases_of cases.now)) ≤ 16 }
    ensures ok { IfOk result (λ v. variant_lifted (bytes_at store.now memory) (cases_of cases.now) (words flat.now) k ≡ Some (plain_value v)) }
    ensures trap { IsErrOf result LoadFault.Trap → variant_lifted (bytes_at store.now memory) (cases_of cases.now) (words flat.now) k ≡ None }
{
    let number = low_word(flat, k);
    let index = number as usize;
    if index >= cases.len() {
        return Err(LoadFault::Trap);
    }
    lift_case(alloc, store, memory, number, &cases[index].ty, flat, k + 1)
}

#[cycle(lift_at)]
fn lift_option(
    alloc: Global,
    store: &Store,
    memory: u32,
    some: &WitType,
    flat: &[CoreValue],
    k: usize,
) -> Result<Value, LoadFault>
    requires memory { IsTrue (has_ranges (plain some.now)) → memory < length store.now.memories }
    requires small { parts (plain some.now) ≤ 1000000 }
    requires few { k + 1 + length (flat_of some.now) ≤ 16 }
    ensures ok { IfOk result (λ v. variant_lifted (bytes_at store.now memory) (Bare [] (More [] (plain some.now) End)) (words flat.now) k ≡ Some (plain_value v)) }
    ensures trap { IsErrOf result LoadFault.Trap → variant_lifted (bytes_at store.now memory) (Bare [] (More [] (plain some.now) End)) (words flat.now) k ≡ None }
{
    let number = low_word(flat, k);
    if number == 0 {
        return Ok(Value::Variant(0, None));
    }
    if number > 1 {
        return Err(LoadFault::Trap);
    }
    let value = lift_at(alloc, store, memory, some, flat, k + 1)?;
    Ok(Value::Variant(1, Some(Box::new(alloc, value)?)))
}

#[cycle(lift_at)]
fn lift_fields(
    alloc: Global,
    store: &Store,
    memory: u32,
    fields: &[Field],
    flat: &[CoreValue],
    start: usize,
) -> Result<Vec<Value>, LoadFault>
    requires memory { IsTrue (parts_have_ranges (fields_of fields.now)) → memory < length store.now.memories }
    requires small { all_parts (fields_of fields.now) ≤ 1000000 }
    requires few { start + length (flat_fields (fields_of fields.now)) ≤ 16 }
    ensures ok { IfOk result (λ vs. fields_lifted (bytes_at store.now memory) (fields_of fields.now) (words flat.now) start ≡ Some (values_of vs.items)) }
    ensures trap { IsErrOf result LoadFault.Trap → fields_lifted (bytes_at store.now memory) (fields_of fields.now) (words flat.now) start ≡ None }
{
    let mut values = Vec::with_capacity(alloc, fields.len())?;
    let mut k = start;
    for field in fields {
        let value = lift_at(alloc, store, memory, &field.ty, flat, k)?;
        values.push(value)?;
        k += flat_count(&field.ty);
    }
    Ok(values)
}

#[cycle(lift_at)]
fn lift_types(
    alloc: Global,
    store: &Store,
    memory: u32,
    types: &[WitType],
    flat: &[CoreValue],
    start: usize,
) -> Result<Vec<Value>, LoadFault>
    requires memory { IsTrue (parts_have_ranges (types_of types.now)) → memory < length store.now.memories }
    requires small { all_parts (types_of types.now) ≤ 1000000 }
    requires few { start + length (flat_fields (types_of types.now)) ≤ 16 }
    ensures ok { IfOk result (λ vs. fields_lifted (bytes_at store.now memory) (types_of types.now) (words flat.now) start ≡ Some (values_of vs.items)) }
    ensures trap { IsErrOf result LoadFault.Trap → fields_lifted (bytes_at store.now memory) (types_of types.now) (words flat.now) start ≡ None }
{
    let mut values = Vec::with_capacity(alloc, types.len())?;
    let mut k = start;
    for ty in types {
        let value = lift_at(alloc, store, memory, ty, flat, k)?;
        values.push(value)?;
        k += flat_count(ty);
    }
    Ok(values)
}

/// The value that the flat values from a position on stand for.
#[cycle(lift_at)]
fn lift_at(
    alloc: Global,
    store: &Store,
    memory: u32,
    ty: &WitType,
    flat: &[CoreValue],
    k: usize,
) -> Result<Value, LoadFault>
    requires memory { IsTrue (has_ranges (plain ty.now)) → memory < length store.now.memories }
    requires small { parts (plain ty.now) ≤ 1000000 }
    requires few { k + length (flat_of ty.now) ≤ 16 }
    ensures ok { IfOk result (λ v. lifted (bytes_at store.now memory) (plain ty.now) (words flat.now) k ≡ Some (plain_value v)) }
    ensures trap { IsErrOf result LoadFault.Trap → lifted (bytes_at store.now memory) (plain ty.now) (words flat.now) k ≡ None }
{
    match ty {
        WitType::S64 => {
            let bits = wide_word(flat, k);
            Ok(Value::Int(with_sign(bits, 0x8000_0000_0000_0000)))
        }
        WitType::U64 => Ok(Value::Int(wide_word(flat, k) as i128)),
        WitType::Str => {
            let place = low_word(flat, k) as u64;
            let text = load_string(store, memory, place, low_word(flat, k + 1) as u64)?;
            Ok(Value::Str(text))
        }
        WitType::List(item) => {
            let place = low_word(flat, k);
            load_range(alloc, store, memory, item, place, low_word(flat, k + 1))
        }
        WitType::Record(fields) => {
            let values = lift_fields(alloc, store, memory, &fields.items, flat, k)?;
            Ok(Value::Record(Values::Each(values)))
        }
        WitType::Tuple(types) => {
            let values = lift_types(alloc, store, memory, &types.items, flat, k)?;
            Ok(Value::Record(Values::Each(values)))
        }
        WitType::Variant(cases) => lift_variant(alloc, store, memory, &cases.items, flat, k),
        WitType::Enum(labels) => lift_enum(labels.len(), flat, k),
        WitType::Option(some) => lift_option(alloc, store, memory, some, flat, k),
        WitType::Result(ok, err) => {
            let number = low_word(flat, k);
            if number > 1 {
                return Err(LoadFault::Trap);
            }
            if number == 0 {
                lift_case(alloc, store, memory, number, ok, flat, k + 1)
            } else {
                lift_case(alloc, store, memory, number, err, flat, k + 1)
            }
        }
        _ => lift_short(ty, flat, k),
    }
}

/// The value of a type that flat values stand for, which are at most 16. `Trap` comes exactly where lifting traps: where a string
/// or a list passes the end of the memory or traps as it is loaded, where a char is no Unicode scalar value, or the number of a
/// case not that of one. A handle is the index that is given. A memory is asked for only where a value may hold a string or a list.
pub fn lift_flat(
    alloc: Global,
    store: &Store,
    memory: u32,
    ty: &WitType,
    flat: &Items<CoreValue>,
) -> Result<Value, LoadFault>
    requires memory { IsTrue (has_ranges (plain ty.now)) → memory < length store.now.memories }
    requires small { IsSmall ty.now }
    requires few { length (flat_of ty.now) ≤ 16 }
    ensures ok { IfOk result (λ v. lifted (bytes_at store.now memory) (plain ty.now) (words flat.now) 0 ≡ Some (plain_value v)) }
    ensures trap { IsErrOf result LoadFault.Trap → lifted (bytes_at store.now memory) (plain ty.now) (words flat.now) 0 ≡ None }
    ensures typed { IfOk result (λ v. HasType v ty.now) }
{
    lift_at(alloc, store, memory, ty, flat.as_slice(), 0)
}
