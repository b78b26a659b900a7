//! The flat types of a type: those of fields follow one another, those of cases are joined (Component Model, CanonicalABI.md,
//! "Flattening").

#![tactic(auto, using(crate::proofs::FlatLemmas::flats))]

ghost use Rattle.std.specs.Prelude.{◌≡◌, ◌<◌, ◌≤◌, ◌∷◌, [], max, Some, None, slice_index_or, take};
ghost use Rattle.virt_base.specs.declared.core_type.CoreType.TheVariants.{I32};
ghost use Rattle.wit_types.specs.Plain.{payload_of, case_part, fields_of, types_of as parts_of, cases_of, End};
ghost use Rattle.wit_types.specs.Layout.{join_one, join, flat_fields, flat_cases, flat_of};
ghost use Rattle.abi_layout.specs.Flat.{within, types_of, append_within, join_within};

use crate::flat_types::Flat;
use std::rc::Rc;
use virt_base::CoreType;
use wit_types::{Case, Field, WitType};

/// More than 16 core types.
fn too_many() -> Flat
    ensures { types_of result ≡ None }
{
    Flat {
        types: [CoreType::I32; 16],
        count: 17,
    }
}

fn join_one(one: CoreType, other: CoreType) -> CoreType
    ensures { result ≡ join_one one other }
{
    match one {
        CoreType::I32 => match other {
            CoreType::I32 => CoreType::I32,
            CoreType::I64 | CoreType::Funcref | CoreType::Externref => CoreType::I64,
        },
        CoreType::I64 | CoreType::Funcref | CoreType::Externref => CoreType::I64,
    }
}

/// The type at a place of two lists joined.
fn joined_at(one: &Flat, other: &Flat, i: u8) -> CoreType
    requires one { one.now.count ≤ 16 }
    requires other { other.now.count ≤ 16 }
    requires within { i < max one.now.count other.now.count }
    ensures { result ≡ slice_index_or (join (take one.now.count one.now.types) (take other.now.count other.now.types)) i I32 }
{
    let at = i as usize;
    if i >= other.count {
        one.types[at]
    } else if i >= one.count {
        other.types[at]
    } else {
        join_one(one.types[at], other.types[at])
    }
}

/// Two lists joined.
pub fn joined(one: &Flat, other: &Flat) -> Flat
    ensures { types_of result ≡ join_within (types_of one.now) (types_of other.now) }
{
    let count = u8::max(one.count, other.count);
    if count > 16 {
        return too_many();
    }
    let mut all = Flat::empty();
    for i in 0..count {
        all.push(joined_at(one, other, i));
    }
    all
}

/// One type.
pub fn single(ty: CoreType) -> Flat
    ensures { types_of result ≡ Some (ty ∷ []) }
{
    Flat {
        types: [ty; 16],
        count: 1,
    }
}

/// A place and a length.
pub fn place_and_length() -> Flat
    ensures { types_of result ≡ Some (I32 ∷ I32 ∷ []) }
{
    Flat {
        types: [CoreType::I32; 16],
        count: 2,
    }
}

/// The number of a case, and then the payloads joined.
pub fn variant(payloads: &Flat) -> Flat
    ensures { types_of result ≡ append_within (Some (I32 ∷ [])) (types_of payloads.now) }
{
    let mut all = single(CoreType::I32);
    all.append(payloads);
    all
}

#[cycle(flatten)]
fn flatten_payload(ty: &Option<Rc<WitType>>) -> Flat
    ensures { types_of result ≡ within (flat_cases (case_part [] (payload_of ty.now) End)) }
{
    match ty {
        None => Flat::empty(),
        Some(ty) => flatten(ty),
    }
}

#[cycle(flatten)]
fn flatten_fields(fields: &[Field]) -> Flat
    ensures { types_of result ≡ within (flat_fields (fields_of fields.now)) }
{
    let mut all = Flat::empty();
    for field in fields {
        let part = flatten(&field.ty);
        all.append(&part);
    }
    all
}

#[cycle(flatten)]
fn flatten_types(types: &[WitType]) -> Flat
    ensures { types_of result ≡ within (flat_fields (parts_of types.now)) }
{
    let mut all = Flat::empty();
    for ty in types {
        let part = flatten(ty);
        all.append(&part);
    }
    all
}

#[cycle(flatten)]
fn flatten_cases(cases: &[Case]) -> Flat
    ensures { types_of result ≡ within (flat_cases (cases_of cases.now)) }
{
    let mut all = Flat::empty();
    for case in cases {
        let payload = flatten_payload(&case.ty);
        all = joined(&all, &payload);
    }
    all
}

/// The core types by which a value is passed.
#[cycle(flatten)]
pub fn flatten(ty: &WitType) -> Flat
    ensures { types_of result ≡ within (flat_of ty.now) }
{
    match ty {
        WitType::S64 | WitType::U64 => single(CoreType::I64),
        WitType::Bool | WitType::S8 | WitType::U8 | WitType::S16 | WitType::U16 => {
            single(CoreType::I32)
        }
        WitType::S32 | WitType::U32 | WitType::Char => single(CoreType::I32),
        WitType::Flags(_) | WitType::Enum(_) | WitType::Own(_) | WitType::Borrow(_) => {
            single(CoreType::I32)
        }
        WitType::Str | WitType::List(_) => place_and_length(),
        WitType::Record(fields) => flatten_fields(&fields.items),
        WitType::Tuple(types) => flatten_types(&types.items),
        WitType::Variant(cases) => variant(&flatten_cases(&cases.items)),
        WitType::Option(some) => variant(&flatten(some)),
        WitType::Result(ok, err) => variant(&joined(&flatten_payload(ok), &flatten_payload(err))),
    }
}
