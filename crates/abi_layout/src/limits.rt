//! Whether a type is small enough to be laid out. It is tested by counting down, so that the test ends early where the type is large.

#![tactic(auto, using(crate::proofs::LayoutLemmas::counts))]

ghost use Rattle.std.specs.Prelude.{◌≤◌, ◌-◌, ◌↔◌, IsTrue, SomeIff, []};
ghost use Rattle.wit_types.specs.Plain.{plain, payload_of, case_part, fields_of, types_of, cases_of, End};
ghost use Rattle.wit_types.specs.Limits.{parts, all_parts, IsSmall};

use std::rc::Rc;
use wit_types::{Case, Field, WitType};

#[cycle(left_of)]
fn left_of_payload(ty: &Option<Rc<WitType>>, left: u32) -> Option<u32>
    ensures { SomeIff result (all_parts (case_part [] (payload_of ty.now) End) ≤ left) (left - all_parts (case_part [] (payload_of ty.now) End)) }
{
    match ty {
        None => Some(left),
        Some(ty) => left_of(ty, left),
    }
}

#[cycle(left_of)]
fn left_of_fields(fields: &[Field], left: u32) -> Option<u32>
    ensures { SomeIff result (all_parts (fields_of fields.now) ≤ left) (left - all_parts (fields_of fields.now)) }
{
    let mut rest = left;
    for field in fields {
        rest = left_of(&field.ty, rest)?;
    }
    Some(rest)
}

#[cycle(left_of)]
fn left_of_types(types: &[WitType], left: u32) -> Option<u32>
    ensures { SomeIff result (all_parts (types_of types.now) ≤ left) (left - all_parts (types_of types.now)) }
{
    let mut rest = left;
    for ty in types {
        rest = left_of(ty, rest)?;
    }
    Some(rest)
}

#[cycle(left_of)]
fn left_of_cases(cases: &[Case], left: u32) -> Option<u32>
    ensures { SomeIff result (all_parts (cases_of cases.now) ≤ left) (left - all_parts (cases_of cases.now)) }
{
    let mut rest = left;
    for case in cases {
        rest = left_of_payload(&case.ty, rest)?;
    }
    Some(rest)
}

/// What is left of that many parts without those of the type; none where it has more.
#[cycle(left_of)]
fn left_of(ty: &WitType, left: u32) -> Option<u32>
    ensures { SomeIff result (parts (plain ty.now) ≤ left) (left - parts (plain ty.now)) }
{
    let left = left.checked_sub(1)?;
    match ty {
        WitType::Bool | WitType::S8 | WitType::U8 | WitType::S16 | WitType::U16 => Some(left),
        WitType::S32 | WitType::U32 | WitType::S64 | WitType::U64 => Some(left),
        WitType::Char | WitType::Str | WitType::Flags(_) | WitType::Enum(_) => Some(left),
        WitType::Own(_) | WitType::Borrow(_) => Some(left),
        WitType::Record(fields) => left_of_fields(&fields.items, left),
        WitType::Tuple(types) => left_of_types(&types.items, left),
        WitType::Variant(cases) => left_of_cases(&cases.items, left),
        WitType::List(ty) | WitType::Option(ty) => left_of(ty, left),
        WitType::Result(ok, err) => left_of_payload(err, left_of_payload(ok, left)?),
    }
}

/// Whether the type has at most 1,000,000 parts when it is written out, which layout asks for. A type that has more costs no
/// more to test than one of that many.
pub fn is_small(ty: &WitType) -> bool
    ensures { IsTrue result ↔ IsSmall ty.now }
{
    left_of(ty, 1_000_000).is_some()
}
