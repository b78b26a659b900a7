//! Types that are equal but for the numbers of handles, by which the type of a call's result is compared with the listed one.

#![tactic(auto, using(wit_types::proofs::PlainLemmas::plains, crate::proofs::AlikeLemmas::case_before, crate::proofs::AlikeLemmas::bare_alike, crate::proofs::AlikeLemmas::result_alike, crate::proofs::Only::only))]

ghost use Rattle.std.specs.Prelude.{◌≡◌, [], false, IfSome, IfNone};
ghost use Rattle.wit_types.specs.Plain.{Parts, plain, plain_result, payload_of, case_part, fields_of, types_of, cases_of, bare, AsRecord, AsTuple, AsVariant, AsEnum, AsOption, AsResult, Bare, More, End, ListType, RecordType, VariantType};
ghost use Rattle.reference_step.specs.Rules.{alike, alike_parts, alike_results, same_labels, is_list_type, is_record_type, is_variant_type, is_flags_type, is_own, is_borrow};
ghost use Rattle.ref_guards.specs.Leaves.{leaf_of, plain_leaf};

use std::rc::Rc;
use virt_base::Text;
use wit_types::{Case, Field, WitType};

/// A type without parts.
#[derive(Debug, Clone, Copy, PartialEq, Eq)]
enum Leaf {
    Bool,
    S8,
    U8,
    S16,
    U16,
    S32,
    U32,
    S64,
    U64,
    Char,
    Str,
}

fn leaf_of(ty: &WitType) -> Option<Leaf>
    ensures { result ≡ leaf_of (plain ty.now) }
{
    match ty {
        WitType::Bool => Some(Leaf::Bool),
        WitType::S8 => Some(Leaf::S8),
        WitType::U8 => Some(Leaf::U8),
        WitType::S16 => Some(Leaf::S16),
        WitType::U16 => Some(Leaf::U16),
        WitType::S32 => Some(Leaf::S32),
        WitType::U32 => Some(Leaf::U32),
        WitType::S64 => Some(Leaf::S64),
        WitType::U64 => Some(Leaf::U64),
        WitType::Char => Some(Leaf::Char),
        WitType::Str => Some(Leaf::Str),
        _ => None,
    }
}

fn is_leaf(leaf: Leaf, ty: &WitType) -> bool
    ensures { result ≡ alike (plain_leaf leaf) (plain ty.now) }
{
    leaf_of(ty) == Some(leaf)
}

fn is_own(ty: &WitType) -> bool
    ensures { result ≡ is_own (plain ty.now) }
{
    match ty {
        WitType::Own(_) => true,
        _ => false,
    }
}

fn is_borrow(ty: &WitType) -> bool
    ensures { result ≡ is_borrow (plain ty.now) }
{
    match ty {
        WitType::Borrow(_) => true,
        _ => false,
    }
}

fn same_labels(labels: &[Text], others: &[Text]) -> bool
    ensures { result ≡ same_labels labels.now others.now }
{
    if labels.len() != others.len() {
        return false;
    }
    for i in 0..labels.len() {
        if labels[i] != others[i] {
            return false;
        }
    }
    true
}

fn is_flags(labels: &[Text], ty: &WitType) -> bool
    ensures { result ≡ is_flags_type labels.now (plain ty.now) }
{
    match ty {
        WitType::Flags(others) => same_labels(labels, others.as_slice()),
        _ => false,
    }
}

fn is_enum(labels: &[Text], ty: &WitType) -> bool
    ensures { result ≡ alike (VariantType AsEnum (bare labels.now)) (plain ty.now) }
{
    match ty {
        WitType::Enum(others) => same_labels(labels, others.as_slice()),
        _ => false,
    }
}

/// The payloads of a result type.
fn payloads_of(ty: &WitType) -> Option<(&Option<Rc<WitType>>, &Option<Rc<WitType>>)>
    ensures some { IfSome result (λ p. plain ty.now ≡ VariantType AsResult (case_part [] (payload_of p.0.now) (case_part [] (payload_of p.1.now) End))) }
    ensures none { IfNone result ((cases : Parts) → alike (VariantType AsResult cases) (plain ty.now) ≡ false) }
{
    match ty {
        WitType::Result(ok, err) => Some((ok, err)),
        _ => None,
    }
}

#[cycle(alike)]
fn are_payloads(ty: &Option<Rc<WitType>>, other: &Option<Rc<WitType>>) -> bool
    ensures { result ≡ alike_results (payload_of ty.now) (payload_of other.now) }
{
    match ty {
        None => other.is_none(),
        Some(ty) => match other {
            None => false,
            Some(other) => alike(ty, other),
        },
    }
}

#[cycle(alike)]
fn are_fields(fields: &[Field], others: &[Field]) -> bool
    ensures { result ≡ alike_parts (fields_of fields.now) (fields_of others.now) }
{
    if fields.len() != others.len() {
        return false;
    }
    for i in 0..fields.len() {
        if fields[i].name != others[i].name || !alike(&fields[i].ty, &others[i].ty) {
            return false;
        }
    }
    true
}

#[cycle(alike)]
fn are_types(types: &[WitType], others: &[WitType]) -> bool
    ensures { result ≡ alike_parts (types_of types.now) (types_of others.now) }
{
    if types.len() != others.len() {
        return false;
    }
    for i in 0..types.len() {
        if !alike(&types[i], &others[i]) {
            return false;
        }
    }
    true
}

#[cycle(alike)]
fn are_cases(cases: &[Case], others: &[Case]) -> bool
    ensures { result ≡ alike_parts (cases_of cases.now) (cases_of others.now) }
{
    if cases.len() != others.len() {
        return false;
    }
    for i in 0..cases.len() {
        if cases[i].name != others[i].name || !are_payloads(&cases[i].ty, &others[i].ty) {
            return false;
        }
    }
    true
}

#[cycle(alike)]
fn is_record(fields: &[Field], ty: &WitType) -> bool
    ensures { result ≡ alike (RecordType AsRecord (fields_of fields.now)) (plain ty.now) }
{
    match ty {
        WitType::Record(others) => are_fields(fields, &others.items),
        _ => false,
    }
}

#[cycle(alike)]
fn is_tuple(types: &[WitType], ty: &WitType) -> bool
    ensures { result ≡ alike (RecordType AsTuple (types_of types.now)) (plain ty.now) }
{
    match ty {
        WitType::Tuple(others) => are_types(types, &others.items),
        WitType::Bool | WitType::S8 | WitType::U8 | WitType::S16 | WitType::U16 => false,
        WitType::S32 | WitType::U32 | WitType::S64 | WitType::U64 => false,
        WitType::Char | WitType::Str => false,
        WitType::Record(_)
        | WitType::Variant(_)
        | WitType::List(_)
        | WitType::Flags(_)
        | WitType::Enum(_) => false,
        WitType::Option(_) | WitType::Result(_, _) | WitType::Own(_) | WitType::Borrow(_) => false,
    }
}

#[cycle(alike)]
fn is_variant(cases: &[Case], ty: &WitType) -> bool
    ensures { result ≡ alike (VariantType AsVariant (cases_of cases.now)) (plain ty.now) }
{
    match ty {
        WitType::Variant(others) => are_cases(cases, &others.items),
        _ => false,
    }
}

#[cycle(alike)]
fn is_list(item: &WitType, ty: &WitType) -> bool
    ensures { result ≡ alike (ListType (plain item.now)) (plain ty.now) }
{
    match ty {
        WitType::List(other) => alike(item, other),
        _ => false,
    }
}

#[cycle(alike)]
fn is_option(some: &WitType, ty: &WitType) -> bool
    ensures { result ≡ alike (VariantType AsOption (Bare [] (More [] (plain some.now) End))) (plain ty.now) }
{
    match ty {
        WitType::Option(other) => alike(some, other),
        _ => false,
    }
}

/// Whether two types are equal but for the numbers of handles.
#[cycle(alike)]
#[tactic(auto, using(wit_types::proofs::PlainLemmas::plains, crate::proofs::AlikeLemmas::case_before, crate::proofs::AlikeLemmas::bare_alike, crate::proofs::AlikeLemmas::result_alike))]
pub fn alike(ty: &WitType, other: &WitType) -> bool
    ensures { result ≡ alike (plain ty.now) (plain other.now) }
{
    match ty {
        WitType::Bool => is_leaf(Leaf::Bool, other),
        WitType::S8 => is_leaf(Leaf::S8, other),
        WitType::U8 => is_leaf(Leaf::U8, other),
        WitType::S16 => is_leaf(Leaf::S16, other),
        WitType::U16 => is_leaf(Leaf::U16, other),
        WitType::S32 => is_leaf(Leaf::S32, other),
        WitType::U32 => is_leaf(Leaf::U32, other),
        WitType::S64 => is_leaf(Leaf::S64, other),
        WitType::U64 => is_leaf(Leaf::U64, other),
        WitType::Char => is_leaf(Leaf::Char, other),
        WitType::Str => is_leaf(Leaf::Str, other),
        WitType::Record(fields) => is_record(&fields.items, other),
        WitType::Tuple(types) => is_tuple(&types.items, other),
        WitType::Variant(cases) => is_variant(&cases.items, other),
        WitType::List(item) => is_list(item, other),
        WitType::Flags(labels) => is_flags(labels.as_slice(), other),
        WitType::Enum(labels) => is_enum(labels.as_slice(), other),
        WitType::Option(some) => is_option(some, other),
        WitType::Result(ok, err) => match payloads_of(other) {
            Some((other_ok, other_err)) => {
                are_payloads(ok, other_ok) && are_payloads(err, other_err)
            }
            None => false,
        },
        WitType::Own(_) => is_own(other),
        WitType::Borrow(_) => is_borrow(other),
    }
}

/// The same of the results of two functions, where they have some.
pub fn alike_results(ty: &Option<WitType>, other: &Option<WitType>) -> bool
    ensures { result ≡ alike_results (plain_result ty.now) (plain_result other.now) }
{
    match ty {
        None => other.is_none(),
        Some(ty) => match other {
            None => false,
            Some(other) => alike(ty, other),
        },
    }
}
