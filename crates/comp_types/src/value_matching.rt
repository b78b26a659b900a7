//! Two value types are matched: each resource of the one gets a partner in the other. No table is asked for.

#![tactic(auto, using(wit_types::proofs::PlainLemmas::plains, crate::proofs::ValueLemmas::values, crate::proofs::Only::only))]

ghost use Rattle.std.specs.Prelude.{◌≡◌, IfOk, [], nat_lt, true};
ghost use Rattle.std.specs.Cmp.Lexicographic.{pointwise};
ghost use Rattle.wit_types.specs.Plain.{RecordType, AsRecord, AsTuple, VariantType, AsVariant, AsEnum, AsOption, AsResult, ListType, FlagsType, OwnType, BorrowType, Bare, More, End, bare, case_part, plain, fields_of, types_of, cases_of, payload_of};
ghost use Rattle.comp_types.specs.Items.{same_name};
ghost use Rattle.comp_types.specs.Matching.{Pairs, GoesOn, primitive_number, matched_value, matched_parts, matched_answer};

use crate::substitution::Substitution;
use std::rc::Rc;
use virt_base::{NoMemory, Text};
use wit_types::{Case, Field, WitType};

fn same_name(a: &Text, b: &Text) -> bool
    ensures { result ≡ same_name a.now b.now }
{
    a.bytes() == b.bytes()
}

fn same_labels(a: &[Text], b: &[Text]) -> bool
    ensures { result ≡ pointwise same_name a.now b.now }
{
    if a.len() != b.len() {
        return false;
    }
    for i in 0..a.len() {
        if !same_name(&a[i], &b[i]) {
            return false;
        }
    }
    true
}

#[cycle(match_value)]
fn match_fields(by: &mut Substitution, a: &[Field], b: &[Field]) -> Result<bool, NoMemory>
    ensures { IfOk result (λ same. GoesOn same by.new (matched_parts by.old (fields_of a.now) (fields_of b.now))) }
{
    if a.len() != b.len() {
        return Ok(false);
    }
    for i in 0..a.len() {
        if !same_name(&a[i].name, &b[i].name) {
            return Ok(false);
        }
        if !match_value(by, &a[i].ty, &b[i].ty)? {
            return Ok(false);
        }
    }
    Ok(true)
}

#[cycle(match_value)]
fn match_types(by: &mut Substitution, a: &[WitType], b: &[WitType]) -> Result<bool, NoMemory>
    ensures { IfOk result (λ same. GoesOn same by.new (matched_parts by.old (types_of a.now) (types_of b.now))) }
{
    if a.len() != b.len() {
        return Ok(false);
    }
    for i in 0..a.len() {
        if !match_value(by, &a[i], &b[i])? {
            return Ok(false);
        }
    }
    Ok(true)
}

#[cycle(match_value)]
fn match_cases(by: &mut Substitution, a: &[Case], b: &[Case]) -> Result<bool, NoMemory>
    ensures { IfOk result (λ same. GoesOn same by.new (matched_parts by.old (cases_of a.now) (cases_of b.now))) }
{
    if a.len() != b.len() {
        return Ok(false);
    }
    for i in 0..a.len() {
        if !same_name(&a[i].name, &b[i].name) {
            return Ok(false);
        }
        if !match_payload(by, &a[i].ty, &b[i].ty)? {
            return Ok(false);
        }
    }
    Ok(true)
}

#[cycle(match_value)]
fn match_payload(
    by: &mut Substitution,
    a: &Option<Rc<WitType>>,
    b: &Option<Rc<WitType>>,
) -> Result<bool, NoMemory>
    ensures { IfOk result (λ same. GoesOn same by.new (matched_answer by.old (payload_of a.now) (payload_of b.now))) }
{
    match (a, b) {
        (None, None) => Ok(true),
        (Some(a), Some(b)) => {
            let same = match_value(by, a, b)?;
            Ok(same)
        }
        (None, Some(_)) => Ok(false),
        (Some(_), None) => Ok(false),
    }
}

#[cycle(match_value)]
fn match_record(by: &mut Substitution, a: &[Field], b: &WitType) -> Result<bool, NoMemory>
    ensures { IfOk result (λ same. GoesOn same by.new (matched_value by.old (RecordType AsRecord (fields_of a.now)) (plain b.now))) }
{
    match b {
        WitType::Record(b) => {
            let same = match_fields(by, a, &b.items)?;
            Ok(same)
        }
        _ => Ok(false),
    }
}

#[cycle(match_value)]
fn match_tuple(by: &mut Substitution, a: &[WitType], b: &WitType) -> Result<bool, NoMemory>
    ensures { IfOk result (λ same. GoesOn same by.new (matched_value by.old (RecordType AsTuple (types_of a.now)) (plain b.now))) }
{
    match b {
        WitType::Tuple(b) => {
            let same = match_types(by, a, &b.items)?;
            Ok(same)
        }
        _ => Ok(false),
    }
}

#[cycle(match_value)]
fn match_variant(by: &mut Substitution, a: &[Case], b: &WitType) -> Result<bool, NoMemory>
    ensures { IfOk result (λ same. GoesOn same by.new (matched_value by.old (VariantType AsVariant (cases_of a.now)) (plain b.now))) }
{
    match b {
        WitType::Variant(b) => {
            let same = match_cases(by, a, &b.items)?;
            Ok(same)
        }
        _ => Ok(false),
    }
}

#[cycle(match_value)]
fn match_list(by: &mut Substitution, a: &WitType, b: &WitType) -> Result<bool, NoMemory>
    ensures { IfOk result (λ same. GoesOn same by.new (matched_value by.old (ListType (plain a.now)) (plain b.now))) }
{
    match b {
        WitType::List(b) => {
            let same = match_value(by, a, b)?;
            Ok(same)
        }
        _ => Ok(false),
    }
}

#[cycle(match_value)]
fn match_option(by: &mut Substitution, a: &WitType, b: &WitType) -> Result<bool, NoMemory>
    ensures { IfOk result (λ same. GoesOn same by.new (matched_value by.old (VariantType AsOption (Bare [] (More [] (plain a.now) End))) (plain b.now))) }
{
    match b {
        WitType::Option(b) => {
            let same = match_value(by, a, b)?;
            Ok(same)
        }
        _ => Ok(false),
    }
}

fn same_flags(a: &[Text], b: &WitType) -> bool
    ensures { (by : Pairs) → GoesOn result by (matched_value by (FlagsType a.now) (plain b.now)) }
{
    match b {
        WitType::Flags(b) => same_labels(a, b.as_slice()),
        _ => false,
    }
}

fn same_enum(a: &[Text], b: &WitType) -> bool
    ensures { (by : Pairs) → GoesOn result by (matched_value by (VariantType AsEnum (bare a.now)) (plain b.now)) }
{
    match b {
        WitType::Enum(b) => same_labels(a, b.as_slice()),
        _ => false,
    }
}

fn match_own(by: &mut Substitution, a: u32, b: &WitType) -> Result<bool, NoMemory>
    ensures { IfOk result (λ same. GoesOn same by.new (matched_value by.old (OwnType a) (plain b.now))) }
{
    match b {
        WitType::Own(b) => {
            let same = by.meet(*b, a)?;
            Ok(same)
        }
        _ => Ok(false),
    }
}

fn match_borrow(by: &mut Substitution, a: u32, b: &WitType) -> Result<bool, NoMemory>
    ensures { IfOk result (λ same. GoesOn same by.new (matched_value by.old (BorrowType a) (plain b.now))) }
{
    match b {
        WitType::Borrow(b) => {
            let same = by.meet(*b, a)?;
            Ok(same)
        }
        _ => Ok(false),
    }
}

/// The number of a type without parts; others have the number 0.
fn primitive_number(ty: &WitType) -> u32
    ensures { result ≡ primitive_number (plain ty.now) }
{
    match ty {
        WitType::Bool => 1,
        WitType::S8 => 2,
        WitType::U8 => 3,
        WitType::S16 => 4,
        WitType::U16 => 5,
        WitType::S32 => 6,
        WitType::U32 => 7,
        WitType::S64 => 8,
        WitType::U64 => 9,
        WitType::Char => 10,
        WitType::Str => 11,
        _ => 0,
    }
}

/// Whether both have the same number: of types without parts, whether they are the same.
fn same_primitive(a: &WitType, b: &WitType) -> bool
    ensures { (by : Pairs) → nat_lt 0 (primitive_number (plain a.now)) ≡ true → GoesOn result by (matched_value by (plain a.now) (plain b.now)) }
{
    primitive_number(a) == primitive_number(b)
}

/// Whether the first type is the second one, with a partner for each resource of it.
#[cycle(match_value)]
pub fn match_value(by: &mut Substitution, a: &WitType, b: &WitType) -> Result<bool, NoMemory>
    ensures { IfOk result (λ same. GoesOn same by.new (matched_value by.old (plain a.now) (plain b.now))) }
{
    match a {
        WitType::Flags(labels) => Ok(same_flags(labels.as_slice(), b)),
        WitType::Enum(labels) => Ok(same_enum(labels.as_slice(), b)),
        WitType::Record(a) => {
            let same = match_record(by, &a.items, b)?;
            Ok(same)
        }
        WitType::Tuple(a) => {
            let same = match_tuple(by, &a.items, b)?;
            Ok(same)
        }
        WitType::Variant(a) => {
            let same = match_variant(by, &a.items, b)?;
            Ok(same)
        }
        WitType::List(a) => {
            let same = match_list(by, a, b)?;
            Ok(same)
        }
        WitType::Option(a) => {
            let same = match_option(by, a, b)?;
            Ok(same)
        }
        WitType::Result(ok, error) => {
            let WitType::Result(other_ok, other_error) = b else {
                return Ok(false);
            };
            if !match_payload(by, ok, other_ok)? {
                return Ok(false);
            }
            let same = match_payload(by, error, other_error)?;
            Ok(same)
        }
        WitType::Own(x) => {
            let same = match_own(by, *x, b)?;
            Ok(same)
        }
        WitType::Borrow(x) => {
            let same = match_borrow(by, *x, b)?;
            Ok(same)
        }
        _ => Ok(same_primitive(a, b)),
    }
}
