//! The cases of variants, enums, options and results: the width of their numbers, and where and of which type a payload is.

#![tactic(auto, using(crate::proofs::Views::kinds))]

ghost use Rattle.std.specs.Prelude.{◌≡◌, ◌≤◌, IfOk};
ghost use Rattle.core_memory.specs.Number.{IsWidth};
ghost use Rattle.wit_types.specs.Plain.{plain, payload_of, cases_of};
ghost use Rattle.wit_types.specs.Layout.{count, discriminant_size};
ghost use Rattle.wit_types.specs.Limits.{parts};
ghost use Rattle.abi_layout.specs.Loading.{payload_offset as offset_of};
ghost use Rattle.abi_store.specs.Parts.{cases_in, case_type, some_cases, result_cases};

use abi_layout::{
    discriminant_width, layout_of, layout_of_cases, layout_of_payload, payload_offset,
};
use std::rc::Rc;
use virt_base::NoMemory;
use wit_types::{Case, WitType};

/// How many bytes the number of a case takes.
pub fn number_width(ty: &WitType) -> u8
    ensures value { result ≡ discriminant_size (count (cases_in (plain ty.now))) }
    ensures width { IsWidth result }
{
    match ty {
        WitType::Variant(cases) => discriminant_width(cases.items.len()),
        WitType::Enum(labels) => discriminant_width(labels.len()),
        WitType::Option(_) | WitType::Result(_, _) => discriminant_width(2),
        _ => 1,
    }
}

/// Where the payload of a variant lies in it.
pub fn payload_place(ty: &WitType) -> u32
    requires { parts (plain ty.now) ≤ 1000000 }
    ensures value { result ≡ offset_of (cases_in (plain ty.now)) }
    ensures most { result ≤ 11 }
{
    match ty {
        WitType::Variant(cases) => {
            payload_offset(cases.items.len(), layout_of_cases(&cases.items).align)
        }
        WitType::Enum(labels) => payload_offset(labels.len(), 1),
        WitType::Option(some) => payload_offset(2, layout_of(some).align),
        WitType::Result(ok, err) => {
            let align = u32::max(layout_of_payload(ok).align, layout_of_payload(err).align);
            payload_offset(2, align)
        }
        _ => 1,
    }
}

fn copy_payload(ty: &Option<Rc<WitType>>) -> Result<Option<Rc<WitType>>, NoMemory>
    ensures { IfOk result (λ copy. payload_of copy ≡ payload_of ty.now) }
{
    match ty {
        None => Ok(None),
        Some(ty) => Ok(Some(ty.clone()?)),
    }
}

fn case_payload(cases: &[Case], number: u32) -> Result<Option<Rc<WitType>>, NoMemory>
    ensures { IfOk result (λ ty. payload_of ty ≡ case_type (cases_of cases.now) number) }
{
    match cases.get(number as usize) {
        None => Ok(None),
        Some(case) => copy_payload(&case.ty),
    }
}

fn some_payload(some: &Rc<WitType>, number: u32) -> Result<Option<Rc<WitType>>, NoMemory>
    ensures { IfOk result (λ ty. payload_of ty ≡ case_type (some_cases some.now) number) }
{
    if number == 1 {
        Ok(Some(some.clone()?))
    } else {
        Ok(None)
    }
}

fn result_payload(
    ok: &Option<Rc<WitType>>,
    err: &Option<Rc<WitType>>,
    number: u32,
) -> Result<Option<Rc<WitType>>, NoMemory>
    ensures { IfOk result (λ ty. payload_of ty ≡ case_type (result_cases ok.now err.now) number) }
{
    if number == 0 {
        copy_payload(ok)
    } else if number == 1 {
        copy_payload(err)
    } else {
        Ok(None)
    }
}

/// The type of a case's payload, by the case's number, if there is that case and it has one.
pub fn payload_type(ty: &WitType, number: u32) -> Result<Option<Rc<WitType>>, NoMemory>
    ensures { IfOk result (λ t. payload_of t ≡ case_type (cases_in (plain ty.now)) number) }
{
    match ty {
        WitType::Variant(cases) => case_payload(&cases.items, number),
        WitType::Option(some) => some_payload(some, number),
        WitType::Result(ok, err) => result_payload(ok, err, number),
        _ => Ok(None),
    }
}
