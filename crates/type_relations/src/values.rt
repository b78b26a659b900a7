//! The resources of a value type, found by a walk through the whole type. Types that stand in a table are searched in `nodes`.

#![tactic(auto, using(wit_types::proofs::PlainLemmas::plains, crate::proofs::ValueLemmas::values))]

ghost use Rattle.std.specs.Prelude.{◌≡◌, OnOk};
ghost use Rattle.wit_types.specs.Plain.{plain, fields_of, types_of, cases_of, payload_of};
ghost use Rattle.comp_types.specs.GivenResources.{named_in_answer, named_in_parts, named_in_value};
ghost use Rattle.type_relations.specs.Once.{and_each};

use crate::resources::Resources;
use std::rc::Rc;
use virt_base::NoMemory;
use wit_types::{Case, Field, WitType};

#[cycle(add_value)]
fn add_payload(found: &mut Resources, ty: &Option<Rc<WitType>>) -> Result<(), NoMemory>
    ensures { OnOk result (found.new ≡ and_each found.old (named_in_answer (payload_of ty.now))) }
{
    match ty {
        None => Ok(()),
        Some(ty) => {
            add_value(found, ty)?;
            Ok(())
        }
    }
}

#[cycle(add_value)]
fn add_types(found: &mut Resources, types: &[WitType]) -> Result<(), NoMemory>
    ensures { OnOk result (found.new ≡ and_each found.old (named_in_parts (types_of types.now))) }
{
    for ty in types {
        add_value(found, ty)?;
    }
    Ok(())
}

#[cycle(add_value)]
fn add_fields(found: &mut Resources, fields: &[Field]) -> Result<(), NoMemory>
    ensures { OnOk result (found.new ≡ and_each found.old (named_in_parts (fields_of fields.now))) }
{
    for field in fields {
        add_value(found, &field.ty)?;
    }
    Ok(())
}

#[cycle(add_value)]
fn add_cases(found: &mut Resources, cases: &[Case]) -> Result<(), NoMemory>
    ensures { OnOk result (found.new ≡ and_each found.old (named_in_parts (cases_of cases.now))) }
{
    for case in cases {
        add_payload(found, &case.ty)?;
    }
    Ok(())
}

/// Adds the resources of the handles in a type.
#[cycle(add_value)]
pub fn add_value(found: &mut Resources, ty: &WitType) -> Result<(), NoMemory>
    ensures { OnOk result (found.new ≡ and_each found.old (named_in_value (plain ty.now))) }
{
    match ty {
        WitType::Bool | WitType::Char | WitType::Str => Ok(()),
        WitType::S8 | WitType::U8 | WitType::S16 | WitType::U16 => Ok(()),
        WitType::S32 | WitType::U32 | WitType::S64 | WitType::U64 => Ok(()),
        WitType::Flags(_) => Ok(()),
        WitType::Enum(_) => Ok(()),
        WitType::Record(fields) => {
            add_fields(found, &fields.items)?;
            Ok(())
        }
        WitType::Tuple(types) => {
            add_types(found, &types.items)?;
            Ok(())
        }
        WitType::Variant(cases) => {
            add_cases(found, &cases.items)?;
            Ok(())
        }
        WitType::List(item) => {
            add_value(found, item)?;
            Ok(())
        }
        WitType::Option(some) => {
            add_value(found, some)?;
            Ok(())
        }
        WitType::Result(ok, error) => {
            add_payload(found, ok)?;
            add_payload(found, error)?;
            Ok(())
        }
        WitType::Own(resource) => {
            found.push(*resource)?;
            Ok(())
        }
        WitType::Borrow(resource) => {
            found.push(*resource)?;
            Ok(())
        }
    }
}
