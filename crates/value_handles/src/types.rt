//! Whether values of a type may hold handles (Component Model, Explainer.md, "Handle types"). Lists of items without them are not walked.

#![tactic(auto, using(crate::proofs::Views::views))]

ghost use Rattle.std.specs.Prelude.{◌≡◌, []};
ghost use Rattle.wit_types.specs.Plain.{plain, payload_of, case_part, fields_of, types_of, cases_of, End};
ghost use Rattle.value_handles.specs.Whether.{has_handles, parts_have_handles};

use std::rc::Rc;
use wit_types::{Case, Field, WitType};

#[cycle(has_handles)]
fn has_payload(ty: &Option<Rc<WitType>>) -> bool
    ensures { result ≡ parts_have_handles (case_part [] (payload_of ty.now) End) }
{
    match ty {
        None => false,
        Some(ty) => has_handles(ty),
    }
}

#[cycle(has_handles)]
fn have_fields(fields: &[Field]) -> bool
    ensures { result ≡ parts_have_handles (fields_of fields.now) }
{
    for field in fields {
        if has_handles(&field.ty) {
            return true;
        }
    }
    false
}

#[cycle(has_handles)]
fn have_types(types: &[WitType]) -> bool
    ensures { result ≡ parts_have_handles (types_of types.now) }
{
    for ty in types {
        if has_handles(ty) {
            return true;
        }
    }
    false
}

#[cycle(has_handles)]
fn have_cases(cases: &[Case]) -> bool
    ensures { result ≡ parts_have_handles (cases_of cases.now) }
{
    for case in cases {
        if has_payload(&case.ty) {
            return true;
        }
    }
    false
}

/// Whether values of a type may hold handles.
#[cycle(has_handles)]
pub fn has_handles(ty: &WitType) -> bool
    ensures { result ≡ has_handles (plain ty.now) }
{
    match ty {
        WitType::Own(_) | WitType::Borrow(_) => true,
        WitType::List(item) => has_handles(item),
        WitType::Record(fields) => have_fields(&fields.items),
        WitType::Tuple(types) => have_types(&types.items),
        WitType::Variant(cases) => have_cases(&cases.items),
        WitType::Option(some) => has_handles(some),
        WitType::Result(ok, err) => has_payload(ok) || has_payload(err),
        _ => false,
    }
}
