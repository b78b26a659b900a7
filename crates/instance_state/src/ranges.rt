//! Whether values of a type may hold strings or lists, for which lifting and lowering need a memory.

#![tactic(auto, using(crate::proofs::Labels::ranges_of))]

ghost use Rattle.std.specs.Prelude.{◌≡◌, []};
ghost use Rattle.wit_types.specs.Plain.{plain, payload_of, case_part, fields_of, types_of, cases_of, End};
ghost use Rattle.abi_layout.specs.Loading.{has_ranges, parts_have_ranges};

use std::rc::Rc;
use wit_types::{Case, Field, WitType};

#[cycle(has_ranges)]
fn has_payload(ty: &Option<Rc<WitType>>) -> bool
    ensures { result ≡ parts_have_ranges (case_part [] (payload_of ty.now) End) }
{
    match ty {
        None => false,
        Some(ty) => has_ranges(ty),
    }
}

#[cycle(has_ranges)]
fn have_fields(fields: &[Field]) -> bool
    ensures { result ≡ parts_have_ranges (fields_of fields.now) }
{
    for field in fields {
        if has_ranges(&field.ty) {
            return true;
        }
    }
    false
}

#[cycle(has_ranges)]
fn have_types(types: &[WitType]) -> bool
    ensures { result ≡ parts_have_ranges (types_of types.now) }
{
    for ty in types {
        if has_ranges(ty) {
            return true;
        }
    }
    false
}

#[cycle(has_ranges)]
fn have_cases(cases: &[Case]) -> bool
    ensures { result ≡ parts_have_ranges (cases_of cases.now) }
{
    for case in cases {
        if has_payload(&case.ty) {
            return true;
        }
    }
    false
}

/// Whether values of a type may hold strings or lists, which lie in memory also where a value passes by flat values.
#[cycle(has_ranges)]
pub fn has_ranges(ty: &WitType) -> bool
    ensures { result ≡ has_ranges (plain ty.now) }
{
    match ty {
        WitType::Str | WitType::List(_) => true,
        WitType::Record(fields) => have_fields(&fields.items),
        WitType::Tuple(types) => have_types(&types.items),
        WitType::Variant(cases) => have_cases(&cases.items),
        WitType::Option(some) => has_ranges(some),
        WitType::Result(ok, err) => has_payload(ok) || has_payload(err),
        WitType::Bool | WitType::S8 | WitType::U8 | WitType::S16 | WitType::U16 => false,
        WitType::S32 | WitType::U32 | WitType::S64 | WitType::U64 => false,
        WitType::Char | WitType::Flags(_) | WitType::Enum(_) => false,
        WitType::Own(_) | WitType::Borrow(_) => false,
    }
}
