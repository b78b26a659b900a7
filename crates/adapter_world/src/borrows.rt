//! Whether parameters borrow a handle of a kind that can't be the host's: no call of such a function asks the host.

#![tactic(auto, using(crate::proofs::Labels::borrows_of))]

ghost use Rattle.std.specs.Prelude.{◌≡◌, []};
ghost use Rattle.wit_types.specs.Plain.{plain, payload_of, case_part, fields_of, types_of, cases_of, End};
ghost use Rattle.adapter_world.specs.Borrows.{borrows_own, parts_borrow_own};

use crate::kinds::can_be_host;
use policy_data::Policy;
use std::rc::Rc;
use wit_types::{Case, Field, WitType};

#[cycle(borrows_own)]
fn payload_borrows(policy: &Policy, ty: &Option<Rc<WitType>>) -> bool
    ensures { result ≡ parts_borrow_own policy.now (case_part [] (payload_of ty.now) End) }
{
    match ty {
        None => false,
        Some(ty) => borrows_own(policy, ty),
    }
}

/// Whether one of these borrows a handle of a kind that cannot be the host's.
#[cycle(borrows_own)]
pub fn fields_borrow(policy: &Policy, fields: &[Field]) -> bool
    ensures { result ≡ parts_borrow_own policy.now (fields_of fields.now) }
{
    for field in fields {
        if borrows_own(policy, &field.ty) {
            return true;
        }
    }
    false
}

#[cycle(borrows_own)]
fn types_borrow(policy: &Policy, types: &[WitType]) -> bool
    ensures { result ≡ parts_borrow_own policy.now (types_of types.now) }
{
    for ty in types {
        if borrows_own(policy, ty) {
            return true;
        }
    }
    false
}

#[cycle(borrows_own)]
fn cases_borrow(policy: &Policy, cases: &[Case]) -> bool
    ensures { result ≡ parts_borrow_own policy.now (cases_of cases.now) }
{
    for case in cases {
        if payload_borrows(policy, &case.ty) {
            return true;
        }
    }
    false
}

#[cycle(borrows_own)]
fn borrows_own(policy: &Policy, ty: &WitType) -> bool
    ensures { result ≡ borrows_own policy.now (plain ty.now) }
{
    match ty {
        WitType::Record(fields) => fields_borrow(policy, &fields.items),
        WitType::Tuple(types) => types_borrow(policy, &types.items),
        WitType::Variant(cases) => cases_borrow(policy, &cases.items),
        WitType::List(item) => borrows_own(policy, item),
        WitType::Option(some) => borrows_own(policy, some),
        WitType::Result(ok, err) => payload_borrows(policy, ok) || payload_borrows(policy, err),
        WitType::Borrow(kind) => !can_be_host(policy, *kind),
        WitType::Bool | WitType::S8 | WitType::U8 | WitType::S16 | WitType::U16 => false,
        WitType::S32 | WitType::U32 | WitType::S64 | WitType::U64 => false,
        WitType::Char | WitType::Str | WitType::Flags(_) | WitType::Enum(_) => false,
        WitType::Own(_) => false,
    }
}
