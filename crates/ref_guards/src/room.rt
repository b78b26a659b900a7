//! Room for the handles of a result: as many places of a kind must be free as the result has own handles of it outside lists.

#![tactic(auto, using(wit_types::proofs::PlainLemmas::plains, crate::proofs::RoomLemmas::room_rules))]

ghost use Rattle.std.specs.Prelude.{◌≡◌, ◌<◌, ◌+◌, ◌^◌, ℕ, [], map, Option};
ghost use Rattle.wit_types.specs.Plain.{Plain, plain, plain_result, payload_of, case_part, fields_of, types_of, cases_of, End};
ghost use Rattle.policy_data.specs.declared.policy.Policy.{Policy};
ghost use Rattle.tree_table.specs.Tables.{Forest};
ghost use Rattle.reference_step.specs.Rules.{owns, owns_in, same_kind, kinds, has_places};
ghost use Rattle.ref_answers.specs.Seen.{live_in};
ghost use Rattle.ref_guards.specs.Owned.{each_at_most, owned_at_most};

use ref_rules::LiveHandles;
use std::rc::Rc;
use wit_types::{Case, Field, WitType};

/// How many kinds of resources are listed.
const KINDS: usize = 14;

#[cycle(note_owned)]
fn note_payload(ty: &Option<Rc<WitType>>, owned: &mut [u32; 14])
    ensures { (many : ℕ → ℕ) → owned.old ≡ each_at_most many → owned.new ≡ each_at_most (λ kind. many kind + owns_in kind (case_part [] (payload_of ty.now) End)) }
{
    match ty {
        None => {}
        Some(ty) => note_owned(ty, owned),
    }
}

#[cycle(note_owned)]
fn note_fields(fields: &[Field], owned: &mut [u32; 14])
    ensures { (many : ℕ → ℕ) → owned.old ≡ each_at_most many → owned.new ≡ each_at_most (λ kind. many kind + owns_in kind (fields_of fields.now)) }
{
    for field in fields {
        note_owned(&field.ty, owned);
    }
}

#[cycle(note_owned)]
fn note_types(types: &[WitType], owned: &mut [u32; 14])
    ensures { (many : ℕ → ℕ) → owned.old ≡ each_at_most many → owned.new ≡ each_at_most (λ kind. many kind + owns_in kind (types_of types.now)) }
{
    for ty in types {
        note_owned(ty, owned);
    }
}

#[cycle(note_owned)]
fn note_cases(cases: &[Case], owned: &mut [u32; 14])
    ensures { (many : ℕ → ℕ) → owned.old ≡ each_at_most many → owned.new ≡ each_at_most (λ kind. many kind + owns_in kind (cases_of cases.now)) }
{
    for case in cases {
        note_payload(&case.ty, owned);
    }
}

/// One more of a kind.
fn note_own(kind: u32, owned: &mut [u32; 14])
    ensures { (many : ℕ → ℕ) → owned.old ≡ each_at_most many → owned.new ≡ each_at_most (λ other. many other + same_kind other kind) }
{
    let at = kind as usize;
    if at < KINDS {
        owned[at] = owned[at].saturating_add(1);
    }
}

/// Notes the own handles of each kind that a type has outside lists, beside those that were noted.
#[cycle(note_owned)]
fn note_owned(ty: &WitType, owned: &mut [u32; 14])
    ensures { (many : ℕ → ℕ) → owned.old ≡ each_at_most many → owned.new ≡ each_at_most (λ kind. many kind + owns kind (plain ty.now)) }
{
    match ty {
        WitType::Bool | WitType::S8 | WitType::U8 | WitType::S16 | WitType::U16 => {}
        WitType::S32 | WitType::U32 | WitType::S64 | WitType::U64 => {}
        WitType::Char | WitType::Str | WitType::Flags(_) | WitType::Enum(_) => {}
        WitType::List(_) | WitType::Borrow(_) => {}
        WitType::Own(kind) => note_own(*kind, owned),
        WitType::Record(fields) => note_fields(&fields.items, owned),
        WitType::Tuple(types) => note_types(&types.items, owned),
        WitType::Variant(cases) => note_cases(&cases.items, owned),
        WitType::Option(ty) => note_owned(ty, owned),
        WitType::Result(ok, err) => {
            note_payload(ok, owned);
            note_payload(err, owned);
        }
    }
}

/// How many own handles of each kind a result has outside lists.
pub fn owned_kinds(ty: &Option<WitType>) -> [u32; 14]
    ensures { result ≡ map (owned_at_most (plain_result ty.now)) kinds }
{
    let mut owned = [0; KINDS];
    match ty {
        None => {}
        Some(ty) => note_owned(ty, &mut owned),
    }
    owned
}

/// Whether there is room for a result with that many own handles of each kind.
pub fn has_places(live: &LiveHandles, owned: &[u32; 14]) -> bool
    requires { live.now.slots < 2 ^ 16 }
    ensures { (p : Policy) (f : Forest) (ty : Option Plain) → p.slots ≡ live.now.slots → owned.now ≡ map (owned_at_most ty) kinds → result ≡ has_places p (live_in f live.now.handles) ty }
{
    for kind in 0..KINDS {
        if owned[kind] > live.room(kind as u32) {
            return false;
        }
    }
    true
}
