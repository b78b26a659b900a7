//! The parts of a type, one after another, whatever form the type has.
#![tactic(auto, using(wit_types::proofs::PlainLemmas::plains, crate::proofs::SlotLemmas::slots))]

ghost use Rattle.std.specs.Prelude.{◌≡◌, [], ◌∷◌, Some, None, option_map, slice_get, length};
ghost use Rattle.wit_types.specs.Plain.{plain, fields_of, types_of, cases_of, bare, payload_of, Name, Plain, ListType, RecordType, VariantType, case_part, End};
ghost use Rattle.comp_types.specs.Items.{same_name};
ghost use Rattle.type_table.specs.Slots.{slots_in, slots_of, form_number, part_of};

use std::rc::Rc;
use virt_base::Text;
use wit_types::{Case, Field, WitType};

/// A part: its name, and its type if it has one. The parts of lists, tuples, options and results have the empty name.
#[derive(Debug, Clone, Copy)]
pub struct Slot<'a> {
    pub name: &'a [u8],
    pub ty: Option<&'a WitType>,
}

/// Whether two names have the same bytes.
pub fn same_name(a: &[u8], b: &[u8]) -> bool
    ensures { result ≡ same_name a.now b.now }
{
    a == b
}

fn field_slot(fields: &[Field], index: usize) -> Option<Slot<'_>>
    ensures { option_map part_of result ≡ slice_get (slots_in (fields_of fields.now)) index }
{
    match fields.get(index) {
        None => None,
        Some(field) => Some(Slot {
            name: field.name.bytes(),
            ty: Some(&field.ty),
        }),
    }
}

fn type_slot(types: &[WitType], index: usize) -> Option<Slot<'_>>
    ensures { option_map part_of result ≡ slice_get (slots_in (types_of types.now)) index }
{
    match types.get(index) {
        None => None,
        Some(ty) => Some(Slot {
            name: &[],
            ty: Some(ty),
        }),
    }
}

fn payload(ty: &Option<Rc<WitType>>) -> Option<&WitType>
    ensures { option_map (λ t. plain t.now) result ≡ payload_of ty.now }
{
    match ty {
        None => None,
        Some(ty) => Some(ty),
    }
}

fn case_slot(cases: &[Case], index: usize) -> Option<Slot<'_>>
    ensures { option_map part_of result ≡ slice_get (slots_in (cases_of cases.now)) index }
{
    match cases.get(index) {
        None => None,
        Some(case) => Some(Slot {
            name: case.name.bytes(),
            ty: payload(&case.ty),
        }),
    }
}

fn label_slot(labels: &[Text], index: usize) -> Option<Slot<'_>>
    ensures { option_map part_of result ≡ slice_get (slots_in (bare labels.now)) index }
{
    match labels.get(index) {
        None => None,
        Some(label) => Some(Slot {
            name: label.bytes(),
            ty: None,
        }),
    }
}

/// The only part, which has a type.
fn item_slot(item: &WitType, index: usize) -> Option<Slot<'_>>
    ensures { option_map part_of result ≡ slice_get (slots_of (ListType (plain item.now))) index }
{
    if index == 0 {
        Some(Slot {
            name: &[],
            ty: Some(item),
        })
    } else {
        None
    }
}

/// A part without a type, and then one with it.
fn option_slot(some: &WitType, index: usize) -> Option<Slot<'_>>
    ensures { option_map part_of result ≡ slice_get (([], None) ∷ ([], Some (plain some.now)) ∷ []) index }
{
    match index {
        0 => Some(Slot {
            name: &[],
            ty: None,
        }),
        1 => Some(Slot {
            name: &[],
            ty: Some(some),
        }),
        _ => None,
    }
}

fn result_slot<'a>(
    ok: &'a Option<Rc<WitType>>,
    error: &'a Option<Rc<WitType>>,
    index: usize,
) -> Option<Slot<'a>>
    ensures { option_map part_of result ≡ slice_get (slots_in (case_part [] (payload_of ok.now) (case_part [] (payload_of error.now) End))) index }
{
    match index {
        0 => Some(Slot {
            name: &[],
            ty: payload(ok),
        }),
        1 => Some(Slot {
            name: &[],
            ty: payload(error),
        }),
        _ => None,
    }
}

/// The part of a type at an index, if there is one.
pub fn slot_at(ty: &WitType, index: usize) -> Option<Slot<'_>>
    ensures { option_map part_of result ≡ slice_get (slots_of (plain ty.now)) index }
{
    match ty {
        WitType::Record(fields) => field_slot(&fields.items, index),
        WitType::Tuple(types) => type_slot(&types.items, index),
        WitType::Variant(cases) => case_slot(&cases.items, index),
        WitType::Enum(labels) => label_slot(labels.as_slice(), index),
        WitType::List(item) => item_slot(item, index),
        WitType::Option(some) => option_slot(some, index),
        WitType::Result(ok, error) => result_slot(ok, error, index),
        _ => None,
    }
}

/// How many parts a type has.
pub fn slot_count(ty: &WitType) -> usize
    ensures { result ≡ length (slots_of (plain ty.now)) }
{
    match ty {
        WitType::Record(fields) => fields.items.len(),
        WitType::Tuple(types) => types.items.len(),
        WitType::Variant(cases) => cases.items.len(),
        WitType::Enum(labels) => labels.len(),
        WitType::List(_) => 1,
        WitType::Option(_) => 2,
        WitType::Result(_, _) => 2,
        _ => 0,
    }
}

/// The number of a type's form; types without parts have the number 0.
pub fn form_number(ty: &WitType) -> u32
    ensures { result ≡ form_number (plain ty.now) }
{
    match ty {
        WitType::List(_) => 1,
        WitType::Record(_) => 2,
        WitType::Tuple(_) => 3,
        WitType::Variant(_) => 4,
        WitType::Enum(_) => 5,
        WitType::Option(_) => 6,
        WitType::Result(_, _) => 7,
        _ => 0,
    }
}
