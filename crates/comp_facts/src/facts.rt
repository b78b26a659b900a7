//! The facts of a value type, made from those of its parts for each form of type.

ghost use Rattle.std.specs.Prelude.{◌≡◌, ◌≤◌};
ghost use Rattle.wit_types.specs.Plain.{Plain, Parts, ListType, RecordType, VariantType, FlagsType, OwnType, BorrowType};
ghost use Rattle.comp_facts.specs.Primitives.{primitive_type};
ghost use Rattle.comp_facts.specs.Forms.{record_form, variant_form};

use crate::forms::{RecordForm, VariantForm};
use crate::keys::{and_names, and_number};
use crate::parts::PartFacts;
use abi_layout::{Flat, place_and_length, single, variant};
use virt_base::{CoreType, Text};
use wasm_ast::Primitive;

/// What is kept of a value type.
#[derive(Debug, Clone, Copy)]
pub struct Facts {
    /// 101 stands for more than 100.
    pub depth: u32,
    /// 1,000,001 stands for more than 1,000,000.
    pub parts: u32,
    /// It has a borrowed handle.
    pub borrows: bool,
    /// It has a handle, owned or borrowed.
    pub handles: bool,
    /// It has a string or a list.
    pub pointed: bool,
    pub flat: Flat,
    /// The same for equal types, and seldom the same for others.
    pub key: u64,
    pub ghost shallow: { depth ≤ 101 },
    pub ghost few: { parts ≤ 1000001 },
}

/// A type without parts.
fn leaf(key: u64, borrows: bool, handles: bool, pointed: bool, flat: Flat) -> Facts
    ensures depth { result.depth ≡ 1 }
    ensures parts { result.parts ≡ 1 }
    ensures borrows { result.borrows ≡ borrows }
    ensures handles { result.handles ≡ handles }
    ensures pointed { result.pointed ≡ pointed }
    ensures flat { result.flat ≡ flat }
    ensures key { result.key ≡ key }
{
    Facts {
        depth: 1,
        parts: 1,
        borrows,
        handles,
        pointed,
        flat,
        key,
    }
}

impl Facts {
    ghost use Rattle.comp_facts.specs.Facts.{IsFactsOf, AreFactsOf};

    pub fn primitive(primitive: Primitive) -> Facts
        ensures { IsFactsOf (primitive_type primitive) result }
    {
        match primitive {
            Primitive::Bool => leaf(1, false, false, false, single(CoreType::I32)),
            Primitive::S8 => leaf(2, false, false, false, single(CoreType::I32)),
            Primitive::U8 => leaf(3, false, false, false, single(CoreType::I32)),
            Primitive::S16 => leaf(4, false, false, false, single(CoreType::I32)),
            Primitive::U16 => leaf(5, false, false, false, single(CoreType::I32)),
            Primitive::S32 => leaf(6, false, false, false, single(CoreType::I32)),
            Primitive::U32 => leaf(7, false, false, false, single(CoreType::I32)),
            Primitive::S64 => leaf(8, false, false, false, single(CoreType::I64)),
            Primitive::U64 => leaf(9, false, false, false, single(CoreType::I64)),
            Primitive::Char => leaf(10, false, false, false, single(CoreType::I32)),
            Primitive::String => leaf(11, false, false, true, place_and_length()),
        }
    }

    pub fn own(resource: u32) -> Facts
        ensures { IsFactsOf (OwnType resource) result }
    {
        leaf(
            and_number(12, u64::from(resource)),
            false,
            true,
            false,
            single(CoreType::I32),
        )
    }

    pub fn borrow(resource: u32) -> Facts
        ensures { IsFactsOf (BorrowType resource) result }
    {
        leaf(
            and_number(13, u64::from(resource)),
            true,
            true,
            false,
            single(CoreType::I32),
        )
    }

    pub fn flags(labels: &[Text]) -> Facts
        ensures { IsFactsOf (FlagsType labels.now) result }
    {
        leaf(
            and_names(14, labels),
            false,
            false,
            false,
            single(CoreType::I32),
        )
    }

    /// A list of such items.
    pub fn list(item: &Facts) -> Facts
        ensures { (ty : Plain) → IsFactsOf ty item.now → IsFactsOf (ListType ty) result }
    {
        Facts {
            depth: u32::min(item.depth + 1, 101),
            parts: u32::min(item.parts + 1, 1_000_001),
            borrows: item.borrows,
            handles: item.handles,
            pointed: true,
            flat: place_and_length(),
            key: and_number(15, item.key),
        }
    }

    /// A record or a tuple with these fields.
    pub fn record(form: RecordForm, fields: &PartFacts) -> Facts
        ensures { (ps : Parts) → AreFactsOf ps fields.now → IsFactsOf (RecordType (record_form form) ps) result }
    {
        Facts {
            depth: u32::min(fields.depth + 1, 101),
            parts: u32::min(fields.parts + 1, 1_000_001),
            borrows: fields.borrows,
            handles: fields.handles,
            pointed: fields.pointed,
            flat: fields.fields,
            key: and_number(fields.key, form.number()),
        }
    }

    /// A variant, an enum, an option or a result with these cases.
    pub fn variant(form: VariantForm, cases: &PartFacts) -> Facts
        ensures { (ps : Parts) → AreFactsOf ps cases.now → IsFactsOf (VariantType (variant_form form) ps) result }
    {
        Facts {
            depth: u32::min(cases.depth + 1, 101),
            parts: u32::min(cases.parts + 1, 1_000_001),
            borrows: cases.borrows,
            handles: cases.handles,
            pointed: cases.pointed,
            flat: variant(&cases.cases),
            key: and_number(cases.key, form.number()),
        }
    }
}
