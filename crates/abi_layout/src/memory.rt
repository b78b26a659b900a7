//! The size and the alignment of a type, and where the payload of a variant lies (Component Model, CanonicalABI.md, "Alignment" and
//! "Element Size").

#![tactic(auto, using(crate::proofs::LayoutLemmas::layouts))]

ghost use Rattle.std.specs.Prelude.{◌≡◌, ◌<◌, ◌^◌, ◌≤◌, ◌+◌, ◌-◌, ◌*◌, ◌/◌, max, []};
ghost use Rattle.wit_types.specs.Plain.{plain, payload_of, case_part, fields_of, types_of, cases_of, End};
ghost use Rattle.wit_types.specs.Layout.{alignment, greatest_alignment, flags_size, discriminant_size, align_to, size, end_of, greatest_size, variant_size, align_of, size_of};
ghost use Rattle.wit_types.specs.Limits.{parts, all_parts, IsSmall};
ghost use Rattle.core_memory.specs.Number.{IsWidth};

use std::rc::Rc;
use wit_types::{Case, Field, WitType};

/// The bytes that a value takes, and its alignment: a power of two, of which each place of it is a multiple.
#[derive(Debug, Clone, Copy, PartialEq, Eq)]
pub struct Layout {
    pub size: u32,
    pub align: u32,
}

/// The bytes of the number of a case, of that many cases.
pub fn discriminant_width(cases: usize) -> u8
    ensures value { result ≡ discriminant_size cases }
    ensures width { IsWidth result }
    ensures least { 1 ≤ result }
    ensures most { result ≤ 4 }
{
    if cases <= 256 {
        1
    } else if cases <= 65536 {
        2
    } else {
        4
    }
}

/// The bytes of that many flags.
pub fn flags_width(labels: usize) -> u8
    ensures value { result ≡ flags_size labels }
    ensures width { IsWidth result }
    ensures least { 1 ≤ result }
    ensures most { result ≤ 4 }
{
    if labels <= 8 {
        1
    } else if labels <= 16 {
        2
    } else {
        4
    }
}

/// The least multiple of the alignment that is not below the place.
pub fn align_to(at: u32, align: u32) -> u32
    requires aligned { 1 ≤ align }
    requires fits { at + align < 2 ^ 32 }
    ensures value { result ≡ align_to at align }
    ensures near { result ≤ at + (align - 1) }
{
    (at + (align - 1)) / align * align
}

/// Where the payload of a variant of that many cases lies in it, by the greatest alignment of the payloads.
pub fn payload_offset(cases: usize, align: u32) -> u32
    requires least { 1 ≤ align }
    requires aligned { align ≤ 8 }
    ensures value { result ≡ align_to (discriminant_size cases) align }
    ensures most { result ≤ 11 }
{
    align_to(discriminant_width(cases) as u32, align)
}

/// What is aligned to its own size.
fn natural(size: u32) -> Layout
    ensures size { result.size ≡ size }
    ensures align { result.align ≡ size }
{
    Layout { size, align: size }
}

/// A variant, by how many cases it has, and by the greatest size and alignment of its payloads.
fn variant(cases: usize, payloads: Layout) -> Layout
    requires least { 1 ≤ payloads.align }
    requires aligned { payloads.align ≤ 8 }
    requires small { payloads.size ≤ 32000000 }
    ensures size { result.size ≡ variant_size (discriminant_size cases) payloads.align payloads.size }
    ensures align { result.align ≡ max (discriminant_size cases) payloads.align }
    ensures least { 1 ≤ result.align }
    ensures aligned { result.align ≤ 8 }
{
    let tag = discriminant_width(cases) as u32;
    let align = u32::max(tag, payloads.align);
    let size = align_to(align_to(tag, payloads.align) + payloads.size, align);
    Layout { size, align }
}

/// The greater size and the greater alignment of two.
fn greater(one: Layout, other: Layout) -> Layout
    ensures size { result.size ≡ max one.size other.size }
    ensures align { result.align ≡ max one.align other.align }
{
    Layout {
        size: u32::max(one.size, other.size),
        align: u32::max(one.align, other.align),
    }
}

/// The size and the alignment of a payload; without one they are 0 and 1.
#[cycle(layout_of)]
pub fn layout_of_payload(ty: &Option<Rc<WitType>>) -> Layout
    requires { all_parts (case_part [] (payload_of ty.now) End) ≤ 1000000 }
    ensures size { result.size ≡ greatest_size (case_part [] (payload_of ty.now) End) }
    ensures align { result.align ≡ greatest_alignment (case_part [] (payload_of ty.now) End) }
    ensures most { result.size ≤ 32 * all_parts (case_part [] (payload_of ty.now) End) }
    ensures least { 1 ≤ result.align }
    ensures aligned { result.align ≤ 8 }
{
    match ty {
        None => Layout { size: 0, align: 1 },
        Some(ty) => layout_of(ty),
    }
}

#[cycle(layout_of)]
#[tactic(auto, using(crate::proofs::LayoutLemmas::bounds))]
fn layout_of_fields(fields: &[Field]) -> Layout
    requires { all_parts (fields_of fields.now) ≤ 1000000 }
    ensures size { result.size ≡ align_to (end_of (fields_of fields.now) 0) (greatest_alignment (fields_of fields.now)) }
    ensures align { result.align ≡ greatest_alignment (fields_of fields.now) }
    ensures least { 1 ≤ result.align }
    ensures aligned { result.align ≤ 8 }
{
    let mut end = 0;
    let mut align = 1;
    for field in fields {
        let part = layout_of(&field.ty);
        end = align_to(end, part.align) + part.size;
        align = u32::max(align, part.align);
    }
    Layout {
        size: align_to(end, align),
        align,
    }
}

#[cycle(layout_of)]
#[tactic(auto, using(crate::proofs::LayoutLemmas::bounds))]
fn layout_of_types(types: &[WitType]) -> Layout
    requires { all_parts (types_of types.now) ≤ 1000000 }
    ensures size { result.size ≡ align_to (end_of (types_of types.now) 0) (greatest_alignment (types_of types.now)) }
    ensures align { result.align ≡ greatest_alignment (types_of types.now) }
    ensures least { 1 ≤ result.align }
    ensures aligned { result.align ≤ 8 }
{
    let mut end = 0;
    let mut align = 1;
    for ty in types {
        let part = layout_of(ty);
        end = align_to(end, part.align) + part.size;
        align = u32::max(align, part.align);
    }
    Layout {
        size: align_to(end, align),
        align,
    }
}

/// The greatest size and the greatest alignment of the payloads of cases.
#[cycle(layout_of)]
#[tactic(auto, using(crate::proofs::LayoutLemmas::bounds))]
pub fn layout_of_cases(cases: &[Case]) -> Layout
    requires { all_parts (cases_of cases.now) ≤ 1000000 }
    ensures size { result.size ≡ greatest_size (cases_of cases.now) }
    ensures align { result.align ≡ greatest_alignment (cases_of cases.now) }
    ensures most { result.size ≤ 32 * all_parts (cases_of cases.now) }
    ensures least { 1 ≤ result.align }
    ensures aligned { result.align ≤ 8 }
{
    let mut most = Layout { size: 0, align: 1 };
    for case in cases {
        most = greater(most, layout_of_payload(&case.ty));
    }
    most
}

/// The size and the alignment of a value, at the cost of one walk through the type.
#[cycle(layout_of)]
pub fn layout_of(ty: &WitType) -> Layout
    requires { IsSmall ty.now }
    ensures size { result.size ≡ size_of ty.now }
    ensures align { result.align ≡ align_of ty.now }
    ensures most { result.size + 8 ≤ 32 * parts (plain ty.now) }
    ensures least { 1 ≤ result.align }
    ensures aligned { result.align ≤ 8 }
{
    match ty {
        WitType::Bool | WitType::S8 | WitType::U8 => natural(1),
        WitType::S16 | WitType::U16 => natural(2),
        WitType::S32 | WitType::U32 | WitType::Char => natural(4),
        WitType::S64 | WitType::U64 => natural(8),
        WitType::Own(_) | WitType::Borrow(_) => natural(4),
        WitType::Str | WitType::List(_) => Layout { size: 8, align: 4 },
        WitType::Record(fields) => layout_of_fields(&fields.items),
        WitType::Tuple(types) => layout_of_types(&types.items),
        WitType::Variant(cases) => variant(cases.items.len(), layout_of_cases(&cases.items)),
        WitType::Flags(labels) => natural(flags_width(labels.len()) as u32),
        WitType::Enum(labels) => natural(discriminant_width(labels.len()) as u32),
        WitType::Option(some) => variant(2, layout_of(some)),
        WitType::Result(ok, err) => {
            variant(2, greater(layout_of_payload(ok), layout_of_payload(err)))
        }
    }
}

/// The bytes that a value takes in memory.
pub fn size(ty: &WitType) -> u32
    requires { IsSmall ty.now }
    ensures value { result ≡ size_of ty.now }
    ensures most { result ≤ 32000000 }
{
    layout_of(ty).size
}

/// The alignment of a value in memory: 1, 2, 4 or 8.
pub fn align(ty: &WitType) -> u32
    requires { IsSmall ty.now }
    ensures value { result ≡ align_of ty.now }
    ensures least { 1 ≤ result }
    ensures most { result ≤ 8 }
{
    layout_of(ty).align
}
