//! Where the parts of a value stand in its record.

use abi_layout::{discriminant_width, is_small, layout_of};
use std::rc::Rc;
use wit_types::{Case, WitType};

/// The size and the alignment of a value in memory.
#[derive(Clone, Copy)]
pub struct Extent {
    pub size: u32,
    pub align: u32,
}

const NOTHING: Extent = Extent { size: 0, align: 1 };

/// The extent of a value; a type of more than a million parts, which no listed function has, counts as nothing.
pub fn extent_of(ty: &WitType) -> Extent {
    if is_small(ty) {
        let layout = layout_of(ty);
        Extent {
            size: layout.size,
            align: layout.align,
        }
    } else {
        NOTHING
    }
}

fn align_of_payload(ty: &Option<Rc<WitType>>) -> u32 {
    match ty {
        Some(ty) => extent_of(ty).align,
        None => 1,
    }
}

/// The least multiple of an alignment that is not below a place.
pub fn aligned(at: u32, align: u32) -> u32 {
    let align = u32::max(align, 1);
    let over = at % align;
    if over == 0 {
        at
    } else {
        at.saturating_add(align - over)
    }
}

/// Where the payload of a result stands in its record.
pub fn result_payload(ok: &Option<Rc<WitType>>, err: &Option<Rc<WitType>>) -> u32 {
    aligned(1, u32::max(align_of_payload(ok), align_of_payload(err)))
}

/// Where the payload of an option stands in its record.
pub fn option_payload(some: &WitType) -> u32 {
    aligned(1, extent_of(some).align)
}

/// Where the payload of a variant stands in its record.
pub fn variant_payload(cases: &[Case]) -> u32 {
    let mut align = 1;
    for case in cases {
        align = u32::max(align, align_of_payload(&case.ty));
    }
    aligned(discriminant_width(cases.len()) as u32, align)
}
