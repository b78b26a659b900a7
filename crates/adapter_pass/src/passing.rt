//! The passing of handles to the host and from it.

use crate::fields::{byte, number};
use crate::frame::Frame;
use crate::kinds::Kind;
use crate::layouts::{aligned, extent_of, option_payload, result_payload, variant_payload};
use crate::owned::has_own;
use crate::routine::Routine;
use crate::tags::Tag;
use abi_layout::{discriminant_width, flatten};
use adapter_code::Field as Part;
use std::rc::Rc;
use table_bytes::WORD;
use wit_types::{Case, Field, FuncType, WitType};

// The index of the host's handle that a place of a kind holds.
fn host_index(f: &Frame, kind: u32, place: u32, to: u32) -> Routine {
    match Kind::numbered(kind) {
        Some(kind) => {
            let spot = f.spare.narrow(0);
            f.spot(kind, place, spot).load(to, spot, WORD)
        }
        None => f.routine().trap(),
    }
}

// One argument, from its first local on.
fn pass(f: &Frame, ty: &WitType, from: u32, to: u32) -> Routine {
    match ty {
        WitType::Borrow(kind) => host_index(f, *kind, from, to),
        _ => {
            let mut routine = f.routine();
            for i in 0..flatten(ty).count {
                let i = i as u32;
                let copied = f
                    .routine()
                    .copy(to.saturating_add(i), from.saturating_add(i));
                routine.extend(copied);
            }
            routine
        }
    }
}

// One argument after others: of the first one the spot may be known.
fn pass_next(f: &Frame, ty: &WitType, at: u32, spot: Option<u32>) -> Routine {
    let to = f.host.saturating_add(at);
    match spot {
        Some(spot) => {
            if at == 0 {
                f.routine().load(to, spot, WORD)
            } else {
                pass(f, ty, at, to)
            }
        }
        None => pass(f, ty, at, to),
    }
}

/// Everything that goes to the host: its own indexes for borrowed handles, the other arguments as they are, and the place of the
/// record, if there is one; then the flag is set, and the routine ends. The first argument's spot may stand in a local already. The
/// first spare local of 32 bits is lost.
pub fn to_host_from(f: &Frame, ty: &FuncType, spot: Option<u32>) -> Routine {
    let mut routine = f.routine();
    let mut at: u32 = 0;
    for param in &ty.params.items {
        routine.extend(pass_next(f, &param.ty, at, spot));
        at = at.saturating_add(flatten(&param.ty).count as u32);
    }
    if f.has_record {
        routine = routine.constant(f.host.saturating_add(at), 0);
    }
    routine.constant(f.flag, 1).answer()
}

/// The same where no spot is known.
pub fn to_host(f: &Frame, ty: &FuncType) -> Routine {
    to_host_from(f, ty, None)
}

/// An index of the host's handle becomes that of a handle of the adapter's own which stands for it. As `make` it loses seven spare
/// locals of 32 bits and one of 64 bits.
pub fn enter(f: &Frame, kind: u32, index: u32) -> Routine {
    match Kind::numbered(kind) {
        Some(kind) => f.make(kind, Tag::Host, Some(index), None, index),
        None => f.routine().trap(),
    }
}

fn enter_at(f: &Frame, kind: u32, offset: u32) -> Routine {
    let index = f.spare.narrow(0);
    f.routine()
        .load(index, f.at, number(offset))
        .part(enter(&f.inside(1), kind, index))
        .store(index, f.at, number(offset))
}

#[cycle(entering)]
fn enter_fields(f: &Frame, fields: &[Field], offset: u32) -> Routine {
    let mut routine = f.routine();
    let mut at = offset;
    for field in fields {
        let extent = extent_of(&field.ty);
        at = aligned(at, extent.align);
        routine.extend(enter_in(f, &field.ty, at));
        at = at.saturating_add(extent.size);
    }
    routine
}

#[cycle(entering)]
fn enter_types(f: &Frame, types: &[WitType], offset: u32) -> Routine {
    let mut routine = f.routine();
    let mut at = offset;
    for ty in types {
        let extent = extent_of(ty);
        at = aligned(at, extent.align);
        routine.extend(enter_in(f, ty, at));
        at = at.saturating_add(extent.size);
    }
    routine
}

// Where the case is that of the payload, the payload's handles.
#[cycle(entering)]
fn enter_payload(
    f: &Frame,
    ty: &Option<Rc<WitType>>,
    case: u32,
    value: u64,
    offset: u32,
) -> Routine {
    match ty {
        Some(ty) => {
            if has_own(ty) {
                let inner = enter_in(&f.inside(1), ty, offset);
                let test = f.spare.narrow(0);
                f.routine().when_is(case, value, f.scratch, test, inner)
            } else {
                f.routine()
            }
        }
        None => f.routine(),
    }
}

#[cycle(entering)]
fn enter_option(f: &Frame, some: &WitType, offset: u32) -> Routine {
    let case = f.spare.narrow(0);
    let test = f.spare.narrow(1);
    let payload = offset.saturating_add(option_payload(some));
    let entered = enter_in(&f.inside(2), some, payload);
    f.routine()
        .load(case, f.at, byte(offset))
        .when_is(case, 1, f.scratch, test, entered)
}

#[cycle(entering)]
fn enter_cases(f: &Frame, cases: &[Case], case: u32, offset: u32) -> Routine {
    let mut routine = f.routine();
    let mut value: u64 = 0;
    for one in cases {
        routine.extend(enter_payload(f, &one.ty, case, value, offset));
        value = value.saturating_add(1);
    }
    routine
}

#[cycle(entering)]
fn enter_variant(f: &Frame, cases: &[Case], offset: u32) -> Routine {
    let case = f.spare.narrow(0);
    let width = discriminant_width(cases.len());
    let payload = offset.saturating_add(variant_payload(cases));
    let entered = enter_cases(&f.inside(1), cases, case, payload);
    f.routine()
        .load(case, f.at, Part { offset, width })
        .part(entered)
}

// The own handles of what stands at an offset of the record.
#[cycle(entering)]
fn enter_in(f: &Frame, ty: &WitType, offset: u32) -> Routine {
    if !has_own(ty) {
        return f.routine();
    }
    match ty {
        WitType::Own(kind) => enter_at(f, *kind, offset),
        WitType::Record(fields) => enter_fields(f, fields.items.as_slice(), offset),
        WitType::Tuple(types) => enter_types(f, types.items.as_slice(), offset),
        WitType::Variant(cases) => enter_variant(f, cases.items.as_slice(), offset),
        WitType::Option(some) => enter_option(f, some, offset),
        WitType::Result(ok, err) => {
            let case = f.spare.narrow(0);
            let payload = offset.saturating_add(result_payload(ok, err));
            let first = enter_payload(&f.inside(1), ok, case, 0, payload);
            let second = enter_payload(&f.inside(1), err, case, 1, payload);
            f.routine()
                .load(case, f.at, byte(offset))
                .part(first)
                .part(second)
        }
        _ => f.routine(),
    }
}

fn enter_flat(f: &Frame, ty: &WitType) -> Routine {
    match ty {
        WitType::Own(kind) => enter(f, *kind, f.result),
        _ => f.routine(),
    }
}

/// After the host's answer: each own handle in it, outside lists, becomes one of the adapter's own, for which there is room; and the
/// flat result is the place of the record, if there is one.
pub fn from_host(f: &Frame, ty: &FuncType) -> Routine {
    match &ty.result {
        Some(result) => {
            if f.has_record {
                f.begin().part(enter_in(f, result, 0)).copy(f.result, f.at)
            } else {
                enter_flat(f, result)
            }
        }
        None => f.routine(),
    }
}
