//! Which own handles an answer may hold outside lists, and whether there is room for them.

use crate::frame::Frame;
use crate::kinds::Kind;
use crate::routine::Routine;
use crate::{fs_code, net_code};
use ref_rules::Errors;
use std::rc::Rc;
use wit_types::{Case, Field, WitType};

#[cycle(has_own)]
fn has_own_in(ty: &Option<Rc<WitType>>) -> bool {
    match ty {
        Some(ty) => has_own(ty),
        None => false,
    }
}

#[cycle(has_own)]
fn fields_have_own(fields: &[Field]) -> bool {
    for field in fields {
        if has_own(&field.ty) {
            return true;
        }
    }
    false
}

#[cycle(has_own)]
fn types_have_own(types: &[WitType]) -> bool {
    for ty in types {
        if has_own(ty) {
            return true;
        }
    }
    false
}

#[cycle(has_own)]
fn cases_have_own(cases: &[Case]) -> bool {
    for case in cases {
        if has_own_in(&case.ty) {
            return true;
        }
    }
    false
}

/// Whether a value of the type may hold an own handle outside lists.
#[cycle(has_own)]
pub fn has_own(ty: &WitType) -> bool {
    match ty {
        WitType::Own(_) => true,
        WitType::Record(fields) => fields_have_own(fields.items.as_slice()),
        WitType::Tuple(types) => types_have_own(types.items.as_slice()),
        WitType::Variant(cases) => cases_have_own(cases.items.as_slice()),
        WitType::Option(some) => has_own(some),
        WitType::Result(ok, err) => has_own_in(ok) || has_own_in(err),
        _ => false,
    }
}

// What is answered where there is no room.
fn full(f: &Frame, errors: Errors) -> Routine {
    match errors {
        Errors::Filesystem => f.err(fs_code::INSUFFICIENT_MEMORY),
        Errors::Sockets => f.err(net_code::OUT_OF_MEMORY),
        Errors::None => f.routine().trap(),
    }
}

fn room_of_kind(f: &Frame, kind: u32, errors: Errors) -> Routine {
    match Kind::numbered(kind) {
        Some(kind) => {
            let found = f.spare.narrow(2);
            f.has_room(kind, found).unless(found, full(f, errors))
        }
        None => f.routine().trap(),
    }
}

#[cycle(room)]
fn room_in(f: &Frame, ty: &Option<Rc<WitType>>, errors: Errors) -> Routine {
    match ty {
        Some(ty) => room_of(f, ty, errors),
        None => f.routine(),
    }
}

#[cycle(room)]
fn room_of_fields(f: &Frame, fields: &[Field], errors: Errors) -> Routine {
    let mut routine = f.routine();
    for field in fields {
        routine.extend(room_of(f, &field.ty, errors));
    }
    routine
}

#[cycle(room)]
fn room_of_types(f: &Frame, types: &[WitType], errors: Errors) -> Routine {
    let mut routine = f.routine();
    for ty in types {
        routine.extend(room_of(f, ty, errors));
    }
    routine
}

#[cycle(room)]
fn room_of_cases(f: &Frame, cases: &[Case], errors: Errors) -> Routine {
    let mut routine = f.routine();
    for case in cases {
        routine.extend(room_in(f, &case.ty, errors));
    }
    routine
}

#[cycle(room)]
fn room_of(f: &Frame, ty: &WitType, errors: Errors) -> Routine {
    match ty {
        WitType::Own(kind) => room_of_kind(f, *kind, errors),
        WitType::Record(fields) => room_of_fields(f, fields.items.as_slice(), errors),
        WitType::Tuple(types) => room_of_types(f, types.items.as_slice(), errors),
        WitType::Variant(cases) => room_of_cases(f, cases.items.as_slice(), errors),
        WitType::Option(some) => room_of(f, some, errors),
        WitType::Result(ok, err) => room_in(f, ok, errors).part(room_in(f, err, errors)),
        _ => f.routine(),
    }
}

/// Goes on where a place is free of each kind whose handle the result may own outside lists, of which none stands there twice; else
/// it answers insufficient-memory, out-of-memory, or traps, by whose error codes the result has. Three spare locals of 32 bits are
/// lost.
pub fn room(f: &Frame, given: &Option<WitType>, errors: Errors) -> Routine {
    match given {
        Some(ty) => room_of(f, ty, errors),
        None => f.routine(),
    }
}
