//! The branch on what the handles of a call stand for.

use crate::contents::Family;
use crate::descriptors::two_descriptors;
use crate::function_row::Source;
use crate::names::own_name;
use crate::streams::two_streams;
use adapter_code::IntOp;
use adapter_fs::{NodesAt, entries_body, file_at_body, node_body};
use adapter_io::{always, discard, empty_in, gate, poll, pollable_always};
use adapter_pass::{Frame, Kind, Routine, Tag, to_host, to_host_from};
use adapter_scratch::{scratch_body, scratch_entries_body, scratch_in_body, scratch_out_body};
use adapter_world::WorldFunction;
use policy_data::Sockets;
use table_bytes::TAG;
use virt_base::NoMemory;
use wit_types::{Field, WitType};

/// A borrowed handle among the arguments: which argument it is, its kind, and the contents that a row tells apart.
#[derive(Drop)]
pub struct BorrowedHandle {
    pub argument: usize,
    pub kind: u32,
    pub families: Vec<Family>,
}

/// The first argument's handle, as it was read: the local of its spot, and that of its tag.
#[derive(Clone, Copy)]
pub struct Read {
    pub spot: u32,
    pub tag: u32,
}

fn borrowed(s: &Source<'_>, params: &[Field]) -> Result<Vec<BorrowedHandle>, NoMemory> {
    let mut all = Vec::new(s.alloc);
    for argument in 0..params.len() {
        if let WitType::Borrow(kind) = &params[argument].ty {
            let families = s.contents().of(s.alloc, *kind)?;
            all.push(BorrowedHandle {
                argument,
                kind: *kind,
                families,
            })?;
        }
    }
    Ok(all)
}

fn only_host(families: &[Family]) -> bool {
    families == [Family::Host].as_slice()
}

fn is_none_there(all: &[BorrowedHandle]) -> bool {
    all.iter().any(|b| b.families.is_empty())
}

fn are_all_hosts(all: &[BorrowedHandle]) -> bool {
    all.iter().all(|b| only_host(b.families.as_slice()))
}

// Adds the test for one tag more.
fn or_tag(f: &Frame, tag: u32, one: Tag, test: u32) -> Routine {
    let other = f.spare.narrow(0);
    f.routine()
        .with(IntOp::Eq, other, tag, one.number(), f.scratch)
        .either_bits(test, test, other)
}

/// Sets a local to 1 where a tag is one of a family, and else to 0. A spare local of 32 bits is lost.
pub fn is_one(f: &Frame, tag: u32, family: Family, test: u32) -> Routine {
    match family.tags() {
        [] => f.routine().constant(test, 0),
        [first, more @ ..] => {
            let mut routine = f
                .routine()
                .with(IntOp::Eq, test, tag, first.number(), f.scratch);
            for one in more {
                routine.extend(or_tag(f, tag, *one, test));
            }
            routine
        }
    }
}

fn node_row(f: &Frame, nodes: Option<NodesAt>, read: Read, family: Family, name: &str) -> Routine {
    match nodes {
        Some(nodes) => match family {
            Family::Node => node_body(f, nodes, read.spot, name),
            Family::FileAt => file_at_body(f, nodes, read.spot, name),
            _ => entries_body(f, nodes, read.spot),
        },
        None => f.routine().trap(),
    }
}

fn scratch_row(s: &Source<'_>, f: &Frame, read: Read, family: Family, name: &str) -> Routine {
    match s.scratch {
        Some(at) => match family {
            Family::Scratch => scratch_body(f, at, read.spot, read.tag, name),
            Family::ScratchIn => scratch_in_body(f, at, read.spot, name),
            Family::ScratchOut => scratch_out_body(f, at, read.spot, read.tag, name),
            _ => scratch_entries_body(f, at, read.spot),
        },
        None => f.routine().trap(),
    }
}

// A stream to the scratch folder is ready for so much, and keeps nothing back.
fn is_as_discard(name: &str) -> bool {
    match name {
        "check-write" => true,
        "flush" => true,
        "blocking-flush" => true,
        _ => false,
    }
}

fn stream_row(s: &Source<'_>, f: &Frame, read: Read, family: Family, name: &str) -> Routine {
    if name == "subscribe" {
        return always(f);
    }
    match family {
        Family::EmptyIn => empty_in(f, name),
        Family::Discard => discard(f, name),
        Family::Always => pollable_always(f, name),
        Family::ScratchOut => {
            if is_as_discard(name) {
                discard(f, name)
            } else {
                scratch_row(s, f, read, family, name)
            }
        }
        Family::FileAt => node_row(f, s.nodes, read, family, name),
        _ => scratch_row(s, f, read, family, name),
    }
}

// What the function does with a first handle of a family.
fn body(
    s: &Source<'_>,
    f: &Frame,
    function: &WorldFunction,
    read: Read,
    family: Family,
) -> Routine {
    let name = own_name(function.function.name.as_str());
    match family {
        Family::Host => to_host_from(f, &function.function.ty, Some(read.spot)),
        Family::Node | Family::Entries => node_row(f, s.nodes, read, family, name),
        Family::Scratch | Family::ScratchEntries => scratch_row(s, f, read, family, name),
        _ => stream_row(s, f, read, family, name),
    }
}

/// The branches by the families, in order; the last one needs no test.
fn choose_family(
    s: &Source<'_>,
    f: &Frame,
    function: &WorldFunction,
    read: Read,
    families: &[Family],
) -> Routine {
    match families {
        [] => f.routine().trap(),
        [last] => body(s, f, function, read, *last),
        [first, rest @ ..] => {
            let test = f.spare.narrow(0);
            let inner = f.inside(1);
            let own = body(s, &inner, function, read, *first);
            let others = choose_family(s, &inner, function, read, rest);
            is_one(&inner, read.tag, *first, test).choose(test, own, others)
        }
    }
}

fn one_handle(
    s: &Source<'_>,
    f: &Frame,
    function: &WorldFunction,
    first: &BorrowedHandle,
) -> Routine {
    match Kind::numbered(first.kind) {
        Some(kind) => {
            let read = Read {
                spot: f.spare.narrow(0),
                tag: f.spare.narrow(1),
            };
            let families = first.families.as_slice();
            f.spot(kind, f.arg(first.argument), read.spot)
                .load(read.tag, read.spot, TAG)
                .part(choose_family(s, &f.inside(2), function, read, families))
        }
        None => f.routine().trap(),
    }
}

// By all borrowed handles, of which there is one at least.
fn by_borrowed(
    s: &Source<'_>,
    f: &Frame,
    function: &WorldFunction,
    all: &[BorrowedHandle],
) -> Routine {
    match all {
        [first] => one_handle(s, f, function, first),
        [first, second, ..] => {
            let name = own_name(function.function.name.as_str());
            match name {
                "splice" | "blocking-splice" => two_streams(f, function, first, second),
                _ => two_descriptors(s, f, function, first, second, name),
            }
        }
        [] => f.routine().trap(),
    }
}

fn handed_on(
    s: &Source<'_>,
    f: &Frame,
    function: &WorldFunction,
    all: &[BorrowedHandle],
) -> Routine {
    if is_none_there(all) {
        // no such handle can live
        f.routine().trap()
    } else if are_all_hosts(all) {
        to_host(f, &function.function.ty)
    } else {
        by_borrowed(s, f, function, all)
    }
}

fn polled(s: &Source<'_>, f: &Frame, function: &WorldFunction) -> Result<Routine, NoMemory> {
    let families = s.contents().of(s.alloc, Kind::Pollable.number() as u32)?;
    let can_host = families.iter().any(|one| *one == Family::Host);
    let can_always = families.iter().any(|one| *one == Family::Always);
    Ok(poll(f, &function.function.ty, can_host, can_always))
}

fn gate_of(s: &Source<'_>, f: &Frame, name: &str) -> Option<Routine> {
    match s.policy.sockets {
        Sockets::Rules => gate(f, s.policy, &s.io, name),
        _ => None,
    }
}

/// A function that goes by the handles that it is given: after the rules on addresses, if they name it, to the host where all are the
/// host's, and else by what they stand for.
pub fn by_handles(
    s: &Source<'_>,
    f: &Frame,
    function: &WorldFunction,
) -> Result<Routine, NoMemory> {
    let name = own_name(function.function.name.as_str());
    if name == "poll" {
        return polled(s, f, function);
    }
    let all = borrowed(s, function.function.ty.params.items.as_slice())?;
    let rest = handed_on(s, f, function, all.as_slice());
    match gate_of(s, f, name) {
        Some(gate) => {
            if function.needed {
                Ok(gate.part(rest))
            } else {
                // after the gate no call of it goes on
                Ok(gate.trap())
            }
        }
        None => Ok(rest),
    }
}
