//! Functions of two descriptors: is-same-object, link-at and rename-at.

use crate::contents::Family;
use crate::dispatch::BorrowedHandle;
use crate::function_row::Source;
use adapter_code::IntOp;
use adapter_pass::{Frame, Kind, Routine, Tag, fs_code, to_host};
use adapter_scratch::scratch_rename;
use adapter_world::WorldFunction;
use table_bytes::{TAG, WORD};

/// The locals of two handles: their spots and their tags.
#[derive(Clone, Copy)]
struct Pair {
    spots: [u32; 2],
    tags: [u32; 2],
}

fn read_pair(f: &Frame, pair: Pair, first: &BorrowedHandle, second: &BorrowedHandle) -> Routine {
    let [a, b] = pair.spots;
    let [x, y] = pair.tags;
    f.spot(Kind::Descriptor, f.arg(first.argument), a)
        .load(x, a, TAG)
        .part(f.spot(Kind::Descriptor, f.arg(second.argument), b))
        .load(y, b, TAG)
}

// Sets two locals to whether each handle has a tag.
fn have_tag(f: &Frame, pair: Pair, tag: Tag, x: u32, y: u32) -> Routine {
    let [a, b] = pair.tags;
    f.routine()
        .with(IntOp::Eq, x, a, tag.number(), f.scratch)
        .with(IntOp::Eq, y, b, tag.number(), f.scratch)
}

// One handle is the host's, and one is not.
fn mixed(f: &Frame, name: &str) -> Routine {
    match name {
        "is-same-object" => f.flat_value(0),
        _ => f.err(fs_code::CROSS_DEVICE),
    }
}

fn hosts(f: &Frame, function: &WorldFunction, pair: Pair, name: &str) -> Routine {
    let x = f.spare.narrow(0);
    let y = f.spare.narrow(1);
    let both = f.spare.narrow(2);
    let inner = f.inside(3);
    have_tag(&inner, pair, Tag::Host, x, y)
        .both_bits(both, x, y)
        .when(both, to_host(&inner, &function.function.ty))
        .either_bits(x, x, y)
        .when(x, mixed(&inner, name))
}

// A file that may be written counts as one that may not.
fn as_read(f: &Frame, tag: u32) -> Routine {
    let test = f.spare.narrow(0);
    let read = f.routine().constant(tag, Tag::ScratchFile.number());
    f.routine()
        .when_is(tag, Tag::ScratchFileWrite.number(), f.scratch, test, read)
}

// Neither handle is the host's: they are the same where tags and words are equal.
fn same_object(f: &Frame, pair: Pair, scratch: bool) -> Routine {
    let [a, b] = pair.spots;
    let [x, y] = pair.tags;
    let words = f.spare.narrow(0);
    let other = f.spare.narrow(1);
    let inner = f.inside(2);
    let read = f
        .routine()
        .load(words, a, WORD)
        .load(other, b, WORD)
        .equal(words, words, other);
    let read = if scratch {
        read.part(as_read(&inner, x)).part(as_read(&inner, y))
    } else {
        read
    };
    read.equal(other, x, y)
        .both_bits(words, words, other)
        .part(f.flat(words))
}

// One handle is of a tree and one of the scratch folder, or both are of trees.
fn with_trees(f: &Frame, pair: Pair) -> Routine {
    let [a, b] = pair.tags;
    let x = f.spare.narrow(0);
    let y = f.spare.narrow(1);
    let test = f.spare.narrow(2);
    let root = Tag::ScratchRoot.number();
    f.routine()
        .with(IntOp::LtU, x, a, root, f.scratch)
        .with(IntOp::LtU, y, b, root, f.scratch)
        .differ(test, x, y)
        .when(test, f.err(fs_code::CROSS_DEVICE))
        .when(x, f.err(fs_code::READ_ONLY))
}

fn with_scratch(s: &Source<'_>, f: &Frame, pair: Pair, trees: bool, name: &str) -> Routine {
    let x = f.spare.narrow(0);
    let y = f.spare.narrow(1);
    let inner = f.inside(2);
    let first = if trees {
        with_trees(f, pair)
    } else {
        f.routine()
    };
    let tested = first
        .part(have_tag(f, pair, Tag::ScratchRoot, x, y))
        .both_bits(x, x, y)
        .unless(x, f.err(fs_code::NOT_DIRECTORY));
    match s.scratch {
        Some(at) => match name {
            "link-at" => tested.part(f.err(fs_code::UNSUPPORTED)),
            _ => tested.part(scratch_rename(&inner, at)),
        },
        None => tested.trap(),
    }
}

fn has(families: &[Family], family: Family) -> bool {
    families.iter().any(|one| *one == family)
}

/// is-same-object, link-at and rename-at: the host's with two handles of the host; with one of the host another device, or not the
/// same; else by what both stand for.
pub fn two_descriptors(
    s: &Source<'_>,
    f: &Frame,
    function: &WorldFunction,
    first: &BorrowedHandle,
    second: &BorrowedHandle,
    name: &str,
) -> Routine {
    let pair = Pair {
        spots: [f.spare.narrow(0), f.spare.narrow(1)],
        tags: [f.spare.narrow(2), f.spare.narrow(3)],
    };
    let families = first.families.as_slice();
    let scratch = has(families, Family::Scratch);
    let inner = f.inside(4);
    let read = read_pair(f, pair, first, second);
    let read = if has(families, Family::Host) {
        read.part(hosts(&inner, function, pair, name))
    } else {
        read
    };
    if name == "is-same-object" {
        read.part(same_object(&inner, pair, scratch))
    } else if scratch {
        let trees = has(families, Family::Node);
        read.part(with_scratch(s, &inner, pair, trees, name))
    } else {
        read.part(f.err(fs_code::READ_ONLY))
    }
}
