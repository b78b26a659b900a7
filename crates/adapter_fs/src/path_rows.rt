//! The rows of functions on what a path from a node leads to.

use crate::node_rows::{put_hash, put_stat};
use crate::nodes::{FILE, LINK, NodesAt, TYPE};
use crate::shared::{Text, next, own_answer, text_answer};
use crate::walking::{Found, Path, walk};
use adapter_code::IntOp;
use adapter_pass::{Frame, Kind, Routine, Tag, fs_code};
use table_bytes::WORD;

// Of path-flags, open-flags and descriptor-flags.
const SYMLINK_FOLLOW: u64 = 1;

const CREATE: u64 = 1;

const DIRECTORY: u64 = 2;

const EXCLUSIVE: u64 = 4;

const TRUNCATE: u64 = 8;

const WRITE_OR_MUTATE_DIRECTORY: u64 = 34;

/// The locals of these rows. What comes after them is free for parts.
#[derive(Clone, Copy)]
struct Locals {
    start: u32,
    follow: u32,
    node: u32,
    code: u32,
    test: u32,
    record: u32,
    kind: u32,
}

const TAKEN: u8 = 7;

fn locals_of(f: &Frame) -> Locals {
    Locals {
        start: f.spare.narrow(0),
        follow: f.spare.narrow(1),
        node: f.spare.narrow(2),
        code: f.spare.narrow(3),
        test: f.spare.narrow(4),
        record: f.spare.narrow(5),
        kind: f.spare.narrow(6),
    }
}

// Answers an error where a local has one of these bits.
fn refuse(f: &Frame, l: &Locals, flags: u32, bits: u64, code: u64) -> Routine {
    f.routine()
        .with(IntOp::And, l.test, flags, bits, f.scratch)
        .when(l.test, f.err(code))
}

// Goes along the path from the node whose entry is at `spot`. `text` is the first local of the path's argument, and `flags` that of
// path-flags; without these a link is not followed.
fn lead(
    f: &Frame,
    l: &Locals,
    nodes: NodesAt,
    spot: u32,
    flags: Option<u32>,
    text: u32,
) -> Routine {
    let follow = match flags {
        Some(_) => Some(l.follow),
        None => None,
    };
    let path = Path {
        start: l.start,
        text,
        length: next(text),
        follow,
    };
    let to = Found {
        node: l.node,
        code: l.code,
    };
    let flagged = match flags {
        Some(flags) => f
            .routine()
            .with(IntOp::And, l.follow, flags, SYMLINK_FOLLOW, f.scratch),
        None => f.routine(),
    };
    flagged
        .load(l.start, spot, WORD)
        .part(walk(&f.inside(TAKEN), nodes, path, to))
}

// The same; an error of the path is the answer, and else `record` is that of the node which was found.
fn led(f: &Frame, l: &Locals, nodes: NodesAt, spot: u32, flags: Option<u32>, text: u32) -> Routine {
    lead(f, l, nodes, spot, flags, text)
        .when(l.code, f.err_in(l.code))
        .part(nodes.record(f, l.node, l.record))
}

/// The row of `stat-at`.
pub fn stat_at(f: &Frame, nodes: NodesAt, spot: u32) -> Routine {
    let l = locals_of(f);
    led(f, &l, nodes, spot, Some(f.arg(1)), f.arg(2)).part(put_stat(
        &f.inside(TAKEN),
        nodes,
        l.record,
    ))
}

/// The row of `metadata-hash-at`.
pub fn metadata_hash_at(f: &Frame, nodes: NodesAt, spot: u32) -> Routine {
    let l = locals_of(f);
    led(f, &l, nodes, spot, Some(f.arg(1)), f.arg(2)).part(put_hash(
        &f.inside(TAKEN),
        nodes,
        l.record,
    ))
}

/// The row of `readlink-at`.
pub fn readlink_at(f: &Frame, nodes: NodesAt, spot: u32) -> Routine {
    let l = locals_of(f);
    let target = Text {
        place: l.start,
        length: l.kind,
    };
    led(f, &l, nodes, spot, None, f.arg(1))
        .load(l.kind, l.record, nodes.field(TYPE))
        .with(IntOp::Eq, l.test, l.kind, LINK as u64, f.scratch)
        .unless(l.test, f.err(fs_code::INVALID))
        .part(nodes.target(f, l.record, target))
        .part(text_answer(f, target))
}

// Where the path leads nowhere: with `create` an entry would be made.
fn open_fault(f: &Frame, l: &Locals, open_flags: u32) -> Routine {
    let created = refuse(f, l, open_flags, CREATE, fs_code::READ_ONLY);
    f.routine()
        .when_is(l.code, fs_code::NO_ENTRY, f.scratch, l.test, created)
        .part(f.err_in(l.code))
}

// What may not be opened.
fn open_limits(f: &Frame, l: &Locals, nodes: NodesAt, open_flags: u32) -> Routine {
    let not_directory = refuse(f, l, open_flags, DIRECTORY, fs_code::NOT_DIRECTORY);
    refuse(f, l, open_flags, EXCLUSIVE, fs_code::EXIST)
        .part(nodes.record(f, l.node, l.record))
        .load(l.kind, l.record, nodes.field(TYPE))
        .when_is(l.kind, LINK as u64, f.scratch, l.test, f.err(fs_code::LOOP))
        .when_is(l.kind, FILE as u64, f.scratch, l.test, not_directory)
}

/// The row of `open-at`.
pub fn open_at(f: &Frame, nodes: NodesAt, spot: u32) -> Routine {
    let l = locals_of(f);
    let open_flags = f.arg(3);
    let opened = own_answer(
        &f.inside(TAKEN),
        Kind::Descriptor,
        Tag::Node,
        Some(l.node),
        None,
    );
    refuse(
        f,
        &l,
        f.arg(4),
        WRITE_OR_MUTATE_DIRECTORY,
        fs_code::READ_ONLY,
    )
    .part(refuse(f, &l, open_flags, TRUNCATE, fs_code::READ_ONLY))
    .part(lead(f, &l, nodes, spot, Some(f.arg(1)), f.arg(2)))
    .when(l.code, open_fault(f, &l, open_flags))
    .part(open_limits(f, &l, nodes, open_flags))
    .part(opened)
}
