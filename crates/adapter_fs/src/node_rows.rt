//! The rows of functions on a node.

use crate::nodes::{FILE, FIRST, LAST, NodesAt, PLACE, TREE, TYPE};
use crate::path_rows::{metadata_hash_at, open_at, readlink_at, stat_at};
use crate::shared::{
    Span, hash_record, least, own_answer, put_read, small_answer, small_value, stat_record,
};
use adapter_code::IntOp;
use adapter_pass::{Frame, Kind, Routine, Tag, fs_code};
use table_bytes::WORD;

/// The flags of a descriptor that may be read alone.
const READ: u64 = 1;

// The record of the node whose entry is at `spot`.
fn own_record(f: &Frame, nodes: NodesAt, spot: u32, record: u32) -> Routine {
    f.routine()
        .load(record, spot, WORD)
        .part(nodes.record(f, record, record))
}

/// The answer of `stat` for the node at a record. Two spare locals of 32 bits and one of 64 bits are lost.
pub fn put_stat(f: &Frame, nodes: NodesAt, record: u32) -> Routine {
    let place = f.spare.narrow(0);
    let kind = f.spare.narrow(0);
    let size = f.spare.broad(0);
    nodes
        .content(&f.inside(1), record, Span { place, size })
        .load(kind, record, nodes.field(TYPE))
        .part(stat_record(f, kind, size))
}

// Sets a local of 64 bits to a number of a record.
fn number_in(f: &Frame, nodes: NodesAt, record: u32, offset: u32, to: u32) -> Routine {
    let short = f.spare.narrow(0);
    f.routine()
        .load(short, record, nodes.field(offset))
        .copy(to, short)
}

/// The answer of `metadata-hash` for the node at a record. A spare local of 32 bits and two of 64 bits are lost.
pub fn put_hash(f: &Frame, nodes: NodesAt, record: u32) -> Routine {
    let lower = f.spare.broad(0);
    let upper = f.spare.broad(1);
    f.routine()
        .part(number_in(f, nodes, record, PLACE, lower))
        .part(number_in(f, nodes, record, TREE, upper))
        .with(IntOp::Add, upper, upper, 1, f.scratch_long)
        .part(hash_record(f, lower, upper))
}

fn get_type(f: &Frame, nodes: NodesAt, spot: u32) -> Routine {
    let record = f.spare.narrow(0);
    let kind = f.spare.narrow(1);
    own_record(f, nodes, spot, record)
        .load(kind, record, nodes.field(TYPE))
        .part(small_answer(f, kind))
}

fn stat(f: &Frame, nodes: NodesAt, spot: u32) -> Routine {
    let record = f.spare.narrow(0);
    own_record(f, nodes, spot, record).part(put_stat(&f.inside(1), nodes, record))
}

fn metadata_hash(f: &Frame, nodes: NodesAt, spot: u32) -> Routine {
    let record = f.spare.narrow(0);
    own_record(f, nodes, spot, record).part(put_hash(&f.inside(1), nodes, record))
}

// Sets a local to whether the node at a record is a file.
fn is_file(f: &Frame, nodes: NodesAt, record: u32, test: u32) -> Routine {
    f.routine()
        .load(test, record, nodes.field(TYPE))
        .with(IntOp::Eq, test, test, FILE as u64, f.scratch)
}

fn read_directory(f: &Frame, nodes: NodesAt, spot: u32) -> Routine {
    let record = f.spare.narrow(0);
    let first = f.spare.narrow(1);
    let last = f.spare.narrow(2);
    let left = f.spare.broad(0);
    let opened = own_answer(
        &f.inside(3),
        Kind::DirectoryEntryStream,
        Tag::Entries,
        Some(first),
        Some(left),
    );
    own_record(f, nodes, spot, record)
        .part(is_file(f, nodes, record, last))
        .when(last, f.err(fs_code::NOT_DIRECTORY))
        .load(first, record, nodes.field(FIRST))
        .load(last, record, nodes.field(LAST))
        .subtract(last, last, first)
        .copy(left, last)
        .part(opened)
}

// The bytes of the file whose entry is at `spot`; another node has none. Three spare locals of 32 bits are lost.
fn file_bytes(f: &Frame, nodes: NodesAt, spot: u32, to: Span) -> Routine {
    let record = f.spare.narrow(0);
    let test = f.spare.narrow(1);
    own_record(f, nodes, spot, record)
        .part(is_file(f, nodes, record, test))
        .unless(test, f.err(fs_code::IS_DIRECTORY))
        .part(nodes.content(&f.inside(2), record, to))
}

fn read(f: &Frame, nodes: NodesAt, spot: u32) -> Routine {
    let bytes = Span {
        place: f.spare.narrow(0),
        size: f.spare.broad(0),
    };
    let inner = f.inside(1);
    file_bytes(&inner, nodes, spot, bytes).part(put_read(&inner, bytes, f.arg(1), f.arg(2)))
}

fn read_via_stream(f: &Frame, nodes: NodesAt, spot: u32) -> Routine {
    let node = f.spare.narrow(0);
    let size = f.spare.broad(0);
    let offset = f.arg(1);
    let inner = f.inside(1);
    let opened = own_answer(
        &inner,
        Kind::InputStream,
        Tag::FileAt,
        Some(node),
        Some(offset),
    );
    file_bytes(&inner, nodes, spot, Span { place: node, size })
        .part(least(f, offset, offset, size))
        .load(node, spot, WORD)
        .part(opened)
}

/// The answer of the function of a name on a node, whose entry is at `spot`.
pub fn node_body(f: &Frame, nodes: NodesAt, spot: u32, name: &str) -> Routine {
    match name {
        "advise" | "sync" | "sync-data" => f.ok(),
        "get-flags" => small_value(f, READ),
        "get-type" => get_type(f, nodes, spot),
        "stat" => stat(f, nodes, spot),
        "metadata-hash" => metadata_hash(f, nodes, spot),
        "read-directory" => read_directory(f, nodes, spot),
        "read" => read(f, nodes, spot),
        "read-via-stream" => read_via_stream(f, nodes, spot),
        "stat-at" => stat_at(f, nodes, spot),
        "metadata-hash-at" => metadata_hash_at(f, nodes, spot),
        "readlink-at" => readlink_at(f, nodes, spot),
        "open-at" => open_at(f, nodes, spot),
        _ => f.err(fs_code::READ_ONLY),
    }
}

/// The answer of `is-same-object` on two nodes, whose entries are at two spots.
pub fn is_same_object(f: &Frame, spot: u32, other: u32) -> Routine {
    let first = f.spare.narrow(0);
    let second = f.spare.narrow(1);
    f.routine()
        .load(first, spot, WORD)
        .load(second, other, WORD)
        .equal(first, first, second)
        .part(f.flat(first))
}
