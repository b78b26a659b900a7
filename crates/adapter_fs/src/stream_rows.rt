//! The rows of functions on a stream over a file, and on the entries of a folder.

use crate::nodes::{NodesAt, TYPE};
use crate::shared::{Span, Text, entry_record, no_entry, stream_on};
use adapter_code::IntOp;
use adapter_pass::{Frame, Routine};
use table_bytes::{LONG, WORD};

/// The answer of `read`, `skip` or a blocking form of them on a stream over a file of a tree, whose entry is at `spot`.
pub fn file_at_body(f: &Frame, nodes: NodesAt, spot: u32, name: &str) -> Routine {
    let record = f.spare.narrow(0);
    let bytes = Span {
        place: f.spare.narrow(1),
        size: f.spare.broad(0),
    };
    let inner = f.inside(2);
    f.routine()
        .load(record, spot, WORD)
        .part(nodes.record(f, record, record))
        .part(nodes.content(&inner, record, bytes))
        .part(stream_on(&inner, spot, bytes, name))
}

/// The answer of `read-directory-entry` on the entries of a folder of a tree, whose entry is at `spot`.
pub fn entries_body(f: &Frame, nodes: NodesAt, spot: u32) -> Routine {
    let left = f.spare.broad(0);
    let node = f.spare.narrow(0);
    let record = f.spare.narrow(1);
    let kind = f.spare.narrow(2);
    let name = Text {
        place: f.spare.narrow(3),
        length: f.spare.narrow(4),
    };
    f.routine()
        .load(left, spot, LONG)
        .with(IntOp::LtU, kind, left, 1, f.scratch_long)
        .when(kind, no_entry(f))
        .with(IntOp::Sub, left, left, 1, f.scratch_long)
        .store(left, spot, LONG)
        .load(node, spot, WORD)
        .part(nodes.record(f, node, record))
        .part(nodes.name(f, record, name))
        .load(kind, record, nodes.field(TYPE))
        .with(IntOp::Add, node, node, 1, f.scratch)
        .store(node, spot, WORD)
        .part(entry_record(f, kind, name))
}
