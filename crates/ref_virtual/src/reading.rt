//! wasi:io/streams, resource input-stream, where the stream is from a file of a tree.

#![tactic(auto, using(wit_types::proofs::ValueLemmas::values, crate::proofs::FilesNodeLemmas::node_rules, crate::proofs::SeenLemmas::seen_node, crate::proofs::SeenLemmas::seen_children, crate::proofs::SeenLemmas::seen_hash, crate::proofs::SeenLemmas::seen_lead))]

ghost use Rattle.std.specs.Prelude.{◌≡◌, ◌<◌, IfOk, true};
ghost use Rattle.tree_table.specs.Tables.{count_of, tree_of, path_of};
ghost use Rattle.reference_step.specs.Handles.{FileAt};
ghost use Rattle.reference_step.specs.InputStreams as input;
ghost use Rattle.reference_step.specs.State.{View};
ghost use Rattle.ref_answers.specs.Shown.{shown};
ghost use Rattle.ref_virtual.specs.Inside.{row_inside};
ghost use Rattle.ref_virtual.specs.Views.{HoldsTrees};

use crate::facts::node_bytes;
use ref_answers::{Row, bytes, closed, moves, number, ok, returns};
use ref_rules::Content;
use std::alloc::Global;
use tree_table::Table;
use virt_base::NoMemory;

/// `read` and `blocking-read`: the next bytes, that many at most; at the end the stream is closed.
pub fn read_stream_row(
    alloc: Global,
    table: &Table,
    node: u32,
    place: u64,
    len: u64,
) -> Result<Row, NoMemory>
    requires { node < count_of table.now }
    ensures row { IfOk result (λ row. (v : View) → HoldsTrees table.now v → shown table.now row ≡ input.read v (FileAt (tree_of table.now node) (path_of table.now node) place) len) }
    ensures inside { IfOk result (λ row. row_inside (count_of table.now) row ≡ true) }
{
    let content = node_bytes(table, node);
    let size = content.len() as u64;
    if size <= place {
        return Ok(returns(closed(alloc)?));
    }
    let start = place as usize;
    let count = len.min(size - place) as usize;
    let next = Vec::from_slice(alloc, &content[start..start + count])?;
    let row = moves(
        Content::FileAt(node, place + count as u64),
        ok(alloc, bytes(next))?,
    );
    Ok(row)
}

/// `skip` and `blocking-skip`: how many bytes are passed over.
pub fn skip_stream_row(
    alloc: Global,
    table: &Table,
    node: u32,
    place: u64,
    len: u64,
) -> Result<Row, NoMemory>
    requires { node < count_of table.now }
    ensures row { IfOk result (λ row. (v : View) → HoldsTrees table.now v → shown table.now row ≡ input.skip v (FileAt (tree_of table.now node) (path_of table.now node) place) len) }
    ensures inside { IfOk result (λ row. row_inside (count_of table.now) row ≡ true) }
{
    let size = node_bytes(table, node).len() as u64;
    if size <= place {
        return Ok(returns(closed(alloc)?));
    }
    let count = len.min(size - place);
    let row = moves(
        Content::FileAt(node, place + count),
        ok(alloc, number(count))?,
    );
    Ok(row)
}
