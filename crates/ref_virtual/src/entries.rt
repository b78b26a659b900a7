//! wasi:filesystem/types, resource directory-entry-stream, where the stream is over a folder of a tree.

#![tactic(auto, using(wit_types::proofs::ValueLemmas::values))]

ghost use Rattle.std.specs.Prelude.{◌≡◌, ◌≤◌, ◌<◌, IfOk, drop, true};
ghost use Rattle.tree_table.specs.Tables.{count_of};
ghost use Rattle.reference_step.specs.EntryStreams as entries;
ghost use Rattle.reference_step.specs.Handles.{Entries};
ghost use Rattle.reference_step.specs.Nodes.{entry_value};
ghost use Rattle.reference_step.specs.State.{View};
ghost use Rattle.wit_types.specs.PlainValue.{plain_value};
ghost use Rattle.ref_answers.specs.Seen.{entries_of_node};
ghost use Rattle.ref_answers.specs.Shown.{shown};
ghost use Rattle.ref_virtual.specs.Inside.{row_inside};
ghost use Rattle.ref_virtual.specs.Views.{HoldsTrees, node_entry};

use crate::facts::node_type;
use crate::texts::text_of;
use ref_answers::{Row, entry_value, moves, none, ok, returns, some};
use ref_rules::Content;
use std::alloc::Global;
use tree_table::{Table, child, name};
use virt_base::NoMemory;
use wit_types::Value;

/// What is told of a node.
fn node_entry(alloc: Global, table: &Table, node: u32) -> Result<Value, NoMemory>
    requires { node < count_of table.now }
    ensures { IfOk result (λ v. plain_value v ≡ entry_value (node_entry table.now node)) }
{
    let name = text_of(alloc, name(table, node))?;
    entry_value(alloc, node_type(table, node), name)
}

/// `read-directory-entry`: the next entry, or none.
pub fn read_entry_row(alloc: Global, table: &Table, node: u32, place: u32) -> Result<Row, NoMemory>
    requires inside { node < count_of table.now }
    requires few { count_of table.now ≤ 65536 }
    ensures row { IfOk result (λ row. (v : View) → HoldsTrees table.now v → shown table.now row ≡ entries.read-directory-entry v (Entries (drop place (entries_of_node table.now node)))) }
    ensures inside { IfOk result (λ row. row_inside (count_of table.now) row ≡ true) }
{
    match child(table, node, place) {
        Some(at) => {
            let entry = some(alloc, node_entry(alloc, table, at)?)?;
            Ok(moves(Content::Entries(node, place + 1), ok(alloc, entry)?))
        }
        None => Ok(returns(ok(alloc, none())?)),
    }
}
