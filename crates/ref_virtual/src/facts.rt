//! What a node of a tree is: its type, its size and its bytes, and what `stat` and `metadata-hash` answer of it.

#![tactic(auto, using(crate::proofs::FilesNodeLemmas::node_rules))]

ghost use Rattle.std.specs.Prelude.{◌≡◌, ◌+◌, ◌<◌, Some, IfOk};
ghost use Rattle.wit_types.specs.PlainValue.{plain_value};
ghost use Rattle.tree_table.specs.Tables.{count_of, node_of, tree_of, place_of};
ghost use Rattle.reference_step.specs.Nodes.{type_of, size_of, file_bytes, hash_value};
ghost use Rattle.reference_step.specs.Descriptors.{stat_of};
ghost use Rattle.reference_step.specs.Values as made;

use ref_answers::{hash_value, ok, stat_value};
use std::alloc::Global;
use tree_table::{NodeKind, Table, content, kind, place};
use virt_base::NoMemory;
use wit_types::Value;

/// The number of its `descriptor-type`.
pub fn node_type(table: &Table, node: u32) -> u32
    requires { node < count_of table.now }
    ensures { result ≡ type_of (Some (node_of table.now node)) }
{
    match kind(table, node) {
        NodeKind::Folder => 3,
        NodeKind::File => 6,
        NodeKind::Link => 5,
    }
}

/// The bytes of a file, or of a link's target; 0 of a folder.
pub fn node_size(table: &Table, node: u32) -> u64
    requires { node < count_of table.now }
    ensures { result ≡ size_of (Some (node_of table.now node)) }
{
    match kind(table, node) {
        NodeKind::Folder => 0,
        NodeKind::File => content(table, node).len() as u64,
        NodeKind::Link => content(table, node).len() as u64,
    }
}

/// The bytes of a file; none of another node.
pub fn node_bytes(table: &Table, node: u32) -> &[u8]
    requires { node < count_of table.now }
    ensures { result.now ≡ file_bytes (Some (node_of table.now node)) }
{
    match kind(table, node) {
        NodeKind::Folder => &[],
        NodeKind::File => content(table, node),
        NodeKind::Link => &[],
    }
}

/// What `stat` answers.
pub fn node_stat(alloc: Global, table: &Table, node: u32) -> Result<Value, NoMemory>
    requires { node < count_of table.now }
    ensures { IfOk result (λ v. plain_value v ≡ stat_of (Some (node_of table.now node))) }
{
    let stat = stat_value(alloc, node_type(table, node), node_size(table, node))?;
    ok(alloc, stat)
}

/// What `metadata-hash` answers.
pub fn node_hash(alloc: Global, table: &Table, node: u32) -> Result<Value, NoMemory>
    requires { node < count_of table.now }
    ensures { IfOk result (λ v. plain_value v ≡ made.ok (hash_value (place_of table.now node) (tree_of table.now node + 1))) }
{
    let (tree, place) = place(table, node);
    let hash = hash_value(alloc, u64::from(place), u64::from(tree) + 1)?;
    ok(alloc, hash)
}
