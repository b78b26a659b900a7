//! wasi:filesystem/types, resource descriptor, where the descriptor is a node of a tree: the row of each method that reads.

#![tactic(auto, using(wit_types::proofs::ValueLemmas::values, crate::proofs::FilesNodeLemmas::node_rules, crate::proofs::SeenLemmas::seen_node, crate::proofs::SeenLemmas::seen_children, crate::proofs::SeenLemmas::seen_hash, crate::proofs::SeenLemmas::seen_lead))]

ghost use Rattle.std.specs.Prelude.{◌≡◌, ◌<◌, Some, IfOk, true};
ghost use Rattle.tree_table.specs.Tables.{count_of, node_of};
ghost use Rattle.reference_step.specs.Descriptors as descriptor;
ghost use Rattle.reference_step.specs.State.{View};
ghost use Rattle.ref_answers.specs.Shown.{shown};
ghost use Rattle.ref_virtual.specs.Inside.{row_inside};
ghost use Rattle.ref_virtual.specs.Views.{AreTexts, HoldsTrees, node_in};

use crate::facts::{node_hash, node_stat, node_type};
use crate::leading::lead;
use crate::texts::text_of;
use ref_answers::{Row, bytes_from, fails, gives_ok, has_flag, label, ok, returns};
use ref_rules::Content;
use std::alloc::Global;
use tree_table::{NodeKind, Table, content, kind, target};
use virt_base::NoMemory;
use wit_types::Value;

/// The places of error codes in the enum `error-code`.
const INVALID: u32 = 12;

const IS_DIRECTORY: u32 = 14;

const NOT_DIRECTORY: u32 = 24;

/// `read-via-stream`.
pub fn stream_row(alloc: Global, table: &Table, node: u32, offset: u64) -> Result<Row, NoMemory>
    requires { node < count_of table.now }
    ensures row { IfOk result (λ row. (v : View) → HoldsTrees table.now v → shown table.now row ≡ descriptor.read-via-stream v (node_in table.now node) offset) }
    ensures inside { IfOk result (λ row. row_inside (count_of table.now) row ≡ true) }
{
    match kind(table, node) {
        NodeKind::File => {
            let size = content(table, node).len() as u64;
            gives_ok(alloc, Content::FileAt(node, offset.min(size)))
        }
        NodeKind::Folder => fails(alloc, IS_DIRECTORY),
        NodeKind::Link => fails(alloc, IS_DIRECTORY),
    }
}

/// `get-type`.
pub fn type_row(alloc: Global, table: &Table, node: u32) -> Result<Row, NoMemory>
    requires { node < count_of table.now }
    ensures row { IfOk result (λ row. (v : View) → HoldsTrees table.now v → shown table.now row ≡ descriptor.get-type v (node_in table.now node)) }
    ensures inside { IfOk result (λ row. row_inside (count_of table.now) row ≡ true) }
{
    Ok(returns(ok(alloc, label(node_type(table, node)))?))
}

/// `read`.
pub fn read_row(
    alloc: Global,
    table: &Table,
    node: u32,
    len: u64,
    offset: u64,
) -> Result<Row, NoMemory>
    requires { node < count_of table.now }
    ensures row { IfOk result (λ row. (v : View) → HoldsTrees table.now v → shown table.now row ≡ descriptor.read v (node_in table.now node) len offset) }
    ensures inside { IfOk result (λ row. row_inside (count_of table.now) row ≡ true) }
{
    match kind(table, node) {
        NodeKind::File => Ok(returns(bytes_from(alloc, content(table, node), len, offset)?)),
        NodeKind::Folder => fails(alloc, IS_DIRECTORY),
        NodeKind::Link => fails(alloc, IS_DIRECTORY),
    }
}

/// `read-directory`.
pub fn read_directory_row(alloc: Global, table: &Table, node: u32) -> Result<Row, NoMemory>
    requires { node < count_of table.now }
    ensures row { IfOk result (λ row. (v : View) → HoldsTrees table.now v → shown table.now row ≡ descriptor.read-directory v (node_in table.now node)) }
    ensures inside { IfOk result (λ row. row_inside (count_of table.now) row ≡ true) }
{
    match kind(table, node) {
        NodeKind::File => fails(alloc, NOT_DIRECTORY),
        NodeKind::Folder => gives_ok(alloc, Content::Entries(node, 0)),
        NodeKind::Link => gives_ok(alloc, Content::Entries(node, 0)),
    }
}

/// `stat`.
pub fn stat_row(alloc: Global, table: &Table, node: u32) -> Result<Row, NoMemory>
    requires { node < count_of table.now }
    ensures row { IfOk result (λ row. (v : View) → HoldsTrees table.now v → shown table.now row ≡ descriptor.stat v (node_in table.now node)) }
    ensures inside { IfOk result (λ row. row_inside (count_of table.now) row ≡ true) }
{
    Ok(returns(node_stat(alloc, table, node)?))
}

/// `stat-at`.
pub fn stat_at_row(
    alloc: Global,
    table: &Table,
    node: u32,
    flags: u32,
    text: &[u8],
) -> Result<Row, NoMemory>
    requires { node < count_of table.now }
    ensures row { IfOk result (λ row. (v : View) → HoldsTrees table.now v → shown table.now row ≡ descriptor.stat-at v (node_in table.now node) flags text.now) }
    ensures inside { IfOk result (λ row. row_inside (count_of table.now) row ≡ true) }
{
    match lead(table, node, text, has_flag(flags, 0)) {
        Ok(at) => Ok(returns(node_stat(alloc, table, at)?)),
        Err(code) => fails(alloc, u32::from(code)),
    }
}

/// `metadata-hash`.
pub fn hash_row(alloc: Global, table: &Table, node: u32) -> Result<Row, NoMemory>
    requires { node < count_of table.now }
    ensures row { IfOk result (λ row. (v : View) → HoldsTrees table.now v → shown table.now row ≡ descriptor.metadata-hash v (node_in table.now node)) }
    ensures inside { IfOk result (λ row. row_inside (count_of table.now) row ≡ true) }
{
    Ok(returns(node_hash(alloc, table, node)?))
}

/// `metadata-hash-at`.
pub fn hash_at_row(
    alloc: Global,
    table: &Table,
    node: u32,
    flags: u32,
    text: &[u8],
) -> Result<Row, NoMemory>
    requires { node < count_of table.now }
    ensures row { IfOk result (λ row. (v : View) → HoldsTrees table.now v → shown table.now row ≡ descriptor.metadata-hash-at v (node_in table.now node) flags text.now) }
    ensures inside { IfOk result (λ row. row_inside (count_of table.now) row ≡ true) }
{
    match lead(table, node, text, has_flag(flags, 0)) {
        Ok(at) => Ok(returns(node_hash(alloc, table, at)?)),
        Err(code) => fails(alloc, u32::from(code)),
    }
}

/// `readlink-at`.
pub fn readlink_row(alloc: Global, table: &Table, node: u32, text: &[u8]) -> Result<Row, NoMemory>
    requires inside { node < count_of table.now }
    requires texts { AreTexts table.now }
    ensures row { IfOk result (λ row. (v : View) → HoldsTrees table.now v → shown table.now row ≡ descriptor.readlink-at v (node_in table.now node) text.now) }
    ensures inside { IfOk result (λ row. row_inside (count_of table.now) row ≡ true) }
{
    match lead(table, node, text, false) {
        Ok(at) => link_row(alloc, table, at),
        Err(code) => fails(alloc, u32::from(code)),
    }
}

/// What a link leads to; of another node it is invalid.
fn link_row(alloc: Global, table: &Table, node: u32) -> Result<Row, NoMemory>
    requires inside { node < count_of table.now }
    requires texts { AreTexts table.now }
    ensures row { IfOk result (λ row. shown table.now row ≡ descriptor.link_at (Some (node_of table.now node))) }
    ensures inside { IfOk result (λ row. row_inside (count_of table.now) row ≡ true) }
{
    match target(table, node) {
        Some(target) => {
            let text = text_of(alloc, target)?;
            Ok(returns(ok(alloc, Value::Str(text))?))
        }
        None => fails(alloc, INVALID),
    }
}

/// Whether two nodes are the same file or folder.
pub fn are_same_nodes(table: &Table, node: u32, other: u32) -> bool
    requires node { node < count_of table.now }
    requires other { other < count_of table.now }
    ensures { (v : View) → HoldsTrees table.now v → result ≡ descriptor.are_same (node_in table.now node) (node_in table.now other) }
{
    node == other
}
