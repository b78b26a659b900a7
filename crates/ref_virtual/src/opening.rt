//! wasi:filesystem/types, `open-at` from a node of a tree.

#![tactic(auto, using(wit_types::proofs::ValueLemmas::values, crate::proofs::FilesNodeLemmas::node_rules, crate::proofs::SeenLemmas::seen_node, crate::proofs::SeenLemmas::seen_children, crate::proofs::SeenLemmas::seen_hash, crate::proofs::SeenLemmas::seen_lead))]

ghost use Rattle.std.specs.Prelude.{◌≡◌, ◌<◌, ◌||◌, ℕ, Some, IfOk, true};
ghost use Rattle.tree_table.specs.Tables.{Forest, count_of, node_of, tree_of, path_of};
ghost use Rattle.tree_table.specs.Paths.{Fails};
ghost use Rattle.reference_step.specs.Descriptors as descriptor;
ghost use Rattle.reference_step.specs.State.{View};
ghost use Rattle.ref_answers.specs.Shown.{shown};
ghost use Rattle.ref_virtual.specs.Inside.{row_inside};
ghost use Rattle.ref_virtual.specs.Views.{HoldsTrees, node_in};

use crate::leading::lead;
use ref_answers::{Row, fails, gives_ok, has_flag};
use ref_rules::Content;
use std::alloc::Global;
use tree_table::{NodeKind, Table, kind};
use virt_base::NoMemory;

/// The places of error codes in the enum `error-code`.
const EXIST: u32 = 7;

const LOOP: u32 = 15;

const NO_ENTRY: u8 = 20;

const NOT_DIRECTORY: u32 = 24;

const READ_ONLY: u32 = 33;

/// Whether a call asks for more than to read.
fn asks_changes(flags: u32, rights: u32) -> bool
    ensures { result ≡ (descriptor.write_flag rights || (descriptor.mutate-directory rights || descriptor.truncate flags)) }
{
    has_flag(rights, 1) || has_flag(rights, 5) || has_flag(flags, 3)
}

/// What is opened where a text leads to a node.
fn open_found(alloc: Global, table: &Table, node: u32, flags: u32) -> Result<Row, NoMemory>
    requires { node < count_of table.now }
    ensures row { IfOk result (λ row. shown table.now row ≡ descriptor.open_found (Some (node_of table.now node)) (tree_of table.now node) (path_of table.now node) flags) }
    ensures inside { IfOk result (λ row. row_inside (count_of table.now) row ≡ true) }
{
    if has_flag(flags, 2) {
        return match kind(table, node) {
            NodeKind::Folder => fails(alloc, EXIST),
            NodeKind::File => fails(alloc, EXIST),
            NodeKind::Link => fails(alloc, EXIST),
        };
    }
    match kind(table, node) {
        NodeKind::Link => fails(alloc, LOOP),
        NodeKind::Folder => gives_ok(alloc, Content::Node(node)),
        NodeKind::File => {
            if has_flag(flags, 1) {
                fails(alloc, NOT_DIRECTORY)
            } else {
                gives_ok(alloc, Content::Node(node))
            }
        }
    }
}

fn open_missing(alloc: Global, code: u8, flags: u32) -> Result<Row, NoMemory>
    ensures row { IfOk result (λ row. (f : Forest) (v : View) (tree : ℕ) → shown f row ≡ descriptor.open_led v tree (Fails code) flags) }
    ensures inside { IfOk result (λ row. (nodes : ℕ) → row_inside nodes row ≡ true) }
{
    if code == NO_ENTRY && has_flag(flags, 0) {
        fails(alloc, READ_ONLY)
    } else {
        fails(alloc, u32::from(code))
    }
}

/// `open-at`.
pub fn open_row(
    alloc: Global,
    table: &Table,
    node: u32,
    follow: u32,
    text: &[u8],
    flags: u32,
    rights: u32,
) -> Result<Row, NoMemory>
    requires { node < count_of table.now }
    ensures row { IfOk result (λ row. (v : View) → HoldsTrees table.now v → shown table.now row ≡ descriptor.open-at v (node_in table.now node) follow text.now flags rights) }
    ensures inside { IfOk result (λ row. row_inside (count_of table.now) row ≡ true) }
{
    if asks_changes(flags, rights) {
        return fails(alloc, READ_ONLY);
    }
    match lead(table, node, text, has_flag(follow, 0)) {
        Ok(at) => open_found(alloc, table, at, flags),
        Err(code) => open_missing(alloc, code, flags),
    }
}
