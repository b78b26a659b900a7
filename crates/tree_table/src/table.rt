//! The table of the nodes of all trees: it is built, it answers what a node is and holds, and walks read it.

ghost use Rattle.std.specs.Prelude.{◌≡◌, ◌≢◌, ℕ, ◌+◌, ◌-◌, ◌<◌, ◌≤◌, ◌^◌, [], ◌++◌, All, List, Some, None, OnOk, IfOk, IfSome, IfNone, IsUtf8, length, nat_lt, if◌then◌else◌};
ghost use Rattle.tree_table.specs.declared.entries.Node.{Node};
ghost use Rattle.tree_table.specs.Tables.{count_of, tree_count, tree_of, place_of, path_of, node_of, map_of, longest_of, last_name, content_of, HasChildren, Holds};
ghost use Rattle.tree_table.specs.Slots.{kind_of, row_of, IsWithin};
ghost use Rattle.tree_table.specs.Trees.{AreTrees};
ghost use Rattle.tree_table.specs.Orders.{IsOrder};
ghost use Rattle.tree_table.specs.Linked.{AreLinks, end_name, row_for};
ghost use Rattle.tree_table.specs.Paths.{parts_of};

use crate::entries::{NamedTree, Trees};
use crate::links::{Links, link};
use crate::names::NameRead;
use crate::order::{Key, node_order};
use crate::slot::{NodeKind, Slot, Span, append, within};
use std::alloc::Global;
use std::cmp::Ordering;
use std::marker::Model;
use std::sync::ledger::Ledger;
use virt_base::{NoMemory, Steps};

/// The nodes of trees.
#[derive(Debug, Drop)]
pub struct Table {
    roots: u32,
    slots: Vec<Slot>,
    bytes: Vec<u8>,
}

/// What is kept of the node of a number, whose name and content are put after the bytes.
fn slot_for(
    bytes: &mut Vec<u8>,
    trees: &[NamedTree],
    order: &[Key],
    links: &Links,
    node: usize,
) -> Result<Slot, NoMemory>
    requires trees { AreTrees trees.now }
    requires order { IsOrder trees.now order.now }
    requires links { AreLinks trees.now order.now links.now.parents.items links.now.first.items }
    requires node { node < length order.now }
    ensures bytes { OnOk result ((more : List ℕ) × (bytes.new.items ≡ bytes.old.items ++ more)) }
    ensures row { IfOk result (λ slot. row_of bytes.new.items slot ≡ row_for trees.now order.now links.now.parents.items links.now.first.items node) }
    ensures within { IfOk result (λ slot. IsWithin bytes.new.items slot) }
{
    let key = &order[node];
    let entries = &trees[key.tree].entries;
    let name = append(bytes, entries.name(key.place))?;
    let content = append(bytes, entries.content(key.place))?;
    Ok(Slot {
        tree: key.tree as u32,
        place: key.place as u32,
        parent: links.parents[node],
        from: links.first[node],
        to: links.first[node + 1],
        name,
        kind: entries.kind(key.place),
        content,
    })
}

impl Table {
    /// The table of trees, which has their path maps and a node for each path.
    pub fn build(alloc: Global, trees: &Trees) -> Result<Table, NoMemory>
        requires { AreTrees trees.now }
        ensures { IfOk result (λ table. Holds trees.now table) }
    {
        let named = trees.as_slice();
        let order = node_order(alloc, named)?;
        let links = link(alloc, named, order.as_slice())?;
        let mut slots = Vec::with_capacity(alloc, order.len())?;
        let mut bytes = Vec::new(alloc);
        for node in 0..order.len() {
            let slot = slot_for(&mut bytes, named, order.as_slice(), &links, node)?;
            slots.push(slot)?;
        }
        Ok(Table {
            roots: named.len() as u32,
            slots,
            bytes,
        })
    }
}

impl Model for Table {
    ghost use Rattle.std.specs.Prelude.{map};
    ghost use Rattle.tree_table.specs.Tables.{Forest, IsSound};

    ghost Value = { Forest };

    ghost use Rattle.tree_table.specs.Slots.{row_of, AreWithin};

    ghost view = { λ t. record { roots = t.roots; rows = map (row_of t.bytes.items) t.slots.items } };

    ghost invariant = { λ t. IsSound (record { roots = t.roots; rows = map (row_of t.bytes.items) t.slots.items }) × AreWithin t.bytes.items t.slots.items };
}

impl NameRead for Table {
    ghost use Rattle.tree_table.specs.Tables.{count_of, map_of, tree_of, path_of, name_of, longest_of};

    ghost nodes = { count_of };

    ghost look = { map_of };

    ghost tree = { tree_of };

    ghost path = { path_of };

    ghost name = { name_of };

    ghost longest = { longest_of };

    fn children(&self, node: u32) -> (u32, u32) {
        let slot = &self.slots[node as usize];
        (slot.from, slot.to)
    }

    fn parent(&self, node: u32) -> u32 {
        let slot = &self.slots[node as usize];
        slot.parent
    }

    fn is_file(&self, node: u32) -> bool {
        let slot = &self.slots[node as usize];
        match slot.kind {
            NodeKind::File => true,
            NodeKind::Folder => false,
            NodeKind::Link => false,
        }
    }

    fn target(&self, node: u32) -> Option<&[u8]> {
        target(self, node)
    }

    fn compare<L: Ledger>(&self, node: u32, part: &[u8], steps: &mut Steps<L>) -> Ordering {
        steps.tick();
        let slot = &self.slots[node as usize];
        within(self.bytes.as_slice(), slot.name).cmp(part)
    }
}

/// What a node is.
pub fn kind(table: &Table, node: u32) -> NodeKind
    requires { node < count_of table.now }
    ensures { result ≡ kind_of (node_of table.now node) }
{
    let slot = &table.slots[node as usize];
    slot.kind
}

/// A file's bytes, or a link's target.
pub fn content(table: &Table, node: u32) -> &[u8]
    requires inside { node < count_of table.now }
    requires content { node_of table.now node ≢ Node.Folder }
    ensures { result.now ≡ content_of (node_of table.now node) }
{
    let slot = &table.slots[node as usize];
    within(table.bytes.as_slice(), slot.content)
}

fn are_bytes(bytes: &[u8])
    ensures small { All (λ b. b < 256) bytes.now }
    ensures count { length bytes.now < 2 ^ 64 }
{
    let _bytes = bytes;
}

/// What files and links hold are bytes, as many as 64 bits can count: a list of numbers does not tell that itself. It does
/// nothing when it runs.
pub fn contents_are_bytes(table: &Table)
    ensures small { (node : ℕ) → All (λ b. b < 256) (content_of (node_of table.now node)) }
    ensures count { (node : ℕ) → length (content_of (node_of table.now node)) < 2 ^ 64 }
{
    are_bytes(table.bytes.as_slice());
}

/// A link's target; none exactly where the node is no link.
pub fn target(table: &Table, node: u32) -> Option<&[u8]>
    requires { node < count_of table.now }
    ensures link { IfSome result (λ target. node_of table.now node ≡ Node.Link target.now) }
    ensures none { IfNone result ((target : List ℕ) → node_of table.now node ≢ Node.Link target) }
    // The tree has at the node's path what the node is.
    ensures there { map_of table.now (tree_of table.now node) (path_of table.now node) ≡ Some (node_of table.now node) }
    ensures parts { IfSome result (λ target. length (parts_of target.now) ≤ longest_of table.now) }
{
    let slot = &table.slots[node as usize];
    match slot.kind {
        NodeKind::Link => Some(within(table.bytes.as_slice(), slot.content)),
        NodeKind::Folder => None,
        NodeKind::File => None,
    }
}

/// The root of the tree at a place, from 0.
pub fn root(table: &Table, tree: u32) -> u32
    requires { tree < tree_count table.now }
    ensures inside { result < count_of table.now }
    ensures tree { tree_of table.now result ≡ tree }
    ensures path { path_of table.now result ≡ [] }
{
    // The roots have the first numbers.
    let _ = &table.roots;
    tree
}

/// A folder's child at a place, from 0, in byte order; none exactly where it has no more.
pub fn child(table: &Table, node: u32, nth: u32) -> Option<u32>
    requires { node < count_of table.now }
    ensures inside { IfSome result (λ at. at < count_of table.now) }
    ensures nth { (from to : ℕ) × HasChildren table.now node from to × (result ≡ (if nat_lt nth (to - from) then Some (from + nth) else None)) }
{
    let (from, to) = table.children(node);
    if nth < to - from {
        Some(from + nth)
    } else {
        None
    }
}

/// The last name of a node's path, which is empty at a root.
pub fn name(table: &Table, node: u32) -> &[u8]
    requires { node < count_of table.now }
    ensures value { result.now ≡ last_name (path_of table.now node) }
    ensures utf8 { IsUtf8 result.now }
{
    let slot = &table.slots[node as usize];
    within(table.bytes.as_slice(), slot.name)
}

/// The place of a node's tree, from 0, and its path's place in the tree's order, where the root has 0.
pub fn place(table: &Table, node: u32) -> (u32, u32)
    requires { node < count_of table.now }
    ensures tree { result.0 ≡ tree_of table.now node }
    ensures place { result.1 ≡ place_of table.now node }
{
    let slot = &table.slots[node as usize];
    (slot.tree, slot.place)
}
