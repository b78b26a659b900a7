//! A tree as its paths in order, each with what it leads to. It has no names but those of its nodes, so a path is not kept in full.

ghost use Rattle.std.specs.Prelude.{◌≡◌, ◌<◌, ◌↔◌, ℕ, map, length, IfOk, IsTrue, IsUtf8, Contains, slice_index_or};
ghost use Rattle.tree_table.specs.Trees.{IsTree};
ghost use Rattle.tree_table.specs.Tables.{content_of};
ghost use Rattle.tree_table.specs.Slots.{kind_of};
ghost use Rattle.tree_table.specs.Linked.{IsLonger, end_name};
ghost use Rattle.tree_table.specs.Stored.{entry_at, node_at, path_at, root_entry};

use crate::entries::{Entry, Node};
use crate::nodes::Nodes;
use crate::slot::NodeKind;
use std::alloc::Global;
use std::marker::Model;
use virt_base::{NoMemory, copy_bytes};

/// The paths of a tree, each with what it leads to, in the tree's order: part by part in byte order, a folder before
/// what is in it. The first is the root. What is asked past the last place is answered as of the root.
#[derive(Debug, Drop)]
pub struct Entries {
    nodes: Nodes,
    /// The number of the node at each place.
    order: Vec<usize>,
}

impl Model for Entries {
    ghost use Rattle.std.specs.Prelude.{◌≡◌, ◌<◌, ℕ, List, length, map, Contains};
    ghost use Rattle.tree_table.specs.declared.entries.Entry.{Entry};
    ghost use Rattle.tree_table.specs.Stored.{entry_at, root_entry};

    ghost Value = { List Entry };

    ghost view = { λ e. map (entry_at e.nodes) e.order.items };

    ghost invariant = { λ e. (entry_at e.nodes 0 ≡ root_entry) × ((number : ℕ) → number < length e.nodes → Contains e.order.items number) };
}

/// The number of the node at a place.
fn number_at(order: &[usize], place: usize) -> usize
    ensures { result ≡ slice_index_or order.now place 0 }
{
    match order.get(place) {
        None => 0,
        Some(number) => *number,
    }
}

impl Entries {
    /// Nodes in an order in which each of them stands.
    pub fn new(nodes: Nodes, order: Vec<usize>) -> Entries
        requires first { entry_at nodes 0 ≡ root_entry }
        requires whole { (number : ℕ) → number < length nodes → Contains order.items number }
        ensures { result ≡ map (entry_at nodes) order.items }
    {
        Entries { nodes, order }
    }

    pub fn len(&self) -> usize
        ensures { result ≡ length self.now }
    {
        self.order.len()
    }

    /// How many names the path at a place has.
    pub fn depth(&self, place: usize) -> usize
        ensures { result ≡ length (path_at self.now place) }
    {
        let number = number_at(self.order.as_slice(), place);
        self.nodes.depth(number)
    }

    /// The last name of the path at a place, which is empty at the root.
    pub fn name(&self, place: usize) -> &[u8]
        ensures value { result.now ≡ end_name (path_at self.now place) }
        ensures utf8 { IsUtf8 result.now }
    {
        let number = number_at(self.order.as_slice(), place);
        self.nodes.name(number)
    }

    pub fn kind(&self, place: usize) -> NodeKind
        ensures { result ≡ kind_of (node_at self.now place) }
    {
        let number = number_at(self.order.as_slice(), place);
        self.nodes.kind(number)
    }

    /// A file's bytes, a link's target; empty for a folder.
    pub fn content(&self, place: usize) -> &[u8]
        ensures { result.now ≡ content_of (node_at self.now place) }
    {
        let number = number_at(self.order.as_slice(), place);
        self.nodes.content(number)
    }

    /// Whether the path at one place is the folder in which that at the other is.
    pub fn is_in(&self, upper: usize, lower: usize) -> bool
        requires tree { IsTree self.now }
        requires upper { upper < length self.now }
        requires lower { lower < length self.now }
        ensures { IsTrue result ↔ IsLonger (path_at self.now upper) (path_at self.now lower) }
    {
        let number = number_at(self.order.as_slice(), lower);
        match self.nodes.folder(number) {
            None => false,
            Some(folder) => folder == number_at(self.order.as_slice(), upper),
        }
    }

    /// A copy of the entry at a place, with its path in full.
    pub fn entry(&self, alloc: Global, place: usize) -> Result<Entry, NoMemory>
        ensures { IfOk result (λ entry. entry ≡ entry_at self.now place) }
    {
        let number = number_at(self.order.as_slice(), place);
        let path = self.nodes.path(alloc, number)?;
        let node = match self.nodes.kind(number) {
            NodeKind::Folder => Node::Folder,
            NodeKind::File => Node::File(copy_bytes(alloc, self.nodes.content(number))?),
            NodeKind::Link => Node::Link(copy_bytes(alloc, self.nodes.content(number))?),
        };
        Ok(Entry { path, node })
    }
}
