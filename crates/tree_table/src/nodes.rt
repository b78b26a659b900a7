//! The nodes of one tree while it is made, and the tree in order that they become.

ghost use Rattle.std.specs.Prelude.{◌≡◌, ◌<◌, ◌≤◌, [], ◌∷◌, ◌++◌, length, IfOk, OnOk, OnErr, IfSome, IfNone, IsUtf8};
ghost use Rattle.std.specs.List.Sorted.{IsPermutation, IsSortedBy};
ghost use Rattle.std.specs.Ordering.{is_lt};
ghost use Rattle.tree_table.specs.Trees.{path_cmp};
ghost use Rattle.tree_table.specs.Tables.{content_of};
ghost use Rattle.tree_table.specs.Slots.{kind_of};
ghost use Rattle.tree_table.specs.Linked.{IsLonger, end_name};
ghost use Rattle.tree_table.specs.Stored.{IsKept, entry_at, entry_in, node_at, numbers_upto, path_at, root_entry};

use crate::entries::{Names, Node};
use crate::ordered::Entries;
use crate::slot::NodeKind;
use std::alloc::Global;
use std::cmp::Ordering;
use std::marker::Model;
use virt_base::{Items, NoMemory, Text};

/// What is kept of a node below the root: the number of its folder, how many names its path has, its own name, and what
/// it is.
#[derive(Debug, Drop)]
pub struct Kept {
    folder: usize,
    depth: usize,
    name: Text,
    node: Node,
}

/// The nodes of a tree in the making: the root, which has the number 0, and then each after its folder. A node keeps its
/// own name alone, so that all take memory in proportion to their names and contents.
#[derive(Debug, Drop)]
pub struct Nodes {
    below: Vec<Kept>,
}

impl Model for Nodes {
    ghost use Rattle.std.specs.Prelude.{List, [], ◌∷◌};
    ghost use Rattle.tree_table.specs.declared.entries.Entry.{Entry};
    ghost use Rattle.tree_table.specs.Stored.{AreKept, entries_from, root_entry};

    ghost Value = { List Entry };

    ghost view = { λ n. entries_from (root_entry ∷ []) n.below.items };

    ghost invariant = { λ n. AreKept (entries_from (root_entry ∷ []) n.below.items) n.below.items };
}

impl Nodes {
    /// A root without anything in it, which takes no memory.
    pub fn root(alloc: Global) -> Nodes
        ensures { result ≡ root_entry ∷ [] }
    {
        Nodes {
            below: Vec::new(alloc),
        }
    }

    /// How many nodes there are, the root among them.
    pub fn len(&self) -> usize
        ensures { result ≡ length self.now }
    {
        self.below.len() + 1
    }

    /// Adds a node to the folder of a number. Where memory runs out the nodes stay as they were.
    pub fn push(&mut self, folder: usize, name: Text, node: Node) -> Result<(), NoMemory>
        requires { folder < length self.old }
        ensures ok { OnOk result (self.new ≡ self.old ++ entry_in self.old folder name node ∷ []) }
        ensures err { OnErr result (self.new ≡ self.old) }
    {
        let depth = self.depth(folder) + 1;
        self.below.push(Kept {
            folder,
            depth,
            name,
            node,
        })?;
        Ok(())
    }

    /// What is kept of a node; nothing of the root, and nothing past the last.
    fn kept(&self, number: usize) -> Option<&Kept>
        ensures some { IfSome result (λ kept. IsKept self.now number kept.now) }
        ensures none { IfNone result (entry_at self.now number ≡ root_entry) }
    {
        let below = self.below.as_slice();
        if number == 0 || number > below.len() {
            None
        } else {
            Some(&below[number - 1])
        }
    }

    /// How many names the path of a node has.
    pub fn depth(&self, number: usize) -> usize
        ensures value { result ≡ length (path_at self.now number) }
        ensures few { result ≤ number }
    {
        match self.kept(number) {
            None => 0,
            Some(kept) => kept.depth,
        }
    }

    /// The last name of a node's path, which is empty at the root.
    pub fn name(&self, number: usize) -> &[u8]
        ensures value { result.now ≡ end_name (path_at self.now number) }
        ensures utf8 { IsUtf8 result.now }
    {
        match self.kept(number) {
            None => &[],
            Some(kept) => kept.name.bytes(),
        }
    }

    /// The number of the folder in which a node is; none at the root.
    pub fn folder(&self, number: usize) -> Option<usize>
        ensures some { IfSome result (λ folder. (folder < number) × (number < length self.now) × IsLonger (path_at self.now folder) (path_at self.now number)) }
        ensures none { IfNone result (path_at self.now number ≡ []) }
    {
        match self.kept(number) {
            None => None,
            Some(kept) => Some(kept.folder),
        }
    }

    pub fn kind(&self, number: usize) -> NodeKind
        ensures { result ≡ kind_of (node_at self.now number) }
    {
        match self.kept(number) {
            None => NodeKind::Folder,
            Some(kept) => match &kept.node {
                Node::Folder => NodeKind::Folder,
                Node::File(_) => NodeKind::File,
                Node::Link(_) => NodeKind::Link,
            },
        }
    }

    /// A file's bytes, a link's target; empty for a folder.
    pub fn content(&self, number: usize) -> &[u8]
        ensures { result.now ≡ content_of (node_at self.now number) }
    {
        match self.kept(number) {
            None => &[],
            Some(kept) => match &kept.node {
                Node::Folder => &[],
                Node::File(content) => content.as_slice(),
                Node::Link(target) => target.as_slice(),
            },
        }
    }

    /// The names of a node's path.
    pub fn path(&self, alloc: Global, number: usize) -> Result<Names, NoMemory>
        ensures { IfOk result (λ names. names ≡ path_at self.now number) }
    {
        match self.kept(number) {
            None => Ok(Items::empty(alloc)),
            Some(kept) => {
                let mut names = self.path(alloc, kept.folder)?;
                names.push(kept.name.copy(alloc)?)?;
                Ok(names)
            }
        }
    }

    /// How the paths of two nodes stand in a tree's order: part by part in byte order, a folder before what is in it.
    fn path_order(&self, a: usize, b: usize) -> Ordering
        ensures { result ≡ path_cmp (path_at self.now a) (path_at self.now b) }
    {
        match self.kept(a) {
            None => match self.kept(b) {
                None => Ordering::Equal,
                Some(_) => Ordering::Less,
            },
            Some(x) => match self.kept(b) {
                None => Ordering::Greater,
                Some(y) => {
                    if x.depth > y.depth {
                        self.path_order(x.folder, b).then(Ordering::Greater)
                    } else if y.depth > x.depth {
                        self.path_order(a, y.folder).then(Ordering::Less)
                    } else {
                        let above = self.path_order(x.folder, y.folder);
                        above.then(x.name.bytes().cmp(y.name.bytes()))
                    }
                }
            },
        }
    }

    /// The numbers of the nodes, as they were made.
    fn numbers(&self, alloc: Global) -> Result<Vec<usize>, NoMemory>
        ensures { IfOk result (λ numbers. numbers.items ≡ numbers_upto (length self.now)) }
    {
        let mut numbers = Vec::with_capacity(alloc, self.len())?;
        for number in 0..self.len() {
            numbers.push(number)?;
        }
        Ok(numbers)
    }

    /// The same nodes in the tree's order.
    pub fn in_order(self, alloc: Global) -> Result<Entries, NoMemory>
        ensures same { IfOk result (λ entries. IsPermutation self entries) }
        ensures ordered { IfOk result (λ entries. IsSortedBy (λ a b. is_lt (path_cmp a.path b.path)) entries) }
    {
        let mut order = self.numbers(alloc)?;
        order.sort_by(
            |a: &usize, b: &usize| -> Ordering
                ensures { result ≡ path_cmp (path_at self a.now) (path_at self b.now) }
            { self.path_order(*a, *b) },
        )?;
        Ok(Entries::new(self, order))
    }
}
