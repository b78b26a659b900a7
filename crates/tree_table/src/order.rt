//! The numbers of nodes: roots first, and then level by level, so that the children of a folder are a range of numbers.

ghost use Rattle.std.specs.Prelude.{◌≡◌, ◌++◌, IfOk, OnOk, drop};

use crate::entries::NamedTree;
use crate::ordered::Entries;
use std::alloc::Global;
use virt_base::NoMemory;

/// Where a node stands: how many names its path has, the place of its tree, and its path's place in the tree's order.
#[derive(Debug, Clone, Copy, PartialEq, Eq, PartialOrd, Ord)]
pub struct Key {
    pub depth: usize,
    pub tree: usize,
    pub place: usize,
}

ghost use Rattle.tree_table.specs.Trees.{AreTrees};
ghost use Rattle.tree_table.specs.Orders.{roots_upto, keys_from, inner_from, IsOrder};

/// The roots, tree by tree.
fn root_keys(alloc: Global, trees: usize) -> Result<Vec<Key>, NoMemory>
    ensures { IfOk result (λ keys. keys.items ≡ roots_upto trees) }
{
    let mut keys = Vec::new(alloc);
    for tree in 0..trees {
        keys.push(Key {
            depth: 0,
            tree,
            place: 0,
        })?;
    }
    Ok(keys)
}

/// Adds what is in a tree below its root, in the tree's order.
fn push_inner(keys: &mut Vec<Key>, tree: usize, entries: &Entries) -> Result<(), NoMemory>
    ensures { OnOk result (keys.new.items ≡ keys.old.items ++ keys_from tree 1 (drop 1 entries.now)) }
{
    for place in 1..entries.len() {
        keys.push(Key {
            depth: entries.depth(place),
            tree,
            place,
        })?;
    }
    Ok(())
}

/// What is in the trees below their roots, tree by tree.
fn inner_keys(alloc: Global, trees: &[NamedTree]) -> Result<Vec<Key>, NoMemory>
    ensures { IfOk result (λ keys. keys.items ≡ inner_from 0 trees.now) }
{
    let mut keys = Vec::new(alloc);
    for tree in 0..trees.len() {
        push_inner(&mut keys, tree, &trees[tree].entries)?;
    }
    Ok(keys)
}

/// The nodes in the order of their numbers: the roots, and then level by level what is below them, so that the
/// children of a folder stand together.
pub fn node_order(alloc: Global, trees: &[NamedTree]) -> Result<Vec<Key>, NoMemory>
    requires { AreTrees trees.now }
    ensures { IfOk result (λ order. IsOrder trees.now order.items) }
{
    let mut order = root_keys(alloc, trees.len())?;
    let mut inner = inner_keys(alloc, trees)?;
    inner.sort()?;
    order.extend_from_slice(inner.as_slice())?;
    Ok(order)
}
