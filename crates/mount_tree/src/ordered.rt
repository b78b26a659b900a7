//! The trees that were made, put in order: each becomes a list of entries in the order of paths.

ghost use Rattle.std.specs.Prelude.{◌≡◌, IfOk};
ghost use Rattle.mount_tree.specs.Ordered.{AreOrdered, IsOrdered};

use crate::forest::{MadeTree, MadeTrees};
use std::alloc::Global;
use tree_table::{NamedTree, Trees};
use virt_base::{Items, NoMemory};

fn ordered_tree(alloc: Global, tree: MadeTree) -> Result<NamedTree, NoMemory>
    ensures { IfOk result (λ named. IsOrdered tree named) }
{
    let entries = tree.nodes.in_order(alloc)?;
    Ok(NamedTree {
        name: tree.name,
        entries,
    })
}

/// The trees that were made, with the paths of each in its order.
pub fn ordered_trees(alloc: Global, trees: MadeTrees) -> Result<Trees, NoMemory>
    ensures { IfOk result (λ named. AreOrdered trees named) }
{
    let mut named = Items::empty(alloc);
    let mut rest = trees.into_vec().into_iter();
    while let Some(tree) = rest.next() {
        named.push(ordered_tree(alloc, tree)?)?;
    }
    Ok(named)
}
