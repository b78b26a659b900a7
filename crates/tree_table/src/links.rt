//! The folder of each node and the range of its children, found in one pass over the nodes in order.

ghost use Rattle.std.specs.Prelude.{◌≡◌, ◌↔◌, IsTrue, IsSome, IfOk};
ghost use Rattle.tree_table.specs.Trees.{AreTrees};
ghost use Rattle.tree_table.specs.Orders.{IsOrder};
ghost use Rattle.tree_table.specs.Linked.{entry_of, IsFolderOf, AreLinks};

use crate::entries::NamedTree;
use crate::order::Key;
use std::alloc::Global;
use virt_base::NoMemory;

/// How the nodes hang together, by their numbers: the folder of each, and the first of its children, which end where
/// those of the next node begin.
#[derive(Drop)]
pub struct Links {
    pub parents: Vec<u32>,
    pub first: Vec<u32>,
}

/// Whether the one node is the folder in which the other is.
fn is_folder_of(trees: &[NamedTree], upper: &Key, lower: &Key) -> bool
    requires trees { AreTrees trees.now }
    requires upper { IsSome (entry_of trees.now upper.now) }
    requires lower { IsSome (entry_of trees.now lower.now) }
    ensures { IsTrue result ↔ IsFolderOf trees.now upper.now lower.now }
{
    upper.tree == lower.tree && trees[lower.tree].entries.is_in(upper.place, lower.place)
}

/// Finds each node's folder in one pass, since the folders of nodes in order are in order too.
pub fn link(alloc: Global, trees: &[NamedTree], order: &[Key]) -> Result<Links, NoMemory>
    requires trees { AreTrees trees.now }
    requires order { IsOrder trees.now order.now }
    ensures { IfOk result (λ links. AreLinks trees.now order.now links.parents.items links.first.items) }
{
    let roots = trees.len();
    let mut parents = vec![in alloc; 0u32; roots]?;
    let mut first = vec![in alloc; roots as u32]?;
    let mut parent: usize = 0;
    for node in roots..order.len() {
        while !is_folder_of(trees, &order[parent], &order[node]) {
            parent += 1;
            first.push(node as u32)?;
        }
        parents.push(parent as u32)?;
    }
    while first.len() <= order.len() {
        first.push(order.len() as u32)?;
    }
    Ok(Links { parents, first })
}
