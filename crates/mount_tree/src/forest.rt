//! The trees that were made, and how many nodes and bytes they have together. Their nodes are not in order yet.

use tree_table::Nodes;
use virt_base::{Items, Text};

/// The name of a tree, and what was made of it.
#[derive(Debug, Drop)]
pub struct MadeTree {
    pub name: Text,
    pub nodes: Nodes,
}

/// Trees in order.
pub type MadeTrees = Items<MadeTree>;

/// The trees so far, with their nodes and the bytes of their files.
#[derive(Drop)]
pub struct Forest {
    pub nodes: usize,
    pub bytes: u64,
    pub trees: MadeTrees,
}
