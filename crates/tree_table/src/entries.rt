//! What trees are given as: paths with what they lead to, and trees under their names.

use crate::ordered::Entries;
use virt_base::{Bytes, Items, Text};

/// What a path of a tree leads to.
#[derive(Debug, Drop)]
pub enum Node {
    Folder,
    /// A file, with its bytes.
    File(Bytes),
    /// A symbolic link, with its target.
    Link(Bytes),
}

/// A path: its names from the root on. The root's own path has none.
pub type Names = Items<Text>;

/// A path of a tree, and what it leads to.
#[derive(Debug, Drop)]
pub struct Entry {
    pub path: Names,
    pub node: Node,
}

/// A tree under its name.
#[derive(Debug, Drop)]
pub struct NamedTree {
    pub name: Text,
    pub entries: Entries,
}

/// Trees in order.
pub type Trees = Items<NamedTree>;
