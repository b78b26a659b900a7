//! A tree in the making. The limits on names, nodes and bytes are kept here; those on nodes and bytes count all trees.

ghost use Rattle.std.specs.Prelude.{◌≡◌, ◌≤◌, ◌<◌, ◌+◌, ◌∷◌, IfOk, [], codes, length, true};
ghost use Rattle.mount_tree.specs.Runs.{IsFault, Says};
ghost use Rattle.mount_tree.specs.declared.fault.TreeFault.TheVariants.{OverLimit};
ghost use Rattle.mount_tree.specs.Making.{count_with, few_nodes, fitting, reached, with_file, with_other, with_tree};
ghost use Rattle.tree_table.specs.Stored.{root_entry};
ghost use Rattle.path_names.specs.Paths.{is_path};
ghost use Rattle.mount_tree.specs.Legal.{IsOther, IsPlace};
ghost use Rattle.mount_tree.specs.Woods.{IsWood};
ghost use Rattle.mount_tree.specs.Spots.{IsSpot};
ghost use Rattle.mount_tree.specs.Reaching.{Reaches};

use crate::fault::{TreeFault, over_limit};
use crate::forest::{Forest, MadeTree};
use crate::paths::{Above, Paths, Spot, depth_of};
use std::alloc::Global;
use std::marker::Model;
use tree_table::Node;
use virt_base::{Bytes, NoMemory, Text};

/// The most names of a path, the most nodes of all trees together, and the most bytes of their files.
const MOST_NAMES: usize = 64;

const MOST_NODES: usize = 65_536;

pub const MOST_BYTES: u64 = 67_108_864;

/// A tree in the making, after those that were made.
#[derive(Drop)]
pub struct Making {
    before: Forest,
    bytes: u64,
    paths: Paths,
}

impl Model for Making {
    ghost use Rattle.std.specs.Prelude.{◌≤◌, ◌+◌, length};
    ghost use Rattle.tree_table.specs.Trees.{file_length, total_in};
    ghost use Rattle.mount_tree.specs.Making.{Sofar};
    ghost use Rattle.mount_tree.specs.Legal.{AreLegal};
    ghost use Rattle.mount_tree.specs.Woods.{IsWood, made_bytes};

    ghost Value = { Sofar };

    ghost view = { λ m. record { before = m.before; bytes = m.bytes; there = m.paths } };

    ghost invariant = { λ m. (m.before.nodes + length m.paths ≤ 65536) × (m.bytes ≤ 67108864) × (made_bytes m.before.trees + total_in file_length m.paths ≤ m.bytes) × AreLegal m.paths × IsWood m.before };
}

/// The fault of that many nodes.
fn too_many(alloc: Global, nodes: usize) -> TreeFault
    ensures { IsFault (OverLimit (codes "tree-nodes") nodes) result }
{
    over_limit(alloc, "tree-nodes", nodes as u64)
}

impl Making {
    /// A root after the trees that were made.
    pub fn root(alloc: Global, forest: Forest) -> Result<Making, TreeFault>
        requires { IsWood forest }
        ensures { Says (few_nodes (forest.nodes + 1) (record { before = forest; bytes = forest.bytes; there = root_entry ∷ [] })) result }
    {
        let nodes = forest.nodes + 1;
        if nodes > MOST_NODES {
            return Err(too_many(alloc, nodes));
        }
        let bytes = forest.bytes;
        Ok(Making {
            before: forest,
            bytes,
            paths: Paths::root(alloc)?,
        })
    }

    /// How many bytes the files have so far.
    pub fn bytes(&self) -> u64
        ensures value { result ≡ self.now.bytes }
        ensures few { result ≤ 67108864 }
    {
        self.bytes
    }

    /// How many nodes there are, the root and those of the trees before among them.
    pub fn nodes(&self) -> usize
        ensures value { result ≡ self.now.before.nodes + length self.now.there }
        ensures few { result ≤ 65536 }
    {
        self.before.nodes + self.paths.len()
    }

    /// Makes the folders above a path. Refuses too many names first, and then too many nodes with the path.
    pub fn reach(self, alloc: Global, path: &str) -> Result<Reached<'_>, TreeFault>
        requires { is_path path.now ≡ true }
        ensures { Reaches self path.now result }
    {
        let depth = depth_of(path);
        if depth > MOST_NAMES {
            return Err(over_limit(alloc, "tree-depth", depth as u64));
        }
        let Making {
            before,
            bytes,
            paths,
        } = self;
        let Above { paths, spot } = paths.with_above(alloc, path)?;
        let more = if paths.is_free(spot.folder, spot.name) {
            1
        } else {
            0
        };
        let nodes = before.nodes + paths.len() + more;
        if nodes > MOST_NODES {
            return Err(too_many(alloc, nodes));
        }
        Ok(Reached {
            making: Making {
                before,
                bytes,
                paths,
            },
            spot,
        })
    }

    /// Adds a file of bytes that fit, at a path that was reached.
    pub fn with_file(
        self,
        alloc: Global,
        path: &str,
        spot: Spot<'_>,
        bytes: Bytes,
    ) -> Result<Making, NoMemory>
        requires spot { IsSpot self.there path.now spot.folder spot.name.now }
        requires few { count_with self path.now ≤ 65536 }
        requires place { IsPlace path.now }
        requires fits { self.bytes + length bytes ≤ 67108864 }
        ensures { IfOk result (λ m. m ≡ with_file self path.now bytes) }
    {
        let _ = path;
        let more = bytes.len() as u64;
        let Making {
            before,
            bytes: used,
            paths,
        } = self;
        let paths = paths.with_node(alloc, spot.folder, spot.name, Node::File(bytes))?;
        Ok(Making {
            before,
            bytes: used + more,
            paths,
        })
    }

    /// Adds a folder or a link, at a path that was reached.
    pub fn with_other(
        self,
        alloc: Global,
        path: &str,
        spot: Spot<'_>,
        node: Node,
    ) -> Result<Making, NoMemory>
        requires spot { IsSpot self.there path.now spot.folder spot.name.now }
        requires few { count_with self path.now ≤ 65536 }
        requires place { IsPlace path.now }
        requires node { IsOther node }
        ensures { IfOk result (λ m. m ≡ with_other self path.now node) }
    {
        let _ = path;
        let Making {
            before,
            bytes,
            paths,
        } = self;
        let paths = paths.with_node(alloc, spot.folder, spot.name, node)?;
        Ok(Making {
            before,
            bytes,
            paths,
        })
    }

    /// The trees with this one after them, under its name.
    pub fn into_forest(self, name: Text) -> Result<Forest, NoMemory>
        ensures value { IfOk result (λ forest. forest ≡ with_tree self name) }
        ensures wood { IfOk result IsWood }
    {
        let nodes = self.nodes();
        let Making {
            before,
            bytes,
            paths,
        } = self;
        let mut trees = before.trees;
        trees.push(MadeTree {
            name,
            nodes: paths.into_nodes(),
        })?;
        Ok(Forest {
            nodes,
            bytes,
            trees,
        })
    }
}

/// A tree in the making with the folders above a path, and where that goes.
#[derive(Drop)]
pub struct Reached<'a> {
    pub making: Making,
    pub spot: Spot<'a>,
}

/// The bytes of one more file, after that many bytes of others.
pub fn fitting(alloc: Global, used: u64, bytes: Bytes) -> Result<Bytes, TreeFault>
    requires { used ≤ 67108864 }
    ensures says { Says (fitting used bytes) result }
    ensures fits { IfOk result (λ bytes. used + length bytes ≤ 67108864) }
{
    let all = used.saturating_add(bytes.len() as u64);
    if all > MOST_BYTES {
        return Err(over_limit(alloc, "embedded-bytes", all));
    }
    Ok(bytes)
}
