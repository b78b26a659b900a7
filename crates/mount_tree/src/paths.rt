//! The nodes of a tree in the making, with a map from names to numbers for each folder.

ghost use Rattle.std.specs.Prelude.{◌≡◌, ◌<◌, ◌+◌, ℕ, List, IfOk, OnOk, IfSome, [], ◌∷◌, ◌++◌, Some, length, nat_eq, string_bytes, ◌&&◌, if◌then◌else◌};
ghost use Rattle.std.specs.Str.{bytes_eq};
ghost use Rattle.path_names.specs.Paths.{names_of};
ghost use Rattle.tree_table.specs.declared.entries.Node.{Node};
ghost use Rattle.tree_table.specs.Stored.{node_at, root_entry};
ghost use Rattle.mount_tree.specs.Growing.{IsAt, IsGrown, child_in, is_free, with_folders, with_node};
ghost use Rattle.mount_tree.specs.Spots.{IsSpot};

use std::alloc::Global;
use std::collections::BTreeMap;
use std::marker::Model;
use tree_table::{Node, NodeKind, Nodes};
use virt_base::{NoMemory, Text};

/// What was made of a tree, in order. The children of each folder are found by their names, so that no list is searched.
#[derive(Drop)]
pub struct Paths {
    nodes: Nodes,
    inside: Vec<BTreeMap<String, usize>>,
}

impl Model for Paths {
    ghost use Rattle.std.specs.Prelude.{List};
    ghost use Rattle.tree_table.specs.declared.entries.Entry.{Entry};
    ghost use Rattle.mount_tree.specs.Growing.{IsIndex};

    ghost Value = { List Entry };

    ghost view = { λ p. p.nodes };

    ghost invariant = { λ p. IsIndex p.nodes p.inside.items };
}

/// Where a path goes: the number of its folder, none where no folder is there, and its last name.
#[derive(Clone, Copy)]
pub struct Spot<'a> {
    pub folder: Option<usize>,
    pub name: &'a str,
}

/// The paths with the folders above one more, and where that goes.
#[derive(Drop)]
pub struct Above<'a> {
    pub paths: Paths,
    pub spot: Spot<'a>,
}

/// The number of a name in a folder.
fn child_in(inside: &[BTreeMap<String, usize>], folder: usize, name: &str) -> Option<usize>
    ensures { result ≡ child_in inside.now folder name.now }
{
    if folder < inside.len() {
        inside[folder].get(name).copied()
    } else {
        None
    }
}

/// Puts a number under a name in a folder, and a map without names after the others.
fn put_child(
    inside: &mut Vec<BTreeMap<String, usize>>,
    alloc: Global,
    folder: usize,
    name: String,
    number: usize,
) -> Result<(), NoMemory>
    requires { folder < length inside.old.items }
    ensures size { OnOk result (length inside.new.items ≡ length inside.old.items + 1) }
    ensures put { OnOk result ((f : ℕ) → (n : List ℕ) → child_in inside.new.items f n ≡ (if nat_eq f folder && bytes_eq (string_bytes name) n then Some number else child_in inside.old.items f n)) }
{
    inside[folder].insert(name, number)?;
    inside.push(BTreeMap::new(alloc))?;
    Ok(())
}

impl Paths {
    /// A root without anything in it.
    pub fn root(alloc: Global) -> Result<Paths, NoMemory>
        ensures { IfOk result (λ paths. paths ≡ root_entry ∷ []) }
    {
        let mut inside = Vec::new(alloc);
        inside.push(BTreeMap::new(alloc))?;
        Ok(Paths {
            nodes: Nodes::root(alloc),
            inside,
        })
    }

    pub fn len(&self) -> usize
        ensures value { result ≡ length self.now }
        ensures some { 0 < result }
    {
        self.nodes.len()
    }

    /// Whether a name is free in a folder.
    pub fn is_free(&self, folder: Option<usize>, name: &str) -> bool
        ensures { (above : List (List ℕ)) → IsAt self.now above folder → result ≡ is_free self.now above name.now }
    {
        match folder {
            None => false,
            Some(folder) => child_in(self.inside.as_slice(), folder, name).is_none(),
        }
    }

    /// The folder of a name in a folder.
    fn folder_in(&self, folder: Option<usize>, name: &str) -> Option<usize>
        ensures { (above : List (List ℕ)) → IsAt self.now above folder → IsAt self.now (above ++ name.now ∷ []) result }
    {
        match folder {
            None => None,
            Some(folder) => match child_in(self.inside.as_slice(), folder, name) {
                None => None,
                Some(number) => match self.nodes.kind(number) {
                    NodeKind::Folder => Some(number),
                    NodeKind::File => None,
                    NodeKind::Link => None,
                },
            },
        }
    }

    /// The root, which is a folder.
    fn root_folder(&self) -> Option<usize>
        ensures { IsAt self.now [] result }
    {
        let _ = &self.nodes;
        Some(0)
    }

    /// Adds a node of a name to a folder, unless the name is not free there.
    pub fn with_node(
        self,
        alloc: Global,
        folder: Option<usize>,
        name: &str,
        node: Node,
    ) -> Result<Paths, NoMemory>
        requires { IfSome folder (λ f. (f < length self) × (node_at self f ≡ Node.Folder)) }
        ensures { IfOk result (λ paths. (above : List (List ℕ)) → IsAt self above folder → paths ≡ with_node self above name.now node) }
    {
        let Some(folder) = folder else {
            return Ok(self);
        };
        if child_in(self.inside.as_slice(), folder, name).is_some() {
            return Ok(self);
        }
        let Paths {
            mut nodes,
            mut inside,
        } = self;
        let number = nodes.len();
        put_child(
            &mut inside,
            alloc,
            folder,
            String::from_str(alloc, name)?,
            number,
        )?;
        nodes.push(folder, Text::from_str(alloc, name)?, node)?;
        Ok(Paths { nodes, inside })
    }

    /// Adds the folders in which a path is, and says where it goes.
    pub fn with_above(self, alloc: Global, path: &str) -> Result<Above<'_>, NoMemory>
        ensures paths { IfOk result (λ above. above.paths ≡ with_folders self [] (names_of path.now)) }
        ensures spot { IfOk result (λ above. IsSpot above.paths path.now above.spot.folder above.spot.name.now) }
    {
        let mut paths = self;
        let mut folder = paths.root_folder();
        let mut rest = path;
        while let Some((name, more)) = rest.split_once('/') {
            paths = paths.with_node(alloc, folder, name, Node::Folder)?;
            folder = paths.folder_in(folder, name);
            rest = more;
        }
        Ok(Above {
            paths,
            spot: Spot { folder, name: rest },
        })
    }

    /// What was made, in order.
    pub fn into_nodes(self) -> Nodes
        ensures value { result ≡ self }
        ensures grown { IsGrown result }
    {
        self.nodes
    }
}

/// How many names a path has.
pub fn depth_of(path: &str) -> usize
    ensures { result ≡ length (names_of path.now) }
{
    let mut depth = 1;
    let mut rest = path.as_bytes();
    while let Some((byte, more)) = rest.split_first() {
        if *byte == b'/' {
            depth += 1;
        }
        rest = more;
    }
    depth
}
