//! A check, by code, that trees are as a table of trees asks, so that a test of trees can meet what the table requires.

ghost use Rattle.std.specs.Prelude.{◌≡◌, [], IfOk, IsTrue, Some, All, slice_get};
ghost use Rattle.std.specs.declared.cmp.Ordering.TheVariants.{Less};
ghost use Rattle.tree_table.specs.Trees.{AreTrees, IsTree, IsShort, path_cmp};
ghost use Rattle.tree_table.specs.Linked.{IsLonger};
ghost use Rattle.value_rows.specs.Checks.{HasFolder, Fits};

use std::alloc::Global;
use std::cmp::Ordering;
use tree_table::{Entries, Entry, NamedTree, Node};
use virt_base::{NoMemory, Text};

/// How two paths stand in the tree's order.
fn path_order(a: &[Text], b: &[Text]) -> Ordering
    ensures { result ≡ path_cmp a.now b.now }
{
    match a {
        [] => match b {
            [] => Ordering::Equal,
            [_, ..] => Ordering::Less,
        },
        [x, xs @ ..] => match b {
            [] => Ordering::Greater,
            [y, ys @ ..] => match x.bytes().cmp(y.bytes()) {
                Ordering::Less => Ordering::Less,
                Ordering::Greater => Ordering::Greater,
                Ordering::Equal => path_order(xs, ys),
            },
        },
    }
}

/// Whether two lists have the same names.
fn same_names(a: &[Text], b: &[Text]) -> bool
    ensures { IsTrue result → a.now ≡ b.now }
{
    if a.len() != b.len() {
        return false;
    }
    for i in 0..a.len() {
        if !a[i].is_same(&b[i]) {
            return false;
        }
    }
    true
}

/// Whether the first path is the other without its last name.
fn is_longer(upper: &[Text], lower: &[Text]) -> bool
    ensures { IsTrue result → IsLonger upper.now lower.now }
{
    match lower {
        [] => false,
        [above @ .., _] => same_names(upper, above),
    }
}

fn is_folder(node: &Node) -> bool
    ensures { IsTrue result → node.now ≡ Node.Folder }
{
    match node {
        Node::Folder => true,
        _ => false,
    }
}

/// Whether entries all stand before a path.
fn are_before(entries: &[Entry], path: &[Text]) -> bool
    ensures { IsTrue result → All (λ e. path_cmp e.path path.now ≡ Less) entries.now }
{
    for entry in entries {
        match path_order(entry.path.as_slice(), path) {
            Ordering::Less => {}
            _ => return false,
        }
    }
    true
}

/// Whether the folder of a path is among entries.
fn has_folder(entries: &[Entry], path: &[Text]) -> bool
    ensures { IsTrue result → HasFolder entries.now path.now }
{
    for entry in entries {
        if is_folder(&entry.node) && is_longer(entry.path.as_slice(), path) {
            return true;
        }
    }
    false
}

fn are_short(path: &[Text]) -> bool
    ensures { IsTrue result → All IsShort path.now }
{
    for name in path {
        if name.bytes().len() > 255 {
            return false;
        }
    }
    true
}

/// Whether an entry may come next in a tree.
fn fits(before: &[Entry], entry: &Entry) -> bool
    ensures { IsTrue result → Fits before.now entry.now }
{
    let path = entry.path.as_slice();
    are_before(before, path) && has_folder(before, path) && are_short(path)
}

fn begins_with_root(entries: &[Entry]) -> bool
    ensures { IsTrue result → slice_get entries.now 0 ≡ Some (record { path = []; node = Node.Folder }) }
{
    match entries {
        [] => false,
        [root, ..] => root.path.is_empty() && is_folder(&root.node),
    }
}

fn are_a_tree(entries: &[Entry]) -> bool
    ensures { IsTrue result → IsTree entries.now }
{
    if !begins_with_root(entries) {
        return false;
    }
    for i in 1..entries.len() {
        if !fits(&entries[..i], &entries[i]) {
            return false;
        }
    }
    true
}

/// The entries of a tree, each with its path in full.
fn listed(alloc: Global, entries: &Entries) -> Result<Vec<Entry>, NoMemory>
    ensures { IfOk result (λ list. list.items ≡ entries.now) }
{
    let mut list = Vec::new(alloc);
    for place in 0..entries.len() {
        list.push(entries.entry(alloc, place)?)?;
    }
    Ok(list)
}

fn is_tree(alloc: Global, entries: &Entries) -> Result<bool, NoMemory>
    ensures { IfOk result (λ is. IsTrue is → IsTree entries.now) }
{
    let list = listed(alloc, entries)?;
    Ok(are_a_tree(list.as_slice()))
}

/// Whether trees are as a table asks.
pub fn are_trees(alloc: Global, trees: &[NamedTree]) -> Result<bool, NoMemory>
    ensures { IfOk result (λ are. IsTrue are → AreTrees trees.now) }
{
    let mut left: usize = 65536;
    for tree in trees {
        let count = tree.entries.len();
        if count > left {
            return Ok(false);
        }
        let good = is_tree(alloc, &tree.entries)?;
        if !good {
            return Ok(false);
        }
        left -= count;
    }
    Ok(true)
}
