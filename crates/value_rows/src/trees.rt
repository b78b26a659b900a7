//! Rows: tables of trees, their nodes and children, and what paths lead to, with links that are followed or not.

ghost use Rattle.std.specs.Prelude.{◌≡◌, ◌<◌, IfOk};
ghost use Rattle.tree_table.specs.Tables.{count_of, tree_count};

mod check;

use crate::rows::{is_printed, number_in, parts, printed, same};
use check::are_trees;
use std::alloc::Global;
use std::marker::Brand;
use std::sync::ledger::{Blank, Ledger};
use std::test::Fail;
use tree_table::{
    NamedTree, Node, NodeKind, Nodes, Table, Trees, child, content, kind, name, place, root,
    target, walk,
};
use virt_base::{Items, Steps, Text, copy_bytes};

/// What stands after a node's name.
fn node_of(alloc: Global, what: &str) -> Result<Node, Fail> {
    if let Some(content) = what.strip_prefix("= ") {
        return Ok(Node::File(copy_bytes(alloc, content.as_bytes())?));
    }
    if let Some(target) = what.strip_prefix("> ") {
        return Ok(Node::Link(copy_bytes(alloc, target.as_bytes())?));
    }
    Ok(Node::Folder)
}

fn add_node(alloc: Global, nodes: &mut Nodes, row: &str) -> Result<(), Fail> {
    let (number, rest) = parts(row, " ")?;
    let (name, what) = parts(rest, " ")?;
    let folder = number_in(number)? as usize;
    if folder >= nodes.len() {
        return Err(Fail::new("no folder has this number"));
    }
    nodes.push(folder, Text::from_str(alloc, name)?, node_of(alloc, what)?)?;
    Ok(())
}

/// Each row: the number of a folder, the name of a node in it, and `/` for a folder, `=` and what a file holds, or `>` and a
/// link's target. The root has the number 0, and the others theirs in order.
fn tree_of(alloc: Global, name: &str, rows: &str) -> Result<NamedTree, Fail> {
    let mut nodes = Nodes::root(alloc);
    for row in rows.lines() {
        add_node(alloc, &mut nodes, row)?;
    }
    Ok(NamedTree {
        name: Text::from_str(alloc, name)?,
        entries: nodes.in_order(alloc)?,
    })
}

const LINKS: &str = "\
0 l > a/f
0 a /
2 f = abc
0 u > ../x
0 s > s
0 r > /a";

/// Folders in one another whose names begin alike.
const FOLDERS: &str = "\
0 a /
0 a-b /
1 h > ../a-b/.
1 f /
4 g = \n2 k = k
0 b = bb";

/// A chain of 41 links to a file, `c00` to `c40`.
const CHAIN: &str = "\
0 f = end
0 c40 > f
0 c00 > c01
0 c01 > c02
0 c02 > c03
0 c03 > c04
0 c04 > c05
0 c05 > c06
0 c06 > c07
0 c07 > c08
0 c08 > c09
0 c09 > c10
0 c10 > c11
0 c11 > c12
0 c12 > c13
0 c13 > c14
0 c14 > c15
0 c15 > c16
0 c16 > c17
0 c17 > c18
0 c18 > c19
0 c19 > c20
0 c20 > c21
0 c21 > c22
0 c22 > c23
0 c23 > c24
0 c24 > c25
0 c25 > c26
0 c26 > c27
0 c27 > c28
0 c28 > c29
0 c29 > c30
0 c30 > c31
0 c31 > c32
0 c32 > c33
0 c33 > c34
0 c34 > c35
0 c35 > c36
0 c36 > c37
0 c37 > c38
0 c38 > c39
0 c39 > c40";

fn three_trees(alloc: Global) -> Result<Trees, Fail> {
    let mut trees = Items::empty(alloc);
    trees.push(tree_of(alloc, "/t", LINKS)?)?;
    trees.push(tree_of(alloc, "/u", FOLDERS)?)?;
    trees.push(tree_of(alloc, "/c", CHAIN)?)?;
    Ok(trees)
}

fn table(alloc: Global) -> Result<Table, Fail>
    ensures { IfOk result (λ table. tree_count table ≡ 3) }
{
    let trees = three_trees(alloc)?;
    if !are_trees(alloc, trees.as_slice())? || trees.len() != 3 {
        return Err(Fail::new("no trees"));
    }
    Ok(Table::build(alloc, &trees)?)
}

/// The place in its tree of what a walk found.
fn place_found(table: &Table, found: Result<u32, u8>) -> Result<u32, u8>
    requires { IfOk found (λ at. at < count_of table.now) }
{
    match found {
        Ok(at) => Ok(place(table, at).1),
        Err(code) => Err(code),
    }
}

/// Walks from the root of a tree: after each path what it leads to where a last link is followed, and where it is not.
fn walk_all<L: Ledger>(
    alloc: Global,
    table: &Table,
    tree: u32,
    rows: &str,
    steps: &mut Steps<L>,
) -> Result<(), Fail>
    requires { tree < tree_count table.now }
{
    let start = root(table, tree);
    for row in rows.lines() {
        let (path, wanted) = parts(row, " => ")?;
        let followed = place_found(table, walk(table, start, path.as_bytes(), true, steps));
        let plain = place_found(table, walk(table, start, path.as_bytes(), false, steps));
        is_printed(alloc, path, &(followed, plain), wanted)?;
    }
    Ok(())
}

// Places, or error codes of WASI: 15 for a loop, 20 for no entry, 24 for what is no directory, 31 for what is not permitted.
const WITH_LINKS: &str = "\
a/../../x => (Err(31), Err(31))
a//./f => (Ok(2), Ok(2))
 => (Err(20), Err(20))
a/f/ => (Err(24), Err(24))
/a => (Err(31), Err(31))
a/../a => (Ok(1), Ok(1))
b => (Err(20), Err(20))
l => (Ok(2), Ok(3))
u => (Err(31), Ok(6))
s => (Err(15), Ok(5))
r => (Err(31), Ok(4))
l/ => (Err(24), Err(24))
s/. => (Err(15), Err(15))";

const WITH_FOLDERS: &str = "\
a/h/k => (Ok(6), Ok(6))
a/h => (Ok(5), Ok(4))
a/h/ => (Ok(5), Ok(5))
a/f/g => (Ok(3), Ok(3))
a-b/../b => (Ok(7), Ok(7))
. => (Ok(0), Ok(0))
a/f/.. => (Ok(1), Ok(1))
a/f/../../.. => (Err(31), Err(31))
a- => (Err(20), Err(20))
a-bc => (Err(20), Err(20))";

const WITH_A_CHAIN: &str = "\
c01 => (Ok(42), Ok(2))
c00 => (Err(15), Ok(1))";

fn walks<L: Ledger>(alloc: Global, blank: Blank) -> Result<(), Fail>
    requires name { blank.name ≡ L.name }
    requires parts { blank.parts ≡ L.parts }
    requires some { 0 < L.parts }
{
    let mut steps = Steps::<L>::start(blank);
    let table = table(alloc)?;
    walk_all(alloc, &table, 0, WITH_LINKS, &mut steps)?;
    walk_all(alloc, &table, 1, WITH_FOLDERS, &mut steps)?;
    walk_all(alloc, &table, 2, WITH_A_CHAIN, &mut steps)
}

#[test]
fn paths_lead_where_the_rows_say(rt: HostRuntime) -> Result<(), Fail> {
    walks::<Brand>(rt.alloc(), Blank::new(1))
}

/// A node's tree and its place there, its name, and `/` for a folder, `=` and what a file holds, `>` and a link's target.
fn node_in_words(alloc: Global, table: &Table, node: u32) -> Result<String, Fail>
    requires { node < count_of table.now }
{
    let (mark, text) = match target(table, node) {
        Some(target) => ('>', target),
        None => match kind(table, node) {
            NodeKind::File => ('=', content(table, node)),
            _ => ('/', b"".as_slice()),
        },
    };
    let name = str::from_utf8(name(table, node))?;
    printed(
        alloc,
        &(place(table, node), name, mark, str::from_utf8(text)?),
    )
}

/// What stands in the roots.
const OF_LINKS: &str = r#"((0, 1), "a", '/', "")
((0, 3), "l", '>', "a/f")
((0, 4), "r", '>', "/a")
((0, 5), "s", '>', "s")
((0, 6), "u", '>', "../x")"#;

const OF_FOLDERS: &str = r#"((1, 1), "a", '/', "")
((1, 5), "a-b", '/', "")
((1, 7), "b", '=', "bb")"#;

fn children_are(alloc: Global, table: &Table, node: u32, rows: &str) -> Result<(), Fail>
    requires { node < count_of table.now }
{
    let mut nth = 0u32;
    for row in rows.lines() {
        let Some(child) = child(table, node, nth) else {
            return Err(Fail::new("a child is missing"));
        };
        same("a child", node_in_words(alloc, table, child)?.as_str(), row)?;
        nth = nth.saturating_add(1);
    }
    match child(table, node, nth) {
        Some(_) => Err(Fail::new("a child more")),
        None => Ok(()),
    }
}

#[test]
fn nodes_read_their_trees(rt: HostRuntime) -> Result<(), Fail> {
    let alloc = rt.alloc();
    let table = table(alloc)?;
    let top = root(&table, 0);
    let found = node_in_words(alloc, &table, top)?;
    same("a root", found.as_str(), r#"((0, 0), "", '/', "")"#)?;
    children_are(alloc, &table, top, OF_LINKS)?;
    children_are(alloc, &table, root(&table, 1), OF_FOLDERS)
}
