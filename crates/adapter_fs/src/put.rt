//! The nodes of trees are put into the static data.

ghost use Rattle.std.specs.Prelude.{◌<◌, ◌≤◌};
ghost use Rattle.tree_table.specs.Tables.{count_of, Holds};

use crate::nodes::{FILE, FOLDER, LINK, NodesAt};
use adapter_pass::StaticData;
use tree_table::{NameRead, NodeKind, Table, Trees, content, kind, name, place};
use virt_base::NoMemory;

fn capped(len: usize) -> u32
    ensures { result ≤ len }
{
    u32::try_from(len).unwrap_or(u32::MAX)
}

// A file's bytes, a link's target; nothing of a folder.
fn content_in(table: &Table, node: u32) -> &[u8]
    requires { node < count_of table.now }
{
    match kind(table, node) {
        NodeKind::Folder => &[],
        NodeKind::File => content(table, node),
        NodeKind::Link => content(table, node),
    }
}

fn type_number(kind: NodeKind) -> u32 {
    match kind {
        NodeKind::Folder => FOLDER,
        NodeKind::File => FILE,
        NodeKind::Link => LINK,
    }
}

// The folder in which a node is; only a root, which has no name, is in none.
fn parent_of(table: &Table, node: u32) -> u32
    requires { node < count_of table.now }
{
    if name(table, node).is_empty() {
        0
    } else {
        table.parent(node)
    }
}

// Puts the record of a node whose bytes begin at a place, and says where they end.
fn put_record(data: &mut StaticData, table: &Table, node: u32, at: u32) -> Result<u32, NoMemory>
    requires { node < count_of table.now }
{
    let name_end = at.saturating_add(capped(name(table, node).len()));
    let end = name_end.saturating_add(capped(content_in(table, node).len()));
    let (first, last) = table.children(node);
    let (tree, place) = place(table, node);
    let words = [
        at,
        name_end,
        name_end,
        end,
        parent_of(table, node),
        first,
        last,
        tree,
        place,
        type_number(kind(table, node)),
    ];
    for word in words {
        data.put_word(word)?;
    }
    Ok(end)
}

// The records of the first that many nodes.
fn put_records(data: &mut StaticData, table: &Table, count: u32) -> Result<(), NoMemory>
    requires { count ≤ count_of table.now }
{
    let mut at = 0;
    for node in 0..count {
        at = put_record(data, table, node, at)?;
    }
    Ok(())
}

// Their names and contents.
fn put_bytes(data: &mut StaticData, table: &Table, count: u32) -> Result<(), NoMemory>
    requires { count ≤ count_of table.now }
{
    for node in 0..count {
        data.put(name(table, node))?;
        data.put(content_in(table, node))?;
    }
    Ok(())
}

// The bytes of the longest target of a link among them.
fn longest_target(table: &Table, count: u32) -> u32
    requires { count ≤ count_of table.now }
{
    let mut longest = 0;
    for node in 0..count {
        if let Some(target) = table.target(node) {
            longest = u32::max(longest, capped(target.len()));
        }
    }
    longest
}

// How many nodes a table of that many trees has: the children of each node stand after those of the one before it.
fn node_count(table: &Table, trees: u32) -> u32
    requires { trees ≤ count_of table.now }
    ensures { result ≤ count_of table.now }
{
    let mut count = trees;
    let mut node: u32 = 0;
    'nodes: while node < count {
        let (_, last) = table.children(node);
        count = u32::max(count, last);
        node += 1;
    }
    count
}

/// Puts the nodes of trees into the static data: a record for each, and then their names and contents.
pub fn put_nodes(data: &mut StaticData, trees: &Trees, table: &Table) -> Result<NodesAt, NoMemory>
    requires { Holds trees.now table.now }
{
    let count = node_count(table, capped(trees.len()));
    data.align(4)?;
    let records = data.place();
    put_records(data, table, count)?;
    let bytes = data.place();
    put_bytes(data, table, count)?;
    Ok(NodesAt {
        records,
        bytes,
        count,
        longest: longest_target(table, count),
    })
}
