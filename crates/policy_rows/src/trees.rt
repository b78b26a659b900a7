//! Rows: the trees of a policy over files in memory, with calls that fail, and the limits on nodes and bytes.

use crate::holding::{hold, number_in, parts};
use crate::outside_files::{contents_of, outside_of};
use crate::shown::{printed, shown};
use mount_tree::build;
use outside::{Contents, Entry as Listed, EntryKind, MemFiles, Named};
use policy_toml::read_policy;
use std::alloc::Global;
use std::test::Fail;
use tree_table::{Entry, Node, Trees};
use virt_base::{Items, Text};

/// The files and folders outside that most rows speak of.
const FILES: &str = "\
one=1
d/a=aa
d/s/x=xxx
d/s/y=
d/z=z
bad/ok=
slash/a/b=x";

const FOLDERS: &str = "\
d=a s/ z
d/s=x y
e=
bad=.. ok
slash=a/b
holds=gone lost/";

fn add_bytes(line: &mut String, mark: char, bytes: &[u8]) -> Result<(), Fail> {
    line.push(mark)?;
    line.push_str(str::from_utf8(bytes)?)?;
    Ok(())
}

fn add_entry(line: &mut String, entry: &Entry) -> Result<(), Fail> {
    line.push(' ')?;
    for name in entry.path.as_slice() {
        line.push('/')?;
        line.push_str(name.as_str())?;
    }
    match &entry.node {
        Node::Folder => add_bytes(line, '/', b""),
        Node::File(bytes) => add_bytes(line, '=', bytes.as_slice()),
        Node::Link(target) => add_bytes(line, '>', target.as_slice()),
    }
}

/// The name of each tree, and its paths in order: `/` after a folder, `=` before what a file holds, `>` before a target.
fn in_words(alloc: Global, trees: &Trees) -> Result<String, Fail> {
    let mut line = String::new(alloc);
    for tree in trees.as_slice() {
        line.push('[')?;
        line.push_str(tree.name.as_str())?;
        line.push(']')?;
        for place in 0..tree.entries.len() {
            add_entry(&mut line, &tree.entries.entry(alloc, place)?)?;
        }
    }
    Ok(line)
}

/// What comes of the trees of a policy over files: the trees, shown or not, or a fault.
fn outcome(alloc: Global, text: &str, files: &mut MemFiles, show: bool) -> Result<String, Fail> {
    let Ok(policy) = read_policy(alloc, text.as_bytes()) else {
        return Err(Fail::new("the policy is refused"));
    };
    match build(alloc, &policy, files) {
        Ok(trees) => {
            if show {
                in_words(alloc, &trees)
            } else {
                Ok(String::from_str(alloc, "trees")?)
            }
        }
        Err(fault) => shown(alloc, &fault),
    }
}

/// Each row: the numbers of the calls that fail, `;` and a policy; what comes of its trees, `;` and how many calls failed.
const ROWS: &str = r#"; => ; 0
;fs.tree = [{ name = "/t" }] => [/t] /; 0
;fs.tree = [{ name = "/t", mount = "d" }] => [/t] / /a=aa /s/ /s/x=xxx /s/y= /z=z; 0
;fs.tree = [{ name = "/t", mount = "d" }, { name = "/u", mount = "d" }] => [/t] / /a=aa /s/ /s/x=xxx /s/y= /z=z[/u] / /a=aa /s/ /s/x=xxx /s/y= /z=z; 0
;version = 2
[[fs.tree]]
name = "/m"
files = { "a-b" = { text = "x" }, "a/f" = { file = "one" }, "b/c/d" = { hex = "6869" } }
folders = ["b/e", "b"]
links = { "b/l" = "../a-b" } => [/m] / /a/ /a/f=1 /a-b=x /b/ /b/c/ /b/c/d=hi /b/e/ /b/l>../a-b; 0
;fs.tree = [{ name = "/t", mount = "e" }] => [/t] /; 0
;fs.tree = [{ name = "/t", mount = "bad" }] => BadName(".."); 0
;fs.tree = [{ name = "/t", mount = "slash" }] => BadName("a/b"); 0
;fs.tree = [{ name = "/t", files = { "a/b" = { file = "one" } } }] => [/t] / /a/ /a/b=1; 0
0;fs.tree = [{ name = "/t", mount = "d" }] => FileFault("d"); 1
1;fs.tree = [{ name = "/t", mount = "d" }] => FileFault("d/a"); 1
2;fs.tree = [{ name = "/t", mount = "d" }] => FileFault("d/s"); 1
3;fs.tree = [{ name = "/t", mount = "d" }] => FileFault("d/s/x"); 1
4;fs.tree = [{ name = "/t", mount = "d" }] => FileFault("d/s/y"); 1
5;fs.tree = [{ name = "/t", mount = "d" }] => FileFault("d/z"); 1
6;fs.tree = [{ name = "/t", mount = "d" }] => [/t] / /a=aa /s/ /s/x=xxx /s/y= /z=z; 0
6;fs.tree = [{ name = "/t", mount = "d" }, { name = "/u", mount = "d" }] => FileFault("d"); 1
0;version = 2
[[fs.tree]]
name = "/m"
files = { "a-b" = { text = "x" }, "a/f" = { file = "one" }, "b/c/d" = { hex = "6869" } }
folders = ["b/e", "b"]
links = { "b/l" = "../a-b" } => FileFault("one"); 1
;fs.tree = [{ name = "/t", mount = "" }] => FileFault(""); 1
;fs.tree = [{ name = "/t", mount = "holds" }] => FileFault("holds/gone"); 1
;fs.tree = [{ name = "/t", files = { a = { file = "none" } } }] => FileFault("none"); 1
;fs.tree = [{ name = "/t", files = { "|63*n/|n" = { file = "none" } } }] => FileFault("none"); 1
;fs.tree = [{ name = "/t", files = { "|64*n/|n" = { file = "none" } } }] => OverLimit("tree-depth", 65); 0"#;

pub fn built(alloc: Global, asked: &str) -> Result<String, Fail> {
    let (failing, text) = parts(asked, ';')?;
    let mut files = outside_of(alloc, contents_of(alloc, FILES, FOLDERS)?, failing)?;
    let mut line = outcome(alloc, text, &mut files, true)?;
    line.push_str("; ")?;
    line.push_str(printed(alloc, &files.faults())?.as_str())?;
    Ok(line)
}

#[test]
fn trees_are_what_the_rows_say(rt: HostRuntime) -> Result<(), Fail> {
    hold(rt.alloc(), "tree", ROWS)
}

/// A folder of that many empty files.
fn crowd(alloc: Global, count: u64) -> Result<Contents, Fail> {
    let mut contents = contents_of(alloc, "", "")?;
    let mut entries = Items::empty(alloc);
    for number in 0..count {
        let name = format!(in alloc; "c/{:06}", number)?;
        entries.push(Listed {
            name: Text::from_str(alloc, name.as_str().trim_start_matches("c/"))?,
            kind: EntryKind::File,
        })?;
        contents.files.push(Named {
            name: Text::from_string(name),
            value: Items::empty(alloc),
        })?;
    }
    contents.folders.push(Named {
        name: Text::from_str(alloc, "c")?,
        value: entries,
    })?;
    Ok(contents)
}

pub fn crowded(alloc: Global, asked: &str) -> Result<String, Fail> {
    let (count, text) = parts(asked, ';')?;
    let mut files = outside_of(alloc, crowd(alloc, number_in(count)?)?, "")?;
    outcome(alloc, text, &mut files, false)
}

/// Each row: how many files, and a policy that mounts their folder after a tree of a root alone.
const NODES: &str = r#"65534;fs.tree = [{ name = "/r" }, { name = "/c", mount = "c" }] => trees
65535;fs.tree = [{ name = "/r" }, { name = "/c", mount = "c" }] => OverLimit("tree-nodes", 65537)"#;

#[test]
fn nodes_of_trees(rt: HostRuntime) -> Result<(), Fail> {
    hold(rt.alloc(), "nodes", NODES)
}

/// A file of that many bytes.
fn heavy(alloc: Global, bytes: usize) -> Result<Contents, Fail> {
    let mut contents = contents_of(alloc, "", "")?;
    contents.files.push(Named {
        name: Text::from_str(alloc, "big")?,
        value: Items::new(vec![in alloc; 0u8; bytes]?),
    })?;
    Ok(contents)
}

pub fn weighed(alloc: Global, asked: &str) -> Result<String, Fail> {
    let (count, text) = parts(asked, ';')?;
    let mut files = outside_of(alloc, heavy(alloc, number_in(count)? as usize)?, "")?;
    outcome(alloc, text, &mut files, false)
}

/// Each row: how many bytes, and a policy with a file of three bytes and one of that many from outside.
const BYTES: &str =
    r#"67108861;fs.tree = [{ name = "/t", files = { a = { text = "abc" }, b = { file = "big" } } }] => trees
67108862;fs.tree = [{ name = "/t", files = { a = { text = "abc" }, b = { file = "big" } } }] => OverLimit("embedded-bytes", 67108865)"#;

#[test]
fn bytes_of_files(rt: HostRuntime) -> Result<(), Fail> {
    hold(rt.alloc(), "bytes", BYTES)
}
