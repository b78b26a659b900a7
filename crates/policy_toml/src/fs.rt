//! The table `fs` of a policy: which of the host's folders are passed, its trees, and its scratch folder. Their names must differ, so each
//! reader knows the names before.

ghost use Rattle.std.specs.Prelude.{◌≡◌, ◌++◌, [], codes, option_map};
ghost use Rattle.std.specs.List.{list_any};
ghost use Rattle.std.specs.Str.{bytes_eq};
ghost use Rattle.toml.specs.View.{table_view, view};
ghost use Rattle.policy_toml.specs.Keys.{is_known, optional};
ghost use Rattle.policy_toml.specs.Reading.{Gives};
ghost use Rattle.policy_toml.specs.Values.{list_in};
ghost use Rattle.policy_toml.specs.Trees.{new_name, tree_at, tree_keys, tree_names, tree_of};
ghost use Rattle.policy_toml.specs.Fs.{fs_keys, fs_of, host_of, pass_at, pass_keys, pass_of, passes_none, scratch_in, scratch_keys, scratch_of, shown_names};

use crate::keys::{bad_value, member_of, nth_of, path_of};
use crate::lists::{ItemReader, List, item_count};
use crate::reader::{Known, Reader, TableReader, optional, required};
use crate::tree::content_of;
use crate::values::{AnyText, Choice, Number};
use policy_data::{
    HostFiles, Pass, Passes, ReadPolicyFault, Scratch, TreeSource, TreeSources, Version,
};
use std::alloc::Global;
use toml::{Table, Value};
use virt_base::{Items, Text};

/// What `fs` says.
#[derive(Debug, Drop)]
pub struct Fs {
    pub host: HostFiles,
    pub pass: Passes,
    pub tree: TreeSources,
    pub scratch: Option<Scratch>,
}

/// A name that no passed folder and no tree before it has.
#[derive(Drop)]
struct NewName<'a> {
    passes: &'a Passes,
    trees: &'a TreeSources,
}

fn is_shown(passes: &Passes, name: &str) -> bool
    ensures { result ≡ list_any (λ pass. bytes_eq name.now pass.shown) passes.now }
{
    passes
        .as_slice()
        .iter()
        .any(|pass| name == pass.shown.as_str())
}

fn is_named(trees: &TreeSources, name: &str) -> bool
    ensures { result ≡ list_any (λ tree. bytes_eq name.now tree.name) trees.now }
{
    trees
        .as_slice()
        .iter()
        .any(|tree| name == tree.name.as_str())
}

#[tactic(auto, using(crate::proofs::Taken::known_either))]
fn is_taken(passes: &Passes, trees: &TreeSources, name: &str) -> bool
    ensures { result ≡ is_known (shown_names passes.now ++ tree_names trees.now) name.now }
{
    is_shown(passes, name) || is_named(trees, name)
}

impl<'a> Reader for NewName<'a> {
    type Item = Text;

    ghost reads = { λ s. new_name (shown_names s.passes.now ++ tree_names s.trees.now) };

    fn read(&self, alloc: Global, path: &str, value: &Value) -> Result<Text, ReadPolicyFault> {
        match value.as_str() {
            Some(name) => {
                if is_taken(self.passes, self.trees, name) {
                    bad_value(alloc, path)
                } else {
                    Ok(Text::from_str(alloc, name)?)
                }
            }
            None => bad_value(alloc, path),
        }
    }
}

#[derive(Drop)]
struct PassFields<'a> {
    seen: &'a Passes,
}

impl<'a> TableReader for PassFields<'a> {
    type Item = Pass;

    ghost known = { λ _. pass_keys };

    ghost fields = { λ s. pass_of s.seen.now };

    fn known(&self) -> &'static [&'static str] {
        &["host", "as"]
    }

    fn fields(&self, alloc: Global, path: &str, table: &Table) -> Result<Pass, ReadPolicyFault> {
        let host = required(alloc, path, "host", &AnyText, table)?;
        let no_trees = Items::empty(alloc);
        let new = NewName {
            passes: self.seen,
            trees: &no_trees,
        };
        let shown = required(alloc, path, "as", &new, table)?;
        Ok(Pass { host, shown })
    }
}

#[derive(Drop)]
struct PassReader;

impl ItemReader for PassReader {
    type Item = Pass;

    ghost reads_item = { λ _. pass_at };

    fn read_item(
        &self,
        alloc: Global,
        path: &str,
        seen: &Passes,
        value: &Value,
    ) -> Result<Pass, ReadPolicyFault> {
        let path = nth_of(alloc, path, seen.len())?;
        Known(PassFields { seen }).read(alloc, path.as_str(), value)
    }
}

#[derive(Drop)]
struct TreeFields<'a> {
    version: Version,
    passes: &'a Passes,
    seen: &'a TreeSources,
}

impl<'a> TableReader for TreeFields<'a> {
    type Item = TreeSource;

    ghost known = { λ s. tree_keys s.version };

    ghost fields = { λ s. tree_of (shown_names s.passes.now ++ tree_names s.seen.now) };

    fn known(&self) -> &'static [&'static str] {
        match self.version {
            Version::One => &["name", "mount", "files", "folders"],
            Version::Two => &["name", "mount", "files", "folders", "links"],
        }
    }

    fn fields(
        &self,
        alloc: Global,
        path: &str,
        table: &Table,
    ) -> Result<TreeSource, ReadPolicyFault> {
        let new = NewName {
            passes: self.passes,
            trees: self.seen,
        };
        let name = required(alloc, path, "name", &new, table)?;
        let content = content_of(alloc, path, table)?;
        Ok(TreeSource { name, content })
    }
}

#[derive(Drop)]
struct TreeReader<'a> {
    version: Version,
    passes: &'a Passes,
}

impl<'a> ItemReader for TreeReader<'a> {
    type Item = TreeSource;

    ghost reads_item = { λ s. tree_at s.version (shown_names s.passes.now) };

    fn read_item(
        &self,
        alloc: Global,
        path: &str,
        seen: &TreeSources,
        value: &Value,
    ) -> Result<TreeSource, ReadPolicyFault> {
        let path = nth_of(alloc, path, seen.len())?;
        let fields = TreeFields {
            version: self.version,
            passes: self.passes,
            seen,
        };
        Known(fields).read(alloc, path.as_str(), value)
    }
}

#[derive(Drop)]
struct ScratchFields<'a> {
    passes: &'a Passes,
    trees: &'a TreeSources,
}

impl<'a> TableReader for ScratchFields<'a> {
    type Item = Scratch;

    ghost known = { λ _. scratch_keys };

    ghost fields = { λ s. scratch_of (shown_names s.passes.now ++ tree_names s.trees.now) };

    fn known(&self) -> &'static [&'static str] {
        &["name", "blocks", "files"]
    }

    fn fields(&self, alloc: Global, path: &str, table: &Table) -> Result<Scratch, ReadPolicyFault> {
        let new = NewName {
            passes: self.passes,
            trees: self.trees,
        };
        let name = required(alloc, path, "name", &new, table)?;
        let up_to_8192 = Number {
            least: 1,
            greatest: 8192,
        };
        let blocks = required(alloc, path, "blocks", &up_to_8192, table)?;
        let up_to_256 = Number {
            least: 1,
            greatest: 256,
        };
        let files = required(alloc, path, "files", &up_to_256, table)?;
        Ok(Scratch {
            name,
            blocks,
            files,
        })
    }
}

#[derive(Drop)]
struct ScratchReader<'a> {
    passes: &'a Passes,
    trees: &'a TreeSources,
}

impl<'a> Reader for ScratchReader<'a> {
    type Item = Option<Scratch>;

    ghost reads = { λ s. scratch_in (shown_names s.passes.now ++ tree_names s.trees.now) };

    fn read(
        &self,
        alloc: Global,
        path: &str,
        value: &Value,
    ) -> Result<Option<Scratch>, ReadPolicyFault> {
        let fields = ScratchFields {
            passes: self.passes,
            trees: self.trees,
        };
        let scratch = Known(fields).read(alloc, path, value)?;
        Ok(Some(scratch))
    }
}

/// Whether the value at `fs.pass`, if there is one, is the empty array.
fn passes_none(value: Option<&Value>) -> bool
    ensures { result ≡ passes_none (option_map (λ v. view v.now) value.entry) }
{
    match value {
        None => true,
        Some(value) => match value.as_array() {
            Some(array) => item_count(array) == 0,
            None => false,
        },
    }
}

fn host_of(alloc: Global, path: &str, table: &Table) -> Result<HostFiles, ReadPolicyFault>
    ensures { Gives (host_of path.now (table_view table.now)) result }
{
    let host = optional(alloc, path, "host", HostFiles::Deny, &Choice::new(), table)?;
    match host {
        HostFiles::Deny => Ok(HostFiles::Deny),
        HostFiles::All => {
            if passes_none(member_of(table, "pass")) {
                return Ok(HostFiles::All);
            }
            let path = path_of(alloc, path, "pass")?;
            bad_value(alloc, path.as_str())
        }
    }
}

fn trees_at(
    alloc: Global,
    path: &str,
    version: Version,
    passes: &Passes,
    table: &Table,
) -> Result<TreeSources, ReadPolicyFault>
    ensures { Gives (optional path.now (codes "tree") [] (list_in 64 (tree_at version (shown_names passes.now))) (table_view table.now)) result }
{
    let trees = List {
        greatest: 64,
        item: TreeReader { version, passes },
    };
    optional(alloc, path, "tree", Items::empty(alloc), &trees, table)
}

fn scratch_at(
    alloc: Global,
    path: &str,
    passes: &Passes,
    trees: &TreeSources,
    table: &Table,
) -> Result<Option<Scratch>, ReadPolicyFault>
    ensures { Gives (optional path.now (codes "scratch") None (scratch_in (shown_names passes.now ++ tree_names trees.now)) (table_view table.now)) result }
{
    let reader = ScratchReader { passes, trees };
    optional(alloc, path, "scratch", None, &reader, table)
}

#[derive(Drop)]
pub struct FsReader {
    pub version: Version,
}

impl TableReader for FsReader {
    type Item = Fs;

    ghost known = { λ _. fs_keys };

    ghost fields = { λ s. fs_of s.version };

    fn known(&self) -> &'static [&'static str] {
        &["host", "pass", "tree", "scratch"]
    }

    fn fields(&self, alloc: Global, path: &str, table: &Table) -> Result<Fs, ReadPolicyFault> {
        let host = host_of(alloc, path, table)?;
        let passes = List {
            greatest: 64,
            item: PassReader,
        };
        let pass = optional(alloc, path, "pass", Items::empty(alloc), &passes, table)?;
        let tree = trees_at(alloc, path, self.version, &pass, table)?;
        let scratch = scratch_at(alloc, path, &pass, &tree, table)?;
        Ok(Fs {
            host,
            pass,
            tree,
            scratch,
        })
    }
}
