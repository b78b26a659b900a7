//! What is in a tree of a policy: a folder outside that is mounted, or the files, folders and links that the policy writes out, no two of
//! which clash.

ghost use Rattle.std.specs.Prelude.{◌≡◌, ◌++◌, ◌||◌, [], codes, map, IfOk, Bool, true};
ghost use Rattle.std.specs.List.{list_any};
ghost use Rattle.toml.specs.Data.{get_member};
ghost use Rattle.toml.specs.View.{array_view, table_view, view};
ghost use Rattle.policy_toml.specs.Reading.{Gives, each_item, each_member};
ghost use Rattle.policy_toml.specs.Keys.{optional};
ghost use Rattle.path_names.specs.Paths.{Placed};
ghost use Rattle.policy_toml.specs.Trees.{absent, embedded_of, content_by, file_at, file_of, file_placed, files_in, folder_at, folder_of, folder_placed, folders_in, link_at, link_of, links_in, mount_of, placed_at, target_in};

use crate::contents::ContentReader;
use crate::keys::{bad_name, bad_value, member_of, nth_of, over_limit, path_of};
use crate::reader::{Known, Reader};
use crate::values::any_text;
use path_names::{holds_byte, is_path};
use policy_data::{
    Embedded, EmbeddedFile, EmbeddedFiles, Link, Links, ReadPolicyFault, Texts, TreeContent,
};
use policy_text::Paths;
use std::alloc::Global;
use toml::value::Array;
use toml::{Table, Value};
use virt_base::{Items, Text};

/// Adds what is read at `at`, unless it clashes with what is there.
fn place(
    alloc: Global,
    at: &str,
    path: &str,
    leaf: bool,
    paths: &mut Paths,
) -> Result<(), ReadPolicyFault>
    ensures fits { Gives (placed_at at.now (record { path = path.now; leaf = leaf }) paths.old) result }
    ensures added { IfOk result (λ _. (test : Placed → Bool)
        → list_any test paths.new ≡ (test (record { path = path.now; leaf = leaf }) || list_any test paths.old)) }
{
    if paths.add(alloc, path, leaf)? {
        Ok(())
    } else {
        bad_value(alloc, at)
    }
}

fn file_of(
    alloc: Global,
    at: &str,
    path: &str,
    value: &Value,
) -> Result<EmbeddedFile, ReadPolicyFault>
    ensures { Gives (file_of at.now path.now (view value.now)) result }
{
    if !is_path(path) {
        return bad_name(alloc, at);
    }
    let content = Known(ContentReader).read(alloc, at, value)?;
    let path = Text::from_str(alloc, path)?;
    Ok(EmbeddedFile { path, content })
}

fn each_file(
    alloc: Global,
    path: &str,
    table: &Table,
    paths: &mut Paths,
) -> Result<EmbeddedFiles, ReadPolicyFault>
    requires { paths.old ≡ [] }
    ensures gives { Gives (each_member (file_at path.now) [] (table_view table.now)) result }
    ensures added { IfOk result (λ files. (test : Placed → Bool) → list_any test paths.new ≡ list_any test (map file_placed files)) }
{
    let mut files = Items::empty(alloc);
    for (key, value) in table {
        let key = key.as_str();
        let at = path_of(alloc, path, key)?;
        let at = at.as_str();
        let file = file_of(alloc, at, key, value)?;
        place(alloc, at, file.path.as_str(), true, paths)?;
        files.push(file)?;
    }
    Ok(files)
}

fn files_at(
    alloc: Global,
    path: &str,
    table: &Table,
    paths: &mut Paths,
) -> Result<EmbeddedFiles, ReadPolicyFault>
    requires { paths.old ≡ [] }
    ensures gives { Gives (optional path.now (codes "files") [] files_in (table_view table.now)) result }
    ensures added { IfOk result (λ files. (test : Placed → Bool) → list_any test paths.new ≡ list_any test (map file_placed files)) }
{
    let value = match member_of(table, "files") {
        Some(value) => value,
        None => return Ok(Items::empty(alloc)),
    };
    let path = path_of(alloc, path, "files")?;
    match value.as_table() {
        Some(files) => each_file(alloc, path.as_str(), files, paths),
        None => bad_value(alloc, path.as_str()),
    }
}

fn folder_of(alloc: Global, path: &str, value: &Value) -> Result<Text, ReadPolicyFault>
    ensures { Gives (folder_of path.now (view value.now)) result }
{
    match value.as_str() {
        None => bad_value(alloc, path),
        Some(folder) => {
            if is_path(folder) {
                Ok(Text::from_str(alloc, folder)?)
            } else {
                bad_name(alloc, path)
            }
        }
    }
}

fn each_folder(
    alloc: Global,
    path: &str,
    array: &Array,
    paths: &mut Paths,
) -> Result<Texts, ReadPolicyFault>
    ensures gives { Gives (each_item (folder_at path.now paths.old) [] (array_view array.now)) result }
    ensures added { IfOk result (λ folders. (test : Placed → Bool)
        → list_any test paths.new ≡ list_any test (paths.old ++ map folder_placed folders)) }
{
    let mut folders = Items::empty(alloc);
    for value in array {
        let at = nth_of(alloc, path, folders.len())?;
        let at = at.as_str();
        let folder = folder_of(alloc, at, value)?;
        place(alloc, at, folder.as_str(), false, paths)?;
        folders.push(folder)?;
    }
    Ok(folders)
}

fn folders_at(
    alloc: Global,
    path: &str,
    table: &Table,
    paths: &mut Paths,
) -> Result<Texts, ReadPolicyFault>
    ensures gives { Gives (optional path.now (codes "folders") [] (folders_in paths.old) (table_view table.now)) result }
    ensures added { IfOk result (λ folders. (test : Placed → Bool)
        → list_any test paths.new ≡ list_any test (paths.old ++ map folder_placed folders)) }
{
    let value = match member_of(table, "folders") {
        Some(value) => value,
        None => return Ok(Items::empty(alloc)),
    };
    let path = path_of(alloc, path, "folders")?;
    match value.as_array() {
        Some(folders) => each_folder(alloc, path.as_str(), folders, paths),
        None => bad_value(alloc, path.as_str()),
    }
}

/// A target of 1 to 4096 bytes without NUL.
fn target_in(alloc: Global, path: &str, value: &Value) -> Result<Text, ReadPolicyFault>
    ensures { Gives (target_in path.now (view value.now)) result }
{
    let target = match value.as_str() {
        Some(target) => target,
        None => return bad_value(alloc, path),
    };
    if target.is_empty() || holds_byte(target.as_bytes(), 0) {
        return bad_value(alloc, path);
    }
    if target.len() > 4096 {
        return over_limit(alloc, path, target.len() as u64);
    }
    Ok(Text::from_str(alloc, target)?)
}

fn link_of(alloc: Global, at: &str, path: &str, value: &Value) -> Result<Link, ReadPolicyFault>
    ensures { Gives (link_of at.now path.now (view value.now)) result }
{
    if !is_path(path) {
        return bad_name(alloc, at);
    }
    let target = target_in(alloc, at, value)?;
    let path = Text::from_str(alloc, path)?;
    Ok(Link { path, target })
}

fn each_link(
    alloc: Global,
    path: &str,
    table: &Table,
    paths: &mut Paths,
) -> Result<Links, ReadPolicyFault>
    ensures { Gives (each_member (link_at path.now paths.old) [] (table_view table.now)) result }
{
    let mut links = Items::empty(alloc);
    for (key, value) in table {
        let key = key.as_str();
        let at = path_of(alloc, path, key)?;
        let at = at.as_str();
        let link = link_of(alloc, at, key, value)?;
        place(alloc, at, link.path.as_str(), true, paths)?;
        links.push(link)?;
    }
    Ok(links)
}

fn links_at(
    alloc: Global,
    path: &str,
    table: &Table,
    paths: &mut Paths,
) -> Result<Links, ReadPolicyFault>
    ensures { Gives (optional path.now (codes "links") [] (links_in paths.old) (table_view table.now)) result }
{
    let value = match member_of(table, "links") {
        Some(value) => value,
        None => return Ok(Items::empty(alloc)),
    };
    let path = path_of(alloc, path, "links")?;
    match value.as_table() {
        Some(links) => each_link(alloc, path.as_str(), links, paths),
        None => bad_value(alloc, path.as_str()),
    }
}

fn embedded_of(alloc: Global, path: &str, table: &Table) -> Result<Embedded, ReadPolicyFault>
    ensures { Gives (embedded_of path.now (table_view table.now)) result }
{
    let mut paths = Paths::new(alloc);
    let files = files_at(alloc, path, table, &mut paths)?;
    let folders = folders_at(alloc, path, table, &mut paths)?;
    let links = links_at(alloc, path, table, &mut paths)?;
    Ok(Embedded {
        files,
        folders,
        links,
    })
}

/// Refuses a key that another one rules out.
fn absent(alloc: Global, path: &str, key: &str, table: &Table) -> Result<(), ReadPolicyFault>
    ensures { Gives (absent path.now key.now (table_view table.now)) result }
{
    match member_of(table, key) {
        None => Ok(()),
        Some(_) => {
            let path = path_of(alloc, path, key)?;
            bad_value(alloc, path.as_str())
        }
    }
}

fn mount_of(
    alloc: Global,
    path: &str,
    value: &Value,
    table: &Table,
) -> Result<TreeContent, ReadPolicyFault>
    ensures { Gives (mount_of path.now (view value.now) (table_view table.now)) result }
{
    let at = path_of(alloc, path, "mount")?;
    let folder = any_text(alloc, at.as_str(), value)?;
    absent(alloc, path, "files", table)?;
    absent(alloc, path, "folders", table)?;
    absent(alloc, path, "links", table)?;
    Ok(TreeContent::Mount(folder))
}

/// What is in the tree at a path.
pub fn content_of(alloc: Global, path: &str, table: &Table) -> Result<TreeContent, ReadPolicyFault>
    ensures { Gives (content_by path.now (get_member (codes "mount") (table_view table.now)) (table_view table.now)) result }
{
    match member_of(table, "mount") {
        Some(value) => mount_of(alloc, path, value, table),
        None => {
            let embedded = embedded_of(alloc, path, table)?;
            Ok(TreeContent::Embedded(embedded))
        }
    }
}
