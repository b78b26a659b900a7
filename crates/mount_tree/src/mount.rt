//! The contents of a mounted folder, added to a tree: each entry, and at once what is in it.

ghost use Rattle.std.specs.Prelude.{◌≡◌, ◌+◌, ◌*◌, ◌≤◌, IfOk};
ghost use Rattle.mount_tree.specs.Runs.{Gives, each};
ghost use Rattle.mount_tree.specs.Building.{below, inside, mount_due};
ghost use Rattle.mount_tree.specs.Entering.{Enters};
ghost use Rattle.mount_tree.specs.Targets.{targets_of};
ghost use Rattle.mount_tree.specs.Legal.{IsFolderPath, is_entry_name};

use crate::fault::{TreeFault, bad_name};
use crate::making::Making;
use crate::reading::list_folder;
use crate::steps::{add_file, add_folder};
use outside::{Entry, EntryKind, Files};
use path_names::{holds_byte, is_name};
use policy_data::Content;
use std::alloc::Global;
use virt_base::{NoMemory, Text};

/// Whether an entry of a folder may have this name: a legal one without `/`, which no path would lead to.
fn is_entry_name(name: &Text) -> bool
    ensures { result ≡ is_entry_name name.now }
{
    is_name(name.bytes()) && !holds_byte(name.bytes(), b'/')
}

/// What an entry of a folder is called outside.
fn inside(alloc: Global, folder: &str, name: &str) -> Result<Text, NoMemory>
    ensures { IfOk result (λ text. text ≡ inside folder.now name.now) }
{
    let Ok(chars) = format!(in alloc; "{folder}/{name}") else {
        return Err(NoMemory);
    };
    Ok(Text::from_string(chars))
}

/// Its path in a tree, below that of its folder.
fn below(alloc: Global, path: &str, name: &str) -> Result<Text, NoMemory>
    ensures { IfOk result (λ text. text ≡ below path.now name.now) }
{
    if path.is_empty() {
        return Text::from_str(alloc, name);
    }
    inside(alloc, path, name)
}

/// A folder of which the contents are due: its name outside, and its path in the tree.
#[derive(Drop)]
pub struct Inner {
    pub outside: Text,
    pub path: Text,
}

/// A tree in the making, and the folder that was added to it last.
#[derive(Drop)]
pub struct Entered {
    pub making: Making,
    pub inner: Option<Inner>,
}

/// Adds an entry of a folder, without what is in it.
#[tactic(auto, using(crate::proofs::MountLemmas::enter_bad, crate::proofs::MountLemmas::enter_memory, crate::proofs::MountLemmas::enter_file, crate::proofs::MountLemmas::enter_no_file, crate::proofs::MountLemmas::enter_folder, crate::proofs::MountLemmas::enter_no_folder))]
fn add_entry<F: Files>(
    alloc: Global,
    files: &mut F,
    making: Making,
    folder: &str,
    path: &str,
    entry: &Entry,
) -> Result<Entered, TreeFault>
    requires { IsFolderPath path.now }
    ensures enters { Enters folder.now path.now making entry.now (F.state files.old) (F.state files.new) result }
    ensures targets { IfOk result (λ entered. targets_of entered.making ≤ targets_of making) }
{
    if !is_entry_name(&entry.name) {
        return Err(bad_name(alloc, &entry.name));
    }
    let outside = inside(alloc, folder, entry.name.as_str())?;
    let path = below(alloc, path, entry.name.as_str())?;
    match entry.kind {
        EntryKind::File => {
            let content = Content::File(outside);
            let making = add_file(alloc, files, making, path.as_str(), &content)?;
            Ok(Entered {
                making,
                inner: None,
            })
        }
        EntryKind::Folder => {
            let making = add_folder(alloc, making, path.as_str())?;
            Ok(Entered {
                making,
                inner: Some(Inner { outside, path }),
            })
        }
    }
}

/// Adds what is in a folder outside, that many levels deep: each entry in order, and what is in a folder directly after it.
pub fn add_contents<F: Files>(
    alloc: Global,
    files: &mut F,
    making: Making,
    folder: &Text,
    path: &Text,
    levels: usize,
) -> Result<Making, TreeFault>
    requires { IsFolderPath path.now }
    ensures gives { Gives (mount_due levels (F.state files.old).held folder.now path.now making) (F.state files.old) (F.state files.new) result }
    ensures targets { IfOk result (λ made. targets_of made ≤ targets_of making) }
{
    if levels == 0 {
        return Ok(making);
    }
    let entries = list_folder(alloc, files, folder)?;
    let mut made = making;
    let mut rest = entries.as_slice();
    while let Some((entry, more)) = rest.split_first() {
        let Entered { making, inner } = add_entry(
            alloc,
            files,
            made,
            folder.as_str(),
            path.as_str(),
            entry,
        )?;
        made = match inner {
            None => making,
            Some(inner) => add_contents(
                alloc,
                files,
                making,
                &inner.outside,
                &inner.path,
                levels - 1,
            )?,
        };
        rest = more;
    }
    Ok(made)
}
