//! Files, folders and links, added to a tree one at a time, and all of them that a policy writes out.

ghost use Rattle.std.specs.Prelude.{◌≡◌, ◌+◌, ◌≤◌, All, IfOk, true};
ghost use Rattle.path_names.specs.Paths.{is_path, is_target};
ghost use Rattle.mount_tree.specs.Legal.{ArePaths};
ghost use Rattle.mount_tree.specs.Runs.{Gives, Says, each};
ghost use Rattle.mount_tree.specs.Building.{embedded_due, file_step, folder_step, link_step};
ghost use Rattle.mount_tree.specs.Targets.{link_targets, targets_of};
ghost use Rattle.policy_data.specs.declared.data.EmbeddedFile.{EmbeddedFile};
ghost use Rattle.policy_data.specs.declared.data.Link.{Link};

use crate::fault::TreeFault;
use crate::making::{Making, Reached};
use crate::reading::content_bytes;
use outside::Files;
use policy_data::{Content, Embedded, EmbeddedFile, Link};
use std::alloc::Global;
use tree_table::Node;
use virt_base::{Text, copy_bytes};

/// Adds a file.
#[tactic(auto, using(crate::proofs::StepLemmas::file_unreached, crate::proofs::StepLemmas::file_unread, crate::proofs::StepLemmas::file_added, crate::proofs::StepLemmas::file_memory, crate::proofs::TargetLemmas::file_targets))]
pub fn add_file<F: Files>(
    alloc: Global,
    files: &mut F,
    making: Making,
    path: &str,
    content: &Content,
) -> Result<Making, TreeFault>
    requires { is_path path.now ≡ true }
    ensures gives { Gives (file_step (F.state files.old).held making path.now content.now) (F.state files.old) (F.state files.new) result }
    ensures targets { IfOk result (λ made. targets_of made ≤ targets_of making) }
{
    let place = making.reach(alloc, path)?;
    let Reached { making, spot } = place;
    let bytes = content_bytes(alloc, files, content, making.bytes())?;
    let making = making.with_file(alloc, path, spot, bytes)?;
    Ok(making)
}

/// Adds a folder.
#[tactic(auto, using(crate::proofs::StepLemmas::other_added, crate::proofs::StepLemmas::other_refused))]
pub fn add_folder(alloc: Global, making: Making, path: &str) -> Result<Making, TreeFault>
    requires { is_path path.now ≡ true }
    ensures { Says (folder_step making path.now).answer result }
{
    let Reached { making, spot } = making.reach(alloc, path)?;
    let making = making.with_other(alloc, path, spot, Node::Folder)?;
    Ok(making)
}

/// Adds a symbolic link.
#[tactic(auto, using(crate::proofs::StepLemmas::other_added, crate::proofs::StepLemmas::other_refused))]
fn add_link(alloc: Global, making: Making, link: &Link) -> Result<Making, TreeFault>
    requires path { is_path link.now.path ≡ true }
    requires target { is_target link.now.target ≡ true }
    ensures { Says (link_step making link.now.path link.now.target).answer result }
{
    let path = link.path.as_str();
    let Reached { making, spot } = making.reach(alloc, path)?;
    let target = copy_bytes(alloc, link.target.bytes())?;
    let making = making.with_other(alloc, path, spot, Node::Link(target))?;
    Ok(making)
}

fn add_files<F: Files>(
    alloc: Global,
    files: &mut F,
    making: Making,
    embedded: &[EmbeddedFile],
) -> Result<Making, TreeFault>
    requires { All (λ (file : EmbeddedFile). is_path file.path ≡ true) embedded.now }
    ensures gives { Gives (each (λ s (file : EmbeddedFile). file_step (F.state files.old).held s file.path file.content) making embedded.now) (F.state files.old) (F.state files.new) result }
    ensures targets { IfOk result (λ made. targets_of made ≤ targets_of making) }
{
    let mut made = making;
    let mut rest = embedded;
    while let Some((file, more)) = rest.split_first() {
        made = add_file(alloc, files, made, file.path.as_str(), &file.content)?;
        rest = more;
    }
    Ok(made)
}

fn add_folders(alloc: Global, making: Making, folders: &[Text]) -> Result<Making, TreeFault>
    requires { All (λ folder. is_path folder ≡ true) folders.now }
    ensures { Says (each folder_step making folders.now).answer result }
{
    let mut made = making;
    let mut rest = folders;
    while let Some((folder, more)) = rest.split_first() {
        made = add_folder(alloc, made, folder.as_str())?;
        rest = more;
    }
    Ok(made)
}

fn add_links(alloc: Global, making: Making, links: &[Link]) -> Result<Making, TreeFault>
    requires { All (λ (link : Link). (is_path link.path ≡ true) × (is_target link.target ≡ true)) links.now }
    ensures { Says (each (λ s (link : Link). link_step s link.path link.target) making links.now).answer result }
{
    let mut made = making;
    let mut rest = links;
    while let Some((link, more)) = rest.split_first() {
        made = add_link(alloc, made, link)?;
        rest = more;
    }
    Ok(made)
}

/// Adds what a policy writes out of a tree: files, folders and links.
#[tactic(auto, using(crate::proofs::StepLemmas::files_refused, crate::proofs::StepLemmas::folders_refused, crate::proofs::StepLemmas::links_added))]
pub fn add_embedded<F: Files>(
    alloc: Global,
    files: &mut F,
    making: Making,
    embedded: &Embedded,
) -> Result<Making, TreeFault>
    requires { ArePaths embedded.now }
    ensures gives { Gives (embedded_due (F.state files.old).held making embedded.now) (F.state files.old) (F.state files.new) result }
    ensures targets { IfOk result (λ made. targets_of made ≤ targets_of making + link_targets embedded.now.links) }
{
    let filed = add_files(alloc, files, making, embedded.files.as_slice())?;
    let housed = add_folders(alloc, filed, embedded.folders.as_slice())?;
    add_links(alloc, housed, embedded.links.as_slice())
}
