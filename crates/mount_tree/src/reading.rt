//! What is read outside for trees: files, whose bytes together have a limit, and folders, with faults as those of trees.

ghost use Rattle.std.specs.Prelude.{◌≡◌, ◌≤◌, ◌+◌, IfOk, length};
ghost use Rattle.outside.specs.Files.{AreInOrder};
ghost use Rattle.mount_tree.specs.Runs.{Gives};
ghost use Rattle.mount_tree.specs.Building.{content_due, file_due, listing_due};

use crate::fault::{TreeFault, file_fault, over_limit};
use crate::making::{MOST_BYTES, fitting};
use outside::{Entries, FileFail, Files};
use policy_data::Content;
use std::alloc::Global;
use virt_base::{Bytes, Items, Text, copy_bytes};

/// The bytes of a file outside, after that many bytes of other files.
#[tactic(auto, using(crate::proofs::ReadLemmas::read_ok, crate::proofs::ReadLemmas::read_missing, crate::proofs::ReadLemmas::read_failed, crate::proofs::ReadLemmas::read_long, crate::proofs::ReadLemmas::read_memory))]
pub fn read_file<F: Files>(
    alloc: Global,
    files: &mut F,
    name: &Text,
    used: u64,
) -> Result<Bytes, TreeFault>
    requires { used ≤ 67108864 }
    ensures gives { Gives (file_due (F.state files.old).held name.now used) (F.state files.old) (F.state files.new) result }
    ensures fits { IfOk result (λ bytes. used + length bytes ≤ 67108864) }
{
    match files.read(alloc, name, MOST_BYTES - used) {
        Ok(bytes) => Ok(Items::new(bytes)),
        Err(FileFail::Missing) | Err(FileFail::Failed) => Err(file_fault(alloc, name)),
        Err(FileFail::TooLong(len)) => {
            Err(over_limit(alloc, "embedded-bytes", used.saturating_add(len)))
        }
        Err(FileFail::NoMemory) => Err(TreeFault::NoMemory),
    }
}

/// The entries of a folder outside.
#[tactic(auto, using(crate::proofs::ReadLemmas::list_ok, crate::proofs::ReadLemmas::list_missing, crate::proofs::ReadLemmas::list_failed, crate::proofs::ReadLemmas::list_memory))]
pub fn list_folder<F: Files>(
    alloc: Global,
    files: &mut F,
    folder: &Text,
) -> Result<Entries, TreeFault>
    ensures gives { Gives (listing_due (F.state files.old).held folder.now) (F.state files.old) (F.state files.new) result }
    ensures ordered { IfOk result AreInOrder }
{
    match files.list(alloc, folder) {
        Ok(entries) => Ok(entries),
        Err(FileFail::Missing) | Err(FileFail::Failed) => Err(file_fault(alloc, folder)),
        Err(FileFail::TooLong(_)) | Err(FileFail::NoMemory) => Err(TreeFault::NoMemory),
    }
}

/// What a file of a policy holds, after that many bytes of other files.
pub fn content_bytes<F: Files>(
    alloc: Global,
    files: &mut F,
    content: &Content,
    used: u64,
) -> Result<Bytes, TreeFault>
    requires { used ≤ 67108864 }
    ensures gives { Gives (content_due (F.state files.old).held used content.now) (F.state files.old) (F.state files.new) result }
    ensures fits { IfOk result (λ bytes. used + length bytes ≤ 67108864) }
{
    match content {
        Content::Bytes(bytes) => {
            let bytes = copy_bytes(alloc, bytes.as_slice())?;
            fitting(alloc, used, bytes)
        }
        Content::File(name) => read_file(alloc, files, name, used),
    }
}
