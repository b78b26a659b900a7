//! wasi:filesystem/types, `rename-at` in the scratch folder.

#![tactic(auto, using(wit_types::proofs::ValueLemmas::values, crate::proofs::RowLemmas::by_found))]

ghost use Rattle.std.specs.Prelude.{◌≡◌, ◌<◌, IfOk, IsSome, length};
ghost use Rattle.tree_table.specs.Tables.{Forest};
ghost use Rattle.tree_table.specs.Scratches.{file_at};
ghost use Rattle.reference_step.specs.Descriptors as descriptor;
ghost use Rattle.reference_step.specs.Nodes.{lead_in, new_name};
ghost use Rattle.reference_step.specs.State.{View};
ghost use Rattle.ref_rules.specs.Lives.{is_open};
ghost use Rattle.ref_scratch.specs.Told.{told, settled};

use crate::finding::{Found, lead_in};
use crate::folder::Folder;
use crate::naming::{NewName, new_name};
use ref_answers::{Row, done, fails, returns};
use ref_rules::LiveHandles;
use std::alloc::Global;
use virt_base::NoMemory;

/// The places of error codes in the enum `error-code`.
const BUSY: u32 = 4;

const EXIST: u32 = 7;

const NO_ENTRY: u32 = 20;

/// The new path leads to a file: the same, or one that is replaced unless it is open.
fn rename_over(
    alloc: Global,
    folder: &mut Folder,
    live: &LiveHandles,
    number: u32,
    other: u32,
) -> Result<Row, NoMemory>
    requires there { IsSome (file_at folder.old number) }
    requires taken { IsSome (file_at folder.old other) }
    requires inside { other < live.now.files }
    ensures { IfOk result (λ row. (f : Forest) (v : View) → told f row folder.new ≡ settled folder.old (descriptor.rename_over (record v { scratch = folder.old; held = λ n. is_open live.now.handles n }) number other)) }
{
    if other == number {
        return Ok(returns(done()));
    }
    if live.is_open(other) {
        return fails(alloc, BUSY);
    }
    folder.take_name(alloc, number, other)?;
    Ok(returns(done()))
}

/// The new path leads nowhere, so that it may give a new name.
fn rename_new(alloc: Global, folder: &mut Folder, number: u32, text: &str) -> Result<Row, NoMemory>
    requires { IsSome (file_at folder.old number) }
    ensures { IfOk result (λ row. (f : Forest) (v : View) → told f row folder.new ≡ settled folder.old (descriptor.rename_new (record v { scratch = folder.old }) number (new_name text.now))) }
{
    match new_name(text) {
        NewName::Named(name) => {
            folder.rename(number, name);
            Ok(returns(done()))
        }
        NewName::Unnamed(code) => fails(alloc, code),
    }
}

fn rename_to(
    alloc: Global,
    folder: &mut Folder,
    live: &LiveHandles,
    number: u32,
    text: &str,
) -> Result<Row, NoMemory>
    requires there { IsSome (file_at folder.old number) }
    requires files { length folder.old.files ≡ live.now.files }
    ensures { IfOk result (λ row. (f : Forest) (v : View) → told f row folder.new ≡ settled folder.old (descriptor.rename_to (record v { scratch = folder.old; held = λ n. is_open live.now.handles n }) number (lead_in folder.old text.now) text.now)) }
{
    match lead_in(folder, text) {
        Found::Root => fails(alloc, EXIST),
        Found::File(other) => rename_over(alloc, folder, live, number, other),
        Found::Missing(code) => {
            if code == NO_ENTRY {
                rename_new(alloc, folder, number, text)
            } else {
                fails(alloc, code)
            }
        }
    }
}

/// `rename-at`, where both descriptors are the scratch folder.
pub fn rename_row(
    alloc: Global,
    folder: &mut Folder,
    live: &LiveHandles,
    old: &str,
    new: &str,
) -> Result<Row, NoMemory>
    requires { length folder.old.files ≡ live.now.files }
    ensures { IfOk result (λ row. (f : Forest) (v : View) → told f row folder.new ≡ settled folder.old (descriptor.rename_pair (record v { scratch = folder.old; held = λ n. is_open live.now.handles n }) descriptor.BothRoots old.now new.now)) }
{
    match lead_in(folder, old) {
        Found::Root => fails(alloc, BUSY),
        Found::File(number) => rename_to(alloc, folder, live, number, new),
        Found::Missing(code) => fails(alloc, code),
    }
}
