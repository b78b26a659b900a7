//! wasi:filesystem/types, resource descriptor, where the descriptor is the scratch folder: rows that name one of its files.

#![tactic(auto, using(wit_types::proofs::ValueLemmas::values, crate::proofs::RowLemmas::by_found))]

ghost use Rattle.std.specs.Prelude.{◌≡◌, ◌<◌, IfOk, IsSome, length, if◌then◌else◌};
ghost use Rattle.tree_table.specs.Tables.{Forest};
ghost use Rattle.reference_step.specs.Descriptors as descriptor;
ghost use Rattle.reference_step.specs.Handles.{ScratchRoot};
ghost use Rattle.tree_table.specs.Scratches.{file_at, removed};
ghost use Rattle.reference_step.specs.Codes.{busy};
ghost use Rattle.reference_step.specs.Values.{done};
ghost use Rattle.reference_step.specs.State.{View, fails, stores};
ghost use Rattle.ref_answers.specs.Shown.{shown};
ghost use Rattle.ref_rules.specs.Lives.{is_open};
ghost use Rattle.ref_scratch.specs.Told.{told, settled};

use crate::finding::{Found, lead_in};
use crate::folder::Folder;
use crate::rows::{hash_file_row, hash_root_row, stat_file_row, stat_root_row};
use ref_answers::{Row, done, fails, returns};
use ref_rules::LiveHandles;
use std::alloc::Global;
use virt_base::NoMemory;

/// The places of error codes in the enum `error-code`.
const BUSY: u32 = 4;

const INVALID: u32 = 12;

const IS_DIRECTORY: u32 = 14;

const NOT_DIRECTORY: u32 = 24;

/// `stat-at`.
pub fn stat_at_row(alloc: Global, folder: &Folder, flags: u32, text: &str) -> Result<Row, NoMemory>
    ensures { IfOk result (λ row. (f : Forest) (v : View) → shown f row ≡ descriptor.stat-at (record v { scratch = folder.now }) ScratchRoot flags text.now) }
{
    match lead_in(folder, text) {
        Found::Root => stat_root_row(alloc),
        Found::File(number) => stat_file_row(alloc, folder, number),
        Found::Missing(code) => fails(alloc, code),
    }
}

/// `set-times-at`.
pub fn set_times_at_row(alloc: Global, folder: &Folder, text: &str) -> Result<Row, NoMemory>
    ensures { IfOk result (λ row. (f : Forest) (v : View) → shown f row ≡ descriptor.set-times-at (record v { scratch = folder.now }) ScratchRoot text.now) }
{
    match lead_in(folder, text) {
        Found::Root => Ok(returns(done())),
        Found::File(_) => Ok(returns(done())),
        Found::Missing(code) => fails(alloc, code),
    }
}

/// `metadata-hash-at`.
pub fn hash_at_row(
    alloc: Global,
    folder: &Folder,
    trees: u32,
    flags: u32,
    text: &str,
) -> Result<Row, NoMemory>
    ensures { IfOk result (λ row. (f : Forest) (v : View) → length v.trees ≡ trees → shown f row ≡ descriptor.metadata-hash-at (record v { scratch = folder.now }) ScratchRoot flags text.now) }
{
    match lead_in(folder, text) {
        Found::Root => hash_root_row(alloc, trees),
        Found::File(number) => hash_file_row(alloc, trees, number),
        Found::Missing(code) => fails(alloc, code),
    }
}

/// `readlink-at`.
pub fn readlink_at_row(alloc: Global, folder: &Folder, text: &str) -> Result<Row, NoMemory>
    ensures { IfOk result (λ row. (f : Forest) (v : View) → shown f row ≡ descriptor.readlink-at (record v { scratch = folder.now }) ScratchRoot text.now) }
{
    match lead_in(folder, text) {
        Found::Root => fails(alloc, INVALID),
        Found::File(_) => fails(alloc, INVALID),
        Found::Missing(code) => fails(alloc, code),
    }
}

/// `remove-directory-at`.
pub fn remove_directory_row(alloc: Global, folder: &Folder, text: &str) -> Result<Row, NoMemory>
    ensures { IfOk result (λ row. (f : Forest) (v : View) → shown f row ≡ descriptor.remove-directory-at (record v { scratch = folder.now }) ScratchRoot text.now) }
{
    match lead_in(folder, text) {
        Found::Root => fails(alloc, BUSY),
        Found::File(_) => fails(alloc, NOT_DIRECTORY),
        Found::Missing(code) => fails(alloc, code),
    }
}

/// A file is taken away, unless it is open.
fn unlink_file(
    alloc: Global,
    folder: &mut Folder,
    live: &LiveHandles,
    number: u32,
) -> Result<Row, NoMemory>
    requires there { IsSome (file_at folder.old number) }
    requires inside { number < live.now.files }
    ensures { IfOk result (λ row. (f : Forest) → told f row folder.new ≡ settled folder.old (if is_open live.now.handles number then fails busy else stores (removed folder.old number) done)) }
{
    if live.is_open(number) {
        return fails(alloc, BUSY);
    }
    folder.remove(number);
    Ok(returns(done()))
}

/// `unlink-file-at`.
pub fn unlink_row(
    alloc: Global,
    folder: &mut Folder,
    live: &LiveHandles,
    text: &str,
) -> Result<Row, NoMemory>
    requires { length folder.old.files ≡ live.now.files }
    ensures { IfOk result (λ row. (f : Forest) (v : View) → told f row folder.new ≡ settled folder.old (descriptor.unlink-file-at (record v { scratch = folder.old; held = λ n. is_open live.now.handles n }) ScratchRoot text.now)) }
{
    match lead_in(folder, text) {
        Found::Root => fails(alloc, IS_DIRECTORY),
        Found::File(number) => unlink_file(alloc, folder, live, number),
        Found::Missing(code) => fails(alloc, code),
    }
}
