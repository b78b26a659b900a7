//! wasi:filesystem/types, `open-at` from the scratch folder.

#![tactic(auto, using(wit_types::proofs::ValueLemmas::values, crate::proofs::RowLemmas::by_found))]

ghost use Rattle.std.specs.Prelude.{◌≡◌, None, IfOk, IsSome};
ghost use Rattle.tree_table.specs.Tables.{Forest};
ghost use Rattle.tree_table.specs.Trees.{IsShort};
ghost use Rattle.tree_table.specs.Scratches.{file_at, find_file, free_number};
ghost use Rattle.reference_step.specs.Descriptors as descriptor;
ghost use Rattle.reference_step.specs.Handles.{ScratchRoot};
ghost use Rattle.reference_step.specs.State.{View};
ghost use Rattle.reference_step.specs.Nodes.{Missing, lead_in, new_name};
ghost use Rattle.ref_answers.specs.Shown.{shown};
ghost use Rattle.ref_scratch.specs.Told.{told, settled};

use crate::finding::{Found, lead_in};
use crate::folder::Folder;
use crate::naming::{NewName, new_name};
use ref_answers::{Row, fails, gives_ok, has_flag};
use ref_rules::Content;
use std::alloc::Global;
use virt_base::NoMemory;

/// The places of error codes in the enum `error-code`.
const EXIST: u32 = 7;

const INVALID: u32 = 12;

const IS_DIRECTORY: u32 = 14;

const NO_ENTRY: u32 = 20;

const INSUFFICIENT_SPACE: u32 = 23;

const NOT_DIRECTORY: u32 = 24;

/// The folder itself is found.
fn open_root(alloc: Global, flags: u32, rights: u32) -> Result<Row, NoMemory>
    ensures { IfOk result (λ row. (f : Forest) → shown f row ≡ descriptor.open_root flags rights) }
{
    if has_flag(flags, 2) {
        fails(alloc, EXIST)
    } else if has_flag(rights, 1) || has_flag(flags, 3) {
        fails(alloc, IS_DIRECTORY)
    } else {
        gives_ok(alloc, Content::ScratchRoot)
    }
}

/// A file is found.
fn open_file(
    alloc: Global,
    folder: &mut Folder,
    number: u32,
    flags: u32,
    rights: u32,
) -> Result<Row, NoMemory>
    requires { IsSome (file_at folder.old number) }
    ensures { IfOk result (λ row. (f : Forest) (v : View) → told f row folder.new ≡ settled folder.old (descriptor.open_file (record v { scratch = folder.old }) number flags rights)) }
{
    if has_flag(flags, 2) {
        return fails(alloc, EXIST);
    }
    if has_flag(flags, 1) {
        return fails(alloc, NOT_DIRECTORY);
    }
    let may_write = has_flag(rights, 1);
    if !has_flag(flags, 3) {
        return gives_ok(alloc, Content::ScratchFile(number, may_write));
    }
    if !may_write {
        return fails(alloc, INVALID);
    }
    folder.truncate(number);
    gives_ok(alloc, Content::ScratchFile(number, true))
}

/// A file is made, where there is a number for it.
fn open_named(alloc: Global, folder: &mut Folder, name: &str, rights: u32) -> Result<Row, NoMemory>
    requires new { find_file folder.old name.now ≡ None }
    requires short { IsShort name.now }
    ensures { IfOk result (λ row. (f : Forest) (v : View) → told f row folder.new ≡ settled folder.old (descriptor.open_made (record v { scratch = folder.old }) name.now (free_number folder.old) rights)) }
{
    match folder.create(name) {
        Ok(number) => gives_ok(alloc, Content::ScratchFile(number, has_flag(rights, 1))),
        Err(_) => fails(alloc, INSUFFICIENT_SPACE),
    }
}

/// A file is made under the new name of a text.
fn open_new(alloc: Global, folder: &mut Folder, text: &str, rights: u32) -> Result<Row, NoMemory>
    requires { lead_in folder.old text.now ≡ Missing 20 }
    ensures { IfOk result (λ row. (f : Forest) (v : View) → told f row folder.new ≡ settled folder.old (descriptor.open_new (record v { scratch = folder.old }) (new_name text.now) rights)) }
{
    match new_name(text) {
        NewName::Named(name) => open_named(alloc, folder, name, rights),
        NewName::Unnamed(code) => fails(alloc, code),
    }
}

/// Nothing is found.
fn open_missing(
    alloc: Global,
    folder: &mut Folder,
    code: u32,
    text: &str,
    flags: u32,
    rights: u32,
) -> Result<Row, NoMemory>
    requires { lead_in folder.old text.now ≡ Missing code }
    ensures { IfOk result (λ row. (f : Forest) (v : View) → told f row folder.new ≡ settled folder.old (descriptor.open_missing (record v { scratch = folder.old }) code text.now flags rights)) }
{
    if code != NO_ENTRY {
        return fails(alloc, code);
    }
    if !has_flag(flags, 0) {
        return fails(alloc, NO_ENTRY);
    }
    if has_flag(flags, 1) {
        return fails(alloc, INVALID);
    }
    open_new(alloc, folder, text, rights)
}

/// `open-at`.
pub fn open_row(
    alloc: Global,
    folder: &mut Folder,
    follow: u32,
    text: &str,
    flags: u32,
    rights: u32,
) -> Result<Row, NoMemory>
    ensures { IfOk result (λ row. (f : Forest) (v : View) → told f row folder.new ≡ settled folder.old (descriptor.open-at (record v { scratch = folder.old }) ScratchRoot follow text.now flags rights)) }
{
    match lead_in(folder, text) {
        Found::Root => open_root(alloc, flags, rights),
        Found::File(number) => open_file(alloc, folder, number, flags, rights),
        Found::Missing(code) => open_missing(alloc, folder, code, text, flags, rights),
    }
}
