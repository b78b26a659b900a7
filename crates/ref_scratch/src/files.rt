//! wasi:filesystem/types, resource descriptor, where the descriptor is a file of the scratch folder: rows that read or change it.

#![tactic(auto, using(wit_types::proofs::ValueLemmas::values, crate::proofs::RowLemmas::by_found))]

ghost use Rattle.std.specs.Prelude.{◌≡◌, Bool, IfOk, IsSome};
ghost use Rattle.tree_table.specs.Tables.{Forest};
ghost use Rattle.tree_table.specs.Scratches.{file_at};
ghost use Rattle.reference_step.specs.Descriptors as descriptor;
ghost use Rattle.reference_step.specs.Handles.{ScratchFile};
ghost use Rattle.reference_step.specs.State.{View};
ghost use Rattle.ref_answers.specs.Shown.{shown};
ghost use Rattle.ref_scratch.specs.Told.{told, settled};

use crate::folder::Folder;
use ref_answers::{Row, bytes, done, fails, number, ok, pair, returns};
use std::alloc::Global;
use virt_base::NoMemory;
use wit_types::Value;

/// The places of error codes in the enum `error-code`.
const BAD_DESCRIPTOR: u32 = 3;

const INSUFFICIENT_SPACE: u32 = 23;

/// `read`.
pub fn read_row(
    alloc: Global,
    folder: &Folder,
    file: u32,
    len: u64,
    offset: u64,
) -> Result<Row, NoMemory>
    requires { IsSome (file_at folder.now file) }
    ensures { IfOk result (λ row. (f : Forest) (v : View) (may_write : Bool) → shown f row ≡ descriptor.read (record v { scratch = folder.now }) (ScratchFile file may_write) len offset) }
{
    let size = folder.size(file);
    let start = offset.min(size);
    let count = len.min(size - start);
    let read = folder.read(alloc, file, start, count)?;
    let is_end = start + count == size;
    Ok(returns(ok(alloc, pair(alloc, bytes(read), Value::Bool(is_end))?)?))
}

/// `write`.
pub fn write_row(
    alloc: Global,
    folder: &mut Folder,
    file: u32,
    may_write: bool,
    bytes: &[u8],
    offset: u64,
) -> Result<Row, NoMemory>
    requires { IsSome (file_at folder.old file) }
    ensures { IfOk result (λ row. (f : Forest) (v : View) → told f row folder.new ≡ settled folder.old (descriptor.write (record v { scratch = folder.old }) (ScratchFile file may_write) bytes.now offset)) }
{
    if !may_write {
        return fails(alloc, BAD_DESCRIPTOR);
    }
    match folder.write(file, offset, bytes) {
        Ok(()) => Ok(returns(ok(alloc, number(bytes.len() as u64))?)),
        Err(_) => fails(alloc, INSUFFICIENT_SPACE),
    }
}

/// `set-size`.
pub fn set_size_row(
    alloc: Global,
    folder: &mut Folder,
    file: u32,
    may_write: bool,
    size: u64,
) -> Result<Row, NoMemory>
    requires { IsSome (file_at folder.old file) }
    ensures { IfOk result (λ row. (f : Forest) (v : View) → told f row folder.new ≡ settled folder.old (descriptor.set-size (record v { scratch = folder.old }) (ScratchFile file may_write) size)) }
{
    if !may_write {
        return fails(alloc, BAD_DESCRIPTOR);
    }
    match folder.set_size(file, size) {
        Ok(()) => Ok(returns(done())),
        Err(_) => fails(alloc, INSUFFICIENT_SPACE),
    }
}
