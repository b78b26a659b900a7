//! wasi:filesystem/types, resource descriptor, where the descriptor is the scratch folder or a file of it: rows that neither read nor
//! change the folder.

#![tactic(auto, using(wit_types::proofs::ValueLemmas::values))]

ghost use Rattle.std.specs.Prelude.{◌≡◌, ℕ, Bool, IfOk};
ghost use Rattle.tree_table.specs.Tables.{Forest};
ghost use Rattle.reference_step.specs.Descriptors as descriptor;
ghost use Rattle.reference_step.specs.Handles.{ScratchRoot, ScratchFile};
ghost use Rattle.reference_step.specs.State.{View};
ghost use Rattle.ref_answers.specs.Shown.{shown};

use ref_answers::{Row, fails, gives_ok, label, ok, returns};
use ref_rules::Content;
use std::alloc::Global;
use virt_base::NoMemory;
use wit_types::Value;

/// The place of an error code in the enum `error-code`.
const BAD_DESCRIPTOR: u32 = 3;

/// The places in the enum `descriptor-type`.
const DIRECTORY: u32 = 3;

const REGULAR_FILE: u32 = 6;

/// `read-via-stream` of a file.
pub fn input_row(alloc: Global, file: u32, offset: u64) -> Result<Row, NoMemory>
    ensures { IfOk result (λ row. (f : Forest) (v : View) (may_write : Bool) → shown f row ≡ descriptor.read-via-stream v (ScratchFile file may_write) offset) }
{
    gives_ok(alloc, Content::ScratchIn(file, offset))
}

/// `write-via-stream` of a file.
pub fn output_row(alloc: Global, file: u32, may_write: bool, offset: u64) -> Result<Row, NoMemory>
    ensures { IfOk result (λ row. (f : Forest) (v : View) → shown f row ≡ descriptor.write-via-stream v (ScratchFile file may_write) offset) }
{
    if may_write {
        gives_ok(alloc, Content::ScratchOut(file, Some(offset)))
    } else {
        fails(alloc, BAD_DESCRIPTOR)
    }
}

/// `append-via-stream` of a file.
pub fn append_row(alloc: Global, file: u32, may_write: bool) -> Result<Row, NoMemory>
    ensures { IfOk result (λ row. (f : Forest) (v : View) → shown f row ≡ descriptor.append-via-stream v (ScratchFile file may_write)) }
{
    if may_write {
        gives_ok(alloc, Content::ScratchOut(file, None))
    } else {
        fails(alloc, BAD_DESCRIPTOR)
    }
}

/// `get-flags` of the folder: it is read, and what is in it may be changed.
pub fn root_flags_row(alloc: Global) -> Result<Row, NoMemory>
    ensures { IfOk result (λ row. (f : Forest) → shown f row ≡ descriptor.get-flags ScratchRoot) }
{
    Ok(returns(ok(alloc, Value::Flags(33))?))
}

/// `get-flags` of a file: it is read, and may be written or not.
pub fn file_flags_row(alloc: Global, may_write: bool) -> Result<Row, NoMemory>
    ensures { IfOk result (λ row. (f : Forest) (n : ℕ) → shown f row ≡ descriptor.get-flags (ScratchFile n may_write)) }
{
    let flags = if may_write { 3 } else { 1 };
    Ok(returns(ok(alloc, Value::Flags(flags))?))
}

/// `get-type` of the folder.
pub fn root_type_row(alloc: Global) -> Result<Row, NoMemory>
    ensures { IfOk result (λ row. (f : Forest) (v : View) → shown f row ≡ descriptor.get-type v ScratchRoot) }
{
    Ok(returns(ok(alloc, label(DIRECTORY))?))
}

/// `get-type` of a file.
pub fn file_type_row(alloc: Global) -> Result<Row, NoMemory>
    ensures { IfOk result (λ row. (f : Forest) (v : View) (n : ℕ) (may_write : Bool) → shown f row ≡ descriptor.get-type v (ScratchFile n may_write)) }
{
    Ok(returns(ok(alloc, label(REGULAR_FILE))?))
}

/// `read-directory` of the folder.
pub fn read_directory_row(alloc: Global) -> Result<Row, NoMemory>
    ensures { IfOk result (λ row. (f : Forest) (v : View) → shown f row ≡ descriptor.read-directory v ScratchRoot) }
{
    gives_ok(alloc, Content::ScratchEntries(0))
}
