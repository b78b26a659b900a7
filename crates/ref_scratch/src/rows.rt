//! wasi:filesystem/types, `stat` and `metadata-hash` of the scratch folder and of its files. Rows that find a file by its path answer by
//! these too.

#![tactic(auto, using(wit_types::proofs::ValueLemmas::values))]

ghost use Rattle.std.specs.Prelude.{◌≡◌, IfOk, IsSome, length};
ghost use Rattle.tree_table.specs.Tables.{Forest};
ghost use Rattle.tree_table.specs.Scratches.{file_at};
ghost use Rattle.reference_step.specs.Descriptors as descriptor;
ghost use Rattle.reference_step.specs.State.{View};
ghost use Rattle.ref_answers.specs.Shown.{shown};

use crate::folder::Folder;
use ref_answers::{Row, hash_value, ok, returns, stat_value};
use std::alloc::Global;
use virt_base::NoMemory;

/// The places in the enum `descriptor-type`.
const DIRECTORY: u32 = 3;

const REGULAR_FILE: u32 = 6;

/// `stat` of the folder.
pub fn stat_root_row(alloc: Global) -> Result<Row, NoMemory>
    ensures { IfOk result (λ row. (f : Forest) → shown f row ≡ descriptor.stat_root) }
{
    Ok(returns(ok(alloc, stat_value(alloc, DIRECTORY, 0)?)?))
}

/// `stat` of a file.
pub fn stat_file_row(alloc: Global, folder: &Folder, number: u32) -> Result<Row, NoMemory>
    requires { IsSome (file_at folder.now number) }
    ensures { IfOk result (λ row. (f : Forest) (v : View) → shown f row ≡ descriptor.stat_file (record v { scratch = folder.now }) number) }
{
    let stat = stat_value(alloc, REGULAR_FILE, folder.size(number))?;
    Ok(returns(ok(alloc, stat)?))
}

/// `metadata-hash` of the folder, which counts as one tree more than that many.
pub fn hash_root_row(alloc: Global, trees: u32) -> Result<Row, NoMemory>
    ensures { IfOk result (λ row. (f : Forest) (v : View) → length v.trees ≡ trees → shown f row ≡ descriptor.hash_root v) }
{
    Ok(returns(ok(alloc, hash_value(alloc, 0, u64::from(trees) + 1)?)?))
}

/// `metadata-hash` of a file.
pub fn hash_file_row(alloc: Global, trees: u32, number: u32) -> Result<Row, NoMemory>
    ensures { IfOk result (λ row. (f : Forest) (v : View) → length v.trees ≡ trees → shown f row ≡ descriptor.hash_file v number) }
{
    let hash = hash_value(alloc, u64::from(number) + 1, u64::from(trees) + 1)?;
    Ok(returns(ok(alloc, hash)?))
}
