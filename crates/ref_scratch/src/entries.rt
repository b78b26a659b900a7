//! wasi:filesystem/types, resource directory-entry-stream, where the stream is over the scratch folder.

#![tactic(auto, using(wit_types::proofs::ValueLemmas::values, crate::proofs::EntryLemmas::next))]

ghost use Rattle.std.specs.Prelude.{◌≡◌, ◌+◌, ◌<◌, [], IfOk, IfSome, length, unwrap_or};
ghost use Rattle.tree_table.specs.Tables.{Forest};
ghost use Rattle.reference_step.specs.EntryStreams as entries;
ghost use Rattle.reference_step.specs.Handles.{ScratchEntries};
ghost use Rattle.reference_step.specs.Codes as code;
ghost use Rattle.reference_step.specs.Nodes.{entry_value, next_file};
ghost use Rattle.reference_step.specs.State.{View, moves};
ghost use Rattle.reference_step.specs.Values as made;
ghost use Rattle.ref_answers.specs.Shown.{shown};

use crate::folder::Folder;
use ref_answers::{Row, entry_value, moves, none, ok, returns, some};
use ref_rules::Content;
use std::alloc::Global;
use virt_base::{NoMemory, Text};

/// The place in the enum `descriptor-type`.
const REGULAR_FILE: u32 = 6;

/// The least number of a file from one on, of that many numbers.
fn next_number(folder: &Folder, from: u32, files: u32) -> Option<u32>
    requires { length folder.now.files ≡ files }
    ensures value { result ≡ next_file folder.now from }
    ensures bound { IfSome result (λ number. number < files) }
{
    for number in from..files {
        if folder.is_there(number) {
            return Some(number);
        }
    }
    None
}

/// What is told of a file, of which the name is known; the listing goes on after it.
fn file_row(alloc: Global, number: u32, name: Option<Text>) -> Result<Row, NoMemory>
    requires { number < 4294967295 }
    ensures { IfOk result (λ row. (f : Forest) → shown f row ≡ moves (ScratchEntries (number + 1)) (made.ok (made.some (entry_value (record { ty = code.regular_file; name = unwrap_or name [] }))))) }
{
    let name = match name {
        Some(name) => name,
        None => Text::from_str(alloc, "")?,
    };
    let entry = some(alloc, entry_value(alloc, REGULAR_FILE, name)?)?;
    Ok(moves(Content::ScratchEntries(number + 1), ok(alloc, entry)?))
}

/// `read-directory-entry`: the file that has the least number from this one on, or none.
pub fn read_entry_row(
    alloc: Global,
    folder: &Folder,
    from: u32,
    files: u32,
) -> Result<Row, NoMemory>
    requires { length folder.now.files ≡ files }
    ensures { IfOk result (λ row. (f : Forest) (v : View) → shown f row ≡ entries.read-directory-entry (record v { scratch = folder.now }) (ScratchEntries from)) }
{
    match next_number(folder, from, files) {
        Some(number) => {
            let name = folder.name(alloc, number)?;
            file_row(alloc, number, name)
        }
        None => Ok(returns(ok(alloc, none())?)),
    }
}
