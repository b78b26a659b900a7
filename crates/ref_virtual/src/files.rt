//! wasi:filesystem/types, where the descriptor is a file of the scratch folder: the row of each method.

#![tactic(auto, using(wit_types::proofs::ValueLemmas::values))]

ghost use Rattle.std.specs.Prelude.{◌≡◌, Bool, IfOk, IsSome, length, ℕ, true};
ghost use Rattle.wit_types.specs.PlainValue.{plain_values};
ghost use Rattle.tree_table.specs.Scratches.{file_at};
ghost use Rattle.tree_table.specs.Tables.{Forest};
ghost use Rattle.reference_step.specs.Descriptors.{link_pair, rename_pair};
ghost use Rattle.reference_step.specs.Handles.{content_of, ScratchFile};
ghost use Rattle.reference_step.specs.State.{View};
ghost use Rattle.ref_answers.specs.Seen.{live_in};
ghost use Rattle.ref_answers.specs.Shown.{shown};
ghost use Rattle.ref_virtual.specs.Inside.{row_inside};
ghost use Rattle.ref_virtual.specs.Held.{AreWords};
ghost use Rattle.ref_virtual.specs.Methods.{look_row, change_row, pair_row, method_row};
ghost use Rattle.ref_scratch.specs.Told.{told, settled};
ghost use Rattle.ref_virtual.specs.Besides.{file_pair};
ghost use Rattle.ref_virtual.specs.Known.{AreBytes};

use crate::beside::{Beside, beside_of, is_file};
use crate::bytes::written_bytes;
use crate::{Change, Look, Method, Pair, content_at, number_at};
use ref_answers::{Row, done, fails, none, ok, returns};
use ref_rules::LiveHandles;
use ref_scratch::{
    Folder, append_row, file_flags_row, file_type_row, hash_file_row, input_row, output_row,
    read_row, set_size_row, stat_file_row, write_row,
};
use std::alloc::Global;
use virt_base::NoMemory;
use wit_types::{Value, Values};

/// The places of error codes in the enum `error-code`.
const NOT_DIRECTORY: u32 = 24;

const CROSS_DEVICE: u32 = 36;

fn look_row(
    alloc: Global,
    folder: &Folder,
    trees: u32,
    file: u32,
    may_write: bool,
    look: Look,
    args: &Values,
) -> Result<Row, NoMemory>
    requires there { IsSome (file_at folder.now file) }
    requires words { AreWords (plain_values args.now) }
    ensures { IfOk result (λ row. (f : Forest) (v : View) → length v.trees ≡ trees → shown f row ≡ look_row look (record v { scratch = folder.now }) (ScratchFile file may_write) (plain_values args.now)) }
{
    match look {
        Look::ReadViaStream => input_row(alloc, file, number_at(args, 1)),
        Look::GetFlags => file_flags_row(alloc, may_write),
        Look::GetType => file_type_row(alloc),
        Look::Read => read_row(alloc, folder, file, number_at(args, 1), number_at(args, 2)),
        Look::ReadDirectory => fails(alloc, NOT_DIRECTORY),
        Look::Stat => stat_file_row(alloc, folder, file),
        Look::StatAt => fails(alloc, NOT_DIRECTORY),
        Look::OpenAt => fails(alloc, NOT_DIRECTORY),
        Look::ReadlinkAt => fails(alloc, NOT_DIRECTORY),
        Look::MetadataHash => hash_file_row(alloc, trees, file),
        Look::MetadataHashAt => fails(alloc, NOT_DIRECTORY),
    }
}

/// `write`: the bytes, and the place from which on they stand.
fn write_at_row(
    alloc: Global,
    folder: &mut Folder,
    file: u32,
    may_write: bool,
    args: &Values,
) -> Result<Row, NoMemory>
    requires there { IsSome (file_at folder.old file) }
    requires words { AreWords (plain_values args.now) }
    requires bytes { AreBytes (plain_values args.now) }
    ensures { IfOk result (λ row. (f : Forest) (v : View) → told f row folder.new ≡ settled folder.old (change_row Change.Write (record v { scratch = folder.old }) (ScratchFile file may_write) (plain_values args.now))) }
{
    let bytes = written_bytes(alloc, args)?;
    write_row(
        alloc,
        folder,
        file,
        may_write,
        bytes.as_slice(),
        number_at(args, 2),
    )
}

fn change_row(
    alloc: Global,
    folder: &mut Folder,
    file: u32,
    may_write: bool,
    change: Change,
    args: &Values,
) -> Result<Row, NoMemory>
    requires there { IsSome (file_at folder.old file) }
    requires words { AreWords (plain_values args.now) }
    requires bytes { AreBytes (plain_values args.now) }
    ensures { IfOk result (λ row. (f : Forest) (v : View) → told f row folder.new ≡ settled folder.old (change_row change (record v { scratch = folder.old }) (ScratchFile file may_write) (plain_values args.now))) }
{
    match change {
        Change::WriteViaStream => output_row(alloc, file, may_write, number_at(args, 1)),
        Change::AppendViaStream => append_row(alloc, file, may_write),
        Change::SetSize => set_size_row(alloc, folder, file, may_write, number_at(args, 1)),
        Change::SetTimes => Ok(returns(done())),
        Change::Write => write_at_row(alloc, folder, file, may_write, args),
        Change::CreateDirectoryAt => fails(alloc, NOT_DIRECTORY),
        Change::RemoveDirectoryAt => fails(alloc, NOT_DIRECTORY),
        Change::UnlinkFileAt => fails(alloc, NOT_DIRECTORY),
        Change::SymlinkAt => fails(alloc, NOT_DIRECTORY),
        Change::SetTimesAt => fails(alloc, NOT_DIRECTORY),
    }
}

/// `link-at` and `rename-at`: a file is no folder, and all else is on another device.
fn joined_row(alloc: Global, beside: Beside) -> Result<Row, NoMemory>
    ensures { IfOk result (λ row. (f : Forest) → shown f row ≡ link_pair (file_pair beside)) }
{
    match beside {
        Beside::Root => fails(alloc, NOT_DIRECTORY),
        Beside::File(_) => fails(alloc, NOT_DIRECTORY),
        Beside::Elsewhere => fails(alloc, CROSS_DEVICE),
    }
}

fn pair_row(
    alloc: Global,
    live: &LiveHandles,
    file: u32,
    pair: Pair,
    args: &Values,
) -> Result<Row, NoMemory>
    ensures row { IfOk result (λ row. (f : Forest) (v : View) (may_write : Bool) → v.content ≡ content_of (live_in f live.now.handles) → shown f row ≡ pair_row pair v (ScratchFile file may_write) (plain_values args.now)) }
    ensures inside { IfOk result (λ row. (nodes : ℕ) → row_inside nodes row ≡ true) }
{
    match pair {
        Pair::LinkAt => joined_row(alloc, beside_of(content_at(live, args, 3))),
        Pair::RenameAt => joined_row(alloc, beside_of(content_at(live, args, 2))),
        Pair::IsSameObject => {
            let other = beside_of(content_at(live, args, 1));
            Ok(returns(Value::Bool(is_file(other, file))))
        }
    }
}

/// What a method answers of a file of the scratch folder, which counts as one tree more than that many.
pub fn file_row(
    alloc: Global,
    folder: &mut Folder,
    live: &LiveHandles,
    trees: u32,
    file: u32,
    may_write: bool,
    method: Method,
    args: &Values,
) -> Result<Row, NoMemory>
    requires there { IsSome (file_at folder.old file) }
    requires words { AreWords (plain_values args.now) }
    requires bytes { AreBytes (plain_values args.now) }
    ensures row { IfOk result (λ row. (f : Forest) (v : View) → length v.trees ≡ trees → v.content ≡ content_of (live_in f live.now.handles) → told f row folder.new ≡ settled folder.old (method_row method (record v { scratch = folder.old }) (ScratchFile file may_write) (plain_values args.now))) }
    ensures inside { IfOk result (λ row. (v : View) (nodes : ℕ) → length v.trees ≡ trees → row_inside nodes row ≡ true) }
{
    match method {
        Method::Looks(look) => look_row(alloc, folder, trees, file, may_write, look, args),
        Method::Changes(change) => change_row(alloc, folder, file, may_write, change, args),
        Method::Pairs(pair) => pair_row(alloc, live, file, pair, args),
        Method::Syncs => Ok(returns(done())),
        Method::ReadDirectoryEntry => Ok(returns(ok(alloc, none())?)),
    }
}
