//! wasi:filesystem/types, where the descriptor is the scratch folder: the row of each method.

#![tactic(auto, using(wit_types::proofs::ValueLemmas::values))]

ghost use Rattle.std.specs.Prelude.{◌≡◌, IfOk, length, ℕ, true};
ghost use Rattle.wit_types.specs.PlainValue.{plain_values};
ghost use Rattle.tree_table.specs.Tables.{Forest};
ghost use Rattle.reference_step.specs.Handles.{content_of, ScratchRoot};
ghost use Rattle.reference_step.specs.Descriptors.{link_pair, rename_pair};
ghost use Rattle.reference_step.specs.Rows.{text};
ghost use Rattle.reference_step.specs.State.{View};
ghost use Rattle.ref_answers.specs.Seen.{live_in};
ghost use Rattle.ref_answers.specs.Shown.{shown};
ghost use Rattle.ref_virtual.specs.Inside.{row_inside};
ghost use Rattle.ref_rules.specs.Lives.{is_open};
ghost use Rattle.ref_virtual.specs.Methods.{look_row, change_row, pair_row, method_row};
ghost use Rattle.ref_scratch.specs.Told.{told, settled};
ghost use Rattle.ref_virtual.specs.Besides.{root_pair};

use crate::beside::{Beside, beside_of, is_root};
use crate::{Change, Look, Method, Pair, content_at, flags_at, text_at};
use ref_answers::{Row, done, fails, none, ok, returns};
use ref_rules::LiveHandles;
use ref_scratch::{
    Folder, hash_at_row, hash_root_row, open_row, read_directory_row, readlink_at_row,
    remove_directory_row, rename_row, root_flags_row, root_type_row, set_times_at_row, stat_at_row,
    stat_root_row, unlink_row,
};
use std::alloc::Global;
use virt_base::NoMemory;
use wit_types::{Value, Values};

/// The places of error codes in the enum `error-code`.
const IS_DIRECTORY: u32 = 14;

const NOT_DIRECTORY: u32 = 24;

const UNSUPPORTED: u32 = 27;

const CROSS_DEVICE: u32 = 36;

/// `open-at`: how the path is followed, the path, and what is asked of what it leads to.
fn open_at_row(alloc: Global, folder: &mut Folder, args: &Values) -> Result<Row, NoMemory>
    ensures { IfOk result (λ row. (f : Forest) (v : View) → told f row folder.new ≡ settled folder.old (look_row Look.OpenAt (record v { scratch = folder.old }) ScratchRoot (plain_values args.now))) }
{
    let follow = flags_at(args, 1);
    let path = text_at(args, 2);
    open_row(
        alloc,
        folder,
        follow,
        path,
        flags_at(args, 3),
        flags_at(args, 4),
    )
}

fn look_row(
    alloc: Global,
    folder: &mut Folder,
    trees: u32,
    look: Look,
    args: &Values,
) -> Result<Row, NoMemory>
    ensures { IfOk result (λ row. (f : Forest) (v : View) → length v.trees ≡ trees → told f row folder.new ≡ settled folder.old (look_row look (record v { scratch = folder.old }) ScratchRoot (plain_values args.now))) }
{
    match look {
        Look::ReadViaStream => fails(alloc, IS_DIRECTORY),
        Look::GetFlags => root_flags_row(alloc),
        Look::GetType => root_type_row(alloc),
        Look::Read => fails(alloc, IS_DIRECTORY),
        Look::ReadDirectory => read_directory_row(alloc),
        Look::Stat => stat_root_row(alloc),
        Look::StatAt => stat_at_row(alloc, folder, flags_at(args, 1), text_at(args, 2)),
        Look::OpenAt => open_at_row(alloc, folder, args),
        Look::ReadlinkAt => readlink_at_row(alloc, folder, text_at(args, 1)),
        Look::MetadataHash => hash_root_row(alloc, trees),
        Look::MetadataHashAt => {
            hash_at_row(alloc, folder, trees, flags_at(args, 1), text_at(args, 2))
        }
    }
}

fn change_row(
    alloc: Global,
    folder: &mut Folder,
    live: &LiveHandles,
    change: Change,
    args: &Values,
) -> Result<Row, NoMemory>
    requires { length folder.old.files ≡ live.now.files }
    ensures { IfOk result (λ row. (f : Forest) (v : View) → told f row folder.new ≡ settled folder.old (change_row change (record v { scratch = folder.old; held = λ n. is_open live.now.handles n }) ScratchRoot (plain_values args.now))) }
{
    match change {
        Change::WriteViaStream => fails(alloc, IS_DIRECTORY),
        Change::AppendViaStream => fails(alloc, IS_DIRECTORY),
        Change::SetSize => fails(alloc, IS_DIRECTORY),
        Change::SetTimes => Ok(returns(done())),
        Change::Write => fails(alloc, IS_DIRECTORY),
        Change::CreateDirectoryAt => fails(alloc, UNSUPPORTED),
        Change::RemoveDirectoryAt => remove_directory_row(alloc, folder, text_at(args, 1)),
        Change::UnlinkFileAt => unlink_row(alloc, folder, live, text_at(args, 1)),
        Change::SymlinkAt => fails(alloc, UNSUPPORTED),
        Change::SetTimesAt => set_times_at_row(alloc, folder, text_at(args, 2)),
    }
}

fn link_row(alloc: Global, beside: Beside) -> Result<Row, NoMemory>
    ensures { IfOk result (λ row. (f : Forest) → shown f row ≡ link_pair (root_pair beside)) }
{
    match beside {
        Beside::Root => fails(alloc, UNSUPPORTED),
        Beside::File(_) => fails(alloc, NOT_DIRECTORY),
        Beside::Elsewhere => fails(alloc, CROSS_DEVICE),
    }
}

fn rename_beside(
    alloc: Global,
    folder: &mut Folder,
    live: &LiveHandles,
    beside: Beside,
    args: &Values,
) -> Result<Row, NoMemory>
    requires { length folder.old.files ≡ live.now.files }
    ensures { IfOk result (λ row. (f : Forest) (v : View) → told f row folder.new ≡ settled folder.old (rename_pair (record v { scratch = folder.old; held = λ n. is_open live.now.handles n }) (root_pair beside) (text 1 (plain_values args.now)) (text 3 (plain_values args.now)))) }
{
    match beside {
        Beside::Root => rename_row(alloc, folder, live, text_at(args, 1), text_at(args, 3)),
        Beside::File(_) => fails(alloc, NOT_DIRECTORY),
        Beside::Elsewhere => fails(alloc, CROSS_DEVICE),
    }
}

fn pair_row(
    alloc: Global,
    folder: &mut Folder,
    live: &LiveHandles,
    pair: Pair,
    args: &Values,
) -> Result<Row, NoMemory>
    requires { length folder.old.files ≡ live.now.files }
    ensures row { IfOk result (λ row. (f : Forest) (v : View) → v.content ≡ content_of (live_in f live.now.handles) → told f row folder.new ≡ settled folder.old (pair_row pair (record v { scratch = folder.old; held = λ n. is_open live.now.handles n }) ScratchRoot (plain_values args.now))) }
    ensures inside { IfOk result (λ row. (v : View) (nodes : ℕ) → row_inside nodes row ≡ true) }
{
    match pair {
        Pair::LinkAt => link_row(alloc, beside_of(content_at(live, args, 3))),
        Pair::RenameAt => {
            let beside = beside_of(content_at(live, args, 2));
            rename_beside(alloc, folder, live, beside, args)
        }
        Pair::IsSameObject => {
            let other = beside_of(content_at(live, args, 1));
            Ok(returns(Value::Bool(is_root(other))))
        }
    }
}

/// What a method answers of the scratch folder, which counts as one tree more than that many.
pub fn root_row(
    alloc: Global,
    folder: &mut Folder,
    live: &LiveHandles,
    trees: u32,
    method: Method,
    args: &Values,
) -> Result<Row, NoMemory>
    requires { length folder.old.files ≡ live.now.files }
    ensures row { IfOk result (λ row. (f : Forest) (v : View) → length v.trees ≡ trees → v.content ≡ content_of (live_in f live.now.handles) → told f row folder.new ≡ settled folder.old (method_row method (record v { scratch = folder.old; held = λ n. is_open live.now.handles n }) ScratchRoot (plain_values args.now))) }
    ensures inside { IfOk result (λ row. (v : View) (nodes : ℕ) → length v.trees ≡ trees → row_inside nodes row ≡ true) }
{
    match method {
        Method::Looks(look) => look_row(alloc, folder, trees, look, args),
        Method::Changes(change) => change_row(alloc, folder, live, change, args),
        Method::Pairs(pair) => pair_row(alloc, folder, live, pair, args),
        Method::Syncs => Ok(returns(done())),
        Method::ReadDirectoryEntry => Ok(returns(ok(alloc, none())?)),
    }
}
