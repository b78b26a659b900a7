//! wasi:filesystem/types, where the handle is no descriptor of a tree or of the scratch folder.

#![tactic(auto, using(wit_types::proofs::ValueLemmas::values))]

ghost use Rattle.std.specs.Prelude.{◌≡◌, ◌≤◌, ◌<◌, IfOk, true, length};
ghost use Rattle.wit_types.specs.PlainValue.{PlainValues};
ghost use Rattle.tree_table.specs.Tables.{Forest, count_of};
ghost use Rattle.reference_step.specs.Handles as reference;
ghost use Rattle.reference_step.specs.State.{View};
ghost use Rattle.ref_answers.specs.Seen.{content_in};
ghost use Rattle.ref_answers.specs.Shown.{shown};
ghost use Rattle.ref_virtual.specs.Inside.{row_inside};
ghost use Rattle.ref_virtual.specs.Views.{HoldsTrees};
ghost use Rattle.ref_rules.specs.declared.content.Content.TheVariants as held;
ghost use Rattle.ref_virtual.specs.Methods.{look_row, pair_row, method_row};
ghost use Rattle.ref_virtual.specs.Others.{is_next, is_other};

use crate::methods::{Look, Method, Pair};
use crate::read_entry_row;
use ref_answers::{Row, done, fails, gives_ok, hash_value, label, none, ok, returns, stat_value};
use ref_rules::Content;
use std::alloc::Global;
use tree_table::Table;
use virt_base::NoMemory;
use wit_types::Value;

/// The places of error codes in the enum `error-code`.
const IS_DIRECTORY: u32 = 14;

const NOT_DIRECTORY: u32 = 24;

const READ_ONLY: u32 = 33;

const CROSS_DEVICE: u32 = 36;

/// The place in the enum `descriptor-type`.
const DIRECTORY: u32 = 3;

/// The flags of a descriptor that may be read.
const READ: u32 = 1;

/// What reads: it answers as an empty folder beside that many trees would.
fn look_row(alloc: Global, trees: u32, look: Look) -> Result<Row, NoMemory>
    ensures { IfOk result (λ row. (f : Forest) (v : View) (args : PlainValues) → length v.trees ≡ trees → shown f row ≡ look_row look v reference.Always args) }
{
    match look {
        Look::ReadViaStream => fails(alloc, IS_DIRECTORY),
        Look::Read => fails(alloc, IS_DIRECTORY),
        Look::GetFlags => Ok(returns(ok(alloc, Value::Flags(READ))?)),
        Look::GetType => Ok(returns(ok(alloc, label(DIRECTORY))?)),
        Look::ReadDirectory => gives_ok(alloc, Content::ScratchEntries(0)),
        Look::Stat => Ok(returns(ok(alloc, stat_value(alloc, DIRECTORY, 0)?)?)),
        Look::StatAt => fails(alloc, NOT_DIRECTORY),
        Look::OpenAt => fails(alloc, NOT_DIRECTORY),
        Look::ReadlinkAt => fails(alloc, NOT_DIRECTORY),
        Look::MetadataHash => {
            let hash = hash_value(alloc, 0, u64::from(trees) + 1)?;
            Ok(returns(ok(alloc, hash)?))
        }
        Look::MetadataHashAt => fails(alloc, NOT_DIRECTORY),
    }
}

fn pair_row(alloc: Global, pair: Pair) -> Result<Row, NoMemory>
    ensures { IfOk result (λ row. (f : Forest) (v : View) (args : PlainValues) → shown f row ≡ pair_row pair v reference.Always args) }
{
    match pair {
        Pair::LinkAt => fails(alloc, CROSS_DEVICE),
        Pair::RenameAt => fails(alloc, CROSS_DEVICE),
        Pair::IsSameObject => Ok(returns(Value::Bool(false))),
    }
}

/// What a method answers of a handle that is none of its kind, beside that many trees.
pub fn other_row(alloc: Global, trees: u32, method: Method) -> Result<Row, NoMemory>
    ensures { IfOk result (λ row. (f : Forest) (v : View) (c : reference.Content) (args : PlainValues) → length v.trees ≡ trees → is_other method c ≡ true → shown f row ≡ method_row method v c args) }
{
    match method {
        Method::Looks(look) => look_row(alloc, trees, look),
        Method::Changes(change) => fails(alloc, READ_ONLY),
        Method::Pairs(pair) => pair_row(alloc, pair),
        Method::Syncs => Ok(returns(done())),
        Method::ReadDirectoryEntry => Ok(returns(ok(alloc, none())?)),
    }
}

/// Whether it is `read-directory-entry`.
pub fn is_next(method: Method) -> bool
    ensures { result ≡ is_next method }
{
    match method {
        Method::ReadDirectoryEntry => true,
        Method::Looks(_) => false,
        Method::Changes(_) => false,
        Method::Pairs(_) => false,
        Method::Syncs => false,
    }
}

/// What a method answers of a listing of a folder of a tree.
pub fn listing_row(
    alloc: Global,
    table: &Table,
    trees: u32,
    node: u32,
    place: u32,
    method: Method,
) -> Result<Row, NoMemory>
    requires inside { node < count_of table.now }
    requires few { count_of table.now ≤ 65536 }
    ensures row { IfOk result (λ row. (v : View) (args : PlainValues) → HoldsTrees table.now v → length v.trees ≡ trees → shown table.now row ≡ method_row method v (content_in table.now (held.Entries node place)) args) }
    ensures inside { IfOk result (λ row. (v : View) → length v.trees ≡ trees → row_inside (count_of table.now) row ≡ true) }
{
    if is_next(method) {
        read_entry_row(alloc, table, node, place)
    } else {
        other_row(alloc, trees, method)
    }
}
