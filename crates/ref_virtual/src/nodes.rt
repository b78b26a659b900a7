//! wasi:filesystem/types, where the descriptor is a node of a tree: the row of each method.

#![tactic(auto, using(wit_types::proofs::ValueLemmas::values))]

ghost use Rattle.std.specs.Prelude.{◌≡◌, ◌≤◌, ◌<◌, IfOk, IfSome, true};
ghost use Rattle.tree_table.specs.Tables.{Forest, count_of};
ghost use Rattle.wit_types.specs.PlainValue.{plain_values};
ghost use Rattle.reference_step.specs.Descriptors as descriptor;
ghost use Rattle.reference_step.specs.Handles.{content_of};
ghost use Rattle.reference_step.specs.State.{View, fails};
ghost use Rattle.ref_answers.specs.Seen.{content_in, live_in};
ghost use Rattle.ref_answers.specs.Shown.{shown};
ghost use Rattle.ref_virtual.specs.Inside.{row_inside};
ghost use Rattle.ref_virtual.specs.Views.{AreTexts, HoldsTrees, node_in};
ghost use Rattle.ref_virtual.specs.Held.{AreInside, AreWords};
ghost use Rattle.ref_virtual.specs.Methods.{look_row, pair_row, method_row};
ghost use Rattle.ref_virtual.specs.Others.{node_of, crossing, same_as};

use crate::args::{bytes_at, content_at, flags_at, number_at};
use crate::methods::{Look, Method, Pair};
use crate::{
    are_same_nodes, hash_at_row, hash_row, open_row, read_directory_row, read_row, readlink_row,
    stat_at_row, stat_row, stream_row, type_row,
};
use ref_answers::{Row, done, fails, none, ok, returns};
use ref_rules::{Content, LiveHandles};
use std::alloc::Global;
use tree_table::Table;
use virt_base::NoMemory;
use wit_types::{Value, Values};

/// The places of error codes in the enum `error-code`.
const READ_ONLY: u32 = 33;

const CROSS_DEVICE: u32 = 36;

/// The flags of a descriptor that may be read.
const READ: u32 = 1;

fn look_row(
    alloc: Global,
    table: &Table,
    node: u32,
    look: Look,
    args: &Values,
) -> Result<Row, NoMemory>
    requires inside { node < count_of table.now }
    requires texts { AreTexts table.now }
    requires words { AreWords (plain_values args.now) }
    ensures row { IfOk result (λ row. (v : View) → HoldsTrees table.now v → shown table.now row ≡ look_row look v (node_in table.now node) (plain_values args.now)) }
    ensures inside { IfOk result (λ row. row_inside (count_of table.now) row ≡ true) }
{
    match look {
        Look::ReadViaStream => stream_row(alloc, table, node, number_at(args, 1)),
        Look::GetFlags => Ok(returns(ok(alloc, Value::Flags(READ))?)),
        Look::GetType => type_row(alloc, table, node),
        Look::Read => read_row(alloc, table, node, number_at(args, 1), number_at(args, 2)),
        Look::ReadDirectory => read_directory_row(alloc, table, node),
        Look::Stat => stat_row(alloc, table, node),
        Look::StatAt => stat_at_row(alloc, table, node, flags_at(args, 1), bytes_at(args, 2)),
        Look::OpenAt => open_at_row(alloc, table, node, args),
        Look::ReadlinkAt => readlink_row(alloc, table, node, bytes_at(args, 1)),
        Look::MetadataHash => hash_row(alloc, table, node),
        Look::MetadataHashAt => {
            hash_at_row(alloc, table, node, flags_at(args, 1), bytes_at(args, 2))
        }
    }
}

/// `open-at`: how the path is followed, the path, and what is asked of what it leads to.
fn open_at_row(alloc: Global, table: &Table, node: u32, args: &Values) -> Result<Row, NoMemory>
    requires { node < count_of table.now }
    ensures row { IfOk result (λ row. (v : View) → HoldsTrees table.now v → shown table.now row ≡ look_row Look.OpenAt v (node_in table.now node) (plain_values args.now)) }
    ensures inside { IfOk result (λ row. row_inside (count_of table.now) row ≡ true) }
{
    let follow = flags_at(args, 1);
    let path = bytes_at(args, 2);
    open_row(
        alloc,
        table,
        node,
        follow,
        path,
        flags_at(args, 3),
        flags_at(args, 4),
    )
}

/// The node that a content is.
fn node_of(content: Content) -> Option<u32>
    ensures { result ≡ node_of content }
{
    match content {
        Content::Node(node) => Some(node),
        Content::Host(_)
        | Content::FileAt(_, _)
        | Content::EmptyIn
        | Content::Discard
        | Content::Always
        | Content::Entries(_, _) => None,
        Content::ScratchRoot
        | Content::ScratchEntries(_)
        | Content::ScratchFile(_, _)
        | Content::ScratchIn(_, _)
        | Content::ScratchOut(_, _) => None,
    }
}

/// `link-at` and `rename-at`: of another node nothing can be changed, and all else is on another device.
fn crossing_row(alloc: Global, other: Option<u32>) -> Result<Row, NoMemory>
    ensures { IfOk result (λ row. (f : Forest) → shown f row ≡ fails (crossing other)) }
{
    match other {
        Some(_) => fails(alloc, READ_ONLY),
        None => fails(alloc, CROSS_DEVICE),
    }
}

/// Whether a node is the other one, where there is one.
fn is_same(table: &Table, node: u32, other: Option<u32>) -> bool
    requires node { node < count_of table.now }
    requires other { IfSome other (λ o. o < count_of table.now) }
    ensures { (v : View) → HoldsTrees table.now v → result ≡ same_as table.now node other }
{
    match other {
        Some(other) => are_same_nodes(table, node, other),
        None => false,
    }
}

fn pair_row(
    alloc: Global,
    table: &Table,
    live: &LiveHandles,
    node: u32,
    pair: Pair,
    args: &Values,
) -> Result<Row, NoMemory>
    requires inside { node < count_of table.now }
    requires others { AreInside (count_of table.now) live.now.handles }
    ensures row { IfOk result (λ row. (v : View) → HoldsTrees table.now v → v.content ≡ content_of (live_in table.now live.now.handles) → shown table.now row ≡ pair_row pair v (node_in table.now node) (plain_values args.now)) }
    ensures inside { IfOk result (λ row. row_inside (count_of table.now) row ≡ true) }
{
    match pair {
        Pair::LinkAt => crossing_row(alloc, node_of(content_at(live, args, 3))),
        Pair::RenameAt => crossing_row(alloc, node_of(content_at(live, args, 2))),
        Pair::IsSameObject => {
            let other = node_of(content_at(live, args, 1));
            Ok(returns(Value::Bool(is_same(table, node, other))))
        }
    }
}

/// What a method answers of a node of a tree.
pub fn node_row(
    alloc: Global,
    table: &Table,
    live: &LiveHandles,
    node: u32,
    method: Method,
    args: &Values,
) -> Result<Row, NoMemory>
    requires inside { node < count_of table.now }
    requires others { AreInside (count_of table.now) live.now.handles }
    requires texts { AreTexts table.now }
    requires words { AreWords (plain_values args.now) }
    ensures row { IfOk result (λ row. (v : View) → HoldsTrees table.now v → v.content ≡ content_of (live_in table.now live.now.handles) → shown table.now row ≡ method_row method v (node_in table.now node) (plain_values args.now)) }
    ensures inside { IfOk result (λ row. row_inside (count_of table.now) row ≡ true) }
{
    match method {
        Method::Looks(look) => look_row(alloc, table, node, look, args),
        Method::Changes(change) => fails(alloc, READ_ONLY),
        Method::Pairs(pair) => pair_row(alloc, table, live, node, pair, args),
        Method::Syncs => Ok(returns(done())),
        Method::ReadDirectoryEntry => Ok(returns(ok(alloc, none())?)),
    }
}
