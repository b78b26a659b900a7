//! wasi:filesystem/types: what a method answers goes by what its first handle stands for.

ghost use Rattle.std.specs.Prelude.{◌≡◌, ◌≤◌, true, IfOk, length};
ghost use Rattle.wit_types.specs.PlainValue.{PlainValues, plain_values};
ghost use Rattle.tree_table.specs.Scratches.{file_at};
ghost use Rattle.tree_table.specs.Tables.{Forest, count_of, tree_count};
ghost use Rattle.reference_step.specs.Handles.{content_of, ScratchEntries};
ghost use Rattle.reference_step.specs.Rows.{filesystem_rows};
ghost use Rattle.reference_step.specs.State.{View};
ghost use Rattle.ref_answers.specs.Found.{found};
ghost use Rattle.ref_answers.specs.Seen.{content_in, live_in};
ghost use Rattle.ref_answers.specs.Shown.{shown};
ghost use Rattle.ref_virtual.specs.Inside.{node_inside, row_inside};
ghost use Rattle.ref_virtual.specs.Views.{AreTexts, HoldsTrees};
ghost use Rattle.ref_rules.specs.Lives.{is_open};
ghost use Rattle.ref_virtual.specs.Held.{AreInside, AreWords};
ghost use Rattle.ref_virtual.specs.Methods.{method_row};
ghost use Rattle.ref_scratch.specs.Told.{told, settled};
ghost use Rattle.ref_virtual.specs.Acting.{Stays};
ghost use Rattle.ref_virtual.specs.Known.{AreBytes, AreOpen, file_open};

use crate::files::file_row;
use crate::roots::root_row;
use crate::{Method, content_at, is_next, listing_row, method_named, node_row, other_row};
use ref_answers::Row;
use ref_rules::{Content, LiveHandles};
use ref_scratch::{Folder, read_entry_row};
use std::alloc::Global;
use tree_table::Table;
use virt_base::NoMemory;
use wit_types::Values;

/// What a method answers of a listing of the scratch folder from a number on, where that many files may be.
fn scratch_listing_row(
    alloc: Global,
    folder: &Folder,
    files: u32,
    trees: u32,
    from: u32,
    method: Method,
) -> Result<Row, NoMemory>
    requires { length folder.now.files ≡ files }
    ensures { IfOk result (λ row. (f : Forest) (v : View) (args : PlainValues) → length v.trees ≡ trees → shown f row ≡ method_row method (record v { scratch = folder.now }) (ScratchEntries from) args) }
{
    if is_next(method) {
        read_entry_row(alloc, folder, from, files)
    } else {
        other_row(alloc, trees, method)
    }
}

/// What a method answers of what its first handle stands for.
fn content_row(
    alloc: Global,
    table: &Table,
    trees: u32,
    folder: &mut Folder,
    files: u32,
    live: &LiveHandles,
    content: Content,
    method: Method,
    args: &Values,
) -> Result<Row, NoMemory>
    requires few { count_of table.now ≤ 65536 }
    requires texts { AreTexts table.now }
    requires nodes { AreInside (count_of table.now) live.now.handles }
    requires inside { node_inside (count_of table.now) content ≡ true }
    requires there { file_open folder.old content }
    requires files { length folder.old.files ≡ files }
    requires held { length folder.old.files ≡ live.now.files }
    requires words { AreWords (plain_values args.now) }
    requires bytes { AreBytes (plain_values args.now) }
    ensures row { IfOk result (λ row. (v : View) → HoldsTrees table.now v → length v.trees ≡ trees → v.content ≡ content_of (live_in table.now live.now.handles) → told table.now row folder.new ≡ settled folder.old (method_row method (record v { scratch = folder.old; held = λ n. is_open live.now.handles n }) (content_in table.now content) (plain_values args.now))) }
    ensures inside { IfOk result (λ row. (v : View) → length v.trees ≡ trees → row_inside (count_of table.now) row ≡ true) }
{
    match content {
        Content::Node(node) => node_row(alloc, table, live, node, method, args),
        Content::Entries(node, place) => listing_row(alloc, table, trees, node, place, method),
        Content::ScratchRoot => root_row(alloc, folder, live, trees, method, args),
        Content::ScratchFile(file, may_write) => {
            file_row(alloc, folder, live, trees, file, may_write, method, args)
        }
        Content::ScratchEntries(from) => {
            scratch_listing_row(alloc, folder, files, trees, from, method)
        }
        Content::Host(_) => other_row(alloc, trees, method),
        Content::FileAt(_, _) => other_row(alloc, trees, method),
        Content::EmptyIn => other_row(alloc, trees, method),
        Content::Discard => other_row(alloc, trees, method),
        Content::Always => other_row(alloc, trees, method),
        Content::ScratchIn(_, _) => other_row(alloc, trees, method),
        Content::ScratchOut(_, _) => other_row(alloc, trees, method),
    }
}

/// The row of a function of wasi:filesystem/types.
pub fn filesystem_row(
    alloc: Global,
    table: &Table,
    trees: u32,
    folder: &mut Folder,
    files: u32,
    live: &LiveHandles,
    function: &str,
    args: &Values,
) -> Result<Row, NoMemory>
    requires few { count_of table.now ≤ 65536 }
    requires texts { AreTexts table.now }
    requires nodes { AreInside (count_of table.now) live.now.handles }
    requires open { AreOpen folder.old live.now.handles }
    requires files { length folder.old.files ≡ files }
    requires held { length folder.old.files ≡ live.now.files }
    requires words { AreWords (plain_values args.now) }
    requires bytes { AreBytes (plain_values args.now) }
    ensures row { IfOk result (λ row. (v : View) → HoldsTrees table.now v → length v.trees ≡ trees → v.content ≡ content_of (live_in table.now live.now.handles) → told table.now row folder.new ≡ settled folder.old (found filesystem_rows function.now (record v { scratch = folder.old; held = λ n. is_open live.now.handles n }) (plain_values args.now))) }
    // Where it traps, the folder is as it was.
    ensures still { IfOk result (λ row. (v : View) → HoldsTrees table.now v → length v.trees ≡ trees → v.content ≡ content_of (live_in table.now live.now.handles) → Stays row folder.new folder.old) }
    ensures inside { IfOk result (λ row. (v : View) → length v.trees ≡ trees → row_inside (count_of table.now) row ≡ true) }
{
    match method_named(function) {
        Some(method) => {
            let content = content_at(live, args, 0);
            content_row(
                alloc, table, trees, folder, files, live, content, method, args,
            )
        }
        None => Ok(Row::Traps),
    }
}
