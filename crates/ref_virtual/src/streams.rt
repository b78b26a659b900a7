//! wasi:io/streams: what a method answers goes by what its first handle stands for.

ghost use Rattle.std.specs.Prelude.{◌≡◌, true, IfOk, IsSome, ℕ};
ghost use Rattle.wit_types.specs.PlainValue.{plain_values};
ghost use Rattle.tree_table.specs.Scratches.{file_at};
ghost use Rattle.tree_table.specs.Tables.{Forest, count_of};
ghost use Rattle.reference_step.specs.Handles.{content_of, ScratchIn, ScratchOut};
ghost use Rattle.reference_step.specs.Rows.{stream_rows};
ghost use Rattle.reference_step.specs.State.{View};
ghost use Rattle.ref_answers.specs.Found.{found};
ghost use Rattle.ref_answers.specs.Seen.{content_in, live_in};
ghost use Rattle.ref_answers.specs.Shown.{shown};
ghost use Rattle.ref_virtual.specs.Inside.{node_inside, row_inside};
ghost use Rattle.ref_virtual.specs.Views.{HoldsTrees};
ghost use Rattle.ref_virtual.specs.Held.{AreInside, AreWords};
ghost use Rattle.ref_virtual.specs.Methods.{input_row, output_row, stream_row};
ghost use Rattle.ref_scratch.specs.Told.{told, settled};
ghost use Rattle.ref_virtual.specs.Acting.{Stays};
ghost use Rattle.ref_virtual.specs.Known.{AreBytes, AreOpen, file_open};

use crate::bytes::written_bytes;
use crate::{
    InputMethod, OutputMethod, StreamMethod, content_at, discard_row, empty_input_row,
    file_input_row, number_at, stream_method_named,
};
use ref_answers::{Row, gives};
use ref_rules::{Content, LiveHandles};
use ref_scratch::{Folder, read_stream_row, skip_stream_row, write_stream_row, write_zeroes_row};
use std::alloc::Global;
use tree_table::Table;
use virt_base::NoMemory;
use wit_types::Values;

/// What a method answers of a stream from a scratch file.
fn source_row(
    alloc: Global,
    folder: &Folder,
    file: u32,
    place: u64,
    method: InputMethod,
    args: &Values,
) -> Result<Row, NoMemory>
    requires there { IsSome (file_at folder.now file) }
    requires words { AreWords (plain_values args.now) }
    ensures { IfOk result (λ row. (f : Forest) (v : View) → shown f row ≡ input_row method (record v { scratch = folder.now }) (ScratchIn file place) (plain_values args.now)) }
{
    match method {
        InputMethod::Read => read_stream_row(alloc, folder, file, place, number_at(args, 1)),
        InputMethod::Skip => skip_stream_row(alloc, folder, file, place, number_at(args, 1)),
        InputMethod::Subscribe => Ok(gives(Content::Always)),
    }
}

/// `write` to a scratch file.
fn write_row(
    alloc: Global,
    folder: &mut Folder,
    file: u32,
    place: Option<u64>,
    args: &Values,
) -> Result<Row, NoMemory>
    requires there { IsSome (file_at folder.old file) }
    requires bytes { AreBytes (plain_values args.now) }
    ensures { IfOk result (λ row. (f : Forest) (v : View) → told f row folder.new ≡ settled folder.old (output_row OutputMethod.Write (record v { scratch = folder.old }) (ScratchOut file place) (plain_values args.now))) }
{
    let bytes = written_bytes(alloc, args)?;
    write_stream_row(alloc, folder, file, place, bytes.as_slice())
}

/// What a method answers of a stream to a scratch file.
fn sink_row(
    alloc: Global,
    folder: &mut Folder,
    file: u32,
    place: Option<u64>,
    method: OutputMethod,
    args: &Values,
) -> Result<Row, NoMemory>
    requires there { IsSome (file_at folder.old file) }
    requires words { AreWords (plain_values args.now) }
    requires bytes { AreBytes (plain_values args.now) }
    ensures { IfOk result (λ row. (f : Forest) (v : View) → told f row folder.new ≡ settled folder.old (output_row method (record v { scratch = folder.old }) (ScratchOut file place) (plain_values args.now))) }
{
    match method {
        OutputMethod::Write => write_row(alloc, folder, file, place, args),
        OutputMethod::WriteZeroes => {
            write_zeroes_row(alloc, folder, file, place, number_at(args, 1))
        }
        OutputMethod::CheckWrite => discard_row(alloc, method),
        OutputMethod::Flush => discard_row(alloc, method),
        OutputMethod::Splice => discard_row(alloc, method),
        OutputMethod::Subscribe => discard_row(alloc, method),
    }
}

fn input_row(
    alloc: Global,
    table: &Table,
    folder: &Folder,
    content: Content,
    method: InputMethod,
    args: &Values,
) -> Result<Row, NoMemory>
    requires inside { node_inside (count_of table.now) content ≡ true }
    requires there { file_open folder.now content }
    requires words { AreWords (plain_values args.now) }
    ensures row { IfOk result (λ row. (v : View) → HoldsTrees table.now v → shown table.now row ≡ input_row method (record v { scratch = folder.now }) (content_in table.now content) (plain_values args.now)) }
    ensures inside { IfOk result (λ row. (v : View) → row_inside (count_of table.now) row ≡ true) }
{
    match content {
        Content::FileAt(node, place) => file_input_row(alloc, table, node, place, method, args),
        Content::ScratchIn(file, place) => source_row(alloc, folder, file, place, method, args),
        Content::Host(_) => empty_input_row(alloc, method),
        Content::Node(_) => empty_input_row(alloc, method),
        Content::EmptyIn => empty_input_row(alloc, method),
        Content::Discard => empty_input_row(alloc, method),
        Content::Always => empty_input_row(alloc, method),
        Content::Entries(_, _) => empty_input_row(alloc, method),
        Content::ScratchRoot => empty_input_row(alloc, method),
        Content::ScratchEntries(_) => empty_input_row(alloc, method),
        Content::ScratchFile(_, _) => empty_input_row(alloc, method),
        Content::ScratchOut(_, _) => empty_input_row(alloc, method),
    }
}

fn output_row(
    alloc: Global,
    folder: &mut Folder,
    content: Content,
    method: OutputMethod,
    args: &Values,
) -> Result<Row, NoMemory>
    requires there { file_open folder.old content }
    requires words { AreWords (plain_values args.now) }
    requires bytes { AreBytes (plain_values args.now) }
    ensures row { IfOk result (λ row. (f : Forest) (v : View) → told f row folder.new ≡ settled folder.old (output_row method (record v { scratch = folder.old }) (content_in f content) (plain_values args.now))) }
    ensures inside { IfOk result (λ row. (v : View) (nodes : ℕ) → row_inside nodes row ≡ true) }
{
    match content {
        Content::ScratchOut(file, place) => sink_row(alloc, folder, file, place, method, args),
        Content::Host(_) => discard_row(alloc, method),
        Content::Node(_) => discard_row(alloc, method),
        Content::FileAt(_, _) => discard_row(alloc, method),
        Content::EmptyIn => discard_row(alloc, method),
        Content::Discard => discard_row(alloc, method),
        Content::Always => discard_row(alloc, method),
        Content::Entries(_, _) => discard_row(alloc, method),
        Content::ScratchRoot => discard_row(alloc, method),
        Content::ScratchEntries(_) => discard_row(alloc, method),
        Content::ScratchFile(_, _) => discard_row(alloc, method),
        Content::ScratchIn(_, _) => discard_row(alloc, method),
    }
}

/// What a method answers of what its first handle stands for.
fn method_row(
    alloc: Global,
    table: &Table,
    folder: &mut Folder,
    content: Content,
    method: StreamMethod,
    args: &Values,
) -> Result<Row, NoMemory>
    requires inside { node_inside (count_of table.now) content ≡ true }
    requires there { file_open folder.old content }
    requires words { AreWords (plain_values args.now) }
    requires bytes { AreBytes (plain_values args.now) }
    ensures row { IfOk result (λ row. (v : View) → HoldsTrees table.now v → told table.now row folder.new ≡ settled folder.old (stream_row method (record v { scratch = folder.old }) (content_in table.now content) (plain_values args.now))) }
    ensures inside { IfOk result (λ row. (v : View) → row_inside (count_of table.now) row ≡ true) }
{
    match method {
        StreamMethod::Input(input) => input_row(alloc, table, folder, content, input, args),
        StreamMethod::Output(output) => output_row(alloc, folder, content, output, args),
    }
}

/// The row of a function of wasi:io/streams.
pub fn stream_row(
    alloc: Global,
    table: &Table,
    folder: &mut Folder,
    live: &LiveHandles,
    function: &str,
    args: &Values,
) -> Result<Row, NoMemory>
    requires nodes { AreInside (count_of table.now) live.now.handles }
    requires open { AreOpen folder.old live.now.handles }
    requires words { AreWords (plain_values args.now) }
    requires bytes { AreBytes (plain_values args.now) }
    ensures row { IfOk result (λ row. (v : View) → HoldsTrees table.now v → v.content ≡ content_of (live_in table.now live.now.handles) → told table.now row folder.new ≡ settled folder.old (found stream_rows function.now (record v { scratch = folder.old }) (plain_values args.now))) }
    // Where it traps, the folder is as it was.
    ensures still { IfOk result (λ row. (v : View) → HoldsTrees table.now v → v.content ≡ content_of (live_in table.now live.now.handles) → Stays row folder.new folder.old) }
    ensures inside { IfOk result (λ row. (v : View) → row_inside (count_of table.now) row ≡ true) }
{
    match stream_method_named(function) {
        Some(method) => {
            let content = content_at(live, args, 0);
            method_row(alloc, table, folder, content, method, args)
        }
        None => Ok(Row::Traps),
    }
}
