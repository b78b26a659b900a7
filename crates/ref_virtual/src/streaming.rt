//! wasi:io/streams, where the stream is neither the host's nor of the scratch folder: from a file of a tree, without bytes, or one that
//! drops them.

#![tactic(auto, using(wit_types::proofs::ValueLemmas::values))]

ghost use Rattle.std.specs.Prelude.{◌≡◌, ◌<◌, IfOk, true};
ghost use Rattle.wit_types.specs.PlainValue.{PlainValues, plain_values};
ghost use Rattle.tree_table.specs.Tables.{Forest, count_of};
ghost use Rattle.reference_step.specs.Handles as reference;
ghost use Rattle.reference_step.specs.State.{View};
ghost use Rattle.ref_answers.specs.Seen.{content_in};
ghost use Rattle.ref_answers.specs.Shown.{shown};
ghost use Rattle.ref_virtual.specs.Inside.{row_inside};
ghost use Rattle.ref_virtual.specs.Views.{HoldsTrees};
ghost use Rattle.ref_rules.specs.declared.content.Content.TheVariants as held;
ghost use Rattle.ref_virtual.specs.Held.{AreWords};
ghost use Rattle.ref_virtual.specs.Methods.{input_row, output_row};
ghost use Rattle.ref_virtual.specs.Others.{is_no_source, is_no_sink};

use crate::args::number_at;
use crate::stream_methods::{InputMethod, OutputMethod};
use crate::{read_stream_row, skip_stream_row};
use ref_answers::{Row, closed, done, gives, number, ok, returns};
use ref_rules::Content;
use std::alloc::Global;
use tree_table::Table;
use virt_base::NoMemory;
use wit_types::Values;

/// That many bytes may be written at once.
const ROOM: u64 = 65536;

/// What a method answers of a stream from a file of a tree.
pub fn file_input_row(
    alloc: Global,
    table: &Table,
    node: u32,
    place: u64,
    method: InputMethod,
    args: &Values,
) -> Result<Row, NoMemory>
    requires inside { node < count_of table.now }
    requires words { AreWords (plain_values args.now) }
    ensures row { IfOk result (λ row. (v : View) → HoldsTrees table.now v → shown table.now row ≡ input_row method v (content_in table.now (held.FileAt node place)) (plain_values args.now)) }
    ensures inside { IfOk result (λ row. row_inside (count_of table.now) row ≡ true) }
{
    match method {
        InputMethod::Read => read_stream_row(alloc, table, node, place, number_at(args, 1)),
        InputMethod::Skip => skip_stream_row(alloc, table, node, place, number_at(args, 1)),
        InputMethod::Subscribe => Ok(gives(Content::Always)),
    }
}

/// What a method answers of an input without bytes.
pub fn empty_input_row(alloc: Global, method: InputMethod) -> Result<Row, NoMemory>
    ensures { IfOk result (λ row. (f : Forest) (v : View) (c : reference.Content) (args : PlainValues) → is_no_source c ≡ true → shown f row ≡ input_row method v c args) }
{
    match method {
        InputMethod::Read => Ok(returns(closed(alloc)?)),
        InputMethod::Skip => Ok(returns(closed(alloc)?)),
        InputMethod::Subscribe => Ok(gives(Content::Always)),
    }
}

/// What a method answers of an output that drops what it is given.
pub fn discard_row(alloc: Global, method: OutputMethod) -> Result<Row, NoMemory>
    ensures { IfOk result (λ row. (f : Forest) (v : View) (c : reference.Content) (args : PlainValues) → is_no_sink c ≡ true → shown f row ≡ output_row method v c args) }
{
    match method {
        OutputMethod::CheckWrite => Ok(returns(ok(alloc, number(ROOM))?)),
        OutputMethod::Write => Ok(returns(done())),
        OutputMethod::Flush => Ok(returns(done())),
        OutputMethod::WriteZeroes => Ok(returns(done())),
        OutputMethod::Splice => Ok(returns(closed(alloc)?)),
        OutputMethod::Subscribe => Ok(gives(Content::Always)),
    }
}
