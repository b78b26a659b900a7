//! wasi:io/poll, where a pollable is not the host's.

#![tactic(auto, using(wit_types::proofs::ValueLemmas::values, crate::proofs::PollLemmas::each_count, crate::proofs::PollLemmas::byte_count))]

ghost use Rattle.std.specs.Prelude.{◌≡◌, IfOk, length, map, true, ℕ};
ghost use Rattle.wit_types.specs.PlainValue.{plain_value, plain_values};
ghost use Rattle.tree_table.specs.Tables.{Forest};
ghost use Rattle.reference_step.specs.Handles.{content_of, is_host};
ghost use Rattle.reference_step.specs.Pollables as pollables;
ghost use Rattle.reference_step.specs.Rows.{poll_rows};
ghost use Rattle.reference_step.specs.State.{View};
ghost use Rattle.reference_step.specs.Values.{id_in, items, list_in};
ghost use Rattle.ref_answers.specs.Found.{found};
ghost use Rattle.ref_answers.specs.Seen.{live_in};
ghost use Rattle.ref_answers.specs.Shown.{shown};
ghost use Rattle.ref_virtual.specs.Inside.{row_inside};
ghost use Rattle.ref_rules.specs.Parts as parts;

use ref_answers::{Row, block, poll, ready};
use ref_guards::is_host;
use ref_rules::{LiveHandles, Part, id_of, part_at};
use std::alloc::Global;
use virt_base::NoMemory;
use wit_types::{Value, Values};

/// How many values these are.
fn count_of(values: &Values) -> usize
    ensures { result ≡ length (items (plain_values values.now)) }
{
    match values {
        Values::Each(items) => items.len(),
        Values::Bytes(bytes) => bytes.as_slice().len(),
    }
}

/// Of each handle whether it is the host's.
fn hosts_among(alloc: Global, live: &LiveHandles, values: &Values) -> Result<Vec<bool>, NoMemory>
    ensures { IfOk result (λ hosts. (f : Forest) → hosts.items ≡ map (λ v. is_host (content_of (live_in f live.now.handles) (id_in v))) (items (plain_values values.now))) }
{
    let mut hosts = Vec::new(alloc);
    for place in 0..count_of(values) {
        hosts.push(is_host(live, id_of(part_at(values, place))))?;
    }
    Ok(hosts)
}

/// `poll` of the handles in a list; of another value there are none.
fn poll_list(alloc: Global, live: &LiveHandles, value: &Value) -> Result<Row, NoMemory>
    ensures { IfOk result (λ row. (f : Forest) → shown f row ≡ pollables.poll_of (content_of (live_in f live.now.handles)) (list_in (plain_value value.now))) }
{
    match value {
        Value::List(values) => poll(alloc, hosts_among(alloc, live, values)?.as_slice()),
        Value::Bool(_)
        | Value::Int(_)
        | Value::Char(_)
        | Value::Str(_)
        | Value::Record(_)
        | Value::Variant(_, _)
        | Value::Flags(_)
        | Value::Handle(_) => Ok(Row::Traps),
    }
}

fn poll_part(alloc: Global, live: &LiveHandles, part: Part<'_>) -> Result<Row, NoMemory>
    ensures { IfOk result (λ row. (f : Forest) → shown f row ≡ pollables.poll_of (content_of (live_in f live.now.handles)) (list_in (parts.shown part.entry))) }
{
    match part {
        Part::Value(value) => poll_list(alloc, live, value),
        Part::Byte(_) => Ok(Row::Traps),
        Part::Missing => Ok(Row::Traps),
    }
}

/// The row of a function of wasi:io/poll.
pub fn poll_row(
    alloc: Global,
    live: &LiveHandles,
    function: &str,
    args: &Values,
) -> Result<Row, NoMemory>
    ensures row { IfOk result (λ row. (f : Forest) (v : View) → v.content ≡ content_of (live_in f live.now.handles) → shown f row ≡ found poll_rows function.now v (plain_values args.now)) }
    ensures inside { IfOk result (λ row. (nodes : ℕ) → row_inside nodes row ≡ true) }
{
    if "[method]pollable.ready" == function {
        Ok(ready())
    } else if "[method]pollable.block" == function {
        Ok(block())
    } else if "poll" == function {
        poll_part(alloc, live, part_at(args, 0))
    } else {
        Ok(Row::Traps)
    }
}
