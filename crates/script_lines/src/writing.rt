//! Values and arguments written to a line by their types, a list value by value, so that no tree of JSON holds a long one.

#![tactic(auto, using(wit_types::proofs::PlainLemmas::plains, wit_types::proofs::ValueLemmas::values, crate::proofs::Views::views, crate::proofs::Places::counts))]

ghost use Rattle.std.specs.Prelude.{◌<◌, length, OnOk};
ghost use Rattle.wit_types.specs.Plain.{plain, fields_of};
ghost use Rattle.wit_types.specs.PlainValue.{plain_value, plain_values, byte_values};
ghost use Rattle.host_port.specs.Calls.{fields_in};
ghost use Rattle.script_lines.specs.Shown.{shown, each_shown, list_shown, text_shown, parts_shown};
ghost use Rattle.script_lines.specs.Shows.{value_count, value_at};
ghost use Rattle.script_lines.specs.Added.{AddsData, AddsItems};

use crate::showing::show_value;
use crate::trees::write_tree;
use crate::values::{count, show_nth_byte};
use json::Writer;
use std::alloc::Global;
use virt_base::NoMemory;
use wit_types::{Field, Fields, Value, Values, WitType};

fn write_text(value: &Value, out: &mut Writer) -> Result<(), NoMemory>
    ensures { OnOk result (AddsData out.old out.new (text_shown (plain_value value.now))) }
{
    match value {
        Value::Str(text) => {
            out.string(text.as_str())?;
            Ok(())
        }
        Value::Bool(_)
        | Value::Int(_)
        | Value::Char(_)
        | Value::List(_)
        | Value::Record(_)
        | Value::Variant(_, _)
        | Value::Flags(_)
        | Value::Handle(_) => {
            out.null()?;
            Ok(())
        }
    }
}

/// A value that is no text and no list goes by a tree, which takes no memory for truth values, numbers and handles.
fn write_shown(alloc: Global, ty: &WitType, value: &Value, out: &mut Writer) -> Result<(), NoMemory>
    ensures { OnOk result (AddsData out.old out.new (shown (plain ty.now) (plain_value value.now))) }
{
    let tree = show_value(alloc, ty, value)?;
    write_tree(&tree, out)?;
    Ok(())
}

fn write_nth_byte(
    ty: &WitType,
    bytes: &[u8],
    place: usize,
    out: &mut Writer,
) -> Result<(), NoMemory>
    requires { place < length bytes.now }
    ensures { OnOk result (AddsData out.old out.new (shown (plain ty.now) (value_at place (byte_values bytes.now)))) }
{
    let tree = show_nth_byte(ty, bytes, place);
    write_tree(&tree, out)?;
    Ok(())
}

/// The value at a place.
#[cycle(write_value)]
fn write_nth(
    alloc: Global,
    ty: &WitType,
    values: &Values,
    place: usize,
    out: &mut Writer,
) -> Result<(), NoMemory>
    requires { place < value_count (plain_values values.now) }
    ensures { OnOk result (AddsData out.old out.new (shown (plain ty.now) (value_at place (plain_values values.now)))) }
{
    match values {
        Values::Each(items) => write_value(alloc, ty, &items[place], out),
        Values::Bytes(bytes) => write_nth_byte(ty, bytes.as_slice(), place, out),
    }
}

/// The values of a list, and the bracket after them.
#[cycle(write_value)]
fn write_each(
    alloc: Global,
    item: &WitType,
    values: &Values,
    out: &mut Writer,
) -> Result<(), NoMemory>
    ensures { OnOk result (AddsItems out.old out.new (each_shown (λ v. shown (plain item.now) v) (plain_values values.now))) }
{
    for place in 0..count(values) {
        write_nth(alloc, item, values, place, out)?;
    }
    out.end_array()?;
    Ok(())
}

/// A list goes value by value, so that no tree holds all of them.
#[cycle(write_value)]
fn write_list(
    alloc: Global,
    item: &WitType,
    value: &Value,
    out: &mut Writer,
) -> Result<(), NoMemory>
    ensures { OnOk result (AddsData out.old out.new (list_shown (λ v. shown (plain item.now) v) (plain_value value.now))) }
{
    match value {
        Value::List(values) => {
            out.begin_array()?;
            write_each(alloc, item, values, out)?;
            Ok(())
        }
        Value::Bool(_)
        | Value::Int(_)
        | Value::Char(_)
        | Value::Str(_)
        | Value::Record(_)
        | Value::Variant(_, _)
        | Value::Flags(_)
        | Value::Handle(_) => {
            out.null()?;
            Ok(())
        }
    }
}

/// Writes a value by its type. In place of what is not of its type stands null.
#[cycle(write_value)]
pub fn write_value(
    alloc: Global,
    ty: &WitType,
    value: &Value,
    out: &mut Writer,
) -> Result<(), NoMemory>
    ensures { OnOk result (AddsData out.old out.new (shown (plain ty.now) (plain_value value.now))) }
{
    match ty {
        WitType::Str => write_text(value, out),
        WitType::List(item) => write_list(alloc, item, value, out),
        _ => write_shown(alloc, ty, value, out),
    }
}

fn write_each_arg(
    alloc: Global,
    params: &[Field],
    args: &Values,
    out: &mut Writer,
) -> Result<(), NoMemory>
    ensures { OnOk result (AddsItems out.old out.new (parts_shown (fields_of params.now) (plain_values args.now))) }
{
    let count = count(args);
    for place in 0..params.len() {
        if place >= count {
            out.end_array()?;
            return Ok(());
        }
        write_nth(alloc, &params[place].ty, args, place, out)?;
    }
    out.end_array()?;
    Ok(())
}

/// Writes arguments in order, one for each parameter, and the bracket after them.
pub fn write_args(
    alloc: Global,
    params: &Fields,
    args: &Values,
    out: &mut Writer,
) -> Result<(), NoMemory>
    ensures { OnOk result (AddsItems out.old out.new (parts_shown (fields_in params.now) (plain_values args.now))) }
{
    write_each_arg(alloc, &params.items, args, out)
}
