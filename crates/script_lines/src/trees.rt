//! A tree of JSON is written out (RFC 8259), but for floats, which no shown value holds.

#![tactic(auto)]

ghost use Rattle.std.specs.Prelude.{◌≡◌, None, OnOk};
ghost use Rattle.serde_json.specs.Find.{as_u64};
ghost use Rattle.serde_json.specs.View.{view, number_view, items_view, members_view};
ghost use Rattle.script_lines.specs.Added.{AddsExact, AddsExactNumber, AddsExactItems, AddsExactMembers};

use json::Writer;
use serde_json::{Map, Number, Value as Json};
use std::alloc::AllocError;

/// An integer that is below zero: the others are met before.
fn write_below(number: &Number, out: &mut Writer) -> Result<(), AllocError>
    requires { as_u64 (number_view number.now) ≡ None }
    ensures { OnOk result (AddsExactNumber out.old out.new (number_view number.now)) }
{
    match number.as_i64() {
        Some(n) => {
            out.i64(n)?;
            Ok(())
        }
        None => {
            out.null()?;
            Ok(())
        }
    }
}

fn write_number(number: &Number, out: &mut Writer) -> Result<(), AllocError>
    ensures { OnOk result (AddsExactNumber out.old out.new (number_view number.now)) }
{
    match number.as_u64() {
        Some(n) => {
            out.u64(n)?;
            Ok(())
        }
        None => write_below(number, out),
    }
}

#[cycle(write_tree)]
fn write_items(items: &Vec<Json>, out: &mut Writer) -> Result<(), AllocError>
    ensures { OnOk result (AddsExactItems out.old out.new (items_view items.now.items)) }
{
    for item in items {
        write_tree(item, out)?;
    }
    out.end_array()?;
    Ok(())
}

#[cycle(write_tree)]
fn write_members(members: &Map<String, Json>, out: &mut Writer) -> Result<(), AllocError>
    ensures { OnOk result (AddsExactMembers out.old out.new (members_view members.now.entries)) }
{
    for (key, member) in members.iter() {
        out.key(key.as_str())?;
        write_tree(member, out)?;
    }
    out.end_object()?;
    Ok(())
}

/// Writes a value that holds no float.
#[cycle(write_tree)]
pub fn write_tree(tree: &Json, out: &mut Writer) -> Result<(), AllocError>
    ensures { OnOk result (AddsExact out.old out.new (view tree.now)) }
{
    match tree {
        Json::Null => {
            out.null()?;
            Ok(())
        }
        Json::Bool(truth) => {
            out.boolean(*truth)?;
            Ok(())
        }
        Json::Number(number) => write_number(number, out),
        Json::String(text) => {
            out.string(text.as_str())?;
            Ok(())
        }
        Json::Array(items) => {
            out.begin_array()?;
            write_items(items, out)?;
            Ok(())
        }
        Json::Object(members) => {
            out.begin_object()?;
            write_members(members, out)?;
            Ok(())
        }
    }
}
