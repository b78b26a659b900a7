//! What each function adds to the lists of the generated component, and its code.

ghost use Rattle.std.specs.Prelude.{◌≡◌, ◌≤◌, ◌+◌, ◌++◌, IfOk, OnOk};
ghost use Rattle.generated.specs.Bytes.{number, each, list, sized};
ghost use Rattle.generated.specs.Generated.{body, function_name, item_of, random_added, random_calls};

use crate::part::Part;
use crate::put::put_sized;
use std::alloc::Global;
use virt_base::{NoMemory, write_u32};
use wasm_format::put_bytes;

/// How often a function asks for a random number.
pub fn random_calls(i: u32) -> u32
    ensures value { result ≡ random_calls i }
    ensures few { result ≤ 3 }
{
    i % 3 + 1
}

/// Adds a function's name after its length.
fn put_name(alloc: Global, out: &mut Vec<u8>, i: u32) -> Result<(), NoMemory>
    ensures { OnOk result (out.new.items ≡ out.old.items ++ sized (function_name i)) }
{
    let name = format!(in alloc; "f{i}")?;
    put_sized(alloc, out, name.as_bytes())
}

/// Adds a function's number among those of the core module, or of the component: two are imported before.
fn put_index(alloc: Global, out: &mut Vec<u8>, i: u32) -> Result<(), NoMemory>
    ensures { OnOk result (out.new.items ≡ out.old.items ++ number (i + 2)) }
{
    match i.checked_add(2) {
        Some(index) => write_u32(alloc, out, index),
        None => Err(NoMemory),
    }
}

/// A function's code.
fn body(alloc: Global, i: u32) -> Result<Vec<u8>, NoMemory>
    ensures { IfOk result (λ out. out.items ≡ body i) }
{
    let mut out = Vec::new(alloc);
    put_bytes(alloc, &mut out, [0, 0x10, 0].as_slice())?;
    for _ in 0..random_calls(i) {
        put_bytes(alloc, &mut out, [0x10, 1, 0x7C].as_slice())?;
    }
    put_bytes(alloc, &mut out, [0x0B].as_slice())?;
    Ok(out)
}

/// A function's item in a list.
fn item_of(alloc: Global, part: Part, i: u32) -> Result<Vec<u8>, NoMemory>
    ensures { IfOk result (λ out. out.items ≡ item_of part i) }
{
    let mut out = Vec::new(alloc);
    match part {
        Part::Functions => put_bytes(alloc, &mut out, [0].as_slice())?,
        Part::CoreExports => {
            put_name(alloc, &mut out, i)?;
            put_bytes(alloc, &mut out, [0].as_slice())?;
            put_index(alloc, &mut out, i)?;
        }
        Part::Bodies => {
            let body = body(alloc, i)?;
            put_sized(alloc, &mut out, body.as_slice())?;
        }
        Part::Aliases => {
            put_bytes(alloc, &mut out, [0, 0, 1, 1].as_slice())?;
            put_name(alloc, &mut out, i)?;
        }
        Part::Lifts => {
            put_bytes(alloc, &mut out, [0, 0].as_slice())?;
            put_index(alloc, &mut out, i)?;
            put_bytes(alloc, &mut out, [0, 2].as_slice())?;
        }
        Part::Exports => {
            put_bytes(alloc, &mut out, [0].as_slice())?;
            put_name(alloc, &mut out, i)?;
            put_bytes(alloc, &mut out, [1].as_slice())?;
            put_index(alloc, &mut out, i)?;
            put_bytes(alloc, &mut out, [0].as_slice())?;
        }
    }
    Ok(out)
}

/// The items of that many functions after their count.
pub fn list_of(alloc: Global, part: Part, functions: u32) -> Result<Vec<u8>, NoMemory>
    ensures { IfOk result (λ out. out.items ≡ list (item_of part) functions) }
{
    let mut out = Vec::new(alloc);
    write_u32(alloc, &mut out, functions)?;
    for i in 0..functions {
        let item = item_of(alloc, part, i)?;
        put_bytes(alloc, &mut out, item.as_slice())?;
    }
    Ok(out)
}
