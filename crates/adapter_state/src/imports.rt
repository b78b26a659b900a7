//! What the state module imports: for each kind that the host has, the function that drops a handle.

ghost use Rattle.std.specs.Prelude.{◌≡◌, ◌+◌, ◌<◌, ◌≤◌, ◌^◌, ◌++◌, length, IfOk, OnOk};
ghost use Rattle.adapter_state.specs.State.{each_kind, drop_import, drop_call, hosts, drop_calls};

use crate::names::drop_name;
use crate::parts::Presence;
use adapter_compile::Calls;
use std::alloc::Global;
use virt_base::{Items, NoMemory, Text};
use wasm_ast::{Import, ImportItem};

/// Adds the imports, in the order of their kinds.
pub fn put_drop_imports(
    alloc: Global,
    list: &mut Items<Import>,
    kinds: &[Presence],
) -> Result<(), NoMemory>
    requires { length kinds.now ≤ 14 }
    ensures { OnOk result (list.new ≡ list.old ++ each_kind drop_import 0 kinds.now) }
{
    let mut kind = 0;
    for presence in kinds {
        put_import(alloc, list, kind, *presence)?;
        kind += 1;
    }
    Ok(())
}

fn put_import(
    alloc: Global,
    list: &mut Items<Import>,
    kind: u8,
    presence: Presence,
) -> Result<(), NoMemory>
    ensures { OnOk result (list.new ≡ list.old ++ drop_import kind presence) }
{
    match presence {
        Presence::Host => list.push(Import {
            module: Text::from_str(alloc, "host")?,
            name: drop_name(alloc, kind)?,
            item: ImportItem::Func(0),
        }),
        Presence::Absent | Presence::Own => Ok(()),
    }
}

/// The index of each kind's function, where the first of them has this one.
pub fn drop_indexes(alloc: Global, kinds: &[Presence], first: u32) -> Result<Calls, NoMemory>
    requires { first + length kinds.now < 2 ^ 32 }
    ensures { IfOk result (λ calls. calls ≡ drop_calls first kinds.now) }
{
    let mut calls = Items::empty(alloc);
    let mut at = first;
    for presence in kinds {
        calls.push(call_of(*presence, at))?;
        at += hosts_in(*presence);
    }
    Ok(calls)
}

fn call_of(presence: Presence, at: u32) -> Option<u32>
    ensures { result ≡ drop_call at presence }
{
    match presence {
        Presence::Host => Some(at),
        Presence::Absent | Presence::Own => None,
    }
}

fn hosts_in(presence: Presence) -> u32
    ensures value { result ≡ hosts presence }
    ensures few { result ≤ 1 }
{
    match presence {
        Presence::Host => 1,
        Presence::Absent | Presence::Own => 0,
    }
}
