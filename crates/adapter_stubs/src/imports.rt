//! What the stubs module imports: the memory and realloc of the state module, what makes handles of each kind, and the functions of the
//! host that stubs ask.

ghost use Rattle.std.specs.Prelude.{◌≡◌, ◌+◌, ◌<◌, ◌≤◌, ◌^◌, ◌++◌, ◌∷◌, [], length, IfOk, OnOk};
ghost use Rattle.adapter_code.specs.Layout.{Fits};
ghost use Rattle.adapter_state.specs.State.{each_kind};
ghost use Rattle.adapter_stubs.specs.Stubs.{new_import, new_call, worlds, new_calls, host_import, host_imports, asked, memory_import, realloc_import};

use crate::stub::{HostFunc, Stub};
use adapter_code::Layout;
use adapter_compile::Calls;
use adapter_state::Presence;
use std::alloc::Global;
use virt_base::{Items, NoMemory, Text};
use wasm_ast::{Import, ImportItem, Limits};

/// The memory, and realloc.
pub fn state_imports(alloc: Global, layout: &Layout) -> Result<Items<Import>, NoMemory>
    requires { Fits layout.now }
    ensures { IfOk result (λ list. list ≡ memory_import layout.now ∷ realloc_import ∷ []) }
{
    let pages = layout.pages();
    let memory = Import {
        module: Text::from_str(alloc, "state")?,
        name: Text::from_str(alloc, "memory")?,
        item: ImportItem::Memory(Limits {
            min: pages,
            max: Some(pages),
        }),
    };
    let realloc = Import {
        module: Text::from_str(alloc, "state")?,
        name: Text::from_str(alloc, "realloc")?,
        item: ImportItem::Func(1),
    };
    Ok(Items::new(vec![in alloc; memory, realloc]?))
}

/// Adds what makes handles of the kinds of the world, in the order of these.
pub fn put_new_imports(
    alloc: Global,
    list: &mut Items<Import>,
    kinds: &[Presence],
) -> Result<(), NoMemory>
    requires { length kinds.now ≤ 14 }
    ensures { OnOk result (list.new ≡ list.old ++ each_kind new_import 0 kinds.now) }
{
    let mut kind = 0;
    for presence in kinds {
        put_new(alloc, list, kind, *presence)?;
        kind += 1;
    }
    Ok(())
}

fn put_new(
    alloc: Global,
    list: &mut Items<Import>,
    kind: u8,
    presence: Presence,
) -> Result<(), NoMemory>
    ensures { OnOk result (list.new ≡ list.old ++ new_import kind presence) }
{
    match presence {
        Presence::Own | Presence::Host => list.push(Import {
            module: Text::from_str(alloc, "host")?,
            name: Text::from_string(format!(in alloc; "new-{kind}")?),
            item: ImportItem::Func(2),
        }),
        Presence::Absent => Ok(()),
    }
}

/// The index of each kind's function, where the first of them has this one.
pub fn new_indexes(alloc: Global, kinds: &[Presence], first: u32) -> Result<Calls, NoMemory>
    requires { first + length kinds.now < 2 ^ 32 }
    ensures { IfOk result (λ calls. calls ≡ new_calls first kinds.now) }
{
    let mut calls = Items::empty(alloc);
    let mut at = first;
    for presence in kinds {
        calls.push(call_of(*presence, at))?;
        at += worlds_in(*presence);
    }
    Ok(calls)
}

fn call_of(presence: Presence, at: u32) -> Option<u32>
    ensures { result ≡ new_call at presence }
{
    match presence {
        Presence::Own | Presence::Host => Some(at),
        Presence::Absent => None,
    }
}

fn worlds_in(presence: Presence) -> u32
    ensures value { result ≡ worlds presence }
    ensures few { result ≤ 1 }
{
    match presence {
        Presence::Own | Presence::Host => 1,
        Presence::Absent => 0,
    }
}

/// Adds the host's functions that stubs ask, in the order of these; the first type has index 3.
pub fn put_host_imports(
    alloc: Global,
    list: &mut Items<Import>,
    stubs: &[Stub],
) -> Result<(), NoMemory>
    requires { length stubs.now < 2 ^ 30 }
    ensures { OnOk result (list.new ≡ list.old ++ host_imports 3 stubs.now) }
{
    let mut ty = 3;
    for stub in stubs {
        put_host(alloc, list, ty, &stub.host)?;
        ty += asks(&stub.host);
    }
    Ok(())
}

fn put_host(
    alloc: Global,
    list: &mut Items<Import>,
    ty: u32,
    host: &Option<HostFunc>,
) -> Result<(), NoMemory>
    ensures { OnOk result (list.new ≡ list.old ++ host_import ty host.now) }
{
    match host {
        Some(host) => {
            let function = host.function;
            list.push(Import {
                module: Text::from_str(alloc, "host")?,
                name: Text::from_string(format!(in alloc; "{function}")?),
                item: ImportItem::Func(ty),
            })
        }
        None => Ok(()),
    }
}

/// How many functions of the host a stub asks.
pub fn asks(host: &Option<HostFunc>) -> u32
    ensures value { result ≡ asked host.now }
    ensures few { result ≤ 1 }
{
    match host {
        Some(_) => 1,
        None => 0,
    }
}
