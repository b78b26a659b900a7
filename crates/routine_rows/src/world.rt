//! An instance of the state module, and one of the stubs module over it.

ghost use Rattle.std.specs.Prelude.{◌<◌, IfOk, OnOk, length};
ghost use Rattle.std.specs.List.{All};
ghost use Rattle.core_store.specs.Scene.{scene_of};
ghost use Rattle.core_store.specs.Fine.{IsFine};
ghost use Rattle.core_instance.specs.Spaces.{IsThere};
ghost use Rattle.core_instance.specs.Matching.{HasCounts};
ghost use Rattle.core_instance.specs.Exported.{AreGiven};
ghost use Rattle.core_validate.specs.Typed.{type_of};
ghost use Rattle.core_validate.specs.Validity.{IsValidModule};
ghost use Rattle.routine_rows.specs.Somewhere.{AreSomewhere};

use crate::calls::{Ran, call, unanswered};
use crate::reading::values;
use crate::stubs::{narrow, stubs};
use adapter_bytes::{Emitted, Routines, emit};
use adapter_code::Layout;
use adapter_state::Presence;
use core_instance::{CoreInstance, Extern, Externs, imports_match, instantiate};
use core_interp::CoreValues;
use core_store::{Shared, Store, StoreFunc, add_function, functions};
use std::alloc::Global;
use std::test::Fail;
use virt_base::{Items, NoMemory, copy_bytes};
use wasm_ast::{CoreFunc, Module};

/// Two kinds: one that the host has, and one of the adapter's alone.
const KINDS: [Presence; 2] = [Presence::Host, Presence::Own];

/// Two places a kind, in tables of 40 bytes from 256 on; four bytes of static data at 816; an area from 824 to 856.
const LAYOUT: Layout = Layout {
    slots: 2,
    image_len: 4,
    spare: 0,
    transfer: 32,
};

/// The numbers of the embedder's functions that make handles of a kind, that drop those of kind 0, and that are asked.
const MAKES: u32 = 100;

const DROPS: u32 = 200;

const ASKED: u32 = 300;

/// Both modules in one store. What is large is boxed, since each function that owns it as it is costs its check ten seconds more.
#[derive(Drop)]
pub struct World {
    pub store: Box<Store>,
    state: CoreInstance,
    stubs: CoreInstance,
}

/// Adds a function of the embedder.
fn outside(alloc: Global, store: &mut Store, ty: CoreFunc, number: u32) -> Result<u32, NoMemory>
    requires { IsFine (scene_of store.old) }
    ensures { IfOk result (λ _. IsFine (scene_of store.new)) }
{
    let ty = Shared::new(alloc, ty)?;
    let at = add_function(alloc, store, StoreFunc::Outside { ty, number })?;
    Ok(at)
}

/// Makes an instance of a module.
fn instance_of(
    alloc: Global,
    store: &mut Store,
    module: &Module,
    imports: &Externs,
) -> Result<CoreInstance, Fail>
    requires valid { IsValidModule «module».now }
    requires counts { HasCounts «module».now }
    requires imports { All (IsThere store.old) imports.now }
    requires fine { IsFine (scene_of store.old) }
    ensures fine { IfOk result (λ _. IsFine (scene_of store.new)) }
    ensures given { IfOk result (λ instance. AreGiven store.new (type_of «module».now).exports instance.exports) }
{
    if !imports_match(store, module, imports) {
        return Err(Fail::from("the imports do not match"));
    }
    match instantiate(alloc, store, module, imports) {
        Ok(instance) => Ok(instance),
        Err(_) => Err(Fail::from("a segment traps")),
    }
}

/// The memory that is an instance's first export.
fn first_memory(store: &Store, instance: &CoreInstance) -> Result<u32, Fail>
    requires { AreSomewhere store.now instance.now.exports }
    ensures { IfOk result (λ at. at < length store.now.memories) }
{
    let _store = store;
    match instance.exports.as_slice() {
        [first, ..] => match first.item {
            Extern::Memory(at) => Ok(at),
            _ => Err(Fail::from("the first export is no memory")),
        },
        [] => Err(Fail::from("nothing is exported")),
    }
}

/// The function that an instance exports under a name, if there is one.
fn export_of(instance: &CoreInstance, name: &str) -> Option<u32> {
    for export in instance.exports.as_slice() {
        if export.name.as_str() == name {
            if let Extern::Func(at) = export.item {
                return Some(at);
            }
        }
    }
    None
}

fn exported(instance: &CoreInstance, name: &str) -> Result<u32, Fail> {
    match export_of(instance, name) {
        Some(at) => Ok(at),
        None => Err(Fail::from("no function of this name")),
    }
}

/// Adds a function of the store to imports.
fn import(store: &Store, imports: &mut Externs, at: u32) -> Result<(), Fail>
    requires { All (IsThere store.now) imports.old }
    ensures { OnOk result (All (IsThere store.now) imports.new) }
{
    if at >= functions(store) {
        return Err(Fail::from("no such function"));
    }
    imports.push(Extern::Func(at))?;
    Ok(())
}

/// Both modules of the stubs of these lines.
fn emitted(alloc: Global, lines: &str) -> Result<Box<Emitted>, Fail>
    ensures valid { IfOk result (λ e. IsValidModule e.value.state) }
    ensures counts { IfOk result (λ e. HasCounts e.value.state) }
    ensures valid_stubs { IfOk result (λ e. IsValidModule e.value.stubs) }
    ensures counts_stubs { IfOk result (λ e. HasCounts e.value.stubs) }
{
    let routines = Routines {
        stubs: stubs(alloc, lines)?,
        kinds: Vec::from_slice(alloc, &KINDS)?,
        image: copy_bytes(alloc, &[1, 2, 3, 4])?,
        layout: LAYOUT,
    };
    let emitted = emit(alloc, &routines)?;
    Ok(Box::new(alloc, emitted)?)
}

/// The functions of the embedder, by their places.
#[derive(Clone, Copy)]
struct Hosts {
    drops: u32,
    makes: u32,
    others: u32,
    asked: u32,
}

fn add_hosts(alloc: Global, store: &mut Store) -> Result<Hosts, NoMemory>
    requires { IsFine (scene_of store.old) }
    ensures { IfOk result (λ _. IsFine (scene_of store.new)) }
{
    let drops = outside(alloc, store, narrow(alloc, 1, 0)?, DROPS)?;
    let makes = outside(alloc, store, narrow(alloc, 1, 1)?, MAKES)?;
    let others = outside(alloc, store, narrow(alloc, 1, 1)?, MAKES + 1)?;
    let asked = outside(alloc, store, narrow(alloc, 2, 1)?, ASKED)?;
    Ok(Hosts {
        drops,
        makes,
        others,
        asked,
    })
}

fn state_of(
    alloc: Global,
    store: &mut Store,
    module: &Module,
    hosts: Hosts,
) -> Result<CoreInstance, Fail>
    requires valid { IsValidModule «module».now }
    requires counts { HasCounts «module».now }
    requires fine { IsFine (scene_of store.old) }
    ensures fine { IfOk result (λ _. IsFine (scene_of store.new)) }
    ensures given { IfOk result (λ instance. AreGiven store.new (type_of «module».now).exports instance.exports) }
{
    let mut given = Items::empty(alloc);
    import(store, &mut given, hosts.drops)?;
    instance_of(alloc, store, module, &given)
}

/// What the stubs import: the memory and realloc of the state module, and functions of the embedder.
fn imports(
    alloc: Global,
    store: &Store,
    state: &CoreInstance,
    hosts: Hosts,
) -> Result<Externs, Fail>
    requires { AreSomewhere store.now state.now.exports }
    ensures { IfOk result (λ given. All (IsThere store.now) given) }
{
    let memory = first_memory(store, state)?;
    let mut given = Items::new(vec![in alloc; Extern::Memory(memory)]?);
    import(store, &mut given, exported(state, "realloc")?)?;
    import(store, &mut given, hosts.makes)?;
    import(store, &mut given, hosts.others)?;
    import(store, &mut given, hosts.drops)?;
    import(store, &mut given, hosts.asked)?;
    Ok(given)
}

/// Both modules of the stubs of these lines in one store. One of the stubs asks a function of the host.
pub fn world_of(alloc: Global, lines: &str) -> Result<World, Fail>
    ensures { IfOk result (λ w. IsFine (scene_of w.store.value)) }
{
    let emitted = emitted(alloc, lines)?;
    let mut store = Box::new(alloc, Store::new(alloc))?;
    let hosts = add_hosts(alloc, &mut store)?;
    let state = state_of(alloc, &mut store, &emitted.state, hosts)?;
    let given = imports(alloc, &store, &state, hosts)?;
    let stubs = instance_of(alloc, &mut store, &emitted.stubs, &given)?;
    Ok(World {
        store,
        state,
        stubs,
    })
}

/// Calls the function that one of both modules exports under a name: that of a stub by its place, or one of the state module.
pub fn call_by_name(
    alloc: Global,
    world: &mut World,
    name: &str,
    args: &str,
    answers: &[CoreValues],
) -> Result<Ran, Fail>
    requires { IsFine (scene_of world.old.store.value) }
    ensures { IfOk result (λ _. IsFine (scene_of world.new.store.value)) }
{
    let args = Items::new(values(alloc, args)?);
    match export_of(&world.stubs, name).or(export_of(&world.state, name)) {
        Some(at) => call(alloc, &mut world.store, at, &args, answers),
        None => Ok(unanswered(alloc, "none")),
    }
}
