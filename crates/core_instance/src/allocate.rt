//! A module's items in the store (WebAssembly Core 2.0, section 4.5.3). Each call adds those of one kind, with their places.

ghost use Rattle.std.specs.Prelude.{◌≡◌, ◌++◌, ◌<◌, [], map, length, slice_index_or, IfOk, OnOk};
ghost use Rattle.std.specs.List.{All, range_with_len, flat_map};
ghost use Rattle.core_memory.specs.Linear.{fresh};
ghost use Rattle.core_store.specs.declared.value.CoreValue.TheVariants.{I32};
ghost use Rattle.core_store.specs.Table.{nulls};
ghost use Rattle.core_store.specs.State.{IsStoreValue};
ghost use Rattle.core_body.specs.Locals.{spread};
ghost use Rattle.core_validate.specs.Items.{body_type};
ghost use Rattle.core_store.specs.declared.value.StoreFunc.TheVariants.{Inside};
ghost use Rattle.core_instance.specs.Spaces.{globals_of, IsThere};
ghost use Rattle.core_instance.specs.Constants.{constant, refs_of};
ghost use Rattle.core_instance.specs.Instantiation.{IsClosed, AreNames, functions_from, bytes_of};

use crate::constants::Names;
use crate::copies::{SharedFuncs, copy_instrs, no_func, spread};
use crate::segments::bytes_of;
use core_store::{
    Code, CoreValue, Shared, Store, StoreFunc, add_elements, add_function, add_global, add_memory,
    add_segment, add_table, global_get,
};
use std::alloc::Global as Heap;
use virt_base::{Items, NoMemory};
use wasm_ast::{Body, CoreFunc, Data, Elements, Global, Indexes, Limits, Module, TableType};

/// The values of imported globals.
pub fn imported_values(
    alloc: Heap,
    store: &Store,
    globals: &[u32],
) -> Result<Items<CoreValue>, NoMemory>
    requires { All (λ at. at < length store.now.globals) globals.now }
    ensures value { IfOk result (λ values. values ≡ map (λ at. slice_index_or store.now.globals at (I32 0)) globals.now) }
    ensures names { IfOk result (λ values. All (IsStoreValue (length store.now.functions)) values) }
{
    let mut list = Vec::with_capacity(alloc, globals.len())?;
    for at in globals {
        list.push(global_get(store, *at))?;
    }
    Ok(Items::new(list))
}

/// The type of the function whose body stands at this place of the code section.
fn func_type(
    alloc: Heap,
    core: &Module,
    types: &SharedFuncs,
    index: usize,
) -> Result<Shared<CoreFunc>, NoMemory>
    requires { types.now ≡ core.now.types }
    ensures { IfOk result (λ ty. ty ≡ body_type core.now index) }
{
    match core.functions.as_slice().get(index) {
        Some(ty) => match types.as_slice().get(*ty as usize) {
            Some(func) => func.share(),
            None => Shared::new(alloc, no_func(alloc)),
        },
        None => Shared::new(alloc, no_func(alloc)),
    }
}

/// The function of a body in the instance of this number.
fn inside(
    alloc: Heap,
    core: &Module,
    types: &SharedFuncs,
    index: usize,
    instance: u32,
    body: &Body,
) -> Result<StoreFunc, NoMemory>
    requires closed { IsClosed body.now }
    requires types { types.now ≡ core.now.types }
    ensures { IfOk result (λ function. function ≡ Inside (body_type core.now index) instance (spread body.now.locals) body.now.code) }
{
    let ty = func_type(alloc, core, types, index)?;
    let locals = spread(alloc, body.locals.as_slice())?;
    let instrs = copy_instrs(alloc, &body.code)?;
    match Code::new(alloc, instrs)? {
        Some(code) => Ok(StoreFunc::Inside {
            ty,
            instance,
            locals,
            body: Shared::new(alloc, code)?,
        }),
        None => unreachable!(),
    }
}

/// Adds the functions of a module's bodies, in the instance of this number.
pub fn add_functions(
    alloc: Heap,
    store: &mut Store,
    places: &mut Indexes,
    instance: u32,
    core: &Module,
    types: &SharedFuncs,
) -> Result<(), NoMemory>
    requires closed { All IsClosed core.now.code }
    requires types { types.now ≡ core.now.types }
    ensures store { OnOk result (store.new ≡ record store.old { functions = store.old.functions ++ functions_from core.now instance 0 core.now.code }) }
    ensures places { OnOk result (places.new ≡ places.old ++ range_with_len (length store.old.functions) (length core.now.code)) }
{
    for (index, body) in core.code.as_slice().iter().enumerate() {
        let function = inside(alloc, core, types, index, instance, body)?;
        let at = add_function(alloc, store, function)?;
        places.push(at)?;
    }
    Ok(())
}

pub fn add_tables(
    alloc: Heap,
    store: &mut Store,
    places: &mut Indexes,
    tables: &[TableType],
) -> Result<(), NoMemory>
    ensures store { OnOk result (store.new ≡ record store.old { tables = store.old.tables ++ map (λ t. nulls t.limits.min t.limits.max) tables.now }) }
    ensures places { OnOk result (places.new ≡ places.old ++ range_with_len (length store.old.tables) (length tables.now)) }
{
    for table in tables {
        let at = add_table(alloc, store, table.limits.min, table.limits.max)?;
        places.push(at)?;
    }
    Ok(())
}

pub fn add_memories(
    alloc: Heap,
    store: &mut Store,
    places: &mut Indexes,
    memories: &[Limits],
) -> Result<(), NoMemory>
    ensures store { OnOk result (store.new ≡ record store.old { memories = store.old.memories ++ map (λ l. fresh l.min l.max) memories.now }) }
    ensures places { OnOk result (places.new ≡ places.old ++ range_with_len (length store.old.memories) (length memories.now)) }
{
    for limits in memories {
        let at = add_memory(alloc, store, limits.min, limits.max)?;
        places.push(at)?;
    }
    Ok(())
}

pub fn add_globals(
    alloc: Heap,
    store: &mut Store,
    places: &mut Indexes,
    names: &Names,
    globals: &[Global],
) -> Result<(), NoMemory>
    requires { AreNames (length store.old.functions) names.now }
    ensures store { OnOk result (store.new ≡ record store.old { globals = store.old.globals ++ map (λ g. constant names.now g.init) globals.now }) }
    ensures places { OnOk result (places.new ≡ places.old ++ range_with_len (length store.old.globals) (length globals.now)) }
{
    for global in globals {
        let at = add_global(alloc, store, names.constant(&global.init))?;
        places.push(at)?;
    }
    Ok(())
}

pub fn add_segments(
    alloc: Heap,
    store: &mut Store,
    places: &mut Indexes,
    segments: &[Data],
) -> Result<(), NoMemory>
    ensures store { OnOk result (store.new ≡ record store.old { segments = store.old.segments ++ map bytes_of segments.now }) }
    ensures places { OnOk result (places.new ≡ places.old ++ range_with_len (length store.old.segments) (length segments.now)) }
{
    for segment in segments {
        let at = add_segment(alloc, store, bytes_of(segment))?;
        places.push(at)?;
    }
    Ok(())
}

pub fn add_references(
    alloc: Heap,
    store: &mut Store,
    places: &mut Indexes,
    names: &Names,
    segments: &[Elements],
) -> Result<(), NoMemory>
    requires { AreNames (length store.old.functions) names.now }
    ensures store { OnOk result (store.new ≡ record store.old { elements = store.old.elements ++ map (refs_of names.now) segments.now }) }
    ensures places { OnOk result (places.new ≡ places.old ++ range_with_len (length store.old.elements) (length segments.now)) }
{
    for segment in segments {
        let refs = names.refs_of(alloc, segment)?;
        let at = add_elements(alloc, store, refs)?;
        places.push(at)?;
    }
    Ok(())
}
