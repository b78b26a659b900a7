//! The places of an instance's items in the store, by index space.

ghost use Rattle.std.specs.Prelude.{◌≡◌, ◌++◌, [], map, IfOk, OnOk};
ghost use Rattle.std.specs.Option.{option_map};
ghost use Rattle.core_instance.specs.Spaces.{functions_of, tables_of, memories_of, globals_of, place_at, extern_of, named_extern, imported_places};

use crate::copies::SharedFuncs;
use crate::external::{Extern, NamedExtern, NamedExterns};
use core_store::CoreSpaces;
use std::alloc::Global;
use virt_base::{Items, NoMemory};
use wasm_ast::{Export, ExportItem, Indexes};

fn push_function(list: &mut Indexes, item: Extern) -> Result<(), NoMemory>
    ensures { OnOk result (list.new ≡ list.old ++ functions_of item) }
{
    match item {
        Extern::Func(at) => list.push(at),
        Extern::Table(_) | Extern::Memory(_) | Extern::Global(_) => Ok(()),
    }
}

fn push_table(list: &mut Indexes, item: Extern) -> Result<(), NoMemory>
    ensures { OnOk result (list.new ≡ list.old ++ tables_of item) }
{
    match item {
        Extern::Table(at) => list.push(at),
        Extern::Func(_) | Extern::Memory(_) | Extern::Global(_) => Ok(()),
    }
}

fn push_memory(list: &mut Indexes, item: Extern) -> Result<(), NoMemory>
    ensures { OnOk result (list.new ≡ list.old ++ memories_of item) }
{
    match item {
        Extern::Memory(at) => list.push(at),
        Extern::Func(_) | Extern::Table(_) | Extern::Global(_) => Ok(()),
    }
}

fn push_global(list: &mut Indexes, item: Extern) -> Result<(), NoMemory>
    ensures { OnOk result (list.new ≡ list.old ++ globals_of item) }
{
    match item {
        Extern::Global(at) => list.push(at),
        Extern::Func(_) | Extern::Table(_) | Extern::Memory(_) => Ok(()),
    }
}

/// The places of what is imported, without function types beside them.
pub fn imported_places(alloc: Global, imports: &[Extern]) -> Result<CoreSpaces, NoMemory>
    ensures { IfOk result (λ places. places ≡ imported_places imports.now) }
{
    let mut functions = Indexes::empty(alloc);
    let mut tables = Indexes::empty(alloc);
    let mut memories = Indexes::empty(alloc);
    let mut globals = Indexes::empty(alloc);
    for item in imports {
        push_function(&mut functions, *item)?;
        push_table(&mut tables, *item)?;
        push_memory(&mut memories, *item)?;
        push_global(&mut globals, *item)?;
    }
    Ok(CoreSpaces {
        types: Items::empty(alloc),
        functions,
        tables,
        memories,
        globals,
        segments: Indexes::empty(alloc),
        elements: Indexes::empty(alloc),
    })
}

/// A copy of indexes.
pub fn copy_places(alloc: Global, places: &Indexes) -> Result<Indexes, NoMemory>
    ensures { IfOk result (λ copy. copy ≡ places.now) }
{
    Ok(Items::new(Vec::from_slice(alloc, places.as_slice())?))
}

/// The index spaces of an instance with these function types and places.
pub fn spaces_with(
    alloc: Global,
    types: SharedFuncs,
    places: &CoreSpaces,
) -> Result<CoreSpaces, NoMemory>
    ensures { IfOk result (λ spaces. spaces ≡ record places.now { types = types }) }
{
    Ok(CoreSpaces {
        types,
        functions: copy_places(alloc, &places.functions)?,
        tables: copy_places(alloc, &places.tables)?,
        memories: copy_places(alloc, &places.memories)?,
        globals: copy_places(alloc, &places.globals)?,
        segments: copy_places(alloc, &places.segments)?,
        elements: copy_places(alloc, &places.elements)?,
    })
}

fn place_at(places: &Indexes, index: u32) -> u32
    ensures { result ≡ place_at places.now index }
{
    places.as_slice().get(index as usize).copied().unwrap_or(0)
}

fn extern_of(spaces: &CoreSpaces, item: ExportItem) -> Extern
    ensures { result ≡ extern_of spaces.now item }
{
    match item {
        ExportItem::Func(index) => Extern::Func(place_at(&spaces.functions, index)),
        ExportItem::Table(index) => Extern::Table(place_at(&spaces.tables, index)),
        ExportItem::Memory(index) => Extern::Memory(place_at(&spaces.memories, index)),
        ExportItem::Global(index) => Extern::Global(place_at(&spaces.globals, index)),
    }
}

/// What a module exports.
pub fn exports_of(
    alloc: Global,
    spaces: &CoreSpaces,
    exports: &[Export],
) -> Result<NamedExterns, NoMemory>
    ensures { IfOk result (λ list. list ≡ map (named_extern spaces.now) exports.now) }
{
    let mut list = Vec::with_capacity(alloc, exports.len())?;
    for export in exports {
        let name = export.name.copy(alloc)?;
        let item = extern_of(spaces, export.item);
        list.push(NamedExtern { name, item })?;
    }
    Ok(Items::new(list))
}

/// The function that a module's start section names.
pub fn start_of(spaces: &CoreSpaces, start: Option<u32>) -> Option<u32>
    ensures { result ≡ option_map (λ n. place_at spaces.now.functions n) start }
{
    match start {
        Some(index) => Some(place_at(&spaces.functions, index)),
        None => None,
    }
}
