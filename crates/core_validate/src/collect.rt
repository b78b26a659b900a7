//! The index spaces of a module, list by list.

ghost use Rattle.std.specs.Prelude.{◌≡◌, ◌++◌, length, map, OnOk, IfOk};
ghost use Rattle.core_validate.specs.Spaces.{functions_of, tables_of, memories_of, globals_of, imported_functions, imported_tables, imported_memories, imported_globals, element_type, functions, tables};

use std::alloc::Global as Heap;
use virt_base::NoMemory;
use wasm_ast::{
    Elements, Global, GlobalType, Import, ImportItem, Limits, Module, RefType, TableType,
};

fn push_function(list: &mut Vec<u32>, item: ImportItem) -> Result<(), NoMemory>
    ensures { OnOk result (list.new.items ≡ list.old.items ++ functions_of item) }
{
    match item {
        ImportItem::Func(n) => list.push(n)?,
        ImportItem::Table(_) | ImportItem::Memory(_) | ImportItem::Global(_) => {}
    }
    Ok(())
}

fn push_table(list: &mut Vec<TableType>, item: ImportItem) -> Result<(), NoMemory>
    ensures { OnOk result (list.new.items ≡ list.old.items ++ tables_of item) }
{
    match item {
        ImportItem::Table(t) => list.push(t)?,
        ImportItem::Func(_) | ImportItem::Memory(_) | ImportItem::Global(_) => {}
    }
    Ok(())
}

fn push_memory(list: &mut Vec<Limits>, item: ImportItem) -> Result<(), NoMemory>
    ensures { OnOk result (list.new.items ≡ list.old.items ++ memories_of item) }
{
    match item {
        ImportItem::Memory(l) => list.push(l)?,
        ImportItem::Func(_) | ImportItem::Table(_) | ImportItem::Global(_) => {}
    }
    Ok(())
}

fn push_global(list: &mut Vec<GlobalType>, item: ImportItem) -> Result<(), NoMemory>
    ensures { OnOk result (list.new.items ≡ list.old.items ++ globals_of item) }
{
    match item {
        ImportItem::Global(g) => list.push(g)?,
        ImportItem::Func(_) | ImportItem::Table(_) | ImportItem::Memory(_) => {}
    }
    Ok(())
}

fn imported_functions(alloc: Heap, imports: &[Import]) -> Result<Vec<u32>, NoMemory>
    ensures { IfOk result (λ list. list.items ≡ imported_functions imports.now) }
{
    let mut list = Vec::new(alloc);
    for import in imports {
        push_function(&mut list, import.item)?;
    }
    Ok(list)
}

fn imported_tables(alloc: Heap, imports: &[Import]) -> Result<Vec<TableType>, NoMemory>
    ensures { IfOk result (λ list. list.items ≡ imported_tables imports.now) }
{
    let mut list = Vec::new(alloc);
    for import in imports {
        push_table(&mut list, import.item)?;
    }
    Ok(list)
}

pub fn imported_memories(alloc: Heap, imports: &[Import]) -> Result<Vec<Limits>, NoMemory>
    ensures { IfOk result (λ list. list.items ≡ imported_memories imports.now) }
{
    let mut list = Vec::new(alloc);
    for import in imports {
        push_memory(&mut list, import.item)?;
    }
    Ok(list)
}

/// The types of the imported globals.
pub fn imported_globals(alloc: Heap, imports: &[Import]) -> Result<Vec<GlobalType>, NoMemory>
    ensures { IfOk result (λ list. list.items ≡ imported_globals imports.now) }
{
    let mut list = Vec::new(alloc);
    for import in imports {
        push_global(&mut list, import.item)?;
    }
    Ok(list)
}

/// The index of each function's type.
pub fn functions(alloc: Heap, core: &Module) -> Result<Vec<u32>, NoMemory>
    ensures { IfOk result (λ list. list.items ≡ functions core.now) }
{
    let mut list = imported_functions(alloc, core.imports.as_slice())?;
    list.extend_from_slice(core.functions.as_slice())?;
    Ok(list)
}

pub fn tables(alloc: Heap, core: &Module) -> Result<Vec<TableType>, NoMemory>
    ensures { IfOk result (λ list. list.items ≡ tables core.now) }
{
    let mut list = imported_tables(alloc, core.imports.as_slice())?;
    list.extend_from_slice(core.tables.as_slice())?;
    Ok(list)
}

/// Adds the types of defined globals after those of the imported ones.
pub fn add_globals(list: &mut Vec<GlobalType>, globals: &[Global]) -> Result<(), NoMemory>
    ensures { OnOk result (list.new.items ≡ list.old.items ++ map (λ g. g.ty) globals.now) }
{
    for global in globals {
        list.push(global.ty)?;
    }
    Ok(())
}

/// What a segment's elements are.
pub fn element_type(elements: &Elements) -> RefType
    ensures { result ≡ element_type elements.now }
{
    match elements {
        Elements::ActiveFuncs { .. }
        | Elements::PassiveFuncs { .. }
        | Elements::ActiveFuncsAt { .. }
        | Elements::DeclaredFuncs { .. }
        | Elements::ActiveExprs { .. } => RefType::Func,
        Elements::PassiveExprs { ty, .. }
        | Elements::ActiveExprsAt { ty, .. }
        | Elements::DeclaredExprs { ty, .. } => *ty,
    }
}

/// The type of each element segment.
pub fn element_types(alloc: Heap, segments: &[Elements]) -> Result<Vec<RefType>, NoMemory>
    ensures { IfOk result (λ list. list.items ≡ map element_type segments.now) }
{
    let mut list = Vec::new(alloc);
    for elements in segments {
        list.push(element_type(elements))?;
    }
    Ok(list)
}
