//! The index spaces of a module together, as the checks of code take them. Their lists are made in `collect`.

ghost use Rattle.std.specs.Prelude.{◌≡◌, IfOk, false, replicate};
ghost use Rattle.core_body.specs.Views.{context_at};
ghost use Rattle.core_validate.specs.Spaces.{context, marked, declared_functions};
ghost use Rattle.core_validate.specs.Views.{IsOf};

use crate::collect::{
    add_globals, element_types, functions, imported_globals, imported_memories, tables,
};
use crate::marks::mark_declared;
use core_body::{Spaces, TypeLists};
use std::alloc::Global as Heap;
use virt_base::NoMemory;
use wasm_ast::{GlobalType, Limits, Module, RefType, TableType};

/// The index spaces of a module.
#[derive(Drop)]
pub struct Found {
    pub functions: Vec<u32>,
    pub tables: Vec<TableType>,
    pub memories: Vec<Limits>,
    pub imported_memories: usize,
    pub globals: Vec<GlobalType>,
    pub imported_globals: usize,
    pub elements: Vec<RefType>,
    pub refs: Vec<bool>,
}

fn declared(alloc: Heap, functions: usize, core: &Module) -> Result<Vec<bool>, NoMemory>
    ensures { IfOk result (λ marks. marks.items ≡ marked (declared_functions core.now) (replicate functions false)) }
{
    let mut marks = Vec::from_elem(alloc, false, functions)?;
    mark_declared(&mut marks, core);
    Ok(marks)
}

/// The index spaces of the module.
pub fn find(alloc: Heap, core: &Module) -> Result<Found, NoMemory>
    ensures { IfOk result (IsOf core.now) }
{
    let functions = functions(alloc, core)?;
    let mut memories = imported_memories(alloc, core.imports.as_slice())?;
    let imported_memories = memories.len();
    memories.extend_from_slice(core.memories.as_slice())?;
    let mut globals = imported_globals(alloc, core.imports.as_slice())?;
    let imported_globals = globals.len();
    add_globals(&mut globals, core.globals.as_slice())?;
    let refs = declared(alloc, functions.len(), core)?;
    Ok(Found {
        functions,
        tables: tables(alloc, core)?,
        memories,
        imported_memories,
        globals,
        imported_globals,
        elements: element_types(alloc, core.elements.as_slice())?,
        refs,
    })
}

/// The function types of the module.
pub fn type_lists<'a>(alloc: Heap, core: &'a Module) -> Result<TypeLists<'a>, NoMemory>
    ensures { IfOk result (λ lists. lists ≡ core.now.types) }
{
    TypeLists::new(alloc, core.types.as_slice())
}

/// The index spaces, as the checks of code want them.
pub fn lend<'a>(found: &'a Found, types: &'a TypeLists<'a>, core: &'a Module) -> Spaces<'a>
    requires of { IsOf core.now found.now }
    requires types { types.now ≡ core.now.types }
    ensures { context_at result ≡ context core.now }
{
    Spaces {
        types,
        functions: found.functions.as_slice(),
        tables: found.tables.as_slice(),
        memories: found.memories.len(),
        globals: found.globals.as_slice(),
        imported_globals: found.imported_globals,
        elements: found.elements.as_slice(),
        data_count: core.data_count,
        refs: found.refs.as_slice(),
    }
}
