//! Core modules from their parts: the functions that a module defines are exported in order, each by its name.

ghost use Rattle.std.specs.Prelude.{◌≡◌, ◌+◌, ◌<◌, ◌^◌, length, IfOk};
ghost use Rattle.adapter_transfer.specs.Module.{module_of};

use std::alloc::Global;
use virt_base::{Items, NoMemory, Text};
use wasm_ast::{
    Body, CoreFunc, Data, Export, ExportItem, Global as GlobalItem, Import, Lean, Limits, Module,
};

/// A function that a module defines and exports: its name, the index of its type, and its body.
#[derive(Debug, Drop)]
pub struct Defined {
    pub name: Text,
    pub ty: u32,
    pub body: Body,
}

/// What a module has besides its functions, and how many functions it imports.
#[derive(Debug, Drop)]
pub struct Parts {
    pub types: Items<CoreFunc>,
    pub imports: Items<Import>,
    pub imported: u32,
    pub memories: Items<Limits>,
    pub globals: Items<GlobalItem>,
    /// The exports in front of those of the functions.
    pub exports: Items<Export>,
    pub segments: Items<Data>,
}

/// The module of these parts and functions, each of which is exported.
pub fn assemble(alloc: Global, parts: Parts, defined: Vec<Defined>) -> Result<Module, NoMemory>
    requires { parts.imported + length defined.items < 2 ^ 32 }
    ensures { IfOk result (λ m. m ≡ module_of parts defined.items) }
{
    let Parts {
        types,
        imports,
        imported,
        memories,
        globals,
        mut exports,
        segments,
    } = parts;
    let mut functions = Items::empty(alloc);
    let mut code = Items::empty(alloc);
    let mut at = imported;
    for Defined { name, ty, body } in defined {
        let item = ExportItem::Func(at);
        functions.push(ty)?;
        exports.push(Export { name, item })?;
        code.push(body)?;
        at += 1;
    }
    Ok(Module {
        types: Lean::new(alloc, types)?,
        imports: Lean::new(alloc, imports)?,
        functions: Lean::new(alloc, functions)?,
        tables: Lean::empty(),
        memories: Lean::new(alloc, memories)?,
        globals: Lean::new(alloc, globals)?,
        exports: Lean::new(alloc, exports)?,
        start: None,
        elements: Lean::empty(),
        data_count: None,
        code: Lean::new(alloc, code)?,
        segments: Lean::new(alloc, segments)?,
    })
}
