//! Writers of what the sections of a core module list: imports, exports, globals, bodies, element and data segments (core WebAssembly,
//! Binary Format, "Modules").

ghost use Rattle.wasm_format.specs.Format.{Format};
ghost use Rattle.wasm_ast.specs.Items.{import_item, import, export_item, export, global, local_run, body, kind_and_funcs, elements, segment};

use crate::instrs::{ConstExprWriter, ExprWriter};
use crate::lists::FewBytes;
use crate::types::{
    CoreTypeWriter, GlobalTypeWriter, LimitsWriter, RefTypeWriter, TableTypeWriter,
};
use std::alloc::Global;
use virt_base::NoMemory;
use wasm_ast::{Body, Data, Elements, Export, ExportItem, Import, ImportItem, Indexes, LocalRun};
use wasm_format::{Names, U32, Vecs, Writer, put_byte};

/// What an import is.
#[derive(Clone, Copy)]
struct ImportItemWriter;

impl Writer for ImportItemWriter {
    type Value = ImportItem;

    ghost format = { λ _. import_item };

    #[tactic(auto, unfolding(wasm_ast::specs::Items::import_item))]
    fn write(&self, alloc: Global, out: &mut Vec<u8>, value: &ImportItem) -> Result<(), NoMemory> {
        match value {
            ImportItem::Func(ty) => {
                put_byte(alloc, out, 0)?;
                U32.write(alloc, out, ty)
            }
            ImportItem::Table(ty) => {
                put_byte(alloc, out, 1)?;
                TableTypeWriter.write(alloc, out, ty)
            }
            ImportItem::Memory(limits) => {
                put_byte(alloc, out, 2)?;
                LimitsWriter.write(alloc, out, limits)
            }
            ImportItem::Global(ty) => {
                put_byte(alloc, out, 3)?;
                GlobalTypeWriter.write(alloc, out, ty)
            }
        }
    }
}

/// Imports.
#[derive(Clone, Copy)]
pub struct ImportWriter;

impl Writer for ImportWriter {
    type Value = Import;

    ghost format = { λ _. import };

    #[tactic(auto, unfolding(wasm_ast::specs::Items::import))]
    fn write(&self, alloc: Global, out: &mut Vec<u8>, value: &Import) -> Result<(), NoMemory> {
        Names.write(alloc, out, &value.module)?;
        Names.write(alloc, out, &value.name)?;
        ImportItemWriter.write(alloc, out, &value.item)
    }
}

/// What an export is.
#[derive(Clone, Copy)]
struct ExportItemWriter;

impl Writer for ExportItemWriter {
    type Value = ExportItem;

    ghost format = { λ _. export_item };

    #[tactic(auto, unfolding(wasm_ast::specs::Items::export_item))]
    fn write(&self, alloc: Global, out: &mut Vec<u8>, value: &ExportItem) -> Result<(), NoMemory> {
        match value {
            ExportItem::Func(index) => {
                put_byte(alloc, out, 0)?;
                U32.write(alloc, out, index)
            }
            ExportItem::Table(index) => {
                put_byte(alloc, out, 1)?;
                U32.write(alloc, out, index)
            }
            ExportItem::Memory(index) => {
                put_byte(alloc, out, 2)?;
                U32.write(alloc, out, index)
            }
            ExportItem::Global(index) => {
                put_byte(alloc, out, 3)?;
                U32.write(alloc, out, index)
            }
        }
    }
}

/// Exports.
#[derive(Clone, Copy)]
pub struct ExportWriter;

impl Writer for ExportWriter {
    type Value = Export;

    ghost format = { λ _. export };

    #[tactic(auto, unfolding(wasm_ast::specs::Items::export))]
    fn write(&self, alloc: Global, out: &mut Vec<u8>, value: &Export) -> Result<(), NoMemory> {
        Names.write(alloc, out, &value.name)?;
        ExportItemWriter.write(alloc, out, &value.item)
    }
}

/// Globals with their first values.
#[derive(Clone, Copy)]
pub struct GlobalWriter;

impl Writer for GlobalWriter {
    type Value = wasm_ast::Global;

    ghost format = { λ _. global };

    #[tactic(auto, unfolding(wasm_ast::specs::Items::global))]
    fn write(
        &self,
        alloc: Global,
        out: &mut Vec<u8>,
        value: &wasm_ast::Global,
    ) -> Result<(), NoMemory> {
        GlobalTypeWriter.write(alloc, out, &value.ty)?;
        ConstExprWriter.write(alloc, out, &value.init)
    }
}

/// Runs of locals.
#[derive(Clone, Copy)]
struct LocalRunWriter;

impl Writer for LocalRunWriter {
    type Value = LocalRun;

    ghost format = { λ _. local_run };

    #[tactic(auto, unfolding(wasm_ast::specs::Items::local_run))]
    fn write(&self, alloc: Global, out: &mut Vec<u8>, value: &LocalRun) -> Result<(), NoMemory> {
        U32.write(alloc, out, &value.count)?;
        CoreTypeWriter.write(alloc, out, &value.ty)
    }
}

/// Bodies of functions.
#[derive(Clone, Copy)]
pub struct BodyWriter;

impl Writer for BodyWriter {
    type Value = Body;

    ghost format = { λ _. body };

    #[tactic(auto, unfolding(wasm_ast::specs::Items::body))]
    fn write(&self, alloc: Global, out: &mut Vec<u8>, value: &Body) -> Result<(), NoMemory> {
        Vecs(LocalRunWriter).write(alloc, out, &value.locals)?;
        ExprWriter.write(alloc, out, &value.code)
    }
}

/// Functions by index, after the kind of element that only they have.
#[derive(Clone, Copy)]
struct FunctionsWriter;

impl Writer for FunctionsWriter {
    type Value = Indexes;

    ghost format = { λ _. kind_and_funcs };

    #[tactic(auto, unfolding(wasm_ast::specs::Items::kind_and_funcs))]
    fn write(&self, alloc: Global, out: &mut Vec<u8>, value: &Indexes) -> Result<(), NoMemory> {
        put_byte(alloc, out, 0)?;
        Vecs(U32).write(alloc, out, value)
    }
}

/// Element segments.
#[derive(Clone, Copy)]
pub struct ElementsWriter;

impl Writer for ElementsWriter {
    type Value = Elements;

    ghost format = { λ _. elements };

    #[tactic(auto, unfolding(wasm_ast::specs::Items::elements, wasm_ast::specs::Items::low_elements, wasm_ast::specs::Items::high_elements))]
    fn write(&self, alloc: Global, out: &mut Vec<u8>, value: &Elements) -> Result<(), NoMemory> {
        match value {
            Elements::ActiveFuncs { offset, funcs } => {
                put_byte(alloc, out, 0)?;
                ConstExprWriter.write(alloc, out, offset)?;
                Vecs(U32).write(alloc, out, funcs)
            }
            Elements::PassiveFuncs { funcs } => {
                put_byte(alloc, out, 1)?;
                FunctionsWriter.write(alloc, out, funcs)
            }
            Elements::ActiveFuncsAt {
                table,
                offset,
                funcs,
            } => {
                put_byte(alloc, out, 2)?;
                U32.write(alloc, out, table)?;
                ConstExprWriter.write(alloc, out, offset)?;
                FunctionsWriter.write(alloc, out, funcs)
            }
            Elements::DeclaredFuncs { funcs } => {
                put_byte(alloc, out, 3)?;
                FunctionsWriter.write(alloc, out, funcs)
            }
            Elements::ActiveExprs { offset, exprs } => {
                put_byte(alloc, out, 4)?;
                ConstExprWriter.write(alloc, out, offset)?;
                Vecs(ConstExprWriter).write(alloc, out, exprs)
            }
            Elements::PassiveExprs { ty, exprs } => {
                put_byte(alloc, out, 5)?;
                RefTypeWriter.write(alloc, out, ty)?;
                Vecs(ConstExprWriter).write(alloc, out, exprs)
            }
            Elements::ActiveExprsAt {
                table,
                offset,
                ty,
                exprs,
            } => {
                put_byte(alloc, out, 6)?;
                U32.write(alloc, out, table)?;
                ConstExprWriter.write(alloc, out, offset)?;
                RefTypeWriter.write(alloc, out, ty)?;
                Vecs(ConstExprWriter).write(alloc, out, exprs)
            }
            Elements::DeclaredExprs { ty, exprs } => {
                put_byte(alloc, out, 7)?;
                RefTypeWriter.write(alloc, out, ty)?;
                Vecs(ConstExprWriter).write(alloc, out, exprs)
            }
        }
    }
}

/// Data segments.
#[derive(Clone, Copy)]
pub struct DataWriter;

impl Writer for DataWriter {
    type Value = Data;

    ghost format = { λ _. segment };

    #[tactic(auto, unfolding(wasm_ast::specs::Items::segment))]
    fn write(&self, alloc: Global, out: &mut Vec<u8>, value: &Data) -> Result<(), NoMemory> {
        match value {
            Data::Active { offset, bytes } => {
                put_byte(alloc, out, 0)?;
                ConstExprWriter.write(alloc, out, offset)?;
                FewBytes.write(alloc, out, bytes)
            }
            Data::Passive { bytes } => {
                put_byte(alloc, out, 1)?;
                FewBytes.write(alloc, out, bytes)
            }
            Data::ActiveAt {
                memory,
                offset,
                bytes,
            } => {
                put_byte(alloc, out, 2)?;
                U32.write(alloc, out, memory)?;
                ConstExprWriter.write(alloc, out, offset)?;
                FewBytes.write(alloc, out, bytes)
            }
        }
    }
}
