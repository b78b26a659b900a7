//! Readers of what the sections of a core module list: imports, exports, globals, bodies, element and data segments (core WebAssembly,
//! Binary Format, "Modules").

ghost use Rattle.std.specs.Prelude.{◌≡◌, ◌<◌};
ghost use Rattle.virt_base.specs.Place.{place};
ghost use Rattle.wasm_format.specs.Format.{Format, sized, anything};
ghost use Rattle.wasm_format.specs.Reads.{Reads};
ghost use Rattle.wasm_ast.specs.Items.{import_item, import, export_item, export, global, local_run, body, kind_and_funcs, low_elements, high_elements, elements, segment};

use crate::instrs::{ConstExprReader, ExprReader};
use crate::select_lists::SelectLists;
use crate::types::{
    CoreTypeReader, GlobalTypeReader, LimitsReader, RefTypeReader, TableTypeReader, lacks,
};
use std::alloc::Global;
use virt_base::{Cursor, next_byte};
use wasm_ast::{
    Body, Data, Elements, Export, ExportItem, Few, Import, ImportItem, Indexes, LocalRun,
};
use wasm_format::{ByteLists, Names, Reader, Stop, U32, Vecs, expect_tag};

/// What an import is.
#[derive(Clone, Copy)]
struct ImportItemReader;

impl Reader for ImportItemReader {
    type Value = ImportItem;

    ghost format = { λ _. import_item };

    #[tactic(auto, unfolding(wasm_ast::specs::Items::import_item))]
    fn read(&self, alloc: Global, c: &mut Cursor<'_>) -> Result<ImportItem, Stop> {
        match next_byte(c) {
            None => Err(Stop::Malformed),
            Some(0) => Ok(ImportItem::Func(U32.read(alloc, c)?)),
            Some(1) => Ok(ImportItem::Table(TableTypeReader.read(alloc, c)?)),
            Some(2) => Ok(ImportItem::Memory(LimitsReader.read(alloc, c)?)),
            Some(3) => Ok(ImportItem::Global(GlobalTypeReader.read(alloc, c)?)),
            Some(byte) => Err(lacks(c, byte)),
        }
    }
}

/// Imports.
#[derive(Clone, Copy)]
pub struct ImportReader;

impl Reader for ImportReader {
    type Value = Import;

    ghost format = { λ _. import };

    #[tactic(auto, unfolding(wasm_ast::specs::Items::import))]
    fn read(&self, alloc: Global, c: &mut Cursor<'_>) -> Result<Import, Stop> {
        let module = Names.read(alloc, c)?;
        let name = Names.read(alloc, c)?;
        let item = ImportItemReader.read(alloc, c)?;
        Ok(Import { module, name, item })
    }
}

/// What an export is.
#[derive(Clone, Copy)]
struct ExportItemReader;

impl Reader for ExportItemReader {
    type Value = ExportItem;

    ghost format = { λ _. export_item };

    #[tactic(auto, unfolding(wasm_ast::specs::Items::export_item))]
    fn read(&self, alloc: Global, c: &mut Cursor<'_>) -> Result<ExportItem, Stop> {
        match next_byte(c) {
            None => Err(Stop::Malformed),
            Some(0) => Ok(ExportItem::Func(U32.read(alloc, c)?)),
            Some(1) => Ok(ExportItem::Table(U32.read(alloc, c)?)),
            Some(2) => Ok(ExportItem::Memory(U32.read(alloc, c)?)),
            Some(3) => Ok(ExportItem::Global(U32.read(alloc, c)?)),
            Some(byte) => Err(lacks(c, byte)),
        }
    }
}

/// Exports.
#[derive(Clone, Copy)]
pub struct ExportReader;

impl Reader for ExportReader {
    type Value = Export;

    ghost format = { λ _. export };

    #[tactic(auto, unfolding(wasm_ast::specs::Items::export))]
    fn read(&self, alloc: Global, c: &mut Cursor<'_>) -> Result<Export, Stop> {
        let name = Names.read(alloc, c)?;
        let item = ExportItemReader.read(alloc, c)?;
        Ok(Export { name, item })
    }
}

/// Globals.
#[derive(Clone, Copy)]
pub struct GlobalReader<'a>(pub &'a SelectLists);

impl<'a> Reader for GlobalReader<'a> {
    type Value = wasm_ast::Global;

    ghost format = { λ _. global };

    #[tactic(auto, unfolding(wasm_ast::specs::Items::global))]
    fn read(&self, alloc: Global, c: &mut Cursor<'_>) -> Result<wasm_ast::Global, Stop> {
        let ty = GlobalTypeReader.read(alloc, c)?;
        let init = ConstExprReader(self.0).read(alloc, c)?;
        Ok(wasm_ast::Global { ty, init })
    }
}

/// Runs of locals, which are never written out.
#[derive(Clone, Copy)]
struct LocalRunReader;

impl Reader for LocalRunReader {
    type Value = LocalRun;

    ghost format = { λ _. local_run };

    #[tactic(auto, unfolding(wasm_ast::specs::Items::local_run))]
    fn read(&self, alloc: Global, c: &mut Cursor<'_>) -> Result<LocalRun, Stop> {
        let count = U32.read(alloc, c)?;
        let ty = CoreTypeReader.read(alloc, c)?;
        Ok(LocalRun { count, ty })
    }
}

/// Bodies of functions.
#[derive(Clone, Copy)]
pub struct BodyReader<'a>(pub &'a SelectLists);

impl<'a> Reader for BodyReader<'a> {
    type Value = Body;

    ghost format = { λ _. body };

    #[tactic(auto, unfolding(wasm_ast::specs::Items::body))]
    fn read(&self, alloc: Global, c: &mut Cursor<'_>) -> Result<Body, Stop> {
        let locals = Vecs(LocalRunReader).read(alloc, c)?;
        let code = ExprReader(self.0).read(alloc, c)?;
        Ok(Body { locals, code })
    }
}

#[tactic(auto, unfolding(wasm_ast::specs::Items::kind_and_funcs))]
fn kind_and_funcs(alloc: Global, c: &mut Cursor<'_>) -> Result<Indexes, Stop>
    ensures input { c.new.bytes ≡ c.old.bytes }
    ensures value { Reads result c.new (kind_and_funcs.read (place c.old)) }
{
    expect_tag(c, 0)?;
    Vecs(U32).read(alloc, c)
}

/// An element segment of functions, whose kind was taken.
#[tactic(auto, unfolding(wasm_ast::specs::Items::low_elements))]
fn low_elements(
    expr: ConstExprReader<'_>,
    alloc: Global,
    c: &mut Cursor<'_>,
    kind: u8,
) -> Result<Elements, Stop>
    requires { 0 < c.old.at }
    ensures input { c.new.bytes ≡ c.old.bytes }
    ensures value { Reads result c.new ((low_elements kind).read (place c.old)) }
{
    match kind {
        0 => {
            let offset = expr.read(alloc, c)?;
            let funcs = Vecs(U32).read(alloc, c)?;
            Ok(Elements::ActiveFuncs { offset, funcs })
        }
        1 => {
            let funcs = kind_and_funcs(alloc, c)?;
            Ok(Elements::PassiveFuncs { funcs })
        }
        2 => {
            let table = U32.read(alloc, c)?;
            let offset = expr.read(alloc, c)?;
            let funcs = kind_and_funcs(alloc, c)?;
            Ok(Elements::ActiveFuncsAt {
                table,
                offset,
                funcs,
            })
        }
        3 => {
            let funcs = kind_and_funcs(alloc, c)?;
            Ok(Elements::DeclaredFuncs { funcs })
        }
        _ => Err(lacks(c, kind)),
    }
}

/// An element segment of expressions, whose kind was taken.
#[tactic(auto, unfolding(wasm_ast::specs::Items::high_elements))]
fn high_elements(
    expr: ConstExprReader<'_>,
    alloc: Global,
    c: &mut Cursor<'_>,
    kind: u8,
) -> Result<Elements, Stop>
    requires { 0 < c.old.at }
    ensures input { c.new.bytes ≡ c.old.bytes }
    ensures value { Reads result c.new ((high_elements kind).read (place c.old)) }
{
    match kind {
        4 => {
            let offset = expr.read(alloc, c)?;
            let exprs = Vecs(expr).read(alloc, c)?;
            Ok(Elements::ActiveExprs { offset, exprs })
        }
        5 => {
            let ty = RefTypeReader.read(alloc, c)?;
            let exprs = Vecs(expr).read(alloc, c)?;
            Ok(Elements::PassiveExprs { ty, exprs })
        }
        6 => {
            let table = U32.read(alloc, c)?;
            let offset = expr.read(alloc, c)?;
            let ty = RefTypeReader.read(alloc, c)?;
            let exprs = Vecs(expr).read(alloc, c)?;
            Ok(Elements::ActiveExprsAt {
                table,
                offset,
                ty,
                exprs,
            })
        }
        7 => {
            let ty = RefTypeReader.read(alloc, c)?;
            let exprs = Vecs(expr).read(alloc, c)?;
            Ok(Elements::DeclaredExprs { ty, exprs })
        }
        _ => Err(lacks(c, kind)),
    }
}

/// Element segments.
#[derive(Clone, Copy)]
pub struct ElementsReader<'a>(pub &'a SelectLists);

impl<'a> Reader for ElementsReader<'a> {
    type Value = Elements;

    ghost format = { λ _. elements };

    #[tactic(auto, unfolding(wasm_ast::specs::Items::elements))]
    fn read(&self, alloc: Global, c: &mut Cursor<'_>) -> Result<Elements, Stop> {
        match next_byte(c) {
            None => Err(Stop::Malformed),
            Some(kind) => {
                if kind < 4 {
                    low_elements(ConstExprReader(self.0), alloc, c, kind)
                } else {
                    high_elements(ConstExprReader(self.0), alloc, c, kind)
                }
            }
        }
    }
}

/// The bytes of data segments.
#[derive(Clone, Copy)]
struct FewBytesReader;

impl Reader for FewBytesReader {
    type Value = Few<u8>;

    ghost format = { λ _. sized anything };

    fn read(&self, alloc: Global, c: &mut Cursor<'_>) -> Result<Few<u8>, Stop> {
        let bytes = ByteLists.read(alloc, c)?;
        Ok(Few::new(alloc, bytes)?)
    }
}

/// Data segments.
#[derive(Clone, Copy)]
pub struct DataReader<'a>(pub &'a SelectLists);

impl<'a> Reader for DataReader<'a> {
    type Value = Data;

    ghost format = { λ _. segment };

    #[tactic(auto, unfolding(wasm_ast::specs::Items::segment))]
    fn read(&self, alloc: Global, c: &mut Cursor<'_>) -> Result<Data, Stop> {
        match next_byte(c) {
            None => Err(Stop::Malformed),
            Some(0) => {
                let offset = ConstExprReader(self.0).read(alloc, c)?;
                let bytes = FewBytesReader.read(alloc, c)?;
                Ok(Data::Active { offset, bytes })
            }
            Some(1) => Ok(Data::Passive {
                bytes: FewBytesReader.read(alloc, c)?,
            }),
            Some(2) => {
                let memory = U32.read(alloc, c)?;
                let offset = ConstExprReader(self.0).read(alloc, c)?;
                let bytes = FewBytesReader.read(alloc, c)?;
                Ok(Data::ActiveAt {
                    memory,
                    offset,
                    bytes,
                })
            }
            Some(byte) => Err(lacks(c, byte)),
        }
    }
}
