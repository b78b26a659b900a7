//! Readers of imports and exports, their names and sorts, and the types that they state (Component Model, Binary.md, "Import and Export
//! Definitions").

ghost use Rattle.std.specs.Prelude.{◌≡◌, ◌<◌, ◌-◌};
ghost use Rattle.virt_base.specs.Place.{place};
ghost use Rattle.wasm_format.specs.declared.stop.Stop.TheVariants.{Unsupported};
ghost use Rattle.wasm_format.specs.Format.{Format};
ghost use Rattle.wasm_format.specs.Reads.{Reads};
ghost use Rattle.wasm_ast.specs.ComponentItems.{sort, extern_name, type_bound, extern_desc, stated_desc, component_export};
ghost use Rattle.comp_grammar.specs.Items.{component_import};

use std::alloc::Global;
use virt_base::{Cursor, Text, next_byte};
use wasm_ast::{ComponentExport, ComponentImport, ExternDesc, Sort};
use wasm_format::{Names, Reader, Stop, U32};

/// The byte before the cursor is a tag that the table of its place lacks.
pub fn lacks(c: &Cursor<'_>, byte: u8) -> Stop
    requires { 0 < c.now.at }
    ensures { result ≡ Unsupported (c.now.at - 1) byte }
{
    Stop::Unsupported { at: c.at - 1, byte }
}

/// Sorts of imports, exports and arguments.
#[derive(Clone, Copy)]
pub struct SortReader;

impl Reader for SortReader {
    type Value = Sort;

    ghost format = { λ _. sort };

    #[tactic(auto, unfolding(wasm_ast::specs::ComponentItems::sort))]
    fn read(&self, _alloc: Global, c: &mut Cursor<'_>) -> Result<Sort, Stop> {
        match next_byte(c) {
            None => Err(Stop::Malformed),
            Some(1) => Ok(Sort::Func),
            Some(3) => Ok(Sort::Type),
            Some(5) => Ok(Sort::Instance),
            Some(byte) => Err(lacks(c, byte)),
        }
    }
}

/// Names of imports and exports: 00 or 01, which are read alike, and a name.
#[derive(Clone, Copy)]
pub struct ExternNames;

impl Reader for ExternNames {
    type Value = Text;

    ghost format = { λ _. extern_name };

    #[tactic(auto, unfolding(wasm_ast::specs::ComponentItems::extern_name))]
    fn read(&self, alloc: Global, c: &mut Cursor<'_>) -> Result<Text, Stop> {
        match next_byte(c) {
            None => Err(Stop::Malformed),
            Some(0) => Names.read(alloc, c),
            Some(1) => Names.read(alloc, c),
            Some(byte) => Err(lacks(c, byte)),
        }
    }
}

/// The bound of a type: another type that it equals, or none where it is a fresh resource.
#[derive(Clone, Copy)]
struct TypeBoundReader;

impl Reader for TypeBoundReader {
    type Value = ExternDesc;

    ghost format = { λ _. type_bound };

    #[tactic(auto, unfolding(wasm_ast::specs::ComponentItems::type_bound))]
    fn read(&self, alloc: Global, c: &mut Cursor<'_>) -> Result<ExternDesc, Stop> {
        match next_byte(c) {
            None => Err(Stop::Malformed),
            Some(0) => Ok(ExternDesc::TypeEq(U32.read(alloc, c)?)),
            Some(1) => Ok(ExternDesc::Resource),
            Some(byte) => Err(lacks(c, byte)),
        }
    }
}

/// What an import or an export is.
#[derive(Clone, Copy)]
pub struct DescReader;

impl Reader for DescReader {
    type Value = ExternDesc;

    ghost format = { λ _. extern_desc };

    #[tactic(auto, unfolding(wasm_ast::specs::ComponentItems::extern_desc))]
    fn read(&self, alloc: Global, c: &mut Cursor<'_>) -> Result<ExternDesc, Stop> {
        match next_byte(c) {
            None => Err(Stop::Malformed),
            Some(1) => Ok(ExternDesc::Func(U32.read(alloc, c)?)),
            Some(3) => TypeBoundReader.read(alloc, c),
            Some(5) => Ok(ExternDesc::Instance(U32.read(alloc, c)?)),
            Some(byte) => Err(lacks(c, byte)),
        }
    }
}

/// The type that an export states, if it states one.
#[derive(Clone, Copy)]
struct StatedDescReader;

impl Reader for StatedDescReader {
    type Value = Option<ExternDesc>;

    ghost format = { λ _. stated_desc };

    #[tactic(auto, unfolding(wasm_ast::specs::ComponentItems::stated_desc))]
    fn read(&self, alloc: Global, c: &mut Cursor<'_>) -> Result<Option<ExternDesc>, Stop> {
        match next_byte(c) {
            None => Err(Stop::Malformed),
            Some(0) => Ok(None),
            Some(1) => Ok(Some(DescReader.read(alloc, c)?)),
            Some(byte) => Err(lacks(c, byte)),
        }
    }
}

/// Imports of a component.
#[derive(Clone, Copy)]
pub struct ImportReader;

impl Reader for ImportReader {
    type Value = ComponentImport;

    ghost format = { λ _. component_import };

    #[tactic(auto, unfolding(comp_grammar::specs::Items::component_import))]
    fn read(&self, alloc: Global, c: &mut Cursor<'_>) -> Result<ComponentImport, Stop> {
        let name = ExternNames.read(alloc, c)?;
        let desc = DescReader.read(alloc, c)?;
        Ok(ComponentImport { name, desc })
    }
}

/// Exports of a component.
#[derive(Clone, Copy)]
pub struct ExportReader;

impl Reader for ExportReader {
    type Value = ComponentExport;

    ghost format = { λ _. component_export };

    #[tactic(auto, unfolding(wasm_ast::specs::ComponentItems::component_export))]
    fn read(&self, alloc: Global, c: &mut Cursor<'_>) -> Result<ComponentExport, Stop> {
        let name = ExternNames.read(alloc, c)?;
        let sort = SortReader.read(alloc, c)?;
        let index = U32.read(alloc, c)?;
        let desc = StatedDescReader.read(alloc, c)?;
        Ok(ComponentExport {
            name,
            sort,
            index,
            desc,
        })
    }
}
