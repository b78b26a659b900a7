//! Readers of core instances (Component Model, Binary.md, "Instance Definitions").

ghost use Rattle.std.specs.Prelude.{◌≡◌};
ghost use Rattle.virt_base.specs.Place.{place};
ghost use Rattle.wasm_format.specs.Format.{Format};
ghost use Rattle.wasm_format.specs.Reads.{Reads};
ghost use Rattle.comp_grammar.specs.CoreInstances.{core_sort, core_arg, core_export, core_instance};

use crate::externs::lacks;
use std::alloc::Global;
use virt_base::{Cursor, next_byte};
use wasm_ast::{CoreArg, CoreExport, CoreInstance, CoreSort};
use wasm_format::{Names, Reader, Stop, U32, Vecs, expect_tag};

/// Sorts of core exports.
#[derive(Clone, Copy)]
struct CoreSortReader;

impl Reader for CoreSortReader {
    type Value = CoreSort;

    ghost format = { λ _. core_sort };

    #[tactic(auto, unfolding(comp_grammar::specs::CoreInstances::core_sort))]
    fn read(&self, _alloc: Global, c: &mut Cursor<'_>) -> Result<CoreSort, Stop> {
        match next_byte(c) {
            None => Err(Stop::Malformed),
            Some(0) => Ok(CoreSort::Func),
            Some(1) => Ok(CoreSort::Table),
            Some(2) => Ok(CoreSort::Memory),
            Some(3) => Ok(CoreSort::Global),
            Some(byte) => Err(lacks(c, byte)),
        }
    }
}

/// Core instances that meet a module's imports.
#[derive(Clone, Copy)]
struct CoreArgReader;

impl Reader for CoreArgReader {
    type Value = CoreArg;

    ghost format = { λ _. core_arg };

    #[tactic(auto, unfolding(comp_grammar::specs::CoreInstances::core_arg))]
    fn read(&self, alloc: Global, c: &mut Cursor<'_>) -> Result<CoreArg, Stop> {
        let name = Names.read(alloc, c)?;
        expect_tag(c, 0x12)?;
        let instance = U32.read(alloc, c)?;
        Ok(CoreArg { name, instance })
    }
}

/// Items of core instances that are written out.
#[derive(Clone, Copy)]
struct CoreExportReader;

impl Reader for CoreExportReader {
    type Value = CoreExport;

    ghost format = { λ _. core_export };

    #[tactic(auto, unfolding(comp_grammar::specs::CoreInstances::core_export))]
    fn read(&self, alloc: Global, c: &mut Cursor<'_>) -> Result<CoreExport, Stop> {
        let name = Names.read(alloc, c)?;
        let sort = CoreSortReader.read(alloc, c)?;
        let index = U32.read(alloc, c)?;
        Ok(CoreExport { name, sort, index })
    }
}

/// Core instances.
#[derive(Clone, Copy)]
pub struct CoreInstanceReader;

impl Reader for CoreInstanceReader {
    type Value = CoreInstance;

    ghost format = { λ _. core_instance };

    #[tactic(auto, unfolding(comp_grammar::specs::CoreInstances::core_instance))]
    fn read(&self, alloc: Global, c: &mut Cursor<'_>) -> Result<CoreInstance, Stop> {
        match next_byte(c) {
            None => Err(Stop::Malformed),
            Some(0) => {
                let module = U32.read(alloc, c)?;
                let args = Vecs(CoreArgReader).read(alloc, c)?;
                Ok(CoreInstance::Instantiate { module, args })
            }
            Some(1) => {
                let exports = Vecs(CoreExportReader).read(alloc, c)?;
                Ok(CoreInstance::Inline { exports })
            }
            Some(byte) => Err(lacks(c, byte)),
        }
    }
}
