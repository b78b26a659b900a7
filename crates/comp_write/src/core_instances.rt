//! Writers of core instances (Component Model, Binary.md, "Instance Definitions").

ghost use Rattle.wasm_format.specs.Format.{Format};
ghost use Rattle.comp_grammar.specs.CoreInstances.{core_sort, core_arg, core_export, core_instance};

use std::alloc::Global;
use virt_base::NoMemory;
use wasm_ast::{CoreArg, CoreExport, CoreInstance, CoreSort};
use wasm_format::{Names, U32, Vecs, Writer, put_byte};

/// The sorts of core exports.
#[derive(Clone, Copy)]
struct CoreSortWriter;

impl Writer for CoreSortWriter {
    type Value = CoreSort;

    ghost format = { λ _. core_sort };

    #[tactic(auto, unfolding(comp_grammar::specs::CoreInstances::core_sort))]
    fn write(&self, alloc: Global, out: &mut Vec<u8>, value: &CoreSort) -> Result<(), NoMemory> {
        match value {
            CoreSort::Func => put_byte(alloc, out, 0),
            CoreSort::Table => put_byte(alloc, out, 1),
            CoreSort::Memory => put_byte(alloc, out, 2),
            CoreSort::Global => put_byte(alloc, out, 3),
        }
    }
}

/// The core instances that meet a module's imports.
#[derive(Clone, Copy)]
struct CoreArgWriter;

impl Writer for CoreArgWriter {
    type Value = CoreArg;

    ghost format = { λ _. core_arg };

    #[tactic(auto, unfolding(comp_grammar::specs::CoreInstances::core_arg))]
    fn write(&self, alloc: Global, out: &mut Vec<u8>, value: &CoreArg) -> Result<(), NoMemory> {
        Names.write(alloc, out, &value.name)?;
        put_byte(alloc, out, 0x12)?;
        U32.write(alloc, out, &value.instance)
    }
}

/// The items of a core instance that is written out.
#[derive(Clone, Copy)]
struct CoreExportWriter;

impl Writer for CoreExportWriter {
    type Value = CoreExport;

    ghost format = { λ _. core_export };

    #[tactic(auto, unfolding(comp_grammar::specs::CoreInstances::core_export))]
    fn write(&self, alloc: Global, out: &mut Vec<u8>, value: &CoreExport) -> Result<(), NoMemory> {
        Names.write(alloc, out, &value.name)?;
        CoreSortWriter.write(alloc, out, &value.sort)?;
        U32.write(alloc, out, &value.index)
    }
}

/// Core instances.
#[derive(Clone, Copy)]
pub struct CoreInstanceWriter;

impl Writer for CoreInstanceWriter {
    type Value = CoreInstance;

    ghost format = { λ _. core_instance };

    #[tactic(auto, unfolding(comp_grammar::specs::CoreInstances::core_instance))]
    fn write(
        &self,
        alloc: Global,
        out: &mut Vec<u8>,
        value: &CoreInstance,
    ) -> Result<(), NoMemory> {
        match value {
            CoreInstance::Instantiate { module, args } => {
                put_byte(alloc, out, 0)?;
                U32.write(alloc, out, module)?;
                Vecs(CoreArgWriter).write(alloc, out, args)
            }
            CoreInstance::Inline { exports } => {
                put_byte(alloc, out, 1)?;
                Vecs(CoreExportWriter).write(alloc, out, exports)
            }
        }
    }
}
