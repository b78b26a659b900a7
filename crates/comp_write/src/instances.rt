//! Writers of instances (Component Model, Binary.md, "Instance Definitions").

ghost use Rattle.wasm_format.specs.Format.{Format};
ghost use Rattle.wasm_ast.specs.ComponentItems.{sort, argument, inline_export, instance};

use crate::externs::ExternNameWriter;
use std::alloc::Global;
use virt_base::NoMemory;
use wasm_ast::{Instance, NamedItem, Sort};
use wasm_format::{Names, U32, Vecs, Writer, put_byte};

/// The sorts of arguments and exports.
#[derive(Clone, Copy)]
pub struct SortWriter;

impl Writer for SortWriter {
    type Value = Sort;

    ghost format = { λ _. sort };

    #[tactic(auto, unfolding(wasm_ast::specs::ComponentItems::sort))]
    fn write(&self, alloc: Global, out: &mut Vec<u8>, value: &Sort) -> Result<(), NoMemory> {
        match value {
            Sort::Func => put_byte(alloc, out, 1),
            Sort::Type => put_byte(alloc, out, 3),
            Sort::Instance => put_byte(alloc, out, 5),
        }
    }
}

/// The arguments of an instantiation.
#[derive(Clone, Copy)]
struct ArgumentWriter;

impl Writer for ArgumentWriter {
    type Value = NamedItem;

    ghost format = { λ _. argument };

    #[tactic(auto, unfolding(wasm_ast::specs::ComponentItems::argument))]
    fn write(&self, alloc: Global, out: &mut Vec<u8>, value: &NamedItem) -> Result<(), NoMemory> {
        Names.write(alloc, out, &value.name)?;
        SortWriter.write(alloc, out, &value.sort)?;
        U32.write(alloc, out, &value.index)
    }
}

/// The exports of an instance that is written out.
#[derive(Clone, Copy)]
struct InlineExportWriter;

impl Writer for InlineExportWriter {
    type Value = NamedItem;

    ghost format = { λ _. inline_export };

    #[tactic(auto, unfolding(wasm_ast::specs::ComponentItems::inline_export))]
    fn write(&self, alloc: Global, out: &mut Vec<u8>, value: &NamedItem) -> Result<(), NoMemory> {
        ExternNameWriter.write(alloc, out, &value.name)?;
        SortWriter.write(alloc, out, &value.sort)?;
        U32.write(alloc, out, &value.index)
    }
}

/// Instances.
#[derive(Clone, Copy)]
pub struct InstanceWriter;

impl Writer for InstanceWriter {
    type Value = Instance;

    ghost format = { λ _. instance };

    #[tactic(auto, unfolding(wasm_ast::specs::ComponentItems::instance))]
    fn write(&self, alloc: Global, out: &mut Vec<u8>, value: &Instance) -> Result<(), NoMemory> {
        match value {
            Instance::Instantiate { component, args } => {
                put_byte(alloc, out, 0)?;
                U32.write(alloc, out, component)?;
                Vecs(ArgumentWriter).write(alloc, out, args)
            }
            Instance::Inline { exports } => {
                put_byte(alloc, out, 1)?;
                Vecs(InlineExportWriter).write(alloc, out, exports)
            }
        }
    }
}
