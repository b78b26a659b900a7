//! Writers of imports and exports, their names, and the types that they state (Component Model, Binary.md, "Import and Export
//! Definitions").

ghost use Rattle.std.specs.Prelude.{◌≡◌, ◌++◌, OnOk};
ghost use Rattle.wasm_format.specs.Format.{Format};
ghost use Rattle.wasm_ast.specs.ComponentItems.{extern_name, extern_desc, stated_desc, component_export};
ghost use Rattle.comp_grammar.specs.Items.{component_import};

use crate::instances::SortWriter;
use std::alloc::Global;
use virt_base::{NoMemory, Text};
use wasm_ast::{ComponentExport, ComponentImport, ExternDesc};
use wasm_format::{Names, U32, Writer, put_byte};

/// Names after a byte 00.
#[derive(Clone, Copy)]
pub struct ExternNameWriter;

impl Writer for ExternNameWriter {
    type Value = Text;

    ghost format = { λ _. extern_name };

    #[tactic(auto, unfolding(wasm_ast::specs::ComponentItems::extern_name))]
    fn write(&self, alloc: Global, out: &mut Vec<u8>, value: &Text) -> Result<(), NoMemory> {
        put_byte(alloc, out, 0)?;
        Names.write(alloc, out, value)
    }
}

/// What an export is, where it states that.
#[derive(Clone, Copy)]
pub struct DescWriter;

impl Writer for DescWriter {
    type Value = ExternDesc;

    ghost format = { λ _. extern_desc };

    #[tactic(auto, unfolding(wasm_ast::specs::ComponentItems::extern_desc, wasm_ast::specs::ComponentItems::type_bound))]
    fn write(&self, alloc: Global, out: &mut Vec<u8>, value: &ExternDesc) -> Result<(), NoMemory> {
        match value {
            ExternDesc::Func(ty) => {
                put_byte(alloc, out, 1)?;
                U32.write(alloc, out, ty)
            }
            ExternDesc::TypeEq(ty) => {
                put_byte(alloc, out, 3)?;
                put_byte(alloc, out, 0)?;
                U32.write(alloc, out, ty)
            }
            ExternDesc::Resource => {
                put_byte(alloc, out, 3)?;
                put_byte(alloc, out, 1)
            }
            ExternDesc::Instance(ty) => {
                put_byte(alloc, out, 5)?;
                U32.write(alloc, out, ty)
            }
        }
    }
}

#[tactic(auto, unfolding(wasm_ast::specs::ComponentItems::stated_desc))]
fn write_desc(alloc: Global, out: &mut Vec<u8>, desc: &Option<ExternDesc>) -> Result<(), NoMemory>
    requires { stated_desc.Fits desc.now }
    ensures { OnOk result (out.new.items ≡ out.old.items ++ stated_desc.write desc.now) }
{
    match desc {
        None => put_byte(alloc, out, 0),
        Some(desc) => {
            put_byte(alloc, out, 1)?;
            DescWriter.write(alloc, out, desc)
        }
    }
}

/// The exports of a component.
#[derive(Clone, Copy)]
pub struct ExportWriter;

impl Writer for ExportWriter {
    type Value = ComponentExport;

    ghost format = { λ _. component_export };

    #[tactic(auto, unfolding(wasm_ast::specs::ComponentItems::component_export))]
    fn write(
        &self,
        alloc: Global,
        out: &mut Vec<u8>,
        value: &ComponentExport,
    ) -> Result<(), NoMemory> {
        ExternNameWriter.write(alloc, out, &value.name)?;
        SortWriter.write(alloc, out, &value.sort)?;
        U32.write(alloc, out, &value.index)?;
        write_desc(alloc, out, &value.desc)
    }
}

/// The imports of a component.
#[derive(Clone, Copy)]
pub struct ImportWriter;

impl Writer for ImportWriter {
    type Value = ComponentImport;

    ghost format = { λ _. component_import };

    #[tactic(auto, unfolding(comp_grammar::specs::Items::component_import))]
    fn write(
        &self,
        alloc: Global,
        out: &mut Vec<u8>,
        value: &ComponentImport,
    ) -> Result<(), NoMemory> {
        ExternNameWriter.write(alloc, out, &value.name)?;
        DescWriter.write(alloc, out, &value.desc)
    }
}
