//! Writers of aliases (Component Model, Binary.md, "Alias Definitions"). Those in instance types are written in `type_items`.

ghost use Rattle.wasm_format.specs.Format.{Format};
ghost use Rattle.wasm_ast.specs.ComponentItems.{core_alias_format, type_alias_format, alias};

use std::alloc::Global;
use virt_base::NoMemory;
use wasm_ast::{Alias, CoreSort, OuterSort, Sort};
use wasm_format::{Names, U32, Writer, put_byte};

/// Aliases of sort 00: what a core instance exports, and outer core modules.
#[derive(Clone, Copy)]
struct CoreAliasWriter;

impl Writer for CoreAliasWriter {
    type Value = Alias;

    ghost format = { λ _. core_alias_format };

    #[tactic(auto, unfolding(wasm_ast::specs::ComponentItems::core_alias_format))]
    fn write(&self, alloc: Global, out: &mut Vec<u8>, value: &Alias) -> Result<(), NoMemory> {
        match value {
            Alias::CoreExport {
                sort,
                instance,
                name,
            } => {
                let tag = match sort {
                    CoreSort::Func => 0,
                    CoreSort::Table => 1,
                    CoreSort::Memory => 2,
                    CoreSort::Global => 3,
                };
                put_byte(alloc, out, tag)?;
                put_byte(alloc, out, 1)?;
                U32.write(alloc, out, instance)?;
                Names.write(alloc, out, name)
            }
            Alias::Outer { count, index, .. } => {
                put_byte(alloc, out, 0x11)?;
                put_byte(alloc, out, 2)?;
                U32.write(alloc, out, count)?;
                U32.write(alloc, out, index)
            }
            Alias::Export { .. } => unreachable!(),
        }
    }
}

/// Aliases.
#[derive(Clone, Copy)]
pub struct AliasWriter;

impl Writer for AliasWriter {
    type Value = Alias;

    ghost format = { λ _. alias };

    #[tactic(auto, unfolding(wasm_ast::specs::ComponentItems::alias, wasm_ast::specs::ComponentItems::type_alias_format))]
    fn write(&self, alloc: Global, out: &mut Vec<u8>, value: &Alias) -> Result<(), NoMemory> {
        match value {
            Alias::Export {
                sort,
                instance,
                name,
            } => {
                let tag = match sort {
                    Sort::Func => 1,
                    Sort::Type => 3,
                    Sort::Instance => 5,
                };
                put_byte(alloc, out, tag)?;
                put_byte(alloc, out, 0)?;
                U32.write(alloc, out, instance)?;
                Names.write(alloc, out, name)
            }
            Alias::CoreExport { .. } => {
                put_byte(alloc, out, 0)?;
                CoreAliasWriter.write(alloc, out, value)
            }
            Alias::Outer {
                sort: OuterSort::CoreModule,
                ..
            } => {
                put_byte(alloc, out, 0)?;
                CoreAliasWriter.write(alloc, out, value)
            }
            Alias::Outer {
                sort: OuterSort::Type,
                count,
                index,
            } => {
                put_byte(alloc, out, 3)?;
                put_byte(alloc, out, 2)?;
                U32.write(alloc, out, count)?;
                U32.write(alloc, out, index)
            }
            Alias::Outer {
                sort: OuterSort::Component,
                count,
                index,
            } => {
                put_byte(alloc, out, 4)?;
                put_byte(alloc, out, 2)?;
                U32.write(alloc, out, count)?;
                U32.write(alloc, out, index)
            }
        }
    }
}
